// What a climb looks for.
ghost use Rattle.std.specs.Prelude.{◌≤◌};

use pending::Trial;
use refinement::Asked;

// The least X from a row's cost to its deadline that solves its equation on so many processors.
#[derive(Clone, Copy)]
pub struct Sought {
    pub own: u32,
    pub top: u32,
    pub processors: u32,
    pub ghost some_cost: { 1 ≤ own },
    pub ghost small: { top ≤ 1_000_000 },
    pub ghost few_processors: { processors ≤ 64 },
}

impl Sought {
    ghost use Rattle.std.specs.Prelude.{◌≡◌, ◌+◌, ◌-◌, ◌≤◌, ◌<◌};
    ghost use Rattle.refinement.specs.Asked.{sheet};

    // What a climb for a row looks for.
    pub fn of_row(asked: &Asked, row: u32) -> Self
        requires { row < (sheet asked.now).rows }
        ensures { (result.own ≡ (sheet asked.now).cost row) × (result.top ≡ (sheet asked.now).deadline row) × (result.processors ≡ asked.now.processors) }
    {
        Sought {
            own: asked.rows.cost(row),
            top: asked.rows.deadline(row),
            processors: asked.processors,
        }
    }

    // X as it is tried, with the most that any other row counts for at it: X - C + 1.
    pub fn at(&self, x: u32) -> Trial
        requires { (self.now.own ≤ x) × (x ≤ self.now.top) }
        ensures { (result.x ≡ x) × (result.cap ≡ x - self.now.own + 1) }
    {
        Trial {
            x,
            cap: x - self.own + 1,
        }
    }
}
