// A row along a ray.
ghost use Rattle.std.specs.Prelude.{◌≤◌};

use crate::{Line, falling, steps_within};
use interference::{share_in_window, work_in_time};

// A row along a ray: its sizes, its bound where the ray begins, and by how much that falls a step.
#[derive(Clone, Copy)]
pub struct Dropping {
    pub cost: u32,
    pub deadline: u32,
    pub period: u32,
    pub bound: u32,
    pub drop: u32,
    pub ghost sizes: { (1 ≤ period) × (cost ≤ period) × (period ≤ 1_000_000) × (deadline ≤ 1_000_000) },
    pub ghost in_range: { (cost ≤ bound) × (bound ≤ deadline) },
    pub ghost small: { drop ≤ 1_000_000 },
}

impl Dropping {
    ghost use Rattle.std.specs.Prelude.{ℕ, ◌*◌, ◌-◌, ◌<◌};
    ghost use Rattle.model.specs.Interference.{share, carried};
    ghost use Rattle.refinement.specs.Inner.Ray.{Lies};

    // The row's share along the ray: it falls with the row's bound while the window ends within the carried job.
    pub fn share_line(&self, window: u32, most: u32) -> Line
        requires { window ≤ 1_000_000 }
        ensures { let r = self.now in Lies (λ t. share r.cost r.deadline r.period (r.bound - t * r.drop) window) most result.value result.slope result.limit }
    {
        let carry = (window % self.period).saturating_sub(self.deadline - self.bound);
        let lasts = steps_within(carry, self.drop, self.cost);
        falling(
            share_in_window(self.cost, self.deadline, self.period, self.bound, window),
            0,
            self.drop,
            lasts,
            most,
        )
    }

    // The row's work along the ray, where its time shrinks by the same amount a step.
    pub fn work_line(&self, time: u32, shrink: u32, most: u32) -> Line
        requires { (time ≤ 2_000_000) × (shrink ≤ 2_000_000) × ((t : ℕ) → t < most → t * shrink ≤ time) }
        ensures { let r = self.now in Lies (λ t. carried r.cost r.period (time - t * shrink)) most result.value result.slope result.limit }
    {
        let rest = shrink % self.period;
        let lasts = steps_within(time % self.period, rest, self.cost);
        falling(
            work_in_time(self.cost, self.period, time),
            shrink / self.period * self.cost,
            rest,
            lasts,
            most,
        )
    }
}
