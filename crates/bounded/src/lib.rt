// What every turn works from.
#![tactic(auto)]

ghost use Rattle.refinement.specs.Question.{Ready};
ghost use Rattle.refinement.specs.Asked.{sheet};

use refinement::Asked;

// What is asked, with one bound for each row, from its cost to its deadline.
#[derive(Clone, Copy)]
pub struct Bounded<'a> {
    pub asked: Asked<'a>,
    pub bounds: &'a [u32],
    pub ghost ready: { Ready (sheet asked) bounds.now },
}

impl Bounded<'_> {
    ghost use Rattle.std.specs.Prelude.{◌≡◌, ◌<◌, get_or};
    ghost use Rattle.refinement.specs.Asked.{sheet};

    // How many rows there are.
    pub fn count(&self) -> u32
        ensures { result ≡ (sheet self.now.asked).rows }
    {
        self.asked.rows.count()
    }

    // The cost of the row at a place.
    pub fn cost(&self, row: u32) -> u32
        requires { row < (sheet self.now.asked).rows }
        ensures { result ≡ (sheet self.now.asked).cost row }
    {
        self.asked.rows.cost(row)
    }

    // The relative deadline of the row at a place.
    pub fn deadline(&self, row: u32) -> u32
        requires { row < (sheet self.now.asked).rows }
        ensures { result ≡ (sheet self.now.asked).deadline row }
    {
        self.asked.rows.deadline(row)
    }

    // The period of the row at a place.
    pub fn period(&self, row: u32) -> u32
        requires { row < (sheet self.now.asked).rows }
        ensures { result ≡ (sheet self.now.asked).period row }
    {
        self.asked.rows.period(row)
    }

    // The bound of the row at a place.
    pub fn bound(&self, row: u32) -> u32
        requires { row < (sheet self.now.asked).rows }
        ensures { result ≡ get_or self.now.bounds.now row 0 }
    {
        self.bounds[row as usize]
    }
}
