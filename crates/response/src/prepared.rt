// A row under question.
ghost use Rattle.refinement.specs.Asked.{Shared};

use crate::{sum_of_shares, sum_of_terms};
use bounded::Bounded;
use climb::climb;
use interference::fill_shares;

// A row under question, with the most that each other row takes of its time.
#[derive(Clone, Copy)]
pub struct Prepared<'a> {
    pub given: &'a Bounded<'a>,
    pub row: u32,
    pub taken: &'a [u32],
    pub ghost shared: { Shared given.now.asked given.now.bounds.now taken.now row },
}

impl<'a> Prepared<'a> {
    ghost use Rattle.std.specs.Prelude.{◌≡◌, ◌≤◌, ◌<◌, length};
    ghost use Rattle.model.specs.Interference.{rta_right};
    ghost use Rattle.model.specs.Answer.{bcl_answer, rta_answer};
    ghost use Rattle.rows.specs.Words.{found_of};
    ghost use Rattle.refinement.specs.Asked.{sheet};

    // Puts a row under question: what each other row takes is worked out in the space lent for it.
    pub fn of_row(given: &'a Bounded<'a>, row: u32, space: &'a mut [u32]) -> Self
        requires { let s = sheet given.now.asked in (row < s.rows) × (length space.old ≡ s.rows) }
        ensures { (result.given.now ≡ given.now) × (result.row ≡ row) }
    {
        fill_shares(given, row, space);
        Prepared {
            given,
            row,
            taken: space,
        }
    }

    // The right side of the RTA equation at X.
    pub fn right_side(&self, x: u32) -> u32
        requires { let s = sheet self.now.given.now.asked in (s.cost self.now.row ≤ x) × (x ≤ s.deadline self.now.row) }
        ensures { let given = self.now.given.now in result ≡ rta_right (sheet given.asked) given.asked.processors self.now.row given.bounds.now x }
    {
        let given = self.given;
        let own = given.cost(self.row);
        own + sum_of_terms(given, self.taken, x, x - own + 1) / given.asked.processors
    }

    // RTA: climbs from the cost to the least X that is its own right side, and gives up above the deadline.
    pub fn rta_row(&self) -> Option<u32>
        ensures { let given = self.now.given.now in result ≡ found_of (rta_answer (sheet given.asked) given.asked.processors self.now.row given.bounds.now) }
    {
        climb(
            |x| self.right_side(x),
            self.given.cost(self.row),
            self.given.deadline(self.row),
        )
    }

    // BCL: the formula's value, if it meets the deadline.
    pub fn bcl_row(&self) -> Option<u32>
        ensures { let given = self.now.given.now in result ≡ found_of (bcl_answer (sheet given.asked) given.asked.processors self.now.row given.bounds.now) }
    {
        let given = self.given;
        let value = given.cost(self.row) + sum_of_shares(self.taken) / given.asked.processors;
        (value <= given.deadline(self.row)).then_some(value)
    }
}
