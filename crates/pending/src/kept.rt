// The other rows of a turn that are kept, and what is settled for the rest.
ghost use Rattle.refinement.specs.Inner.Kept.{Kept};

use crate::{Rise, Trial, other_row, term_and_top};
use bounded::Bounded;
use refinement::Other;

// The rows kept, in front, how many they are, and what the others add: their whole share.
// An array and no Vec: no heap.
#[derive(Clone, Copy)]
pub struct Pending {
    pub others: [Other; 64],
    pub left: u32,
    pub settled: u32,
    pub ghost kept: { Kept others left settled },
}

impl Pending {
    ghost use Rattle.std.specs.Prelude.{◌≡◌, ℕ, ◌+◌, ◌*◌, ◌-◌, ◌≤◌, ◌<◌, length, ◌++◌, drop};
    ghost use Rattle.laws.specs.Sum.{total};
    ghost use Rattle.laws.specs.Fill.{listed};
    ghost use Rattle.refinement.specs.Asked.{sheet};
    ghost use Rattle.refinement.specs.Inner.{term_of, share_in};
    ghost use Rattle.refinement.specs.Inner.Kept.{room_at};
    ghost use Rattle.pending.specs.Added.{most, added, MetBy};

    // Takes in the row at a place. A share of 0 or 1 is added whole at every X: it is settled at once.
    fn take_in(&mut self, given: &Bounded, place: u32, window: u32)
        requires { (place < (sheet given.now.asked).rows) × (window ≤ 1_000_000) × (most self.old ≤ 63_000_000) }
        ensures small { most self.new ≤ most self.old + 1_000_000 }
        ensures sums { let s = sheet given.now.asked in let R = given.now.bounds.now in ((x cap : ℕ) → 1 ≤ x → 1 ≤ cap → added self.new x cap ≡ added self.old x cap + term_of s R (share_in s R window) x cap place) }
    {
        let other = other_row(given, place, window);
        self.others[self.left as usize] = other;
        if 1 < other.share {
            self.left += 1;
        } else {
            self.settled += other.share;
        }
    }

    // Takes in the rows of a stretch of places.
    pub fn meet(&mut self, given: &Bounded, from: u32, to: u32, window: u32)
        requires { (from ≤ to) × (to ≤ (sheet given.now.asked).rows) × (window ≤ 1_000_000) × (most self.old ≤ from * 1_000_000) }
        ensures small { most self.new ≤ to * 1_000_000 }
        ensures sums { let s = sheet given.now.asked in let R = given.now.bounds.now in ((x cap : ℕ) → 1 ≤ x → 1 ≤ cap → added self.new x cap + total (term_of s R (share_in s R window) x cap) from ≡ added self.old x cap + total (term_of s R (share_in s R window) x cap) to) }
    {
        for place in from..to {
            self.take_in(given, place, window);
        }
    }

    // Takes in every other row, which is told by its place, in place of what was kept before.
    pub fn meet_others(&mut self, given: &Bounded, row: u32)
        requires { row < (sheet given.now.asked).rows }
        ensures { let s = sheet given.now.asked in MetBy s given.now.bounds.now self.new row (s.cost row) }
    {
        let window = given.deadline(row);
        self.left = 0;
        self.settled = 0;
        self.meet(given, 0, row, window);
        self.meet(given, row + 1, given.count(), window);
    }

    // Leaves out the rows that add their whole share at X: they add no more above it. What is kept moves to the front.
    pub fn keep_pending(&mut self, trial: Trial)
        ensures fewer { self.new.left ≤ self.old.left }
        ensures sums { (d : ℕ) → added self.new (trial.x + d) (trial.cap + d) ≡ added self.old (trial.x + d) (trial.cap + d) }
    {
        let mut left = 0;
        let mut settled = self.settled;
        for place in 0..self.left {
            let other = self.others[place as usize];
            let here = term_and_top(&other, trial);
            self.others[left as usize] = other;
            if here.term < other.share {
                left += 1;
            } else {
                settled += other.share;
            }
        }
        self.left = left;
        self.settled = settled;
    }

    // What is settled and what the rows kept add at X, and what that comes to for certain; the room of each between the two is written to the
    // lent words.
    pub fn fill_rooms(&self, trial: Trial, room: &mut [u32]) -> Rise
        requires { self.now.left ≤ length room.old }
        ensures summed { result.term ≡ added self.now trial.x trial.cap }
        ensures filled { room.new ≡ listed (room_at self.now.others trial.x trial.cap) self.now.left ++ drop self.now.left room.old }
        ensures small { (result.term ≤ result.top) × (result.top ≤ 64_000_000) }
    {
        let mut term = self.settled;
        let mut top = self.settled;
        for place in 0..self.left {
            let here = term_and_top(&self.others[place as usize], trial);
            term += here.term;
            top += here.top;
            room[place as usize] = here.top - here.term;
        }
        Rise { term, top }
    }
}
