// A row's turn by the quicker way, and passes of turns over all rows.
#![tactic(auto)]

ghost use Rattle.std.specs.Prelude.{◌≡◌, ◌+◌, ◌<◌, ◌*◌, ◌^◌, length};
ghost use Rattle.laws.specs.Bits.{bit};
ghost use Rattle.model.specs.Refine.{round, sweep, marks};
ghost use Rattle.rows.specs.Words.{found_of};
ghost use Rattle.refinement.specs.Asked.{sheet, ask, Underway};
ghost use Rattle.refinement.specs.Inner.{is_found, AfterPass};

use bounded::Bounded;
use jumps::rta_quickly;
use pending::Space;
use refinement::Asked;
use response::{Prepared, answer_row};
use rows::Method;

// One row's bound by either method, RTA's by jumps, with space for the other rows and for what each of them takes.
#[tactic(auto, unfolding(model::specs::Answer::answer, model::specs::Answer::method_of, refinement::specs::Refinement::ask_of))]
pub fn bound_quickly(given: &Bounded, row: u32, space: &mut Space) -> Option<u32>
    requires { row < (sheet given.now.asked).rows }
    ensures { result ≡ found_of (ask given.now.asked row given.now.bounds.now) }
{
    match given.asked.method {
        Method::Bcl => {
            let taken = &mut space.room[..given.bounds.len()];
            Prepared::of_row(given, row, taken).bcl_row()
        }
        Method::Rta => rta_quickly(given, row, space),
    }
}

// One row's answer by either method, RTA's by jumps.
pub fn answer_quickly(given: &Bounded, row: u32) -> Option<u32>
    requires { row < (sheet given.now.asked).rows }
    ensures { result ≡ found_of (ask given.now.asked row given.now.bounds.now) }
{
    bound_quickly(given, row, &mut Space::new())
}

// The marks with the next row's bit set where it has an answer.
pub fn with_mark(seen: u64, found: Option<u32>, row: u32) -> u64
    requires { (row < 64) × (seen < 2 ^ row) }
    ensures { result ≡ seen + bit (is_found found) * 2 ^ row }
{
    match found {
        Some(_) => seen | (1u64 << row),
        None => seen,
    }
}

// A round: every row's turn from the bounds at its start, and the marks under them.
pub fn fill_turns(given: &Bounded, next: &mut [u32]) -> u64
    requires { length next.old ≡ (sheet given.now.asked).rows }
    ensures seen { result ≡ marks (sheet given.now.asked) (ask given.now.asked) given.now.bounds.now }
    ensures turned { next.new ≡ round (sheet given.now.asked) (ask given.now.asked) given.now.bounds.now }
{
    let mut seen = 0;
    for row in 0..given.count() {
        let found = answer_row(given, row);
        seen = with_mark(seen, found, row);
        next[row as usize] = found.unwrap_or(given.deadline(row));
    }
    seen
}

// A sweep: rows 0 upward, each new bound used immediately, with space for what a turn works out of the other rows. It tells the marks where
// it changes no bound. Where each bound stood before is written down, and nothing is claimed by it.
pub fn sweep_rows(
    asked: &Asked,
    bounds: &mut [u32],
    before: &mut [u32],
    space: &mut Space,
) -> Option<u64>
    requires { Underway asked.now bounds.old × (length before.old ≡ (sheet asked.now).rows) }
    ensures { let s = sheet asked.now in AfterPass s (ask asked.now) (sweep s (ask asked.now) s.rows) bounds.old bounds.new result }
{
    before.copy_from_slice(bounds);
    let mut seen = 0;
    for row in 0..asked.rows.count() {
        let given = Bounded {
            asked: *asked,
            bounds,
        };
        let found = bound_quickly(&given, row, space);
        seen = with_mark(seen, found, row);
        bounds[row as usize] = found.unwrap_or(asked.rows.deadline(row));
    }
    if &*bounds == &*before {
        Some(seen)
    } else {
        None
    }
}
