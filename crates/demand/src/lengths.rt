// The least length with demand above it, looked for from one deadline to the next, and no further than the busy length.
ghost use Rattle.std.specs.Prelude.{◌≡◌, ◌≤◌};
ghost use Rattle.model.specs.Demand.{busy_length, verdict};
ghost use Rattle.columns.specs.Checked.{checked_sheet};
ghost use Rattle.rows.specs.Words.{found_of};
ghost use Rattle.verdict.specs.OneProcessor.{outcome_of};
ghost use Rattle.verdict.specs.Inner.{without_miss};

use clear_lengths::{clear_up_to, look_at};
use columns::Checked;
use verdict::Outcome;

// What no miss up to the last length shows: a fit where there is a busy length, else nothing.
#[tactic(auto, unfolding(verdict::specs::Inner::without_miss))]
pub(crate) fn without_miss(busy: Option<u32>) -> Outcome
    ensures { result ≡ without_miss busy }
{
    match busy {
        Some(length) => Outcome::Fits(length),
        None => Outcome::Undecided,
    }
}

// What the horizon shows, given the busy length within it. The lengths up to the first that backward steps leave open are clear; behind
// it each length looked at is a deadline of some row, and none lies behind the busy length, or else the horizon.
pub(crate) fn outcome_within(checked: Checked, horizon: u32, busy: Option<u32>) -> Outcome
    requires allowed { (1 ≤ horizon) × (horizon ≤ 16_777_216) }
    requires climbed { busy ≡ found_of (busy_length (checked_sheet checked) horizon) }
    ensures { result ≡ outcome_of (verdict (checked_sheet checked.entry) horizon) }
{
    let last = busy.unwrap_or(horizon);
    let mut length = clear_up_to(checked, last) + 1;
    while length <= last {
        let mut sum = 0;
        let mut next = last + 1;
        for row in 0..checked.rows.count() {
            let look = look_at(checked, row, length);
            sum += look.demand;
            if length < sum {
                return Outcome::Miss(length);
            }
            next = next.min(look.next);
        }
        length = next;
    }
    without_miss(busy)
}
