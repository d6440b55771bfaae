// What other rows take of a row's time.
#![tactic(auto)]

ghost use Rattle.std.specs.Prelude.{◌≡◌, ◌+◌, ◌-◌, ◌≤◌, ◌<◌, length};
ghost use Rattle.model.specs.Interference.{share, carried, bcl_term};
ghost use Rattle.refinement.specs.Asked.{sheet};
ghost use Rattle.refinement.specs.Inner.{WindowOf, shares};

use bounded::Bounded;

// The demand share of a row in a deadline window. Of the rest of the window behind whole periods it takes what lies between the slack and
// the slack and the cost: a difference of two minima, in which nothing is to be guessed by the processor.
pub fn share_in_window(cost: u32, deadline: u32, period: u32, bound: u32, window: u32) -> u32
    requires { (cost ≤ period) × (1 ≤ period) × (period ≤ 1_000_000) × (window ≤ 1_000_000) × (deadline ≤ 1_000_000) }
    ensures { result ≡ share cost deadline period bound window }
{
    let rest = window % period;
    let slack = deadline.saturating_sub(bound);
    window / period * cost + (rest.min(slack + cost) - rest.min(slack))
}

// The work of a row in a time that is counted from its cost before the window's start.
pub fn work_in_time(cost: u32, period: u32, time: u32) -> u32
    requires { (cost ≤ period) × (1 ≤ period) × (period ≤ 1_000_000) × (time ≤ 2_000_000) }
    ensures { result ≡ carried cost period time }
{
    time / period * cost + cost.min(time % period)
}

// The most that another row takes of the time before a row's deadline: its share, and no more than D - C + 1.
pub fn capped_share(given: &Bounded, row: u32, other: u32, window: u32, cap: u32) -> u32
    requires { let s = sheet given.now.asked in (row < s.rows) × (other < s.rows) × WindowOf s row window cap }
    ensures { result ≡ bcl_term (sheet given.now.asked) row given.now.bounds.now other }
{
    let share = share_in_window(
        given.cost(other),
        given.deadline(other),
        given.period(other),
        given.bound(other),
        window,
    );
    share.min(cap)
}

// Fills in what each other row takes at most, and 0 for the row itself, which is left out by its place: worked out once a turn, whatever X is
// tried.
pub fn fill_shares(given: &Bounded, row: u32, out: &mut [u32])
    requires { let s = sheet given.now.asked in (row < s.rows) × (length out.old ≡ s.rows) }
    ensures { out.new ≡ shares (sheet given.now.asked) row given.now.bounds.now }
{
    let window = given.deadline(row);
    let cap = window - given.cost(row) + 1;
    for other in 0..given.count() {
        out[other as usize] = capped_share(given, row, other, window, cap);
    }
    out[row as usize] = 0;
}
