// The two engines, which repeat passes until one changes nothing.
#![tactic(auto)]

mod engine;

ghost use Rattle.std.specs.Prelude.{◌≡◌, length};
ghost use Rattle.model.specs.Refine.{round, rounds, at_once};
ghost use Rattle.refinement.specs.Asked.{sheet, ask, end_bounds, end_marks, Underway};
ghost use Rattle.refinement.specs.Inner.{AfterPass};

use bounded::Bounded;
pub use engine::{AtOnce, Engine, Rounds};
use pending::Space;
use ray::{Drops, hasten, note_drops};
use refinement::Asked;
use turns::{fill_turns, sweep_rows};

// A round over the bounds themselves, by way of the space lent for it. It tells the marks where it changes no bound.
pub fn round_rows(asked: &Asked, bounds: &mut [u32], next: &mut [u32]) -> Option<u64>
    requires { Underway asked.now bounds.old × (length next.old ≡ (sheet asked.now).rows) }
    ensures told { let s = sheet asked.now in AfterPass s (ask asked.now) (round s (ask asked.now)) bounds.old bounds.new result }
    ensures kept { length next.new ≡ (sheet asked.now).rows }
{
    let given = Bounded {
        asked: *asked,
        bounds,
    };
    let seen = fill_turns(&given, next);
    if &*bounds == &*next {
        return Some(seen);
    }
    bounds.copy_from_slice(next);
    None
}

// The rounds engine: round after round, until one changes nothing; the marks are those of the last.
pub fn settle_rounds(asked: &Asked, bounds: &mut [u32], next: &mut [u32]) -> u64
    requires { Underway asked.now bounds.old × (length next.old ≡ (sheet asked.now).rows) }
    ensures seen { result ≡ end_marks rounds asked.now }
    ensures settled { bounds.new ≡ end_bounds rounds asked.now }
{
    loop {
        if let Some(seen) = round_rows(asked, bounds, next) {
            return seen;
        }
    }
}

// The at-once engine: sweep after sweep, until one changes nothing; the marks are those of the last. Between sweeps bounds may be lowered
// further, as far as turns allow it: the end is the same.
pub fn settle_at_once(
    asked: &Asked,
    bounds: &mut [u32],
    before: &mut [u32],
    space: &mut Space,
) -> u64
    requires { Underway asked.now bounds.old × (length before.old ≡ (sheet asked.now).rows) }
    ensures seen { result ≡ end_marks at_once asked.now }
    ensures settled { bounds.new ≡ end_bounds at_once asked.now }
{
    let mut drops = Drops { each: [0; 64] };
    let mut sweeps = 0;
    loop {
        if let Some(seen) = sweep_rows(asked, bounds, before, space) {
            return seen;
        }
        let given = Bounded {
            asked: *asked,
            bounds,
        };
        note_drops(&given, before, &mut drops, sweeps);
        sweeps = (sweeps + 1) % 8;
        hasten(asked, bounds, &mut drops, sweeps);
    }
}

// The rounds engine from its start: all bounds at the deadlines.
#[tactic(auto, unfolding(model::specs::Sheet::columns))]
pub fn run_rounds(asked: &Asked, bounds: &mut [u32]) -> u64
    requires { length bounds.old ≡ (sheet asked.now).rows }
    ensures seen { result ≡ end_marks rounds asked.now }
    ensures settled { bounds.new ≡ end_bounds rounds asked.now }
{
    bounds.copy_from_slice(asked.rows.deadlines);
    // An array and no Vec: no heap.
    let mut next = [0; 64];
    let end = bounds.len();
    settle_rounds(asked, bounds, &mut next[..end])
}

// The at-once engine from its start: all bounds at the deadlines.
#[tactic(auto, unfolding(model::specs::Sheet::columns))]
pub fn run_at_once(asked: &Asked, bounds: &mut [u32]) -> u64
    requires { length bounds.old ≡ (sheet asked.now).rows }
    ensures seen { result ≡ end_marks at_once asked.now }
    ensures settled { bounds.new ≡ end_bounds at_once asked.now }
{
    let deadlines = asked.rows.deadlines;
    let end = deadlines.len();
    // An array and no Vec: no heap.
    let mut before = [0; 64];
    bounds.copy_from_slice(deadlines);
    settle_at_once(asked, bounds, &mut before[..end], &mut Space::new())
}
