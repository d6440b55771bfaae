// The other rows of a turn in a list of their own: those that do not add their whole share at every X.
#![tactic(auto)]

mod kept;
mod space;
mod trial;

ghost use Rattle.std.specs.Prelude.{◌≡◌, ℕ, ◌+◌, ◌≤◌, ◌<◌, min};
ghost use Rattle.refinement.specs.Asked.{sheet};
ghost use Rattle.refinement.specs.Inner.{term_of, share_in, reach};
ghost use Rattle.refinement.specs.Inner.Kept.{KeptNumbers, term_from, top_from};

use bounded::Bounded;
use interference::{share_in_window, work_in_time};
pub use kept::Pending;
use refinement::Other;
pub use space::Space;
pub use trial::Trial;

// What other rows add at X, and what that comes to for certain, one a step each.
#[derive(Clone, Copy)]
pub struct Rise {
    pub term: u32,
    pub top: u32,
}

// What a period brings for certain: its cost. Where the cost fills the period a job is always there, and all of the share comes.
#[tactic(auto, using(std::proofs::lemmas::Bool::Decides::nat_tests), unfolding(refinement::specs::Inner::reach))]
pub fn rise_of(own: u32, period: u32, share: u32) -> u32
    ensures comes { (whole : ℕ) → min (whole + result) share ≡ reach own period whole share }
    ensures small { result ≤ own + share }
{
    if own == period { share } else { own }
}

// A row as a turn keeps it, with its share in a window.
pub fn other_row(given: &Bounded, place: u32, window: u32) -> Other
    requires { (place < (sheet given.now.asked).rows) × (window ≤ 1_000_000) }
    ensures known { KeptNumbers result }
    ensures adds { let s = sheet given.now.asked in ((x cap : ℕ) → term_from result x cap ≡ term_of s given.now.bounds.now (share_in s given.now.bounds.now window) x cap place) }
{
    let cost = given.cost(place);
    let period = given.period(place);
    let bound = given.bound(place);
    let share = share_in_window(cost, given.deadline(place), period, bound, window);
    let rise = rise_of(cost, period, share);
    Other {
        cost,
        period,
        ahead: bound - cost,
        share,
        rise,
    }
}

// What another row adds at X, and what that comes to for certain.
// `KeptNumbers` is asked for here and in `line` (jumps), and is no invariant of `Other`: that would be no plainer, since space
// with nothing in it is filled with rows of zeros, and would have to be filled with rows that cost something.
pub fn term_and_top(other: &Other, trial: Trial) -> Rise
    requires { KeptNumbers other.now }
    ensures adds { result.term ≡ term_from other.now trial.x trial.cap }
    ensures comes { result.top ≡ top_from other.now trial.x }
{
    let time = trial.x + other.ahead;
    let work = work_in_time(other.cost, other.period, time);
    let whole = time / other.period * other.cost;
    Rise {
        term: work.min(other.share.min(trial.cap)),
        top: (whole + other.rise).min(other.share),
    }
}
