// The two engines, each by the end that its definition gives.
ghost use Rattle.std.specs.Prelude.{◌≡◌, length};
ghost use Rattle.model.specs.Refine.{rounds, at_once};
ghost use Rattle.refinement.specs.Refinement.{Engine, EndsAlike};
ghost use Rattle.refinement.specs.Asked.{sheet, end_bounds, end_marks};
ghost use Rattle.refinement.proofs.Demands.{rounds_alike, at_once_alike};

use crate::{run_at_once, run_rounds};
use refinement::Asked;

// An engine, run from the deadlines to its end.
pub trait Engine {
    // What defines its final bounds, and that they are those of the rounds engine.
    ghost ends: { Engine };

    ghost alike: { EndsAlike ends };

    fn run(&self, asked: &Asked, bounds: &mut [u32]) -> u64
        requires { length bounds.old ≡ (sheet asked.now).rows }
        ensures seen { result ≡ end_marks Self.ends asked.now }
        ensures settled { bounds.new ≡ end_bounds Self.ends asked.now };
}

// Every row from the bounds at the start of the round.
#[derive(Clone, Copy)]
pub struct Rounds;

impl Engine for Rounds {
    ghost ends = { rounds };

    ghost alike = { rounds_alike };

    fn run(&self, asked: &Asked, bounds: &mut [u32]) -> u64 {
        run_rounds(asked, bounds)
    }
}

// Rows 0 upward, each new bound used immediately.
#[derive(Clone, Copy)]
pub struct AtOnce;

impl Engine for AtOnce {
    ghost ends = { at_once };

    ghost alike = { at_once_alike };

    fn run(&self, asked: &Asked, bounds: &mut [u32]) -> u64 {
        run_at_once(asked, bounds)
    }
}
