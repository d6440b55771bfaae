// Answers that hold an enum, in numbers alone.
ghost use Rattle.std.specs.Prelude.{◌≡◌};
ghost use Rattle.refinement.specs.Told.{row_said};
ghost use Rattle.verdict.specs.OneProcessor.{outcome_number, outcome_value};
ghost use Rattle.verdict.specs.Told.{outcome_said};
ghost use Rattle.quick_look.specs.DensityTest.{reply_number};
ghost use Rattle.quick_look.specs.Told.{reply_said};
ghost use Rattle.board.specs.Face.{row_in_numbers, outcome_in_numbers, density_in_numbers};

use crate::{DensityNumbers, OutcomeNumbers, RowNumbers};
use quick_look::Reply;
use refusals::Refusal;
use verdict::Outcome;

// Undecided is 0, a miss 1, fits 2.
// A number for a case: C is given it.
pub(crate) fn outcome_number(outcome: Outcome) -> u32
    ensures { result ≡ outcome_number outcome }
{
    match outcome {
        Outcome::Undecided => 0,
        Outcome::Miss(_) => 1,
        Outcome::Fits(_) => 2,
    }
}

// The length that misses or the busy length; undecided has none, which is 0.
// A number for a case: C is given it.
pub(crate) fn outcome_value(outcome: Outcome) -> u32
    ensures { result ≡ outcome_value outcome }
{
    match outcome {
        Outcome::Undecided => 0,
        Outcome::Miss(length) => length,
        Outcome::Fits(length) => length,
    }
}

// Unsure is 0, yes 1, no 2.
// A number for a case: C is given it.
pub(crate) fn reply_number(reply: Reply) -> u32
    ensures { result ≡ reply_number reply }
{
    match reply {
        Reply::Unsure => 0,
        Reply::Yes => 1,
        Reply::No => 2,
    }
}

impl From<Result<Option<u32>, Refusal>> for RowNumbers {
    ghost from_gives = { λ answer numbers. numbers ≡ row_in_numbers (row_said answer) };

    // The answer to the one-row question in numbers.
    fn from(answer: Result<Option<u32>, Refusal>) -> Self {
        match answer {
            Ok(bound) => RowNumbers {
                refusal: 0,
                place: 0,
                bound: bound.unwrap_or(0),
            },
            Err(why) => RowNumbers {
                refusal: why.number(),
                place: why.place(),
                bound: 0,
            },
        }
    }
}

impl From<Result<Outcome, Refusal>> for OutcomeNumbers {
    ghost from_gives = { λ answer numbers. numbers ≡ outcome_in_numbers (outcome_said answer) };

    // The answer of the exact test in numbers.
    fn from(answer: Result<Outcome, Refusal>) -> Self {
        match answer {
            Ok(outcome) => OutcomeNumbers {
                refusal: 0,
                place: 0,
                outcome: outcome_number(outcome),
                length: outcome_value(outcome),
            },
            Err(why) => OutcomeNumbers {
                refusal: why.number(),
                place: why.place(),
                outcome: 0,
                length: 0,
            },
        }
    }
}

impl From<Result<Reply, Refusal>> for DensityNumbers {
    ghost from_gives = { λ answer numbers. numbers ≡ density_in_numbers (reply_said answer) };

    // The answer of the density test in numbers.
    fn from(answer: Result<Reply, Refusal>) -> Self {
        match answer {
            Ok(reply) => DensityNumbers {
                refusal: 0,
                place: 0,
                answer: reply_number(reply),
            },
            Err(why) => DensityNumbers {
                refusal: why.number(),
                place: why.place(),
                answer: 0,
            },
        }
    }
}
