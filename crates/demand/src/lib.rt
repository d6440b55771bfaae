// The exact test for one processor, on rows in either layout.
#![tactic(auto)]

mod busy;
mod lengths;

ghost use Rattle.std.specs.Prelude.{◌≡◌};
ghost use Rattle.columns.specs.Rows.{lent};
ghost use Rattle.rows.specs.Layouts.{in_columns};
ghost use Rattle.refusals.specs.Refusals.{refused};
ghost use Rattle.refusals.specs.Told.{said};
ghost use Rattle.verdict.specs.OneProcessor.{horizon_refusal, one_processor_in, one_processor};
ghost use Rattle.verdict.specs.Told.{outcome_said};

use busy::busy_length;
use columns::{Checked, Columns};
use layout::{Apart, lent_columns};
use lengths::outcome_within;
use refusals::Refusal;
use table::check_range;
use verdict::Outcome;

// 6 where the horizon is 0 or above 16,777,216.
#[tactic(auto, using(std::proofs::lemmas::Bool::Decides::nat_tests), unfolding(rows::specs::Checks::range_refusal, verdict::specs::OneProcessor::horizon_refusal, model::specs::Sheet::horizon_allowed))]
pub fn check_horizon(horizon: u32) -> Result<(), Refusal>
    ensures { said result ≡ refused (horizon_refusal horizon) 0 }
{
    check_range(horizon, 16_777_216, Refusal::Limit)
}

// Behind the checks of the rows' shape, with the other checks in number order: 6, 8.
fn tested(rows: &Columns, horizon: u32) -> Result<Outcome, Refusal>
    ensures { outcome_said result ≡ one_processor_in (lent rows.now) horizon }
{
    check_horizon(horizon)?;
    let checked = Checked::try_from(rows)?;
    let busy = busy_length(checked, horizon);
    Ok(outcome_within(checked, horizon, busy))
}

// Whether the rows in columns fit on one processor, as far as the horizon shows.
// Beside the entry on triples, and not one over both: C has a function for each, and so has each promise.
pub fn one_processor_columns(
    costs: &[u32],
    deadlines: &[u32],
    periods: &[u32],
    horizon: u32,
) -> Result<Outcome, Refusal>
    ensures { outcome_said result ≡ one_processor_in (in_columns costs.now deadlines.now periods.now) horizon }
{
    let rows = lent_columns(costs, deadlines, periods)?;
    tested(&rows, horizon)
}

// The same of rows in triples, which are taken apart into columns.
pub fn one_processor(words: &[u32], horizon: u32) -> Result<Outcome, Refusal>
    ensures { outcome_said result ≡ one_processor words.now horizon }
{
    let mut apart = Apart::new();
    let rows = apart.columns(words)?;
    tested(&rows, horizon)
}
