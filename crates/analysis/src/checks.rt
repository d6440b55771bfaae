// The checks of the one-row question, behind those of the rows' shape.
ghost use Rattle.std.specs.Prelude.{◌≡◌, ◌<◌, IfOk, length};
ghost use Rattle.laws.specs.Bits.{every};
ghost use Rattle.columns.specs.Rows.{sheet_in, lent};
ghost use Rattle.refusals.specs.Told.{said};
ghost use Rattle.refinement.specs.Question.{bound_allowed, question_allowed, one_row_refusal_of};
ghost use Rattle.refinement.specs.Asked.{AskedOf};

use bounded::Bounded;
use columns::{Columns, check_sizes};
use refinement::Asked;
use refusals::Refusal;
use rows::Method;
use table::check_processors;

// Whether the bound of a row lies from its cost to its deadline.
#[tactic(auto, using(std::proofs::lemmas::Bool::Decides::nat_tests), unfolding(refinement::specs::Question::bound_allowed))]
pub(crate) fn bound_allowed(rows: &Columns, bounds: &[u32], row: u32) -> bool
    requires { (row < length bounds.now) × (row < (sheet_in rows.now).rows) }
    ensures { result ≡ bound_allowed (sheet_in rows.now) bounds.now row }
{
    let bound = bounds[row as usize];
    rows.cost(row) <= bound && bound <= rows.deadline(row)
}

// Whether each of the bounds lies from its row's cost to its deadline.
pub(crate) fn bounds_allowed(rows: &Columns, bounds: &[u32]) -> bool
    requires { length bounds.now ≡ (sheet_in rows.now).rows }
    ensures { result ≡ every (bound_allowed (sheet_in rows.now) bounds.now) (sheet_in rows.now).rows }
{
    (0..rows.count()).all(|row| bound_allowed(rows, bounds, row))
}

// Whether the row number and the bounds fit the sheet.
#[tactic(auto, using(std::proofs::lemmas::Bool::Decides::nat_tests), unfolding(refinement::specs::Question::question_allowed))]
pub(crate) fn question_allowed(rows: &Columns, bounds: &[u32], row: u32) -> bool
    ensures { result ≡ question_allowed (sheet_in rows.now) bounds.now row }
{
    if rows.count() <= row {
        return false;
    }
    if bounds.len() != rows.count() as usize {
        return false;
    }
    bounds_allowed(rows, bounds)
}

// What a question asks of the rows under its bounds, with its checks in number order: 4, 5, 8, 9.
// The method is a number up to here, where check 5 is made: a Method would ask more of whoever calls an entry.
pub(crate) fn check_question<'a>(
    rows: &Columns<'a>,
    processors: u32,
    method: u32,
    bounds: &'a [u32],
    row: u32,
) -> Result<Bounded<'a>, Refusal>
    ensures refused { said result ≡ one_row_refusal_of (lent rows.now).broken (sheet_in rows.now) processors method bounds.now row }
    ensures asked { IfOk result (λ given. AskedOf rows.now processors method given.asked × (given.bounds.now ≡ bounds.now)) }
{
    check_processors(processors)?;
    let method = Method::try_from(method)?;
    check_sizes(rows)?;
    if !question_allowed(rows, bounds, row) {
        return Err(Refusal::Question);
    }
    let asked = Asked {
        rows: *rows,
        processors,
        method,
    };
    Ok(Bounded { asked, bounds })
}
