// The one-row question, of rows in either layout.
ghost use Rattle.std.specs.Prelude.{◌≡◌};
ghost use Rattle.columns.specs.Rows.{lent};
ghost use Rattle.rows.specs.Layouts.{in_columns};
ghost use Rattle.refinement.specs.Question.{one_row_in, one_row};
ghost use Rattle.refinement.specs.Told.{row_said};

use crate::checks::check_question;
use columns::Columns;
use layout::{Apart, lent_columns};
use refusals::Refusal;
use turns::answer_quickly;

// Behind the checks of the rows' shape.
// The method is a number up to here, where check 5 is made: a Method would ask more of whoever calls an entry.
fn answered(
    rows: &Columns,
    processors: u32,
    method: u32,
    bounds: &[u32],
    row: u32,
) -> Result<Option<u32>, Refusal>
    ensures { row_said result ≡ one_row_in (lent rows.now) processors method bounds.now row }
{
    let given = check_question(rows, processors, method, bounds, row)?;
    Ok(answer_quickly(&given, row))
}

// One row's answer under given bounds, of rows in columns: the least response time that solves the equation (method 1), the formula's value (method 0), or none.
// Beside the entry on triples, and not one over both: C has a function for each, and so has each promise.
pub fn one_row_columns(
    costs: &[u32],
    deadlines: &[u32],
    periods: &[u32],
    processors: u32,
    method: u32,
    bounds: &[u32],
    row: u32,
) -> Result<Option<u32>, Refusal>
    ensures { row_said result ≡ one_row_in (in_columns costs.now deadlines.now periods.now) processors method bounds.now row }
{
    let rows = lent_columns(costs, deadlines, periods)?;
    answered(&rows, processors, method, bounds, row)
}

// The same of rows in triples, which are taken apart into columns.
pub fn one_row(
    words: &[u32],
    processors: u32,
    method: u32,
    bounds: &[u32],
    row: u32,
) -> Result<Option<u32>, Refusal>
    ensures { row_said result ≡ one_row words.now processors method bounds.now row }
{
    let mut apart = Apart::new();
    let rows = apart.columns(words)?;
    answered(&rows, processors, method, bounds, row)
}
