// The rows' sizes, looked at row by row.
ghost use Rattle.std.specs.Prelude.{◌≡◌};
ghost use Rattle.rows.specs.Words.{first_outside};
ghost use Rattle.rows.specs.Checks.{rows_refusal};
ghost use Rattle.refusals.specs.Told.{said};
ghost use Rattle.columns.specs.Rows.{sheet_in};

use crate::Columns;
use refusals::Refusal;
use rows::row_allowed;

// 8 where a row is outside the sizes allowed.
// The same search as over words (rows, first_outside), which says why there are two.
pub fn check_sizes(rows: &Columns) -> Result<(), Refusal>
    ensures { said result ≡ rows_refusal (first_outside (sheet_in rows.now)) }
{
    let outside = |&row: &u32| !row_allowed(rows.cost(row), rows.deadline(row), rows.period(row));
    match (0..rows.count()).find(outside) {
        Some(row) => Err(Refusal::Sizes(row)),
        None => Ok(()),
    }
}
