// The one-row question and the two engines, on rows in lent columns, and the same on rows in triples.
#![tactic(auto)]

mod checks;
mod question;
mod whole;

ghost use Rattle.std.specs.Prelude.{◌≡◌};
ghost use Rattle.laws.specs.Bits.{is_set, every};

pub use engines::{AtOnce, Engine, Rounds};
use marks::all_marked;
pub use question::{one_row, one_row_columns};
pub use whole::{check_refinement, refine, refine_columns};

// Whether a sheet of so many rows is accepted: every row is marked. There is no mark past the 64th row.
pub fn accepted(marks: u64, rows: u32) -> bool
    ensures { result ≡ every (is_set marks) rows }
{
    if 64 < rows {
        return false;
    }
    all_marked(marks, rows)
}
