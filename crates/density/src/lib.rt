// The density test, on rows in either layout.
#![tactic(auto)]

mod sides;

ghost use Rattle.std.specs.Prelude.{◌≡◌, ◌≤◌};
ghost use Rattle.model.specs.Density.{density};
ghost use Rattle.columns.specs.Rows.{lent};
ghost use Rattle.columns.specs.Checked.{checked_sheet};
ghost use Rattle.rows.specs.Layouts.{in_columns};
ghost use Rattle.quick_look.specs.DensityTest.{reply_of, density_in, density_test};
ghost use Rattle.quick_look.specs.Told.{reply_said};

use columns::{Checked, Columns};
use layout::{Apart, lent_columns};
use quick_look::Reply;
use refusals::Refusal;
use sides::{both_sides, left_side};
use table::check_processors;

// Yes where the densities rounded up meet the test, no where the densities rounded down do not, else unsure.
pub(crate) fn reply(checked: Checked, processors: u32) -> Reply
    requires { (1 ≤ processors) × (processors ≤ 64) }
    ensures { result ≡ reply_of (density (checked_sheet checked.entry) processors) }
{
    let both = both_sides(checked);
    let limit = u64::from(processors) * 1_000_000_000;
    if left_side(both.up, processors) <= limit {
        return Reply::Yes;
    }
    if limit < left_side(both.down, processors) {
        return Reply::No;
    }
    Reply::Unsure
}

// Behind the checks of the rows' shape, with the other checks in number order: 4, 8.
fn judged(rows: &Columns, processors: u32) -> Result<Reply, Refusal>
    ensures { reply_said result ≡ density_in (lent rows.now) processors }
{
    check_processors(processors)?;
    let checked = Checked::try_from(rows)?;
    Ok(reply(checked, processors))
}

// Whether the densities of rows in columns meet the test on so many processors.
// Beside the entry on triples, and not one over both: C has a function for each, and so has each promise.
pub fn density_columns(
    costs: &[u32],
    deadlines: &[u32],
    periods: &[u32],
    processors: u32,
) -> Result<Reply, Refusal>
    ensures { reply_said result ≡ density_in (in_columns costs.now deadlines.now periods.now) processors }
{
    let rows = lent_columns(costs, deadlines, periods)?;
    judged(&rows, processors)
}

// The same of rows in triples, which are taken apart into columns.
pub fn density(words: &[u32], processors: u32) -> Result<Reply, Refusal>
    ensures { reply_said result ≡ density_test words.now processors }
{
    let mut apart = Apart::new();
    let rows = apart.columns(words)?;
    judged(&rows, processors)
}
