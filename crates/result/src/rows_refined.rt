// The result sheet of rows in either layout: marks and bounds are worked out by the refinement.
ghost use Rattle.std.specs.Prelude.{◌≡◌, length};
ghost use Rattle.columns.specs.Rows.{lent};
ghost use Rattle.rows.specs.Layouts.{in_columns};
ghost use Rattle.rows.specs.Methods.{method_number};
ghost use Rattle.refinement.specs.Asked.{sheet};
ghost use Rattle.grammar.specs.Told.{written_said};
ghost use Rattle.report.specs.Lines.{result_length};
ghost use Rattle.report.specs.Result.{result_of, write_result_in, result_after_in, write_result, result_after};

use crate::lines;
use analysis::{AtOnce, Engine, check_refinement};
use columns::Columns;
use layout::{Apart, lent_columns};
use refinement::Asked;
use refusals::Refusal;

// Refines the rows at once, and writes their result sheet.
fn put_refined(asked: &Asked, out: &mut [u8])
    requires { length out.old ≡ result_length (sheet asked.now).rows }
    ensures { out.new ≡ result_of (sheet asked.now) asked.now.processors (method_number asked.now.method) }
{
    // An array and no Vec: no heap.
    let mut space = [0u32; 64];
    let bounds = &mut space[..asked.rows.costs.len()];
    let marks = AtOnce.run(asked, bounds);
    lines::put_result(marks, bounds, out);
}

// Behind the checks of the rows' shape: the bytes written.
// The method is a number up to here, where check 5 is made: a Method would ask more of whoever calls an entry.
fn written(rows: &Columns, processors: u32, method: u32, out: &mut [u8]) -> Result<u32, Refusal>
    ensures value { written_said result ≡ write_result_in (lent rows.now) processors method (length out.old) }
    ensures out_after { out.new ≡ result_after_in (lent rows.now) processors method out.old }
{
    let length = lines::HEAD + lines::LINE * rows.costs.len();
    let asked = check_refinement(rows, processors, method, out.len(), length)?;
    put_refined(&asked, &mut out[..length]);
    Ok(length as u32)
}

// Writes the result sheet of rows in columns, and gives its length.
// Beside the entry on triples, and not one over both: C has a function for each, and so has each promise.
pub fn write_result_columns(
    costs: &[u32],
    deadlines: &[u32],
    periods: &[u32],
    processors: u32,
    method: u32,
    out: &mut [u8],
) -> Result<u32, Refusal>
    ensures value { written_said result ≡ write_result_in (in_columns costs.now deadlines.now periods.now) processors method (length out.old) }
    ensures out_after { out.new ≡ result_after_in (in_columns costs.now deadlines.now periods.now) processors method out.old }
{
    let rows = lent_columns(costs, deadlines, periods)?;
    written(&rows, processors, method, out)
}

// The same of rows in triples, which are taken apart into columns.
pub fn write_result(
    words: &[u32],
    processors: u32,
    method: u32,
    out: &mut [u8],
) -> Result<u32, Refusal>
    ensures value { written_said result ≡ write_result words.now processors method (length out.old) }
    ensures out_after { out.new ≡ result_after words.now processors method out.old }
{
    let mut apart = Apart::new();
    let rows = apart.columns(words)?;
    written(&rows, processors, method, out)
}
