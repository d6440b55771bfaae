// A whole sheet refined by either engine, of rows in either layout.
ghost use Rattle.std.specs.Prelude.{◌≡◌, IfOk, length};
ghost use Rattle.columns.specs.Rows.{sheet_in, lent};
ghost use Rattle.rows.specs.Layouts.{in_columns};
ghost use Rattle.refusals.specs.Told.{said};
ghost use Rattle.refinement.specs.Refinement.{refine_refusal_of, refined_in, refined_words_in, refined, refined_words};
ghost use Rattle.refinement.specs.Asked.{AskedOf};
ghost use Rattle.refinement.specs.Told.{marks_said};

use columns::{Columns, check_sizes};
use engines::Engine;
use layout::{Apart, lent_columns};
use refinement::Asked;
use refusals::Refusal;
use rows::Method;
use table::{check_processors, check_room};

// What a refinement asks of the rows, with its checks in number order: 4, 5, 7, 8.
// The method is a number up to here, where check 5 is made: a Method would ask more of whoever calls an entry.
pub fn check_refinement<'a>(
    rows: &Columns<'a>,
    processors: u32,
    method: u32,
    room: usize,
    need: usize,
) -> Result<Asked<'a>, Refusal>
    ensures refused { said result ≡ refine_refusal_of (lent rows.now).broken (sheet_in rows.now) processors method room need }
    ensures asked { IfOk result (AskedOf rows.now processors method) }
{
    check_processors(processors)?;
    let method = Method::try_from(method)?;
    check_room(room, need)?;
    check_sizes(rows)?;
    Ok(Asked {
        rows: *rows,
        processors,
        method,
    })
}

// Behind the checks of the rows' shape.
fn refined<E: Engine>(
    engine: &E,
    rows: &Columns,
    processors: u32,
    method: u32,
    bounds: &mut [u32],
) -> Result<u64, Refusal>
    ensures answered { marks_said result ≡ refined_in E.ends (lent rows.now) processors method (length bounds.old) }
    ensures written { bounds.new ≡ refined_words_in E.ends (lent rows.now) processors method bounds.old }
{
    let need = rows.costs.len();
    let asked = check_refinement(rows, processors, method, bounds.len(), need)?;
    Ok(engine.run(&asked, &mut bounds[..need]))
}

// The whole sheet refined, of rows in columns: the final bounds are written to the front of the lent words, and the marks returned.
// Beside the entry on triples, and not one over both: C has a function for each, and so has each promise.
pub fn refine_columns<E: Engine>(
    engine: &E,
    costs: &[u32],
    deadlines: &[u32],
    periods: &[u32],
    processors: u32,
    method: u32,
    bounds: &mut [u32],
) -> Result<u64, Refusal>
    ensures answered { marks_said result ≡ refined_in E.ends (in_columns costs.now deadlines.now periods.now) processors method (length bounds.old) }
    ensures written { bounds.new ≡ refined_words_in E.ends (in_columns costs.now deadlines.now periods.now) processors method bounds.old }
{
    let rows = lent_columns(costs, deadlines, periods)?;
    refined(engine, &rows, processors, method, bounds)
}

// The same of rows in triples, which are taken apart into columns.
pub fn refine<E: Engine>(
    engine: &E,
    words: &[u32],
    processors: u32,
    method: u32,
    bounds: &mut [u32],
) -> Result<u64, Refusal>
    ensures answered { marks_said result ≡ refined E.ends words.now processors method (length bounds.old) }
    ensures written { bounds.new ≡ refined_words E.ends words.now processors method bounds.old }
{
    let mut apart = Apart::new();
    let rows = apart.columns(words)?;
    refined(engine, &rows, processors, method, bounds)
}
