// The C face: one exported function for each public entry, on numbers and lent slices. Nothing is worked out here.
// Triples and columns, rounds and at once, the method by its number, three lists for a sheet: names and parameters that C has.
#![tactic(auto)]

mod cases;

ghost use Rattle.std.specs.Prelude.{◌≡◌, length};
ghost use Rattle.model.specs.Refine.{rounds, at_once};
ghost use Rattle.rows.specs.Layouts.{in_columns};
ghost use Rattle.refinement.specs.Question.{one_row_in, one_row};
ghost use Rattle.refinement.specs.Refinement.{refined_in, refined_words_in, refined, refined_words};
ghost use Rattle.verdict.specs.OneProcessor.{one_processor_in, one_processor};
ghost use Rattle.quick_look.specs.DensityTest.{density_in, density_test};
ghost use Rattle.grammar.specs.Sheets.{read_sheet, words_after, write_sheet, bytes_after};
ghost use Rattle.pieces.specs.Feeding.{fresh, fed};
ghost use Rattle.pieces.specs.Ending.{ended, words_after_end};
ghost use Rattle.report.specs.Result.{write_result_in, result_after_in, write_result, result_after, answer_sheet, answer_after};
ghost use Rattle.board.specs.Face.{row_in_numbers, outcome_in_numbers, density_in_numbers};

use analysis::{AtOnce, Rounds, one_row, one_row_columns, refine, refine_columns};
use cable::{end_sheet, feed_piece, start_sheet};
use demand::{one_processor, one_processor_columns};
use density::{density, density_columns};
use grammar::{Read, Written};
use pieces::Pieces;
use refinement::Refined;
use result::{answer_sheet, write_result, write_result_columns};
use sheet::{read_sheet, write_sheet};

// The answer to the one-row question in numbers: the bound is 0 where there is none.
// Numbers for the cases: C is given this.
#[repr(C)]
#[derive(Clone, Copy)]
pub struct RowNumbers {
    pub refusal: u32,
    pub place: u32,
    pub bound: u32,
}

// The answer of the exact test in numbers: outcome 0 is undecided, 1 a miss, 2 fits; the length is 0, the least that misses, or the busy length.
// Numbers for the cases: C is given this.
#[repr(C)]
#[derive(Clone, Copy)]
pub struct OutcomeNumbers {
    pub refusal: u32,
    pub place: u32,
    pub outcome: u32,
    pub length: u32,
}

// The answer of the density test in numbers: 0 is unsure, 1 yes, 2 no.
// Numbers for the cases: C is given this.
#[repr(C)]
#[derive(Clone, Copy)]
pub struct DensityNumbers {
    pub refusal: u32,
    pub place: u32,
    pub answer: u32,
}

// One row's answer under given bounds.
#[unsafe(no_mangle)]
pub extern "C" fn circuitrail_one_row(
    words: &[u32],
    processors: u32,
    method: u32,
    bounds: &[u32],
    row: u32,
) -> RowNumbers
    ensures { result ≡ row_in_numbers (one_row words.now processors method bounds.now row) }
{
    RowNumbers::from(one_row(words, processors, method, bounds, row))
}

// The same of rows in columns.
#[unsafe(no_mangle)]
pub extern "C" fn circuitrail_one_row_columns(
    costs: &[u32],
    deadlines: &[u32],
    periods: &[u32],
    processors: u32,
    method: u32,
    bounds: &[u32],
    row: u32,
) -> RowNumbers
    ensures { result ≡ row_in_numbers (one_row_in (in_columns costs.now deadlines.now periods.now) processors method bounds.now row) }
{
    RowNumbers::from(one_row_columns(costs, deadlines, periods, processors, method, bounds, row))
}

// The whole sheet refined by the rounds engine, its final bounds written to the front of the lent words.
#[unsafe(no_mangle)]
pub extern "C" fn circuitrail_refine_rounds(
    words: &[u32],
    processors: u32,
    method: u32,
    bounds: &mut [u32],
) -> Refined
    ensures answered { result ≡ refined rounds words.now processors method (length bounds.old) }
    ensures written { bounds.new ≡ refined_words rounds words.now processors method bounds.old }
{
    Refined::from(refine(&Rounds, words, processors, method, bounds))
}

// The same of rows in columns.
#[unsafe(no_mangle)]
pub extern "C" fn circuitrail_refine_rounds_columns(
    costs: &[u32],
    deadlines: &[u32],
    periods: &[u32],
    processors: u32,
    method: u32,
    bounds: &mut [u32],
) -> Refined
    ensures answered { result ≡ refined_in rounds (in_columns costs.now deadlines.now periods.now) processors method (length bounds.old) }
    ensures written { bounds.new ≡ refined_words_in rounds (in_columns costs.now deadlines.now periods.now) processors method bounds.old }
{
    Refined::from(refine_columns(
        &Rounds, costs, deadlines, periods, processors, method, bounds,
    ))
}

// The same by the at-once engine.
#[unsafe(no_mangle)]
pub extern "C" fn circuitrail_refine_at_once(
    words: &[u32],
    processors: u32,
    method: u32,
    bounds: &mut [u32],
) -> Refined
    ensures answered { result ≡ refined at_once words.now processors method (length bounds.old) }
    ensures written { bounds.new ≡ refined_words at_once words.now processors method bounds.old }
{
    Refined::from(refine(&AtOnce, words, processors, method, bounds))
}

// The same of rows in columns.
#[unsafe(no_mangle)]
pub extern "C" fn circuitrail_refine_at_once_columns(
    costs: &[u32],
    deadlines: &[u32],
    periods: &[u32],
    processors: u32,
    method: u32,
    bounds: &mut [u32],
) -> Refined
    ensures answered { result ≡ refined_in at_once (in_columns costs.now deadlines.now periods.now) processors method (length bounds.old) }
    ensures written { bounds.new ≡ refined_words_in at_once (in_columns costs.now deadlines.now periods.now) processors method bounds.old }
{
    Refined::from(refine_columns(
        &AtOnce, costs, deadlines, periods, processors, method, bounds,
    ))
}

// Whether the rows fit on one processor, as far as the horizon shows.
#[unsafe(no_mangle)]
pub extern "C" fn circuitrail_one_processor(words: &[u32], horizon: u32) -> OutcomeNumbers
    ensures { result ≡ outcome_in_numbers (one_processor words.now horizon) }
{
    OutcomeNumbers::from(one_processor(words, horizon))
}

// The same of rows in columns.
#[unsafe(no_mangle)]
pub extern "C" fn circuitrail_one_processor_columns(
    costs: &[u32],
    deadlines: &[u32],
    periods: &[u32],
    horizon: u32,
) -> OutcomeNumbers
    ensures { result ≡ outcome_in_numbers (one_processor_in (in_columns costs.now deadlines.now periods.now) horizon) }
{
    OutcomeNumbers::from(one_processor_columns(costs, deadlines, periods, horizon))
}

// Whether the densities of the rows meet the test.
#[unsafe(no_mangle)]
pub extern "C" fn circuitrail_density(words: &[u32], processors: u32) -> DensityNumbers
    ensures { result ≡ density_in_numbers (density_test words.now processors) }
{
    DensityNumbers::from(density(words, processors))
}

// The same of rows in columns.
#[unsafe(no_mangle)]
pub extern "C" fn circuitrail_density_columns(
    costs: &[u32],
    deadlines: &[u32],
    periods: &[u32],
    processors: u32,
) -> DensityNumbers
    ensures { result ≡ density_in_numbers (density_in (in_columns costs.now deadlines.now periods.now) processors) }
{
    DensityNumbers::from(density_columns(costs, deadlines, periods, processors))
}

// Reads a task sheet, its rows' words written to the front of the lent words.
#[unsafe(no_mangle)]
pub extern "C" fn circuitrail_read_sheet(bytes: &[u8], words: &mut [u32]) -> Read
    ensures answered { result ≡ read_sheet bytes.now (length words.old) }
    ensures written { words.new ≡ words_after bytes.now words.old }
{
    Read::from(read_sheet(bytes, words))
}

// The state of a sheet that comes in pieces, before the first of them.
#[unsafe(no_mangle)]
pub extern "C" fn circuitrail_pieces_start() -> Pieces
    ensures { result ≡ fresh }
{
    start_sheet()
}

// The state after a piece more.
#[unsafe(no_mangle)]
pub extern "C" fn circuitrail_pieces_feed(state: Pieces, bytes: &[u8]) -> Pieces
    ensures { result ≡ fed state bytes.now }
{
    let fed = feed_piece(state, bytes);
    fed.state
}

// The state after the end, its rows' words written to the front of the lent words.
#[unsafe(no_mangle)]
pub extern "C" fn circuitrail_pieces_end(state: Pieces, words: &mut [u32]) -> Pieces
    ensures answered { result ≡ ended state (length words.old) }
    ensures written { words.new ≡ words_after_end state words.old }
{
    let ended = end_sheet(state, words);
    ended.state
}

// Writes a task sheet to the front of the lent bytes.
#[unsafe(no_mangle)]
pub extern "C" fn circuitrail_write_sheet(words: &[u32], processors: u32, out: &mut [u8]) -> Written
    ensures answered { result ≡ write_sheet words.now processors (length out.old) }
    ensures written { out.new ≡ bytes_after words.now processors out.old }
{
    Written::from(write_sheet(words, processors, out))
}

// Writes the result sheet of rows to the front of the lent bytes.
#[unsafe(no_mangle)]
pub extern "C" fn circuitrail_write_result(
    words: &[u32],
    processors: u32,
    method: u32,
    out: &mut [u8],
) -> Written
    ensures answered { result ≡ write_result words.now processors method (length out.old) }
    ensures written { out.new ≡ result_after words.now processors method out.old }
{
    Written::from(write_result(words, processors, method, out))
}

// The same of rows in columns.
#[unsafe(no_mangle)]
pub extern "C" fn circuitrail_write_result_columns(
    costs: &[u32],
    deadlines: &[u32],
    periods: &[u32],
    processors: u32,
    method: u32,
    out: &mut [u8],
) -> Written
    ensures answered { result ≡ write_result_in (in_columns costs.now deadlines.now periods.now) processors method (length out.old) }
    ensures written { out.new ≡ result_after_in (in_columns costs.now deadlines.now periods.now) processors method out.old }
{
    Written::from(write_result_columns(costs, deadlines, periods, processors, method, out))
}

// Writes the whole answer to a sheet's bytes to the front of the lent bytes.
#[unsafe(no_mangle)]
pub extern "C" fn circuitrail_answer_sheet(bytes: &[u8], out: &mut [u8]) -> Written
    ensures answered { result ≡ answer_sheet bytes.now (length out.old) }
    ensures written { out.new ≡ answer_after bytes.now out.old }
{
    Written::from(answer_sheet(bytes, out))
}
