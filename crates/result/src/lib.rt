// The result sheet of rows, and the whole answer to a sheet's bytes.
#![tactic(auto)]

mod answer;
mod lines;
mod rows_refined;

pub use answer::answer_sheet;
pub use rows_refined::{write_result, write_result_columns};
