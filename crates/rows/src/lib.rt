// Rows in lent words: cost, deadline and period by place, their sizes, and the method by its number. Every function here is total.
#![tactic(auto)]

mod inner;
mod method;

ghost use Rattle.std.specs.Prelude.{◌≡◌};
ghost use Rattle.model.specs.Sheet.{row_allowed, triples};
ghost use Rattle.rows.specs.Words.{found_of, sheet_of, first_outside};

use inner::{row_allowed_at, word_at};
pub use method::Method;

// The cost of the row at a place; past the end 0.
pub fn cost(words: &[u32], row: u32) -> u32
    ensures { result ≡ (sheet_of words.now).cost row }
{
    word_at(words, 3 * (row as usize))
}

// The relative deadline of the row at a place; past the end 0.
pub fn deadline(words: &[u32], row: u32) -> u32
    ensures { result ≡ (sheet_of words.now).deadline row }
{
    word_at(words, 3 * (row as usize) + 1)
}

// The period of the row at a place; past the end 0.
pub fn period(words: &[u32], row: u32) -> u32
    ensures { result ≡ (sheet_of words.now).period row }
{
    word_at(words, 3 * (row as usize) + 2)
}

// How many whole rows the words hold.
pub fn row_count(words: &[u32]) -> usize
    ensures { result ≡ (sheet_of words.now).rows }
{
    words.len() / 3
}

// Whether a row has its sizes: 1 ≤ C ≤ D ≤ T ≤ 1,000,000.
#[tactic(auto, using(std::proofs::lemmas::Bool::Decides::nat_tests), unfolding(model::specs::Sheet::row_allowed))]
pub fn row_allowed(cost: u32, deadline: u32, period: u32) -> bool
    ensures { result ≡ row_allowed cost deadline period }
{
    if cost < 1 {
        return false;
    }
    if deadline < cost {
        return false;
    }
    if period < deadline {
        return false;
    }
    period <= 1_000_000
}

// The first of so many rows that is outside the sizes allowed.
// The same search as in columns, over words: one over any test would have to ask something of its test, and a public function asks for nothing.
pub fn first_outside(words: &[u32], count: u32) -> Option<u32>
    ensures { result ≡ found_of (first_outside (triples count words.now)) }
{
    for row in 0..count {
        if !row_allowed_at(words, row) {
            return Some(row);
        }
    }
    None
}
