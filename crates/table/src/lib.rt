// The checks that entries share, each with its number in the table. An entry makes them in number order, and `?` gives the first that holds.
#![tactic(auto)]

ghost use Rattle.std.specs.Prelude.{◌≡◌, [], ◌∷◌};
ghost use Rattle.refusals.specs.Refusals.{refused};
ghost use Rattle.rows.specs.Checks.{range_refusal, processors_refusal, room_refusal, first_held, words_refusal};
ghost use Rattle.rows.specs.Layouts.{in_triples, shape_refusal};
ghost use Rattle.refusals.specs.Told.{told, said};

use refusals::Refusal;
use rows::{first_outside, row_count};

// 2 where the list is empty or not whole rows, 3 where it is more than 64 rows.
pub fn check_shape(words: &[u32]) -> Result<(), Refusal>
    ensures { said result ≡ refused (shape_refusal (in_triples words.now)) 0 }
{
    if words.is_empty() {
        return Err(Refusal::Layout);
    }
    if words.len() % 3 != 0 {
        return Err(Refusal::Layout);
    }
    if 64 < row_count(words) {
        return Err(Refusal::Rows);
    }
    Ok(())
}

// A refusal where the value is 0 or above the most allowed.
#[tactic(auto, using(std::proofs::lemmas::Bool::Decides::nat_tests), unfolding(rows::specs::Checks::range_refusal))]
pub fn check_range(value: u32, most: u32, why: Refusal) -> Result<(), Refusal>
    ensures { said result ≡ refused (range_refusal value most (told why).number) (range_refusal value most (told why).place) }
{
    if value < 1 {
        return Err(why);
    }
    if most < value {
        return Err(why);
    }
    Ok(())
}

// 4 where the processors are 0 or above 64.
pub fn check_processors(processors: u32) -> Result<(), Refusal>
    ensures { said result ≡ refused (processors_refusal processors) 0 }
{
    check_range(processors, 64, Refusal::Processors)
}

// 7 where the output space is shorter than the answer.
#[tactic(auto, using(std::proofs::lemmas::Bool::Decides::nat_tests), unfolding(rows::specs::Checks::room_refusal))]
pub fn check_room(room: usize, need: usize) -> Result<(), Refusal>
    ensures { said result ≡ refused (room_refusal room need) 0 }
{
    if room < need {
        return Err(Refusal::Room);
    }
    Ok(())
}

// The checks of an entry on words that writes an answer, in number order: 2, 3, 4, 7, 8.
pub fn check_words(words: &[u32], processors: u32, room: usize, need: usize) -> Result<(), Refusal>
    ensures { said result ≡ words_refusal words.now (first_held (processors_refusal processors ∷ room_refusal room need ∷ [])) }
{
    check_shape(words)?;
    check_processors(processors)?;
    check_room(room, need)?;
    match first_outside(words, row_count(words) as u32) {
        Some(row) => Err(Refusal::Sizes(row)),
        None => Ok(()),
    }
}
