// A task sheet that comes in pieces: it is started, fed, and told that it ends.
#![tactic(auto)]

ghost use Rattle.std.specs.Prelude.{◌≡◌, length};
ghost use Rattle.pieces.specs.Feeding.{fresh};
ghost use Rattle.pieces.specs.Ending.{feeding, ending, words_after_end};

use grammar::Read;
use judging::finish;
use pieces::{Ended, Fed, Pieces, Reached};
use taking::take_piece;

// The state before the first piece.
pub fn start_sheet() -> Pieces
    ensures { result ≡ fresh }
{
    Pieces {
        reached: Reached {
            taken: 0,
            wrong: 0,
            processors: 0,
            rows: 0,
        },
        words: [0u32; 192],
        ended: 0,
        answer: Read {
            refusal: 0,
            place: 0,
            processors: 0,
            rows: 0,
        },
    }
}

// Takes a piece. Behind the end it changes nothing, and finds the answer that was given.
pub fn feed_piece(state: Pieces, bytes: &[u8]) -> Fed
    ensures { result ≡ feeding state bytes.now }
{
    // A number, as C holds it.
    if state.ended != 0 {
        return Fed {
            state,
            answer: Some(state.answer),
        };
    }
    let mut words = state.words;
    let reached = take_piece(state.reached, bytes, &mut words);
    Fed {
        state: Pieces {
            reached,
            words,
            ..state
        },
        answer: None,
    }
}

// Ends the sheet: on success the rows' words stand at the front of `words`. A second end changes nothing, and gives the same answer.
pub fn end_sheet(state: Pieces, words: &mut [u32]) -> Ended
    ensures value { result ≡ ending state (length words.old) }
    ensures words_left { words.new ≡ words_after_end state words.old }
{
    // A number, as C holds it.
    if state.ended != 0 {
        return Ended {
            state,
            answer: state.answer,
        };
    }
    let answer = Read::from(finish(state.reached, &state.words, words));
    Ended {
        state: Pieces {
            ended: 1,
            answer,
            ..state
        },
        answer,
    }
}
