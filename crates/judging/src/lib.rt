// What the end of a sheet answers, however its bytes came in: the rows are judged in the words that were read.
#![tactic(auto)]

ghost use Rattle.std.specs.Prelude.{◌≡◌, length};
ghost use Rattle.laws.specs.Fill.{at_front};
ghost use Rattle.grammar.specs.Told.{read_said};
ghost use Rattle.pieces.specs.Ending.{judged_refusal, found_answer, end_found, end_leaves};

use form::hand_over;
use grammar::Header;
use line_one::announced_length;
use pieces::Reached;
use refusals::Refusal;

// Judges the words that were read, and copies them to `words` only where every check has passed.
pub fn judge(processors: u32, rows: u32, read: &[u32], words: &mut [u32]) -> Result<Header, Refusal>
    ensures value { read_said result ≡ found_answer (judged_refusal processors read.now (length words.old)) processors rows }
    ensures words_left { words.new ≡ at_front (judged_refusal processors read.now (length words.old)).number read.now words.old }
{
    hand_over(processors, read, words)?;
    Ok(Header { processors, rows })
}

// Answers at the end of a sheet, by how far it was read and by the words that were read.
pub fn finish(reached: Reached, read: &[u32; 192], words: &mut [u32]) -> Result<Header, Refusal>
    ensures value { read_said result ≡ end_found reached read.now (length words.old) }
    ensures words_left { words.new ≡ end_leaves reached read.now words.old }
{
    // A number, as C holds it.
    if reached.wrong != 0 {
        return Err(Refusal::Byte(reached.taken));
    }
    if reached.taken as usize != announced_length(reached) {
        return Err(Refusal::Byte(reached.taken));
    }
    let rows = reached.rows % 256;
    if 64 < rows {
        return Err(Refusal::Rows);
    }
    let count = 3 * (rows as usize);
    judge(reached.processors, rows, &read[..count], words)
}
