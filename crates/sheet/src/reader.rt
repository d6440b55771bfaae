// Reading the rows of a sheet that has the right form.
ghost use Rattle.std.specs.Prelude.{◌≡◌, ◌*◌, ◌≤◌, ◌<◌, ◌^◌, length};
ghost use Rattle.laws.specs.Fill.{listed, at_front};
ghost use Rattle.grammar.specs.Grammar.{rows_written};
ghost use Rattle.grammar.specs.Lines.{word_written, words_written};
ghost use Rattle.grammar.specs.Sheets.{formed_refusal, read_answer};
ghost use Rattle.grammar.specs.Told.{read_said};
ghost use Rattle.form.specs.Inner.{LineOne};

use form::hand_over;
use grammar::Header;
use refusals::Refusal;

// Fills the lent words with the rows' words as written.
pub(crate) fn read_rows(bytes: &[u8], words: &mut [u32])
    requires { length words.old < 2 ^ 16 }
    ensures { words.new ≡ listed (word_written bytes.now) (length words.old) }
{
    for (word, place) in words.iter_mut().enumerate() {
        let offset = form::HEAD + form::LINE * (word / 3) + 2 + 6 * (word % 3);
        *place = digits::six_digits(bytes, offset as u32);
    }
}

// Reads the rows into `written`, judges them there, and copies them to `words` only where every check has passed.
pub(crate) fn judge(
    bytes: &[u8],
    header: Header,
    written: &mut [u32],
    words: &mut [u32],
) -> Result<Header, Refusal>
    requires { LineOne bytes.now header × (length written.old ≡ 3 * rows_written bytes.now) × (length written.old ≤ 192) }
    ensures value { read_said result ≡ read_answer (formed_refusal bytes.now (length words.old)) bytes.now }
    ensures words_left { words.new ≡ at_front (formed_refusal bytes.now (length words.old)).number (words_written bytes.now) words.old }
{
    read_rows(bytes, written);
    hand_over(header.processors, written, words)?;
    Ok(header)
}

// Reads a sheet that has the right form, with space of its own for the rows that are to be judged.
pub(crate) fn read_formed(bytes: &[u8], words: &mut [u32]) -> Result<Header, Refusal>
    ensures value { read_said result ≡ read_answer (formed_refusal bytes.now (length words.old)) bytes.now }
    ensures words_left { words.new ≡ at_front (formed_refusal bytes.now (length words.old)).number (words_written bytes.now) words.old }
{
    let header = form::first_line(bytes);
    if 64 < header.rows {
        return Err(Refusal::Rows);
    }
    let count = 3 * (header.rows as usize);
    // An array and no Vec: no heap.
    let mut written = [0u32; 192];
    judge(bytes, header, &mut written[..count], words)
}
