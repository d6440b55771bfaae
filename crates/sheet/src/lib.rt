// Task sheets: read, written, and back again.
#![tactic(auto)]

mod reader;
mod writer;

ghost use Rattle.std.specs.Prelude.{◌≡◌, length};
ghost use Rattle.grammar.specs.Sheets.{read_sheet, words_after, write_sheet, bytes_after};
ghost use Rattle.grammar.specs.Told.{read_said, written_said};

use grammar::Header;
use refusals::Refusal;
use rows::row_count;
use table::check_words;

// Reads a task sheet: on success the rows' words stand at the front of `words`.
pub fn read_sheet(bytes: &[u8], words: &mut [u32]) -> Result<Header, Refusal>
    ensures value { read_said result ≡ read_sheet bytes.now (length words.old) }
    ensures words_left { words.new ≡ words_after bytes.now words.old }
{
    match form::first_wrong(bytes) {
        Some(offset) => Err(Refusal::Byte(offset)),
        None => reader::read_formed(bytes, words),
    }
}

// Writes a task sheet: on success it stands at the front of `out`, and the answer is how many bytes it has.
pub fn write_sheet(words: &[u32], processors: u32, out: &mut [u8]) -> Result<u32, Refusal>
    ensures value { written_said result ≡ write_sheet words.now processors (length out.old) }
    ensures out_after { out.new ≡ bytes_after words.now processors out.old }
{
    let length = form::sheet_length(row_count(words));
    check_words(words, processors, out.len(), length)?;
    writer::put_sheet(words, processors, &mut out[..length]);
    Ok(length as u32)
}
