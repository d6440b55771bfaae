// The form of a sheet: what may stand at each offset, and the first offset that is wrong.
#![tactic(auto)]

ghost use Rattle.std.specs.Prelude.{◌≡◌, ◌^◌, ◌<◌, length};
ghost use Rattle.laws.specs.Fill.{at_front};
ghost use Rattle.rows.specs.Words.{found_of};
ghost use Rattle.rows.specs.Checks.{words_refusal};
ghost use Rattle.refusals.specs.Told.{said};
ghost use Rattle.grammar.specs.Grammar.{sheet_length, line_allows, rows_written, wrong_at, first_wrong};
ghost use Rattle.grammar.specs.Sheets.{between_refusal};
ghost use Rattle.form.specs.Inner.{LineOne};

use grammar::Header;
use refusals::Refusal;
use table::check_words;

// The length of line one.
pub const HEAD: usize = 7;

// The length of a row's line.
pub const LINE: usize = 21;

// How many bytes a sheet of so many rows has.
pub fn sheet_length(rows: usize) -> usize
    requires { sheet_length rows < 2 ^ 64 }
    ensures { result ≡ sheet_length rows }
{
    HEAD + LINE * rows
}

// Reads line one: processors, then rows.
pub fn first_line(bytes: &[u8]) -> Header
    ensures { LineOne bytes.now result }
{
    Header {
        processors: digits::two_digits(bytes, 2),
        rows: digits::two_digits(bytes, 4),
    }
}

// Whether a byte may stand at a place of a line of a kind that has its 0A at `last`.
pub fn line_allows(kind: u8, last: usize, place: usize, byte: u8) -> bool
    ensures { result ≡ line_allows kind last place byte }
{
    if place == 0 {
        return byte == b'0';
    }
    if place == 1 {
        return byte == kind;
    }
    if place == last {
        return byte == b'\n';
    }
    digits::digit_value(byte) < 16
}

// Whether an offset is wrong in bytes that announce `full` bytes.
pub fn wrong_at(bytes: &[u8], full: usize, offset: usize) -> bool
    requires { full ≡ sheet_length (rows_written bytes.now) }
    ensures { result ≡ wrong_at bytes.now offset }
{
    if bytes.len() <= offset {
        return offset < full;
    }
    if offset < HEAD {
        return !line_allows(b'1', HEAD - 1, offset, bytes[offset]);
    }
    if offset < full {
        return !line_allows(b'2', LINE - 1, (offset - HEAD) % LINE, bytes[offset]);
    }
    true
}

// The first wrong offset.
pub fn first_wrong(bytes: &[u8]) -> Option<u32>
    ensures { result ≡ found_of (first_wrong bytes.now) }
{
    let line = first_line(bytes);
    let full = sheet_length(line.rows as usize);
    for offset in 0..=full {
        if wrong_at(bytes, full, offset) {
            return Some(offset as u32);
        }
    }
    None
}

// Judges rows in the words that were read, and copies these to the front of `words` only where every check has passed.
pub fn hand_over(processors: u32, read: &[u32], words: &mut [u32]) -> Result<(), Refusal>
    ensures value { said result ≡ words_refusal read.now (between_refusal processors (length words.old) (length read.now)) }
    ensures words_left { words.new ≡ at_front (words_refusal read.now (between_refusal processors (length words.old) (length read.now))).number read.now words.old }
{
    check_words(read, processors, words.len(), read.len())?;
    words[..read.len()].copy_from_slice(read);
    Ok(())
}
