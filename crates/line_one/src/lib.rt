// Line one, taken byte by byte.
#![tactic(auto)]

ghost use Rattle.std.specs.Prelude.{◌≡◌, ◌+◌, ◌^◌, ◌<◌, ◌≤◌};
ghost use Rattle.grammar.specs.Grammar.{sheet_length};
ghost use Rattle.pieces.specs.Feeding.{announced, digit_more, with_byte, reached_with};
ghost use Rattle.pieces.specs.Inner.{TakesFirst, moved_to};

use form::{HEAD, line_allows, sheet_length};
use pieces::Reached;

// How many bytes line one announces, as far as it has been read.
pub fn announced_length(reached: Reached) -> usize
    ensures { result ≡ sheet_length (announced reached) }
{
    sheet_length((reached.rows % 256) as usize)
}

// A number with the digit of a byte behind it.
pub fn digit_more(value: u32, byte: u8) -> u32
    ensures { result ≡ digit_more value byte }
{
    value % 0x8000000 * 16 + u32::from(digits::digit_value(byte))
}

// A number that stands in two digits from offset `at` on, after one byte more at an offset.
pub fn with_byte(at: u32, offset: u32, byte: u8, value: u32) -> u32
    requires { at ≤ 4 }
    ensures { result ≡ with_byte at 2 offset byte value }
{
    if (at..at + 2).contains(&offset) {
        return digit_more(value, byte);
    }
    value
}

// How far the sheet has been read with a right byte more.
pub fn reached_with(reached: Reached, byte: u8) -> Reached
    requires { reached.taken + 1 < 2 ^ 32 }
    ensures { result ≡ reached_with reached byte }
{
    Reached {
        taken: reached.taken + 1,
        processors: with_byte(2, reached.taken, byte, reached.processors),
        rows: with_byte(4, reached.taken, byte, reached.rows),
        ..reached
    }
}

// The same line one, with so many bytes taken and the next wrong (1) or not (0).
// Whether the next is wrong stays a number: it is the field that C holds (pieces, Reached).
pub fn moved(reached: Reached, taken: u32, wrong: u32) -> Reached
    ensures { result ≡ moved_to reached taken wrong }
{
    Reached {
        taken,
        wrong,
        ..reached
    }
}

// Gives line one what it takes of a piece, up to the first byte that is wrong.
pub fn take_first(start: Reached, bytes: &[u8]) -> Reached
    requires { start.wrong ≡ 0 }
    ensures { TakesFirst start bytes.now result }
{
    let mut reached = start;
    for &byte in bytes {
        if HEAD <= reached.taken as usize {
            return reached;
        }
        if !line_allows(b'1', HEAD - 1, reached.taken as usize, byte) {
            return moved(reached, reached.taken, 1);
        }
        reached = reached_with(reached, byte);
    }
    reached
}
