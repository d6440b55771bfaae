// Taking a piece of a sheet: line one, and then the bytes of the rows' lines, each with its digit put where it belongs.
#![tactic(auto)]

ghost use Rattle.std.specs.Prelude.{◌≡◌, ◌+◌, ◌-◌, ◌*◌, ◌/◌, ◌%◌, ◌<◌, ◌^◌, ◌≤◌};
ghost use Rattle.grammar.specs.Grammar.{head};
ghost use Rattle.pieces.specs.Feeding.{words_with};
ghost use Rattle.pieces.specs.Inner.{Takes, row_allows};

use form::{HEAD, LINE, line_allows};
use line_one::{announced_length, digit_more, moved, take_first};
use pieces::Reached;

// Where the next byte of the rows' lines stands: its offset, its place in its line, and the first of the row's three words.
#[derive(Clone, Copy)]
pub struct Spot {
    taken: u32,
    place: u32,
    first: u32,
    ghost past: { 7 ≤ taken },
    ghost in_line: { place ≡ (taken - 7) % 21 },
    ghost in_row: { first ≡ 3 * ((taken - 7) / 21) },
}

impl Spot {
    // The spot at an offset.
    #[tactic(auto, unfolding(grammar::specs::Grammar::head))]
    pub fn at(taken: u32) -> Spot
        requires { head ≤ taken }
        ensures { result.taken ≡ taken }
    {
        let behind = taken - 7;
        Spot {
            taken,
            place: behind % 21,
            first: 3 * (behind / 21),
        }
    }

    // The spot behind this one.
    pub fn next(self) -> Spot
        requires { self.taken + 1 < 2 ^ 32 }
        ensures { result.taken ≡ self.taken + 1 }
    {
        if self.place == 20 {
            return Spot {
                taken: self.taken + 1,
                place: 0,
                first: self.first + 3,
            };
        }
        Spot {
            taken: self.taken + 1,
            place: self.place + 1,
            first: self.first,
        }
    }

    // Whether a byte may stand here, in a sheet that announces `full` bytes.
    pub fn allows(self, full: usize, byte: u8) -> bool
        ensures { result ≡ row_allows full self.taken byte }
    {
        if full <= self.taken as usize {
            return false;
        }
        line_allows(b'2', LINE - 1, self.place as usize, byte)
    }
}

// Adds the digit of a byte at a spot to the word that it is part of, if it is part of one and the word has a place.
pub fn put_digit(words: &mut [u32], spot: Spot, byte: u8)
    ensures { words.new ≡ words_with spot.taken byte words.old }
{
    if (2..20).contains(&spot.place) {
        let word = (spot.first + (spot.place - 2) / 6) as usize;
        if word < words.len() {
            words[word] = digit_more(words[word], byte);
        }
    }
}

// Takes bytes of the rows' lines, one by one, up to the first that is wrong.
pub fn take_rows(start: Reached, bytes: &[u8], words: &mut [u32]) -> Reached
    requires { (start.wrong ≡ 0) × (head ≤ start.taken) }
    ensures { Takes start words.old bytes.now result words.new }
{
    let full = announced_length(start);
    let mut spot = Spot::at(start.taken);
    for &byte in bytes {
        if !spot.allows(full, byte) {
            return moved(start, spot.taken, 1);
        }
        put_digit(words, spot, byte);
        spot = spot.next();
    }
    moved(start, spot.taken, 0)
}

// Takes a piece, up to the first byte that is wrong; behind a wrong byte it takes nothing.
pub fn take_piece(start: Reached, bytes: &[u8], words: &mut [u32]) -> Reached
    ensures { Takes start words.old bytes.now result words.new }
{
    // A number, as C holds it.
    if start.wrong != 0 {
        return start;
    }
    let reached = take_first(start, bytes);
    // A number, as C holds it.
    if reached.wrong != 0 {
        return reached;
    }
    if (reached.taken as usize) < HEAD {
        return reached;
    }
    let passed = (reached.taken - start.taken) as usize;
    take_rows(reached, &bytes[passed..], words)
}
