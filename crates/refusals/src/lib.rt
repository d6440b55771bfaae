// Why an entry refuses: the numbers of the scope document's table, which all entries share.
#![tactic(auto)]

use std::fmt;

// A refusal of the scope document's table, with its place where it has one.
#[derive(Clone, Copy, PartialEq, Eq, Debug)]
pub enum Refusal {
    // 1: the bytes are no sheet; the first that is wrong.
    Byte(u32),
    // 2: no rows, or their layout is broken.
    Layout,
    // 3: more than 64 rows.
    Rows,
    // 4: processors 0 or above 64.
    Processors,
    // 5: a method above 1.
    Method,
    // 6: a limit out of its range.
    Limit,
    // 7: the space is shorter than the answer.
    Room,
    // 8: a row outside the sizes allowed; the first.
    Sizes(u32),
    // 9: no such row, or bounds that do not fit the sheet.
    Question,
}

impl Refusal {
    ghost use Rattle.std.specs.Prelude.{◌≡◌};
    ghost use Rattle.refusals.specs.Told.{told};

    // Its number in the table.
    pub fn number(self) -> u32
        ensures { result ≡ (told self).number }
    {
        match self {
            Refusal::Byte(_) => 1,
            Refusal::Layout => 2,
            Refusal::Rows => 3,
            Refusal::Processors => 4,
            Refusal::Method => 5,
            Refusal::Limit => 6,
            Refusal::Room => 7,
            Refusal::Sizes(_) => 8,
            Refusal::Question => 9,
        }
    }

    // Its place: the byte's offset, the row, else 0.
    pub fn place(self) -> u32
        ensures { result ≡ (told self).place }
    {
        match self {
            Refusal::Byte(offset) => offset,
            Refusal::Sizes(row) => row,
            _ => 0,
        }
    }
}

impl fmt::Display for Refusal {
    fn fmt<W: fmt::Write>(&self, f: &mut fmt::Formatter<W>) -> fmt::Result {
        write!(f, "refused {} at {}", self.number(), self.place())
    }
}
