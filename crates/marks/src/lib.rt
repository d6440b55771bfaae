// Marks as one number: the mark of a row, and whether every row is marked.
#![tactic(auto)]

ghost use Rattle.std.specs.Prelude.{◌≡◌, ◌≤◌, ◌<◌};
ghost use Rattle.laws.specs.Bits.{bit_at, is_set, every};

// A row's bit of the marks: 1 where it is marked, else 0.
// A number and no bool: it is written as it is, and its law is over bits.
pub fn mark_of(marks: u64, row: u32) -> u32
    requires { row < 64 }
    ensures { result ≡ bit_at marks row }
{
    ((marks >> row) % 2) as u32
}

// Whether every row is marked.
pub fn all_marked(marks: u64, rows: u32) -> bool
    requires { rows ≤ 64 }
    ensures { result ≡ every (is_set marks) rows }
{
    (0..rows).all(|row| mark_of(marks, row) == 1)
}
