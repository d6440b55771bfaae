// What the functions on rows share.
ghost use Rattle.std.specs.Prelude.{◌≡◌, get_or};
ghost use Rattle.model.specs.Sheet.{row_allowed_at};
ghost use Rattle.rows.specs.Words.{sheet_of};

use crate::row_allowed;

// The word at a place; past the end 0.
pub(crate) fn word_at(words: &[u32], at: usize) -> u32
    ensures { result ≡ get_or words.now at 0 }
{
    words.get(at).copied().unwrap_or(0)
}

// Whether the row at a place has its sizes. A row that is not wholly there has not: its period is 0.
pub(crate) fn row_allowed_at(words: &[u32], row: u32) -> bool
    ensures { result ≡ row_allowed_at (sheet_of words.now) row }
{
    let at = 3 * (row as usize);
    let last = at + 2;
    if words.len() <= last {
        return false;
    }
    row_allowed(words[at], words[at + 1], words[last])
}
