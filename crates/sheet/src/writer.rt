// Writing the lines of a sheet, each into the part of the output that is lent for it.
ghost use Rattle.std.specs.Prelude.{◌≡◌, ◌*◌, ◌≤◌, length};
ghost use Rattle.laws.specs.Fill.{joined};
ghost use Rattle.rows.specs.Words.{sheet_of};
ghost use Rattle.grammar.specs.Grammar.{head, line, sheet_length};
ghost use Rattle.grammar.specs.Lines.{first_line, row_line, line_of, sheet_bytes};

use blocks::put_blocks;
use digits::put_digits;
use rows::{cost, deadline, period, row_count};

// Writes line one: `01`, processors, rows.
pub(crate) fn put_first_line(out: &mut [u8], processors: u32, rows: u32)
    requires { length out.old ≡ head }
    ensures { out.new ≡ first_line processors rows }
{
    put_digits(out, 0, 2, 0x01);
    put_digits(out, 2, 2, processors);
    put_digits(out, 4, 2, rows);
    out[6] = b'\n';
}

// Writes a row's line: `02`, then its cost, deadline and period.
pub(crate) fn put_row_line(out: &mut [u8], cost: u32, deadline: u32, period: u32)
    requires { length out.old ≡ line }
    ensures { out.new ≡ row_line cost deadline period }
{
    put_digits(out, 0, 2, 0x02);
    put_digits(out, 2, 6, cost);
    put_digits(out, 8, 6, deadline);
    put_digits(out, 14, 6, period);
    out[20] = b'\n';
}

// Writes one line a row.
#[tactic(auto, unfolding(grammar::specs::Grammar::line))]
pub(crate) fn put_rows(words: &[u32], out: &mut [u8])
    requires { ((sheet_of words.now).rows ≤ 64) × (length out.old ≡ line * (sheet_of words.now).rows) }
    ensures { out.new ≡ joined (line_of (sheet_of words.now)) (sheet_of words.now).rows }
{
    let put = |row: u32, part: &mut [u8]|
        requires { length part.old ≡ line }
        ensures { part.new ≡ line_of (sheet_of words.entry.now) row }
    {
        put_row_line(
            part,
            cost(words, row),
            deadline(words, row),
            period(words, row),
        );
    };
    put_blocks(out, form::LINE, row_count(words) as u32, put);
}

// Writes a whole sheet.
pub(crate) fn put_sheet(words: &[u32], processors: u32, out: &mut [u8])
    requires { ((sheet_of words.now).rows ≤ 64) × (length out.old ≡ sheet_length (sheet_of words.now).rows) }
    ensures { out.new ≡ sheet_bytes (sheet_of words.now) processors }
{
    put_first_line(&mut out[..form::HEAD], processors, row_count(words) as u32);
    put_rows(words, &mut out[form::HEAD..]);
}
