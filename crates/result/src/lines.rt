// Writing the lines of a result sheet, each into the part of the output that is lent for it.
ghost use Rattle.std.specs.Prelude.{◌≡◌, ◌-◌, ◌*◌, ◌<◌, ◌≤◌, length};
ghost use Rattle.laws.specs.Fill.{joined};
ghost use Rattle.report.specs.Lines.{result_line, result_length, line_text, result_line_of, result_bytes};

use blocks::put_blocks;
use digits::put_digits;
use marks::{all_marked, mark_of};

// The length of line one.
pub(crate) const HEAD: usize = 7;

// The length of a row's line.
pub(crate) const LINE: usize = 11;

// The length of the line that a refused sheet gets.
pub(crate) const REFUSED: usize = 9;

// Writes one line: its kind and a small number, a number of as many digits as there is room for, and its end.
pub(crate) fn put_line(out: &mut [u8], kind: u32, small: u32, value: u32)
    requires { 5 ≤ length out.old }
    ensures { out.new ≡ line_text kind small (length out.old - 5) value }
{
    let end = out.len() - 1;
    put_digits(out, 0, 2, kind);
    put_digits(out, 2, 2, small);
    put_digits(out, 4, end - 4, value);
    out[end] = b'\n';
}

// Writes one line a row; there are as many rows as bounds.
#[tactic(auto, unfolding(report::specs::Lines::result_line))]
pub(crate) fn put_rows(marks: u64, bounds: &[u32], out: &mut [u8])
    requires { (length bounds.now ≤ 64) × (length out.old ≡ result_line * length bounds.now) }
    ensures { out.new ≡ joined (result_line_of marks bounds.now) (length bounds.now) }
{
    let put = |row: u32, part: &mut [u8]|
        requires { (row < 64) × (row < length bounds.now) × (length part.old ≡ result_line) }
        ensures { part.new ≡ result_line_of marks bounds.entry.now row }
    {
        put_line(part, 0x12, mark_of(marks, row), bounds[row as usize]);
    };
    put_blocks(out, LINE, bounds.len() as u32, put);
}

// Writes a whole result sheet.
pub(crate) fn put_result(marks: u64, bounds: &[u32], out: &mut [u8])
    requires { (length bounds.now ≤ 64) × (length out.old ≡ result_length (length bounds.now)) }
    ensures { out.new ≡ result_bytes (length bounds.now) marks bounds.now }
{
    let rows = bounds.len() as u32;
    put_line(
        &mut out[..HEAD],
        0x11,
        u32::from(all_marked(marks, rows)),
        rows,
    );
    put_rows(marks, bounds, &mut out[HEAD..]);
}
