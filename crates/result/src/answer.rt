// The whole answer to a sheet's bytes.
ghost use Rattle.std.specs.Prelude.{◌≡◌, length};
ghost use Rattle.laws.specs.Fill.{at_front};
ghost use Rattle.refusals.specs.Refusals.{refused};
ghost use Rattle.rows.specs.Checks.{room_refusal};
ghost use Rattle.refusals.specs.Told.{told};
ghost use Rattle.grammar.specs.Sheets.{write_answer};
ghost use Rattle.grammar.specs.Told.{written_said};
ghost use Rattle.report.specs.Lines.{refusal_line};
ghost use Rattle.report.specs.Result.{answer_sheet, answer_after};

use crate::lines;
use crate::rows_refined::write_result;
use refusals::Refusal;
use sheet::read_sheet;
use table::check_room;

// Writes the line that a refused sheet gets.
fn write_refusal(why: Refusal, out: &mut [u8]) -> Result<u32, Refusal>
    ensures value { written_said result ≡ write_answer (refused (room_refusal (length out.old) 9) 0) 9 }
    ensures out_after { out.new ≡ at_front (room_refusal (length out.old) 9) (refusal_line (told why).number (told why).place) out.old }
{
    check_room(out.len(), lines::REFUSED)?;
    lines::put_line(&mut out[..lines::REFUSED], 0x1F, why.number(), why.place());
    Ok(9)
}

// The whole answer to a sheet's bytes: the RTA result sheet of the at-once engine, or the one line that says why the sheet is refused.
pub fn answer_sheet(bytes: &[u8], out: &mut [u8]) -> Result<u32, Refusal>
    ensures value { written_said result ≡ answer_sheet bytes.now (length out.old) }
    ensures out_after { out.new ≡ answer_after bytes.now out.old }
{
    // An array and no Vec: no heap.
    let mut words = [0u32; 192];
    match read_sheet(bytes, &mut words) {
        Ok(header) => {
            let end = 3 * (header.rows as usize);
            write_result(&words[..end], header.processors, 1, out)
        }
        Err(why) => write_refusal(why, out),
    }
}
