// What the program does: the sheet on standard input is read, its answer is written to standard output, and nothing else is decided.
#![tactic(auto)]

ghost use Rattle.std.specs.Prelude.{◌≡◌, List, ◌++◌, ℕ, ◌≤◌, ◌<◌, IfOk, IfSome, length, take, drop};
ghost use Rattle.grammar.specs.Grammar.{sheet_length};
ghost use Rattle.report.specs.Result.{answer_text};

use result::answer_sheet;
use std::io;
use std::io::Read;

// As many bytes as are read at most: the longest sheet has fewer, and whatever is longer is refused by them alone.
const MOST: usize = 8192;

// As many bytes as the longest answer has: the result sheet of 64 rows.
const LONGEST: usize = 711;

// Room for an input: more bytes than the longest sheet has, so that to stop reading there changes no answer.
fn input_room() -> [u8; MOST]
    ensures { (8192 ≡ length result) × (sheet_length 255 < length result) }
{
    [0; MOST]
}

// Puts the whole answer to a sheet's bytes at the front of an output that the longest fits, and gives its length.
fn put_answer(bytes: &[u8], out: &mut [u8; LONGEST]) -> usize
    ensures value { result ≡ length (answer_text bytes.now) }
    ensures out_after { out.new ≡ answer_text bytes.now ++ drop result out.old }
{
    match answer_sheet(bytes, out) {
        Ok(length) => length as usize,
        Err(_) => unreachable!(),
    }
}

// The answer by what was read of an input: for every input of which those are the first bytes, all of them or as many as the space holds, its
// answer stands at the front of the output, and its length is returned.
fn answer_read(sheet: &[u8], out: &mut [u8; LONGEST]) -> usize
    requires { length sheet.now ≤ 8192 }
    ensures { (input : List ℕ) → take 8192 input ≡ sheet.now → (result ≡ length (answer_text input)) × (out.new ≡ answer_text input ++ drop result out.old) }
{
    put_answer(sheet, out)
}

// Reads an input into a space, to the input's end or until the space is full, and gives how many bytes that are. One read may give fewer bytes
// than are left, so there is another until one gives none. A read that fails ends this with its error.
fn read_full<R: Read>(input: &mut R, space: &mut [u8]) -> io::Result<usize>
    ensures fits { IfOk result (λ count. count ≤ length space.new) }
    ensures begins { IfOk result (λ count. IfSome (R.remaining input.old) (λ bytes. take (length space.new) bytes ≡ take count space.new)) }
{
    let mut count = 0;
    while count < space.len() {
        let more = input.read(&mut space[count..])?;
        if more == 0 {
            return Ok(count);
        }
        count += more;
    }
    Ok(count)
}

// Reads the sheet on standard input, to its end or as far as it can matter, and writes exactly its answer to standard output. A read that fails
// ends this with its error before anything is written, and a write that fails with its own.
pub fn answer_input(rt: &(impl Input + Print)) -> io::Result<()> {
    let mut sheet = input_room();
    let count = read_full(&mut rt.reader(), &mut sheet)?;
    let mut out = [0u8; LONGEST];
    let length = answer_read(&sheet[..count], &mut out);
    rt.write_all(&out[..length])
}
