// What direct and delta runs have in common: the two bytes that open them, 2 bits kind, 5 bits width code, 9 bits rows less 1;
// and the answer.
ghost use Rattle.std.specs.Prelude.{◌≡◌, ◌++◌, ◌<◌, ◌≤◌, length, drop};
ghost use Rattle.format.specs.Answers.{ran, refused_at};
ghost use Rattle.format.specs.Fields as Fields;
ghost use Rattle.format.specs.Runs as Runs;

use format::{Answer, ByteOffset, Kind, Refusal, RowNumber, Run};
use util::width;

// The bits of kind and code are numbers, as the contract names them (`Runs.head`).
pub(crate) fn write(kind: u8, code: u8, rows: RowNumber, out: &mut [u8])
    requires { (kind < 4) × (code < 32) × (1 ≤ rows.rows) × (rows.rows ≤ 512) × (2 ≤ length out.old) }
    ensures { out.new ≡ Runs.head kind code rows.rows ++ drop 2 out.old }
{
    let count = rows.rows;
    let less = count - 1;
    out[0] = kind * 64 + code * 2 + (less / 256) as u8;
    out[1] = (less % 256) as u8;
}

// The answer for a run that was written, by its width code, rows and bytes.
pub(crate) fn answer(kind: Kind, code: u8, rows: RowNumber, bytes: ByteOffset) -> Answer
    requires { code < 32 }
    ensures { result ≡ ran kind (Fields.width code) rows.rows bytes.bytes }
{
    let bits = width::bits_of(code);
    Ok(Some(Run::new(kind, bits, rows, bytes)))
}

// A writer's refusal: its run would begin at the first byte. The number is FORMAT.md's, which the promise names and C gets.
pub(crate) fn refused(number: u8) -> Answer
    ensures { result ≡ refused_at number 0 }
{
    Err(Refusal::new(number, ByteOffset { bytes: 0 }))
}
