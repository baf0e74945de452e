// A refusal by words, as the tests of a delta run hand it on: its number, and the byte where the field begins that the input ends in.
ghost use Rattle.std.specs.Prelude.{◌≡◌};
ghost use Rattle.rle_v2.specs.RefusedBy.{refused_by};

use format::{Answer, ByteOffset, Refusal};

// The number and the field stay words: see `Found` in delta.rt, where the Result was slower.

// The answer to the run at a place that is refused. No field begins at byte 0, where the first header does: 0 stands for none.
pub(crate) fn answer(number: u8, at: ByteOffset, field: ByteOffset) -> Answer
    ensures { result ≡ refused_by at.bytes number field.bytes }
{
    let first = field.bytes;
    if first == 0 {
        return Err(Refusal::new(number, at));
    }
    Err(Refusal::cut(number, at, field))
}
