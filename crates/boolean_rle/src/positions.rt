// Positions of ORC's row index, and the plain one after some bytes or flags, by the controls alone: no run is unpacked.
ghost use Rattle.std.specs.Prelude.{◌≡◌, ◌+◌};
ghost use Rattle.boolean_rle.specs.Positions.{skipped};
ghost use Rattle.boolean_rle.specs.Found.{byte_end, flag_end};

use crate::Cut;
use format::ByteOffset;

// A position of a byte stream: the byte where a byte run begins, and how many bytes of what the runs stand for to skip from there.
#[derive(Clone, Copy)]
pub struct BytePosition {
    pub run: ByteOffset,
    pub bytes: ByteOffset,
}

// A position of a boolean stream: the same, and how many bits of the next byte to skip. It has the fields of a byte position and not one of that type:
// the definitions `flag_at` and `skipped`, and so the promises, name these fields.
#[derive(Clone, Copy)]
pub struct FlagPosition {
    pub run: ByteOffset,
    pub bytes: ByteOffset,
    pub bits: usize,
}

// The plain position after n bytes from a position on. With those that it skips they can pass 2^64, so the two numbers are counted down beside each other.
pub(crate) fn byte_end(input: &[u8], from: BytePosition, n: usize) -> Result<BytePosition, Cut>
    ensures { result ≡ byte_end input.now from.run.bytes (from.bytes.bytes + n) }
{
    let start = from.run;
    let skip = from.bytes;
    let mut place = start.bytes;
    let mut left = skip.bytes;
    let mut rest = n;
    // from run to run: the step is a run's size, so no range has these places
    while 0 < left.max(rest) {
        let run = crate::run_at(input, place)?;
        let unused = run.count.saturating_sub(left);
        if rest < unused {
            return Ok(BytePosition {
                run: ByteOffset { bytes: place },
                bytes: ByteOffset { bytes: left + rest },
            });
        }
        left = left.saturating_sub(run.count);
        rest -= unused;
        place += run.size;
    }
    Ok(BytePosition {
        run: ByteOffset { bytes: place },
        bytes: ByteOffset { bytes: 0 },
    })
}

// The plain position after n flags from a position on. A byte of which some bits are used must be there, and so must its run.
pub(crate) fn flag_end(input: &[u8], from: FlagPosition, n: usize) -> Result<FlagPosition, Cut>
    ensures { result ≡ flag_end input.now from.run.bytes (skipped from + n) }
{
    let start = from.run;
    let skip = from.bytes;
    let begin = BytePosition {
        run: start,
        bytes: skip,
    };
    let over = from.bits % 8 + n % 8;
    let whole = from.bits / 8 + n / 8 + over / 8;
    let end = byte_end(input, begin, whole)?;
    let run = end.run;
    let bytes = end.bytes;
    let bits = over % 8;
    if bits != 0 {
        crate::run_at(input, run.bytes)?;
    }
    Ok(FlagPosition { run, bytes, bits })
}
