// Flags in batches, from a position of the row index.
ghost use Rattle.std.specs.Prelude.{◌≡◌, ◌+◌, ◌-◌, ◌≤◌, ◌<◌, min, length};
ghost use Rattle.boolean_rle.specs.Batches.{FlagsGiven};
ghost use Rattle.boolean_rle.specs.Found.{flag_end, flags_ahead, Ready, Wrote};
ghost use Rattle.boolean_rle.specs.Positions.{skipped};

use crate::batch::{Position, Read};
use crate::positions::FlagPosition;
use crate::run::RunAt;
use crate::{Cut, batch, positions};
use format::{Refusal, RowNumber};

// A batch: how many flags, and the position after them.
pub type FlagsRead = Read<FlagPosition>;

impl Position for FlagPosition {
    ghost end = { λ s p n. flag_end s p.run.bytes (skipped p + n) };

    ghost ahead = { flags_ahead };

    fn after(self, input: &[u8], n: usize) -> Result<FlagPosition, Cut> {
        positions::flag_end(input, self, n)
    }

    fn put(self, input: &[u8], n: usize, out: &mut [u8]) {
        put_flags(input, self, n, out);
    }
}

// Of the byte in which a plain position stands, the flags that it does not skip, as far as n are wanted: how many they are.
fn put_first(input: &[u8], from: FlagPosition, n: usize, out: &mut [u8]) -> usize
    requires { Ready input.now from n × (0 < from.bits) × (n ≤ length out.old) }
    ensures value { result ≡ min n (8 - from.bits) }
    ensures wrote { Wrote 0 result (flags_ahead input.now from) out.old out.new }
{
    let start = from.run;
    let skip = from.bytes;
    let Ok(run) = crate::run_at(input, start.bytes) else {
        return 0;
    };
    let here = RunAt {
        input,
        at: start.bytes,
        run,
    };
    let byte = here.byte(skip.bytes);
    let count = n.min(8 - from.bits);
    crate::put_bits(byte, from.bits, count, out, 0);
    count
}

// The n flags after a plain position: those of a byte that is begun by its bits, the others by whole bytes.
fn put_flags(input: &[u8], from: FlagPosition, n: usize, out: &mut [u8])
    requires { Ready input.now from n × (n ≤ length out.old) }
    ensures { Wrote 0 n (flags_ahead input.now from) out.old out.new }
{
    let start = from.run;
    let skip = from.bytes;
    if from.bits == 0 {
        crate::put_booleans(input, start.bytes, skip.bytes, n, out, 0);
        return;
    }
    let done = put_first(input, from, n, out);
    if n <= done {
        return;
    }
    crate::put_booleans(input, start.bytes, skip.bytes + 1, n, out, done);
}

// The n flags after a position, as bytes of 0 or 1 in the first n places, and the position after them.
pub fn read_flags(
    input: &[u8],
    from: FlagPosition,
    n: RowNumber,
    out: &mut [u8],
) -> Result<FlagsRead, Refusal>
    ensures { FlagsGiven input.now from n.rows out.old out.new result }
{
    batch::read_batch(input, from, from.run, n, out)
}
