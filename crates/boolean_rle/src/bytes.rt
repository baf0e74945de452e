// Bytes in batches, from a position of the row index.
ghost use Rattle.std.specs.Prelude.{◌+◌, ◌≤◌, length};
ghost use Rattle.boolean_rle.specs.Batches.{BytesGiven};
ghost use Rattle.boolean_rle.specs.Found.{byte_end, bytes_ahead, Wrote};

use crate::batch::{Position, Read};
use crate::positions::BytePosition;
use crate::run::RunAt;
use crate::{Cut, batch, positions};
use format::{Refusal, RowNumber};

// A batch: how many bytes, and the position after them.
pub type BytesRead = Read<BytePosition>;

impl Position for BytePosition {
    ghost end = { λ s p n. byte_end s p.run.bytes (p.bytes.bytes + n) };

    ghost ahead = { bytes_ahead };

    fn after(self, input: &[u8], n: usize) -> Result<BytePosition, Cut> {
        positions::byte_end(input, self, n)
    }

    fn put(self, input: &[u8], n: usize, out: &mut [u8]) {
        put_values(input, self, n, out);
    }
}

// The bytes after a position, run by run, in the first n places.
fn put_values(input: &[u8], from: BytePosition, n: usize, out: &mut [u8])
    requires { (n ≤ length out.old) × (n ≤ length (bytes_ahead input.now from)) }
    ensures { Wrote 0 n (bytes_ahead input.now from) out.old out.new }
{
    let start = from.run;
    let skip = from.bytes;
    let mut place = start.bytes;
    let mut left = skip.bytes;
    let mut done = 0;
    // from run to run: the step is a run's size, so no range has these places
    while done < n {
        let Ok(run) = crate::run_at(input, place) else {
            return;
        };
        let count = (n - done).min(run.count.saturating_sub(left));
        let here = RunAt {
            input,
            at: place,
            run,
        };
        here.put_bytes(left, count, out, done);
        done += count;
        left = left.saturating_sub(run.count);
        place += run.size;
    }
}

// The n bytes after a position, in the first n places, and the position after them.
pub fn read_bytes(
    input: &[u8],
    from: BytePosition,
    n: RowNumber,
    out: &mut [u8],
) -> Result<BytesRead, Refusal>
    ensures { BytesGiven input.now from n.rows out.old out.new result }
{
    batch::read_batch(input, from, from.run, n, out)
}
