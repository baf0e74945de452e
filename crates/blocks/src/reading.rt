// Reads, counted. Only this file makes a `Reads`, and only by reading: whoever holds one has read so often.
ghost use Rattle.std.specs.Prelude.{◌≡◌};
ghost use Rattle.blocks.specs.Blocks.{part};
ghost use Rattle.blocks.specs.Reading.{no_reads, counted, ReadOnce};

use crate::read_on;

// How often was read and how many bytes came by it, what the system answered last, and its error then, which says something only of a read
// that failed. (No Result: `no_reads`, `one_more` and `is_broken` speak of both numbers, and `one_more` keeps them whatever was answered.)
#[derive(Clone, Copy)]
pub struct Reads {
    count: u64,
    bytes: u64,
    got: isize,
    error: i32,
}

// A read: what was held before what came, where that ends, what the system answered, and the reads with this one. (No Result: `ReadOnce` speaks of
// `got` and `error`.)
#[derive(Clone, Copy)]
pub struct Read {
    pub held: usize,
    pub stop: usize,
    pub got: isize,
    pub error: i32,
    pub reads: Reads,
}

// None yet.
pub fn none() -> Reads
    ensures { result ≡ no_reads }
{
    Reads {
        count: 0,
        bytes: 0,
        got: 0,
        error: 0,
    }
}

// The largest number counts on as itself, so that no count comes back to 0.
fn count_on(count: u64) -> u64
    ensures { result ≡ counted count }
{
    count.saturating_add(1)
}

// One read more.
pub fn one_more(rt: &impl Input, reads: Reads, input: &mut [u8], from: usize, end: usize) -> Read
    ensures { ReadOnce reads (part from end input.old) input.new result }
{
    let block = read_on(rt, input, from, end);
    let error = block.error;
    let came = block.stop - block.held;
    let bytes = reads.bytes.wrapping_add(came as u64);
    let count = count_on(reads.count);
    let got = block.got;
    let more = Reads {
        count,
        bytes,
        got,
        error,
    };
    Read {
        held: block.held,
        stop: block.stop,
        got,
        error,
        reads: more,
    }
}
