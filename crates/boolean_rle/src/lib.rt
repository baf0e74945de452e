// Booleans: eight to a byte, highest bit first, in byte runs. A first pass over the controls finds what the booleans take, or the refusal;
// only then is a place written.
#![tactic(auto)]

ghost use Rattle.std.specs.Prelude.{◌≡◌, ◌+◌, ◌-◌, ◌*◌, ◌≤◌, ◌<◌, min, max, length, take, drop, get_or, replicate, Ok};
ghost use Rattle.format.specs.Digits.{digits, lowest_first};
ghost use Rattle.format.specs.Answers.{cutting};
ghost use Rattle.format.specs.Booleans.{booleans, bits, BooleansRead};
ghost use Rattle.boolean_rle.specs.Column.{column};
ghost use Rattle.boolean_rle.specs.Found.{found_at, bytes_at, span_of, Wrote};

use crate::run::RunAt;
use format::{Answer, ByteOffset, Kind, Refusal, RowNumber, Run};

pub mod batch;
pub mod bytes;
pub mod count;
pub mod flags;
pub mod positions;
mod run;

// A byte run's size in the input, and how many bytes it stands for.
#[derive(Clone, Copy)]
struct ByteRun {
    size: usize,
    count: usize,
}

// Where the input has too few bytes: the refusal's number, and the byte where the cut field begins. The number stays a number: it is docs/FORMAT.md's,
// which `Refusal::cut` takes, the promises name (`byte_runs`, `BooleansRead`) and C is given.
#[derive(Clone, Copy)]
pub(crate) struct Cut {
    number: u8,
    field: usize,
}

impl Cut {
    // The refusal of the input, at the call's byte: a field that is missing past the end of the input begins there.
    pub(crate) fn refusal(self, at: ByteOffset) -> Refusal
        ensures { result ≡ cutting self.number at.bytes (max at.bytes self.field) }
    {
        Refusal::cut(
            self.number,
            at,
            ByteOffset {
                bytes: at.bytes.max(self.field),
            },
        )
    }
}

// Control c from 0 to 127: c+3 copies of the next byte. From 128 to 255: 256-c literal bytes. A missing control would stand at the input's end.
fn run_at(input: &[u8], at: usize) -> Result<ByteRun, Cut>
    ensures { result ≡ found_at input.now at }
{
    if input.len() <= at {
        return Err(Cut {
            number: 6,
            field: input.len(),
        });
    }
    let control = input[at] as usize;
    let behind = at + 1;
    let left = input.len() - behind;
    if control < 128 {
        if left == 0 {
            return Err(Cut {
                number: 13,
                field: behind,
            });
        }
        return Ok(ByteRun {
            size: 2,
            count: control + 3,
        });
    }
    let count = 256 - control;
    if left < count {
        return Err(Cut {
            number: 13,
            field: behind,
        });
    }
    Ok(ByteRun {
        size: count + 1,
        count,
    })
}

// The first pass: how many bytes the runs take that n booleans need, from a position on.
fn span_from(input: &[u8], at: usize, n: usize) -> Result<usize, Cut>
    ensures { result ≡ span_of (length input.now) (booleans n (drop at input.now)) }
{
    let mut end = at;
    let mut left = n.div_ceil(8);
    // from run to run: the step is a run's size, so no range has these places
    while 0 < left {
        let run = run_at(input, end)?;
        end += run.size;
        left = left.saturating_sub(run.count);
    }
    Ok(end - at)
}

// m bits of a byte after its first `skip`, highest first, in the places from k on. Here and below the whole of the places is lent, with k beside it: the
// next run goes on at the place that is left, and of parts each one would have to be split off and its length be said again.
fn put_bits(byte: u8, skip: usize, m: usize, out: &mut [u8], k: usize)
    requires { (skip + m ≤ 8) × (k + m ≤ length out.old) }
    ensures { Wrote k (k + m) (drop skip (digits 2 8 byte)) out.old out.new }
{
    for j in 0..m {
        out[k + j] = (byte >> (7 - (skip + j))) % 2;
    }
}

// A byte's bits as the bytes of a number, the highest bit lowest. The product has bit 7-j, for each j, as the top bit of its byte j. It is one of the
// bits that are 0, taken from ones: of the product itself the optimiser makes eight stores, and of this one.
fn spread(byte: u8) -> u64
    ensures { lowest_first 8 result ≡ digits 2 8 byte }
{
    let zeros = 255 - u64::from(byte);
    let product = zeros * 0x0040201008040201 + zeros % 2 * 0x8000000000000000;
    0x0101010101010101 - ((product >> 7) & 0x0101010101010101)
}

// All bits of a byte in the places from k on.
fn put_byte(byte: u8, out: &mut [u8], k: usize)
    requires { k + 8 ≤ length out.old }
    ensures { Wrote k (k + 8) (digits 2 8 byte) out.old out.new }
{
    let mut left = spread(byte);
    for j in 0..8 {
        out[k + j] = (left % 256) as u8;
        left /= 256;
    }
}

// The bits of copies of a byte, in eight places each, from k on. This and `put_literals` stay two loops, for speed: one byte is read before the loop and
// not in it.
fn put_copies(byte: u8, count: usize, out: &mut [u8], k: usize)
    requires { k + 8 * count ≤ length out.old }
    ensures { Wrote k (k + 8 * count) (bits (replicate count byte)) out.old out.new }
{
    for i in 0..count {
        put_byte(byte, out, k + 8 * i);
    }
}

// The bits of the bytes from `first` on, in eight places each, from k on.
fn put_literals(bytes: &[u8], first: usize, count: usize, out: &mut [u8], k: usize)
    requires { (first + count ≤ length bytes.now) × (k + 8 * count ≤ length out.old) }
    ensures { Wrote k (k + 8 * count) (bits (take count (drop first bytes.now))) out.old out.new }
{
    for i in 0..count {
        put_byte(bytes[first + i], out, k + 8 * i);
    }
}

// The booleans of the column from a place on, without its first bytes, in the places from k up to n. A run that is skipped whole is
// not unpacked.
fn put_booleans(input: &[u8], at: usize, skip: usize, n: usize, out: &mut [u8], k: usize)
    requires { (k ≤ n) × (n ≤ length out.old) × (n - k ≤ 8 * (length (column (drop at input.now)) - skip)) }
    ensures { Wrote k n (bits (drop skip (column (drop at input.now)))) out.old out.new }
{
    let mut place = at;
    let mut left = skip;
    let mut done = k;
    // from run to run: the step is a run's size, so no range has these places
    while done < n {
        let Ok(run) = run_at(input, place) else {
            return;
        };
        let here = RunAt {
            input,
            at: place,
            run,
        };
        done = here.put(left, n, out, done);
        left = left.saturating_sub(run.count);
        place += run.size;
    }
}

// n booleans from a position on, as bytes of 0 or 1 in the first n places.
pub fn read_booleans(input: &[u8], at: ByteOffset, n: RowNumber, out: &mut [u8]) -> Answer
    ensures { BooleansRead input.now at.bytes n.rows out.old out.new result }
{
    let position = at.bytes;
    let rows = n.rows;
    let consumed = span_from(input, position, rows).map_err(|cut| cut.refusal(at))?;
    if out.len() < rows {
        return Err(Refusal::new(8, at));
    }
    put_booleans(input, position, 0, rows, out, 0);
    Ok(Some(Run::new(Kind::Booleans, 1, n, ByteOffset { bytes: consumed })))
}
