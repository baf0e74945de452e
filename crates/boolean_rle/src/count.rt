// How many booleans are true, of those that stand eight to a byte in given bytes: the bytes that byte runs stand for, not the runs themselves.
ghost use Rattle.std.specs.Prelude.{◌≡◌, ◌-◌, ◌*◌, ◌/◌, ◌^◌, ◌≤◌, ◌<◌, length};
ghost use Rattle.std.specs.Int.Count.{ones};
ghost use Rattle.boolean_rle.specs.Ones.{ones_in, count_true};

use format::{ByteOffset, Refusal, RowNumber};

// The ones of the highest bits of a byte.
fn ones_of(byte: u8, bits: usize) -> usize
    requires { (1 ≤ bits) × (bits ≤ 8) }
    ensures { result ≡ ones (byte / 2 ^ (8 - bits)) }
{
    u8::count_ones(byte >> (8 - bits)) as usize
}

// The ones of whole bytes.
fn ones_in(bytes: &[u8], whole: ByteOffset) -> RowNumber
    requires { (whole.bytes ≤ length bytes.now) × (8 * whole.bytes < 2 ^ 64) }
    ensures { result.rows ≡ ones_in (8 * whole.bytes) bytes.now }
{
    let mut ones: usize = 0;
    for &byte in &bytes[..whole.bytes] {
        ones += ones_of(byte, 8);
    }
    RowNumber { rows: ones }
}

// How many of the first n booleans are true, highest bit first: a byte at a time, and of the last only the bits that are asked for. Or
// refusal 6.
pub fn count_true(bytes: &[u8], n: RowNumber) -> Result<usize, Refusal>
    ensures { result ≡ count_true n.rows bytes.now }
{
    let rows = n.rows;
    let whole = rows / 8;
    let left = rows % 8;
    let start = ByteOffset { bytes: 0 };
    if bytes.len() < whole {
        return Err(Refusal::cut(6, start, start));
    }
    let ones = ones_in(bytes, ByteOffset { bytes: whole }).rows;
    if left == 0 {
        return Ok(ones);
    }
    if bytes.len() == whole {
        return Err(Refusal::cut(6, start, start));
    }
    Ok(ones + ones_of(bytes[whole], left))
}
