// Varints: seven bits a byte, lowest group first, top bit set on all but the last, at most ten bytes, the tenth at most 1.
ghost use Rattle.std.specs.Prelude.{◌≡◌, ◌+◌, ◌-◌, ◌*◌, ◌%◌, ◌^◌, ◌<◌, ◌≤◌, ◌++◌, length};
ghost use Rattle.format.specs.Fields.{last_below, shortest};
ghost use Rattle.util.specs.Varint.{varint_at, VarintWritten};

// A varint that was read: its value, and the place after it.
#[derive(Clone, Copy)]
pub struct Varint {
    pub bits: u64,
    pub next: usize,
}

// Why there is none: an enum of its own, since the callers turn each reason into a refusal of the format by its number.
#[derive(Clone, Copy)]
pub enum VarintError {
    // The input ends in it: refusal 12.
    Cut,
    // The tenth byte is above 1: refusal 5.
    TooLong,
}

// The seven low bits of b as group k. Only a tenth byte above 1 has bits at 2^64 and above, which the shift drops.
fn group(b: u8, k: u64) -> u64
    requires { k < 10 }
    ensures { result ≡ b % 128 * 2 ^ (7 * k) % 2 ^ 64 }
{
    u64::from(b % 128) << (7 * k)
}

// What the last byte of a varint is below, where k bytes stand before it: the tenth has one bit left.
fn last_below(k: u64) -> u8
    requires { k < 10 }
    ensures { result ≡ last_below (10 - (k + 1)) }
{
    if k < 9 { 128 } else { 2 }
}

// The varint at a place. A place past the end is empty input.
pub fn read(s: &[u8], at: usize) -> Result<Varint, VarintError>
    ensures { result ≡ varint_at s.now at }
{
    let mut bits: u64 = 0;
    let mut next = at;
    for k in 0..10 {
        let Some(&b) = s.get(next) else {
            return Err(VarintError::Cut);
        };
        bits = bits.wrapping_add(group(b, k));
        next += 1;
        if b < 128 {
            if last_below(k) <= b {
                return Err(VarintError::TooLong);
            }
            return Ok(Varint { bits, next });
        }
    }
    Err(VarintError::TooLong)
}

// How many bytes the shortest varint of x has: one for each seven bits, and one at least.
pub fn size(x: u64) -> usize
    ensures { result ≡ length (shortest x) }
{
    if x == 0 {
        return 1;
    }
    let bits = (64 - x.leading_zeros()) as usize;
    bits.div_ceil(7)
}

// The lowest group of x with the top bit set: a byte that others follow.
fn low_group(x: u64) -> u8
    ensures { result ≡ x % 128 + 128 }
{
    (x % 128 + 128) as u8
}

// The shortest varint of x, written at a place: the place after it. The loop counts nothing: it ends with what is left of x.
pub fn write(x: u64, out: &mut [u8], at: usize) -> usize
    requires { at + length (shortest x) ≤ length out.old }
    ensures { VarintWritten x out.old at out.new result }
{
    let mut rest = x;
    let mut place = at;
    while 128 <= rest {
        let b = low_group(rest);
        out[place] = b;
        rest /= 128;
        place += 1;
    }
    out[place] = rest as u8;
    place + 1
}
