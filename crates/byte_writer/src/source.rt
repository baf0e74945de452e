// The bytes that are to be written, made as they are asked for: the bytes themselves, or eight flags packed into each. The slice and its flag stay
// apart: as one enum, tried and proved, columns with stretches of four took 3.6 times as long to write.
ghost use Rattle.std.specs.Prelude.{◌≡◌, ◌+◌, ◌*◌, ◌<◌, ◌≤◌, length, drop, get_or};
ghost use Rattle.byte_writer.specs.Flags as Flags;

// A flag other than 0 is true.
fn bit(flag: u8) -> u8
    ensures { (result ≡ Flags.bit flag) × (result < 2) }
{
    if flag == 0 { 0 } else { 1 }
}

// A flag at its weight.
fn weighed(flag: u8, weight: u8) -> u8
    ensures { result ≡ Flags.bit flag * weight }
{
    if flag == 0 { 0 } else { weight }
}

// The last flags, fewer than eight, as a byte: one byte of a column, and so a call of its own. In `byte_at`, which stands in every loop of `run`,
// its slice would keep registers from those loops.
#[cold]
#[inline(never)]
fn last_byte(flags: &[u8], at: usize) -> u8
    requires { (at ≤ length flags.now) × (length flags.now < at + 8) }
    ensures { result ≡ Flags.first_byte (drop at flags.now) }
{
    let mut byte: u8 = 0;
    let mut weight: u8 = 128;
    for &flag in &flags[at..] {
        byte += weighed(flag, weight);
        weight /= 2;
    }
    byte
}

// Eight bits as a byte, the first the highest. Written out for speed, as `packed_byte` is: the loop that does the same is `last_byte`'s, and
// its turns are tests and halvings of a weight in every loop of `run`.
fn joined(a: u8, b: u8, c: u8, d: u8, e: u8, f: u8, g: u8, h: u8) -> u8
    requires { (a < 2) × (b < 2) × (c < 2) × (d < 2) × (e < 2) × (f < 2) × (g < 2) × (h < 2) }
    ensures { result ≡ a * 128 + b * 64 + c * 32 + d * 16 + e * 8 + f * 4 + g * 2 + h }
{
    a * 128 + b * 64 + c * 32 + d * 16 + e * 8 + f * 4 + g * 2 + h
}

// Eight flags as a byte, read without a test each; the last byte may have fewer.
fn packed_byte(flags: &[u8], at: usize) -> u8
    requires { (at ≤ length flags.now) × (at + 7 < 18446744073709551616) }
    ensures { result ≡ Flags.first_byte (drop at flags.now) }
{
    if 8 <= flags.len() - at {
        return joined(
            bit(flags[at]),
            bit(flags[at + 1]),
            bit(flags[at + 2]),
            bit(flags[at + 3]),
            bit(flags[at + 4]),
            bit(flags[at + 5]),
            bit(flags[at + 6]),
            bit(flags[at + 7]),
        );
    }
    last_byte(flags, at)
}

// How many bytes there are.
pub(crate) fn count(s: &[u8], packed: bool) -> usize
    ensures { result ≡ length (Flags.source packed s.now) }
{
    if packed { s.len().div_ceil(8) } else { s.len() }
}

// Byte i.
pub(crate) fn byte_at(s: &[u8], packed: bool, i: usize) -> u8
    requires { i < length (Flags.source packed s.now) }
    ensures { result ≡ get_or (Flags.source packed s.now) i 0 }
{
    if packed {
        return packed_byte(s, 8 * i);
    }
    s[i]
}
