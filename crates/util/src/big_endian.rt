// Fixed fields: one to eight bytes, the highest first.
ghost use Rattle.std.specs.Prelude.{◌≡◌, ◌+◌, ◌/◌, ◌%◌, ◌^◌, ◌<◌, ◌≤◌, ◌++◌, length, take, drop};
ghost use Rattle.format.specs.Digits.{number, digits};
ghost use Rattle.format.specs.Rows.{base_value};

use crate::packed;

// Byte k of x, the lowest being byte 0.
fn byte_of(x: u64, k: usize) -> u8
    requires { k < 8 }
    ensures { result ≡ x / 256 ^ k % 256 }
{
    ((x >> (8 * k)) % 256) as u8
}

// The number that n bytes at a place write, byte after byte.
pub(crate) fn bytes(s: &[u8], at: usize, n: usize) -> u64
    requires { (1 ≤ n) × (n ≤ 8) × (at + n ≤ length s.now) }
    ensures { result ≡ number 256 (take n (drop at s.now)) }
{
    let mut x: u64 = 0;
    for byte in &s[at..at + n] {
        x = x * 256 + u64::from(*byte);
    }
    x
}

// The same, out of one word where eight bytes stand there.
pub fn read(s: &[u8], at: usize, n: usize) -> u64
    requires { (1 ≤ n) × (n ≤ 8) × (at + n ≤ length s.now) }
    ensures { result ≡ number 256 (take n (drop at s.now)) }
{
    if s.len() - at < 8 {
        return bytes(s, at, n);
    }
    packed::word(s, at) >> (64 - 8 * n)
}

// The n lowest bytes of x, written at a place.
pub fn write(x: u64, n: usize, out: &mut [u8], at: usize)
    requires { (1 ≤ n) × (n ≤ 8) × (at + n ≤ length out.old) }
    ensures { out.new ≡ take at out.old ++ digits 256 n x ++ drop (at + n) out.old }
{
    for i in 0..n {
        out[at + i] = byte_of(x, n - 1 - i);
    }
}

// A patched run's base: the top bit of its bytes is the sign, the rest the magnitude.
pub fn base_value(s: &[u8], at: usize, n: usize) -> u64
    requires { (1 ≤ n) × (n ≤ 8) × (at + n ≤ length s.now) }
    ensures { result ≡ base_value (take n (drop at s.now)) }
{
    let x = read(s, at, n);
    let sign: u64 = 1 << (8 * n - 1);
    if x < sign {
        x
    } else {
        (x - sign).wrapping_neg()
    }
}
