// Rows as 64-bit patterns: the i64 with the same bits and back, zigzag.
ghost use Rattle.std.specs.Prelude.{◌≡◌};
ghost use Rattle.format.specs.Fields as Fields;
ghost use Rattle.format.specs.Rows.{as_i64, as_u64};

use format::{ALL_BITS, TOP_BIT};

// The i64 with the same bits.
pub fn to_i64(bits: u64) -> i64
    ensures { result ≡ as_i64 bits }
{
    bits.cast_signed()
}

// The u64 with the same bits.
pub fn to_u64(x: i64) -> u64
    ensures { result ≡ as_u64 x }
{
    x.cast_unsigned()
}

// The row that u stands for under zigzag: its half, with the bits turned over if u is odd.
pub fn unzigzag(u: u64) -> u64
    ensures { result ≡ Fields.zigzag u }
{
    if u % 2 == 0 { u / 2 } else { ALL_BITS - u / 2 }
}

// The one u that stands for the row b under zigzag.
pub fn zigzag_of(b: u64) -> u64
    ensures { result ≡ Fields.zigzagged b }
{
    if b < TOP_BIT {
        2 * b
    } else {
        2 * (ALL_BITS - b) + 1
    }
}

// A stored value as a row.
pub fn row(signed: bool, u: u64) -> u64
    ensures { result ≡ Fields.row signed u }
{
    if signed { unzigzag(u) } else { u }
}
