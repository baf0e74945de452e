// The exact sum of rows: a whole number in two words of 64 bits, two's complement, which no sum of 2^32 rows passes.
ghost use Rattle.std.specs.Prelude.{◌≡◌, ◌≤◌, length, unsigned_abs};
ghost use Rattle.tally.specs.Totals.{sum_of, limit};
ghost use Rattle.tally.specs.Wide.{wide_of, wide_value, size_of, is_negative, IsTenth, add_wide};

use format::{ALL_BITS, TOP_BIT};

// A whole number in two words of 64 bits, two's complement. (No i128: `wide_of`, `wide_value` and the theorem `Sums` speak of the words.)
#[derive(Clone, Copy)]
pub struct Wide {
    pub high: u64,
    pub low: u64,
}

// A number in two words, divided by ten.
#[derive(Clone, Copy)]
pub struct Tenth {
    pub quotient: Wide,
    pub digit: u8,
}

impl Wide {
    // An i64 row: the high word has its sign.
    pub fn of_row(row: i64) -> Self
        ensures { result ≡ wide_of row }
    {
        Wide {
            high: if row < 0 { u64::MAX } else { 0 },
            low: row.cast_unsigned(),
        }
    }

    // What the low words carry is added to the high words.
    pub fn plus(self, more: Wide) -> Self
        ensures { result ≡ add_wide self more }
    {
        let (low, carry) = self.low.overflowing_add(more.low);
        let high = self.high.wrapping_add(more.high);
        Wide {
            high: high.wrapping_add(u64::from(carry)),
            low,
        }
    }

    // Below 0: the top bit is set.
    pub fn is_negative(self) -> bool
        ensures { result ≡ is_negative (wide_value self) }
    {
        TOP_BIT <= self.high
    }

    // The size of the whole number, in two words: one below 0 has its bits turned over, and one more.
    pub fn size(self) -> Self
        ensures { size_of result ≡ unsigned_abs (wide_value self) }
    {
        if self.high < TOP_BIT {
            return self;
        }
        let turned = Wide {
            high: ALL_BITS - self.high,
            low: ALL_BITS - self.low,
        };
        turned.plus(Wide { high: 0, low: 1 })
    }

    // The last decimal digit, and the number without it: a half word at a
    // time, so that what is left of the one before stands above the next.
    pub fn tenth(self) -> Tenth
        ensures { IsTenth (size_of self) (size_of result.quotient) result.digit }
    {
        let upper = self.high % 10 * 4294967296 + self.low / 4294967296;
        let lower = upper % 10 * 4294967296 + self.low % 4294967296;
        Tenth {
            quotient: Wide {
                high: self.high / 10,
                low: upper / 10 * 4294967296 + lower / 10,
            },
            digit: (lower % 10) as u8,
        }
    }
}

// The exact sum of some rows.
pub(crate) fn sum_of(rows: &[i64]) -> Wide
    requires { length rows.now ≤ limit }
    ensures { result ≡ wide_of (sum_of rows.now) }
{
    let mut sum = Wide { high: 0, low: 0 };
    for row in rows {
        sum = sum.plus(Wide::of_row(*row));
    }
    sum
}
