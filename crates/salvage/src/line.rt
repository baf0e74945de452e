// A line of the report: `kept` or `replaced`, the group's number, its rows. (No Display: there is no heap, and text goes into lent bytes `out`
// from a place `at`, as `TextWritten` of `text` says.)
ghost use Rattle.std.specs.Prelude.{◌≡◌, ◌+◌, ◌≤◌, length};
ghost use Rattle.salvage.specs.Salvage as Salvage;
ghost use Rattle.text.specs.Decimal.{decimal};
ghost use Rattle.text.specs.Written.{TextWritten};

use format::{ByteOffset, RowNumber};
use text::{put, put_decimal, put_word};

const KEPT: [u8; 5] = *b"kept ";

const REPLACED: [u8; 9] = *b"replaced ";

// How many digits a number has. (The loop divides; its count of digits is what is asked.)
fn decimal_size(x: u64) -> ByteOffset
    ensures { result.bytes ≡ length (decimal x) }
{
    let mut rest = x;
    let mut n: usize = 1;
    while 10 <= rest {
        rest /= 10;
        n += 1;
    }
    ByteOffset { bytes: n }
}

// How many bytes the line has.
pub(crate) fn size(keep: bool, number: u64, rows: RowNumber) -> ByteOffset
    ensures { result.bytes ≡ length (Salvage.line keep number rows.rows) }
{
    let first = decimal_size(number);
    let second = decimal_size(rows.rows as u64);
    let digits = first.bytes + second.bytes;
    if keep {
        return ByteOffset { bytes: 7 + digits };
    }
    ByteOffset { bytes: 11 + digits }
}

fn put_verdict(keep: bool, out: &mut [u8], at: ByteOffset) -> ByteOffset
    requires { at.bytes + length (Salvage.verdict keep) ≤ length out.old }
    ensures { TextWritten (Salvage.verdict keep) out.old at.bytes out.new result.bytes }
{
    if keep {
        let end = put_word(&KEPT, out, at.bytes);
        return ByteOffset { bytes: end };
    }
    let end = put_word(&REPLACED, out, at.bytes);
    ByteOffset { bytes: end }
}

pub(crate) fn put_line(
    keep: bool,
    number: u64,
    rows: RowNumber,
    out: &mut [u8],
    at: ByteOffset,
) -> ByteOffset
    requires { at.bytes + length (Salvage.line keep number rows.rows) ≤ length out.old }
    ensures { TextWritten (Salvage.line keep number rows.rows) out.old at.bytes out.new result.bytes }
{
    let verdict = put_verdict(keep, out, at);
    let mut next = put_decimal(number, out, verdict.bytes);
    next = put(b' ', out, next);
    next = put_decimal(rows.rows as u64, out, next);
    next = put(b'\n', out, next);
    ByteOffset { bytes: next }
}
