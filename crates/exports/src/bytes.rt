// Rows as bytes: a run is read into rows of our own, and laid out as eight bytes each, lowest first.
ghost use Rattle.std.specs.Prelude.{◌≡◌, ◌++◌, map, ◌+◌, ◌*◌, ◌/◌, ◌<◌, ◌≤◌, length, take, drop, get_or, replicate, true};
ghost use Rattle.exports.specs.Room.{Enough};
ghost use Rattle.format.specs.Rows.{as_i64};
ghost use Rattle.format.specs.Digits.{lowest_first};
ghost use Rattle.exports.specs.RowBytes.{row_bytes, LoadedAs};

use format::{ByteOffset, Kind, RowNumber, answer};
use util::{big_endian, pattern};

// The eight bytes of x at a place, lowest first: one store.
fn put_row(x: u64, out: &mut [u8], at: ByteOffset)
    requires { at.bytes + 8 ≤ length out.old }
    ensures { out.new
        ≡ (take at.bytes out.old ++ lowest_first 8 x) ++ drop (at.bytes + 8) out.old }
{
    let p = at.bytes;
    out[p..p + 8].copy_from_slice(&x.to_le_bytes());
}

// The first rows, so many, eight bytes each.
fn put_rows(rows: &[i64], count: RowNumber, out: &mut [u8])
    requires { (count.rows ≤ length rows.now) × (8 * count.rows ≤ length out.old) }
    ensures { out.new ≡ row_bytes (take count.rows rows.now) ++ drop (8 * count.rows) out.old }
{
    for i in 0..count.rows {
        let row = rows[i];
        put_row(row.cast_unsigned(), out, ByteOffset { bytes: 8 * i });
    }
}

// So many equal rows, eight bytes each.
fn put_repeat(x: u64, count: RowNumber, out: &mut [u8])
    requires { 8 * count.rows ≤ length out.old }
    ensures { out.new ≡ row_bytes (map as_i64 (replicate count.rows x)) ++ drop (8 * count.rows) out.old }
{
    for i in 0..count.rows {
        put_row(x, out, ByteOffset { bytes: 8 * i });
    }
}

// A short repeat, whose one row goes straight into the bytes: what is tested before is the measure's.
pub(crate) fn read_repeat(input: &[u8], signed: bool, out: &mut [u8]) -> u64
    requires { (0 < length input.now) × (get_or input.now 0 0 / 64 ≡ 0) }
    ensures { LoadedAs input.now signed out.old out.new result }
{
    let measured = rle_v2::measure(input, ByteOffset { bytes: 0 });
    match measured {
        Ok(Some(r)) => {
            let count = r.rows;
            if out.len() / 8 < count.rows {
                return 8;
            }
            let x = pattern::row(signed, big_endian::read(input, 1, r.width / 8));
            put_repeat(x, count, out);
            answer::packed(measured)
        }
        Err(_) => answer::packed(measured),
        Ok(None) => answer::packed(measured),
    }
}

// Reads a run into the rows, of which there are enough for it, and lays them out as bytes.
pub(crate) fn read_by(input: &[u8], signed: bool, rows: &mut [i64], out: &mut [u8]) -> u64
    requires { Enough (length rows.old) input.now }
    ensures { LoadedAs input.now signed out.old out.new result }
{
    let places = (out.len() / 8).min(rows.len());
    let answer = rle_v2::read_run(input, ByteOffset::new(0), signed, &mut rows[..places]);
    put_rows(rows, answer::rows(answer), out);
    answer::packed(answer)
}

// Places for the rows of a short run, and of any. What stands in them is of no account.
pub(crate) fn few_rows() -> [i64; Kind::MAX_REPEAT] {
    [0; Kind::MAX_REPEAT]
}

pub(crate) fn all_rows() -> [i64; Kind::MAX_ROWS] {
    [0; Kind::MAX_ROWS]
}

// Whether ten rows are enough for the run that the input begins with, which is no short repeat: its header says ten rows at most.
pub(crate) fn is_short(input: &[u8]) -> bool
    ensures { result ≡ true → Enough 10 input.now }
{
    if input.len() < 2 {
        return false;
    }
    input[0] % 2 == 0 && input[1] < Kind::MAX_REPEAT as u8
}
