// What stands for a group: its own bytes, or fixed delta runs of the fill row, 512 rows each and the remainder last.
ghost use Rattle.std.specs.Prelude.{◌≡◌, ◌+◌, ◌≤◌, length};
ghost use Rattle.format.specs.Rows.{as_u64};
ghost use Rattle.format.specs.Writing as Writing;
ghost use Rattle.salvage.specs.Steps.{run_of, filled, made};
ghost use Rattle.text.specs.Written.{TextWritten};

use crate::groups::Group;
use format::{ByteOffset, Kind, RowNumber};
use text::{put, put_word};
use util::{pattern, varint};

// The fill row as a run stores it: zigzagged if signed.
pub(crate) fn stored(fill: i64, signed: bool) -> u64
    ensures { result ≡ Writing.stored signed (as_u64 fill) }
{
    let bits = fill.cast_unsigned();
    if signed {
        pattern::zigzag_of(bits)
    } else {
        bits
    }
}

// How many bytes the runs of so many rows have, without writing them: one run for each 512 rows begun, all of one size.
fn runs_size(rows: RowNumber, first: u64) -> ByteOffset
    ensures { result.bytes ≡ length (filled first rows.rows) }
{
    let size = 3 + varint::size(first);
    ByteOffset {
        bytes: rows.rows.div_ceil(Kind::MAX_ROWS) * size,
    }
}

// One run: the two bytes of its header (kind 3, width code 0, rows less 1), the first row, and delta 0.
fn put_run(rows: RowNumber, first: u64, out: &mut [u8], at: ByteOffset) -> ByteOffset
    requires { (1 ≤ rows.rows) × (rows.rows ≤ 512) × (at.bytes + length (run_of first rows.rows) ≤ length out.old) }
    ensures { TextWritten (run_of first rows.rows) out.old at.bytes out.new result.bytes }
{
    let less = rows.rows - 1;
    let mut next = put((192 + less / 256) as u8, out, at.bytes);
    next = put((less % 256) as u8, out, next);
    next = varint::write(first, out, next);
    next = put(0, out, next);
    ByteOffset { bytes: next }
}

// The runs of a group that is replaced.
fn put_runs(rows: RowNumber, first: u64, out: &mut [u8], at: ByteOffset) -> ByteOffset
    requires { at.bytes + length (filled first rows.rows) ≤ length out.old }
    ensures { TextWritten (filled first rows.rows) out.old at.bytes out.new result.bytes }
{
    let full = RowNumber {
        rows: Kind::MAX_ROWS,
    };
    let mut place = at;
    for _ in 0..rows.rows / Kind::MAX_ROWS {
        place = put_run(full, first, out, place);
    }
    let rest = rows.rows % Kind::MAX_ROWS;
    if rest == 0 {
        return place;
    }
    put_run(RowNumber { rows: rest }, first, out, place)
}

// How many bytes stand for a group.
pub(crate) fn group_size(group: Group, first: u64) -> ByteOffset
    ensures { result.bytes ≡ length (made group.entry.keep group.entry.bytes.now first group.entry.rows.rows) }
{
    if group.keep {
        return ByteOffset {
            bytes: group.bytes.len(),
        };
    }
    runs_size(group.rows, first)
}

// A group's own bytes, or the runs in their place.
pub(crate) fn put_group(group: Group, first: u64, out: &mut [u8], at: ByteOffset) -> ByteOffset
    requires { at.bytes + length (made group.keep group.bytes.now first group.rows.rows) ≤ length out.old }
    ensures { TextWritten (made group.entry.keep group.entry.bytes.now first group.entry.rows.rows)
        out.old at.bytes out.new result.bytes }
{
    if group.keep {
        let end = put_word(group.bytes, out, at.bytes);
        return ByteOffset { bytes: end };
    }
    put_runs(group.rows, first, out, at)
}
