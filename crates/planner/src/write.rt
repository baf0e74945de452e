// What is written: the runs of a proposal that the check accepts, or direct runs of 64 bits.
ghost use Rattle.std.specs.Prelude.{◌≡◌, true, map, ◌+◌, ◌*◌, ◌/◌, ◌≤◌, min, length, take, drop, leb, ltb};
ghost use Rattle.format.specs.Runs.{joined};
ghost use Rattle.format.specs.Rows.{as_u64};
ghost use Rattle.format.specs.Writing.{writing, AllI64};
ghost use Rattle.planner.specs.Check as Check;
ghost use Rattle.planner.specs.Check.{accepted, segments};
ghost use Rattle.planner.specs.Walk.{columns, Ran, ColumnLaid, WideLaid};

use crate::segment::Proposal;
use crate::{Columned, segment};
use format::{ByteOffset, Form, Kind, RowNumber, answer};

// The width code of 64 bits.
pub(crate) const WIDEST: u8 = 31;

// The runs of a proposal, one behind the other.
pub(crate) fn planned(rows: &[i64], signed: bool, p: Proposal, out: &mut [u8])
    requires { accepted signed rows.now (columns p) (length out.old)
        ≡ true }
    ensures { ColumnLaid
        (Check.runs signed rows.now
        (segments (columns p.entry)))
        out.old out.new }
{
    let mut row: usize = 0;
    let mut bytes: usize = 0;
    for k in 0..p.first.len() {
        let s = p.at(k);
        let at = RowNumber { rows: row };
        let n = segment::step(rows, signed, at, s, &mut out[bytes..]).bytes;
        row += s.count as usize;
        bytes += n;
    }
}

// Whether the direct runs of so many rows have room: two bytes a run and eight a row.
pub(crate) fn wide_fits(rows: RowNumber, room: ByteOffset) -> bool
    ensures { result ≡ leb (2 * ((rows.rows + 511) / 512) + 8 * rows.rows) room.bytes }
{
    let n = rows.rows;
    let limit = room.bytes;
    if limit / 8 < n {
        return false;
    }
    let runs = n.div_ceil(Kind::MAX_ROWS);
    2 * runs <= limit - 8 * n
}

// Whether so many bytes are more than those of the direct runs.
pub(crate) fn is_longer(bytes: ByteOffset, rows: RowNumber) -> bool
    ensures { result ≡ ltb (2 * ((rows.rows + 511) / 512) + 8 * rows.rows) bytes.bytes }
{
    let size = bytes.bytes;
    if size == 0 {
        return false;
    }
    wide_fits(rows, ByteOffset { bytes: size - 1 })
}

// Every row is an i64: what is read of the slice is known to be one. Nothing else comes of the loop, and the compiler drops it.
pub(crate) fn know(rows: &[i64])
    ensures { AllI64 rows.now }
{
    for &z in rows {}
}

// The rows of the next direct run, of so many that are left.
pub(crate) fn part_rows(left: RowNumber) -> RowNumber
    ensures { result.rows ≡ min 512 left.rows }
{
    RowNumber {
        rows: left.rows.min(Kind::MAX_ROWS),
    }
}

// Some rows as a direct run of 64 bits: its bytes.
fn wide_run(rows: &[i64], signed: bool, at: RowNumber, n: RowNumber, out: &mut [u8]) -> ByteOffset
    requires { at.rows + n.rows ≤ length rows.now }
    ensures { Ran (writing signed Form.Direct 31 (map as_u64 (take n.rows (drop at.rows rows.now)))
        (length out.old)) out.old out.new result.bytes }
{
    let row = at.rows;
    let count = n.rows;
    let a = writer::write_run(&rows[row..row + count], signed, Form::Direct, WIDEST, out);
    answer::consumed(a)
}

// The direct runs, 512 rows each and the rest last. (No `for`: besides the rows it moves the place in the lent bytes, by what each run takes.)
pub(crate) fn wide(rows: &[i64], signed: bool, out: &mut [u8]) -> Columned
    requires { length (joined (Check.wide signed rows.now)) ≤ length out.old }
    ensures { WideLaid signed rows.now out.old out.new result }
{
    know(rows);
    let mut runs: usize = 0;
    let mut row: usize = 0;
    let mut bytes: usize = 0;
    while row < rows.len() {
        let left = rows.len() - row;
        let n = part_rows(RowNumber { rows: left });
        let count = n.rows;
        let at = RowNumber { rows: row };
        let size = wide_run(rows, signed, at, n, &mut out[bytes..]).bytes;
        runs += 1;
        row += count;
        bytes += size;
    }
    Columned {
        runs,
        rows: RowNumber { rows: row },
        bytes: ByteOffset { bytes },
    }
}
