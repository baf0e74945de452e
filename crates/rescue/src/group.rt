// A group: its position made plain, whether it is kept, and its rows.
ghost use Rattle.std.specs.Prelude.{◌≡◌, length, replicate, Some};
ghost use Rattle.batches.specs.BatchPromise.{position_in};
ghost use Rattle.rescue.specs.Rescue.{at, made_plain, meets};
ghost use Rattle.rescue.specs.RescueSteps.{plain_in, GroupRead, GroupRescued};

use batches::RowPosition;
use format::ByteOffset;

// Makes a position plain: whole runs are passed while there are at least as many rows to skip. With none left, no run is looked at. The walk
// is that of `batches::seek`, which promises the same batches and not, as here, the position itself (plain_in): one for both would be a new
// public function of batches.
pub(crate) fn make_plain(input: &[u8], from: RowPosition) -> Option<RowPosition>
    ensures { result ≡ plain_in (made_plain input.now (position_in from)) }
{
    let run = from.run;
    let skip = from.skip;
    let mut place = run.bytes;
    let mut left = skip.rows;
    while 0 < left {
        // a refused run is passed no more than the end
        let Some(run) = rle_v2::measure(input, ByteOffset { bytes: place }).unwrap_or(None) else {
            return None;
        };
        let rows = run.rows;
        let consumed = run.consumed;
        if left < rows.rows {
            return Some(crate::row_position(place, left));
        }
        left -= rows.rows;
        place += consumed.bytes;
    }
    Some(crate::row_position(place, 0))
}

// Whether two positions are equal. No derive: the format's units have no PartialEq.
fn same(p: RowPosition, q: RowPosition) -> bool
    ensures { result ≡ meets (at (position_in p)) (at (position_in q)) }
{
    let run = p.run;
    let skip = p.skip;
    let to_run = q.run;
    let to_skip = q.skip;
    run.bytes == to_run.bytes && skip.rows == to_skip.rows
}

// Reads as many rows as there are places, from one plain position on. Answers whether all are there and end at the other position.
fn read(input: &[u8], from: RowPosition, to: RowPosition, signed: bool, out: &mut [i64]) -> bool
    ensures { GroupRead input.now (Some from) (Some to) signed out.old out.new result }
{
    if out.is_empty() {
        return same(from, to);
    }
    match batches::read_rows(input, from, signed, out) {
        Ok(Some(read)) => {
            let rows = read.rows;
            rows.rows == out.len() && same(read.next, to)
        }
        // two arms: a `_` for both does not tell the proof that the answer is none
        Ok(None) => false,
        Err(_) => false,
    }
}

// The same, but either position may be nowhere: then nothing is read.
fn read_between(
    input: &[u8],
    from: Option<RowPosition>,
    to: Option<RowPosition>,
    signed: bool,
    out: &mut [i64],
) -> bool
    ensures { GroupRead input.now from to signed out.old out.new result }
{
    match (from, to) {
        (Some(p), Some(q)) => read(input, p, q, signed, out),
        _ => false,
    }
}

// Puts the same row into every place. By index, and no `fill` of the library: the edit short_rows_left begins one place late.
fn fill_all(row: i64, out: &mut [i64])
    ensures { out.new ≡ replicate (length out.old) row }
{
    for i in 0..out.len() {
        out[i] = row;
    }
}

// A group of as many rows as there are places, from its position made plain to the next one's. Answers whether it is kept: its rows are
// then in the places, and otherwise the fill row is in each.
pub(crate) fn rescue(
    input: &[u8],
    from: Option<RowPosition>,
    to: Option<RowPosition>,
    signed: bool,
    fill: i64,
    out: &mut [i64],
) -> bool
    ensures { GroupRescued input.now from to signed fill out.old out.new result }
{
    if read_between(input, from, to, signed, out) {
        return true;
    }
    // overwrites what was read of a group that is cut short
    fill_all(fill, out);
    false
}
