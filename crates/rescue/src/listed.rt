// The columns that list the groups, as C lends them: their order, their sum, and a position by its number.
ghost use Rattle.std.specs.Prelude.{◌≡◌, length, ltb};
ghost use Rattle.batches.specs.BatchPromise.{position_in};
ghost use Rattle.rescue.specs.Rescue.{positions, not_after, in_order, sum};
ghost use Rattle.rescue.specs.RescueSteps.{position_at};

use batches::RowPosition;
use format::{ByteOffset, RowNumber};

// The position of a group by its number. After the last group it is the input's end.
pub(crate) fn position_at(end: ByteOffset, runs: &[u64], skips: &[u64], i: usize) -> RowPosition
    requires { length skips.now ≡ length runs.now }
    ensures { result ≡ position_at end.bytes runs.now skips.now i }
{
    if i < runs.len() {
        return crate::row_position(runs[i] as usize, skips[i] as usize);
    }
    crate::row_position(end.bytes, 0)
}

// Whether one position is not after another: its byte is lower, or the bytes are equal and it skips no more rows. No derive: the format's
// units have no order.
fn not_after(p: RowPosition, q: RowPosition) -> bool
    ensures { result ≡ not_after (position_in p) (position_in q) }
{
    let run = p.run;
    let skip = p.skip;
    let to_run = q.run;
    let to_skip = q.skip;
    // three tests with a branch each, for speed: positions mostly rise by their bytes, and of `||` and `&&` all three are made for each
    if run.bytes < to_run.bytes {
        return true;
    }
    if run.bytes != to_run.bytes {
        return false;
    }
    skip.rows <= to_skip.rows
}

// Whether the positions are in order: the first is (0, 0), no byte falls or passes the end, and at the same byte no skip falls. An empty
// list is in order only if the input is empty.
pub(crate) fn in_order(end: ByteOffset, runs: &[u64], skips: &[u64]) -> bool
    requires { length skips.now ≡ length runs.now }
    ensures { result ≡ in_order end.bytes (positions runs.now skips.now) }
{
    if runs.is_empty() {
        return end.bytes == 0;
    }
    if runs[0] != 0 || skips[0] != 0 {
        return false;
    }
    let mut last = crate::row_position(0, 0);
    for i in 1..runs.len() {
        let next = position_at(end, runs, skips, i);
        if !not_after(last, next) {
            return false;
        }
        last = next;
    }
    let run = last.run;
    run.bytes <= end.bytes
}

// Whether the counts add up to more than there are places. Each is compared with the places that are left, so no sum can pass 2^64.
pub(crate) fn too_many(counts: &[u64], places: RowNumber) -> bool
    ensures { result ≡ ltb places.rows (sum counts.now) }
{
    let mut left = places.rows as u64;
    for n in counts {
        if left < *n {
            return true;
        }
        left -= *n;
    }
    false
}
