// A part of a direct run: its rows from a row on, straight into their places, without the rows before them and after them.
ghost use Rattle.std.specs.Prelude.{◌+◌, ◌%◌, ◌≤◌};
ghost use Rattle.rle_v2.specs.Part.{PartThere, PartPut, DirectPartRead};

use crate::{direct, rows};
use format::{ByteOffset, RowNumber, Run};
use util::packed;

// n fields after the first `skip`, all of one eight: that eight, which begins with a byte, is unpacked aside up to the last of them.
fn lay_in_eight(s: &[u8], w: usize, count: usize, skip: usize, n: usize, out: &mut [i64])
    requires part_there { PartThere w count skip n s.now out.old }
    requires n_bound { skip % 8 + n ≤ 8 }
    ensures { PartPut w count skip n s.now out.old out.new }
{
    let begun = skip % 8;
    let mut eight = [0; 8];
    packed::unpack(&s[skip / 8 * w..], w, begun + n, &mut eight);
    out[..n].copy_from_slice(&eight[begun..begun + n]);
}

// n fields after the first `skip`: those before the next eight, and then the others, which begin with a byte.
fn lay(s: &[u8], w: usize, count: usize, skip: usize, n: usize, out: &mut [i64])
    requires { PartThere w count skip n s.now out.old }
    ensures { PartPut w count skip n s.now out.old out.new }
{
    let head = n.min((8 - skip % 8) % 8);
    lay_in_eight(s, w, count, skip, head, out);
    if head < n {
        packed::unpack(&s[(skip + head) / 8 * w..], w, n - head, &mut out[head..]);
    }
}

// The rows of the direct run at a byte, from row `skip` on, as many as there are places; the answer is that run. If no direct run with such
// a row begins there, it is none, and no place is touched.
pub fn read(
    input: &[u8],
    at: ByteOffset,
    skip: RowNumber,
    signed: bool,
    out: &mut [i64],
) -> Option<Run>
    ensures { DirectPartRead input.now at.bytes skip.rows signed out.old out.new result }
{
    let p = at.bytes;
    if input.len() <= p || input[p] / 64 != 1 {
        return None;
    }
    // no `let Ok(Some(r)) = .. else`: tried, and its `else` has no fact that the Option is None, so that the proof didn't close
    match direct::measure(input, at) {
        Ok(Some(r)) => {
            let count = r.rows;
            if count.rows <= skip.rows {
                return None;
            }
            let n = out.len().min(count.rows - skip.rows);
            lay(&input[p + 2..], r.width, count.rows, skip.rows, n, out);
            rows::decode(signed, &mut out[..n]);
            Some(r)
        }
        Err(_) => None,
        Ok(None) => None,
    }
}
