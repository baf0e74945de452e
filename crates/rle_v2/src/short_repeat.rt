// Short repeat: 2 bits kind, 3 bits size-1, 3 bits count-3; then the value's bytes.
ghost use Rattle.std.specs.Prelude.{◌<◌, length, get_or};
ghost use Rattle.format.specs.Parse.{short_run};
ghost use Rattle.rle_v2.specs.RunAt.{MeasuredAs, ReadAs};

use crate::rows;
use format::{Answer, ByteOffset, Kind, Refusal, RowNumber, Run};
use util::{big_endian, pattern};

pub(crate) fn measure(input: &[u8], at: ByteOffset) -> Answer
    requires { (at.bytes < length input.now) × (get_or input.now at.bytes 0 < 64) }
    ensures { MeasuredAs short_run input.now at.bytes result }
{
    let p = at.bytes;
    let header = input[p] as usize;
    let size = header / 8 + 1;
    let count = header % 8 + Kind::MIN_REPEAT;
    let body = p + 1;
    if input.len() - body < size {
        return Err(Refusal::cut(6, at, ByteOffset { bytes: body }));
    }
    Ok(Some(Run::new(
        Kind::ShortRepeat,
        8 * size,
        RowNumber { rows: count },
        ByteOffset { bytes: 1 + size },
    )))
}

pub(crate) fn read(input: &[u8], at: ByteOffset, signed: bool, out: &mut [i64]) -> Answer
    requires { (at.bytes < length input.now) × (get_or input.now at.bytes 0 < 64) }
    ensures { ReadAs short_run input.now at.bytes signed out.old out.new result }
{
    let measured = measure(input, at);
    // no `?` and no `let Ok(Some(r)) = measured else`: the one makes the answer again (below), and the other's `else` has no fact that the
    // Option is None, so that the proof didn't close
    match measured {
        Ok(Some(r)) => {
            let count = r.rows;
            if out.len() < count.rows {
                return Err(Refusal::new(8, at));
            }
            let value = pattern::row(signed, big_endian::read(input, at.bytes + 1, r.width / 8));
            rows::repeat(value, &mut out[..count.rows]);
            // as it is: an answer that is made again goes through memory in pieces
            measured
        }
        Err(_) => measured,
        Ok(None) => measured,
    }
}
