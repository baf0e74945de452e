// Direct: the two-byte header, then the rows packed at the header's width.
ghost use Rattle.std.specs.Prelude.{◌<◌, length};
ghost use Rattle.format.specs.Parse.{direct_run};
ghost use Rattle.rle_v2.specs.RunAt.{MeasuredAs, ReadAs};

use crate::{header, rows};
use format::{Answer, ByteOffset, Kind, Refusal, Run};
use util::{packed, width};

pub(crate) fn measure(input: &[u8], at: ByteOffset) -> Answer
    requires { at.bytes < length input.now }
    ensures { MeasuredAs direct_run input.now at.bytes result }
{
    let p = at.bytes;
    if input.len() - p < 2 {
        return Err(Refusal::new(1, at));
    }
    let h = header::two_bytes(input[p], input[p + 1]);
    let count = h.rows;
    let bits = width::bits_of(h.code);
    let body = p + 2;
    let size = packed::block_size(bits, count.rows);
    if input.len() - body < size {
        return Err(Refusal::cut(13, at, ByteOffset { bytes: body }));
    }
    Ok(Some(Run::new(Kind::Direct, bits, count, ByteOffset { bytes: 2 + size })))
}

pub(crate) fn read(input: &[u8], at: ByteOffset, signed: bool, out: &mut [i64]) -> Answer
    requires { at.bytes < length input.now }
    ensures { ReadAs direct_run input.now at.bytes signed out.old out.new result }
{
    let measured = measure(input, at);
    // no `?` and no `let Ok(Some(r)) = measured else`: the one makes the answer again (below), and the other's `else` has no fact that the
    // Option is None, so that the proof didn't close
    match measured {
        Ok(Some(r)) => {
            let count = r.rows;
            if out.len() < count.rows {
                return Err(Refusal::new(8, at));
            }
            let body = at.bytes + 2;
            packed::unpack(&input[body..], r.width, count.rows, out);
            rows::decode(signed, &mut out[..count.rows]);
            // as it is: an answer that is made again goes through memory in pieces
            measured
        }
        Err(_) => measured,
        Ok(None) => measured,
    }
}
