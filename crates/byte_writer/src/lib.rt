// The writer of byte runs: bytes as they are, or flags packed eight to a byte, highest bit first. A first pass measures. Only if there is
// room does a second write, straight into the output. Both ask one function for the next run.
#![tactic(auto)]

ghost use Rattle.std.specs.Prelude.{◌≡◌, ◌≤◌, length};
ghost use Rattle.byte_writer.specs.Choice.{written};
ghost use Rattle.byte_writer.specs.Flags.{flag_bytes, source};
ghost use Rattle.byte_writer.specs.Written.{in_front, BytesWritten, BooleansWritten};

use format::{Answer, ByteOffset, Kind, Refusal, RowNumber, Run};

mod run;
mod source;

// What writing bytes comes to: how many were taken, and how many their runs have.
#[derive(Clone, Copy)]
pub struct Written {
    pub rows: RowNumber,
    pub size: ByteOffset,
}

// The first pass: how many bytes the runs have.
fn measure(s: &[u8], packed: bool) -> usize
    ensures { result ≡ length (written (source packed s.now)) }
{
    let n = source::count(s, packed);
    let mut at = 0;
    let mut size = 0;
    while at < n {
        let next = run::next_at(s, packed, at);
        size += next.size();
        at += next.count();
    }
    size
}

// The second pass: the runs, in the first places.
fn lay(s: &[u8], packed: bool, out: &mut [u8])
    requires { length (written (source packed s.now)) ≤ length out.old }
    ensures { out.new ≡ in_front (written (source packed s.now)) out.old }
{
    let n = source::count(s, packed);
    let mut at = 0;
    let mut place = 0;
    while at < n {
        let next = run::next_at(s, packed, at);
        run::put(s, packed, at, next, out, place);
        place += next.size();
        at += next.count();
    }
}

// How many bytes `write_bytes` would write.
pub fn size_of_bytes(bytes: &[u8]) -> ByteOffset
    ensures { result.bytes ≡ length (written bytes.now) }
{
    ByteOffset {
        bytes: measure(bytes, false),
    }
}

// How many bytes `write_booleans` would write.
pub fn size_of_booleans(flags: &[u8]) -> ByteOffset
    ensures { result.bytes ≡ length (written (flag_bytes flags.now)) }
{
    ByteOffset {
        bytes: measure(flags, true),
    }
}

// Writes bytes as byte runs. Refusal 8: too few places, and nothing is written.
pub fn write_bytes(bytes: &[u8], out: &mut [u8]) -> Result<Written, Refusal>
    ensures { BytesWritten bytes.now out.old out.new result }
{
    let size = measure(bytes, false);
    if out.len() < size {
        return Err(Refusal::new(8, ByteOffset { bytes: 0 }));
    }
    lay(bytes, false, out);
    Ok(Written {
        rows: RowNumber { rows: bytes.len() },
        size: ByteOffset { bytes: size },
    })
}

// Writes flags as booleans: a flag other than 0 is true. Refusal 8: too few places, and nothing is written.
pub fn write_booleans(flags: &[u8], out: &mut [u8]) -> Answer
    ensures { BooleansWritten flags.now out.old out.new result }
{
    let size = measure(flags, true);
    if out.len() < size {
        return Err(Refusal::new(8, ByteOffset { bytes: 0 }));
    }
    lay(flags, true, out);
    Ok(Some(Run::new(
        Kind::Booleans,
        1,
        RowNumber { rows: flags.len() },
        ByteOffset { bytes: size },
    )))
}
