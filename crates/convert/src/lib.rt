// The converter to kept widths (FORMAT.md, "Converter"). It walks the stream twice: first without a place to write to, since nothing is
// written on a refusal, wherever in the stream it stands; then it writes.
#![tactic(auto)]

ghost use Rattle.std.specs.Prelude.{◌≡◌, ◌≤◌, Ok, length};
ghost use Rattle.convert.specs.Convert.{done, Converts};
ghost use Rattle.convert.specs.Walk.{counted, finished, Put, Within, Lays, Walked};

use format::{ByteOffset, Refusal};

mod turn;

// What was converted: how many runs were altered, and how many bytes the stream now has.
#[derive(Clone, Copy)]
pub struct Conversion {
    pub altered: usize,
    pub bytes: ByteOffset,
}

impl Conversion {
    pub fn new(altered: usize, bytes: ByteOffset) -> Self
        ensures { Ok result ≡ done altered bytes.bytes }
    {
        Conversion { altered, bytes }
    }
}

// One altered run or none.
fn count(odd: bool) -> usize
    ensures { result ≡ counted odd }
{
    usize::from(odd)
}

// The first n bytes of a run at a place of the output, where it has room: the first walk has none.
fn put(run: &[u8], n: ByteOffset, out: &mut [u8], at: ByteOffset)
    requires { n.bytes ≤ length run.now }
    ensures { Put run.now n.bytes at.bytes out.old out.new }
{
    let size = n.bytes;
    let place = at.bytes;
    if out.len() < place {
        return;
    }
    if out.len() - place < size {
        return;
    }
    out[place..place + size].copy_from_slice(&run[..size]);
}

// The first n bytes of a run behind those that are laid, in so much room: where the bytes end then. None is no room, now or before.
fn lay(
    run: &[u8],
    n: ByteOffset,
    at: Option<ByteOffset>,
    room: ByteOffset,
    out: &mut [u8],
) -> Option<ByteOffset>
    requires { (n.bytes ≤ length run.now) × Within at room.bytes }
    ensures { Lays run.now n.bytes at room.bytes out.old out.new result }
{
    let end = at?;
    let filled = end.bytes;
    let size = n.bytes;
    let all = room.bytes;
    if all - filled < size {
        return None;
    }
    put(run, n, out, end);
    Some(ByteOffset {
        bytes: filled + size,
    })
}

fn finish(altered: usize, at: Option<ByteOffset>) -> Result<Conversion, Refusal>
    ensures { result ≡ finished altered at }
{
    let Some(end) = at else {
        return Err(Refusal::new(8, ByteOffset { bytes: 0 }));
    };
    Ok(Conversion::new(altered, end))
}

// Every run of the stream, converted, one behind the other in so much room. Where the output is not that long, only the answer counts.
fn walk(input: &[u8], signed: bool, room: ByteOffset, out: &mut [u8]) -> Result<Conversion, Refusal>
    ensures { Walked signed input.now room.bytes out.old out.new result }
{
    let start = Some(ByteOffset { bytes: 0 });
    // before the places for a run are cleared
    if input.is_empty() {
        return finish(0, start);
    }
    let mut run = turn::bytes_room();
    let mut p: usize = 0;
    let mut altered: usize = 0;
    let mut at = start;
    while let Some(t) = turn::convert_run(input, ByteOffset { bytes: p }, signed, &mut run)? {
        at = lay(&run, t.given, at, room, out);
        altered += count(t.odd);
        p += t.taken.bytes;
    }
    finish(altered, at)
}

// Replaces each direct or packed delta run of an odd width by the writer's run of the same rows at the next kept width, and copies every
// other run. The stream's own refusal comes first, then 8; nothing is written on either.
pub fn convert(input: &[u8], signed: bool, out: &mut [u8]) -> Result<Conversion, Refusal>
    ensures { Converts signed input.now out.old out.new result }
{
    let n = out.len();
    let room = ByteOffset { bytes: n };
    walk(input, signed, room, &mut out[n..])?;
    walk(input, signed, room, out)
}
