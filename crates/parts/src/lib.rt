// The reader in parts (FORMAT.md, "Reader in parts"): it takes the input in parts and hands out one run at a time.
#![tactic(auto)]

ghost use Rattle.std.specs.Prelude.{◌≡◌, ◌+◌, ◌-◌, ◌/◌, ◌<◌, ◌≤◌, length};
ghost use Rattle.format.specs.Parts.{fresh, Takes, Closes};
ghost use Rattle.parts.specs.Steps.{Begun, Joins, Goes, goes};

use format::{ByteOffset, Kind, PartAnswer, PartReader, PartStep, Standing};
use util::bytes;

mod steps;

// A reader that has taken nothing.
pub fn start() -> PartReader
    ensures { result ≡ fresh }
{
    PartReader {
        held: 0,
        at: ByteOffset { bytes: 0 },
        standing: Standing::Opened,
    }
}

// A patched or delta run that began before the part, read in the lent bytes: the part's first k bytes are copied after the h bytes held.
// `begun` and `in_bounds` stay clauses of the four functions, and their parameters apart: the facts are on the lengths of the part, the lent
// bytes and the places, which the caller lends. A struct of held and more would need the same clause to say whose they are.
fn join(
    reader: PartReader,
    part: &[u8],
    held: ByteOffset,
    more: ByteOffset,
    signed: bool,
    buffer: &mut [u8],
    out: &mut [i64],
) -> PartStep
    requires in_bounds { 512 ≤ length out.old }
    requires begun { Begun reader part.now buffer.old held.bytes more.bytes }
    ensures { Joins reader part.now buffer.old buffer.new held.bytes more.bytes signed
        out.old out.new result (goes reader part.now buffer.old) }
{
    let h = held.bytes;
    let k = more.bytes;
    bytes::lay(&part[..k], &mut buffer[h..h + k]);
    let a = rle_v2::read_run(&buffer[..h + k], ByteOffset { bytes: 0 }, signed, out);
    steps::on_part(
        reader,
        held,
        ByteOffset { bytes: h + k },
        ByteOffset { bytes: part.len() },
        a,
    )
}

// The same, but a call that refuses puts back what stood after the bytes held.
fn join_or_restore(
    reader: PartReader,
    part: &[u8],
    held: ByteOffset,
    more: ByteOffset,
    signed: bool,
    buffer: &mut [u8],
    saved: &mut [u8],
    out: &mut [i64],
) -> PartStep
    requires in_bounds { 512 ≤ length out.old }
    requires bytes_in_bounds { more.bytes ≤ length saved.old }
    requires begun { Begun reader part.now buffer.old held.bytes more.bytes }
    ensures { Goes reader part.now buffer.old buffer.new signed out.old
        out.new result (goes reader part.now buffer.old) }
{
    let h = held.bytes;
    let k = more.bytes;
    bytes::lay(&buffer[h..h + k], &mut saved[..k]);
    let step = join(reader, part, held, more, signed, buffer, out);
    if steps::is_refused(step) {
        bytes::lay(&saved[..k], &mut buffer[h..h + k]);
    }
    step
}

// The same, with so many places for what is overwritten. A call of its own: the caller would have all these places on its stack, and lay
// zeros into them before it knows how many it wants.
#[inline(never)]
fn restoring_by<const N: usize>(
    reader: PartReader,
    part: &[u8],
    held: ByteOffset,
    more: ByteOffset,
    signed: bool,
    buffer: &mut [u8],
    out: &mut [i64],
) -> PartStep
    requires in_bounds { 512 ≤ length out.old }
    requires bytes_in_bounds { (more.bytes ≤ N) × (N ≤ 4356) }
    requires begun { Begun reader part.now buffer.old held.bytes more.bytes }
    ensures { Goes reader part.now buffer.old buffer.new signed out.old
        out.new result (goes reader part.now buffer.old) }
{
    let mut saved = [0; N];
    join_or_restore(reader, part, held, more, signed, buffer, &mut saved, out)
}

// Zeros are laid into the places for what is overwritten at each call, so a short part has fewer of them.
fn restoring(
    reader: PartReader,
    part: &[u8],
    held: ByteOffset,
    more: ByteOffset,
    signed: bool,
    buffer: &mut [u8],
    out: &mut [i64],
) -> PartStep
    requires in_bounds { 512 ≤ length out.old }
    requires begun { Begun reader part.now buffer.old held.bytes more.bytes }
    ensures { Goes reader part.now buffer.old buffer.new signed out.old
        out.new result (goes reader part.now buffer.old) }
{
    if more.bytes <= 128 {
        return restoring_by::<128>(reader, part, held, more, signed, buffer, out);
    }
    restoring_by::<{ Kind::MAX_BYTES }>(reader, part, held, more, signed, buffer, out)
}

// A patched or delta run that began before the part. If its front is held, that and the length tell whether it stays unfinished: then what
// stands after the bytes held does not matter. Otherwise the call may refuse.
fn begun(
    reader: PartReader,
    part: &[u8],
    held: ByteOffset,
    more: ByteOffset,
    signed: bool,
    buffer: &mut [u8],
    out: &mut [i64],
) -> PartStep
    requires in_bounds { 512 ≤ length out.old }
    requires begun { Begun reader part.now buffer.old held.bytes more.bytes }
    ensures { Goes reader part.now buffer.old buffer.new signed out.old
        out.new result (goes reader part.now buffer.old) }
{
    let h = held.bytes;
    let k = more.bytes;
    if Kind::MAX_FRONT <= h {
        let a = rle_v2::measure(&buffer[..h + k], ByteOffset { bytes: 0 });
        if steps::is_cut(a) {
            bytes::lay(&part[..k], &mut buffer[h..h + k]);
            let seen = ByteOffset { bytes: h + k };
            return steps::hold(reader, seen, ByteOffset { bytes: part.len() });
        }
        if steps::is_whole(a) {
            if 3 <= buffer[0] / 64 {
                // a delta run's front tells that it is not refused
                return join(reader, part, held, more, signed, buffer, out);
            }
        }
        return restoring(reader, part, held, more, signed, buffer, out);
    }
    restoring(reader, part, held, more, signed, buffer, out)
}

// A call with a part of an open reader, with room enough.
fn opened(
    reader: PartReader,
    part: &[u8],
    signed: bool,
    buffer: &mut [u8],
    out: &mut [i64],
) -> PartStep
    requires in_bounds { 512 ≤ length out.old }
    requires in_bounds_2 { 4356 ≤ length buffer.old }
    ensures { Goes reader part.now buffer.old buffer.new signed out.old
        out.new result (goes reader part.now buffer.old) }
{
    let h = reader.held.min(buffer.len());
    let n = part.len();
    let all = ByteOffset { bytes: n };
    if h == 0 {
        // a run that lies whole in its part is read from there
        let a = rle_v2::read_first(part, signed, out);
        let step = steps::on_part(reader, ByteOffset { bytes: 0 }, all, all, a);
        let kept = step.reader.held;
        // asked first: a step that is held over a call goes through memory
        if kept == 0 {
            return step;
        }
        bytes::lay(&part[..kept], &mut buffer[..kept]);
        return step;
    }
    let held = ByteOffset { bytes: h };
    let k = n.min(Kind::MAX_BYTES.saturating_sub(h));
    if 2 <= buffer[0] / 64 {
        let more = ByteOffset { bytes: k };
        return begun(reader, part, held, more, signed, buffer, out);
    }
    // a short repeat or a direct run is never refused, only unfinished
    bytes::lay(&part[..k], &mut buffer[h..h + k]);
    let a = rle_v2::read_gathered(&buffer[..h + k], signed, out);
    let seen = ByteOffset { bytes: h + k };
    steps::on_part(reader, held, seen, all, a)
}

// One call with a part: it is taken up to the end of a run, which is handed out, or all of it; a call that refuses takes nothing. For fewer
// than 512 places or 4,356 lent bytes the answer is refusal 8, and the call may be made again.
pub fn take(
    reader: PartReader,
    part: &[u8],
    signed: bool,
    buffer: &mut [u8],
    out: &mut [i64],
) -> PartStep
    ensures { Takes reader part.now buffer.old buffer.new signed out.old
        out.new result }
{
    if out.len() < Kind::MAX_ROWS {
        return steps::too_few(reader);
    }
    if buffer.len() < Kind::MAX_BYTES {
        return steps::too_few(reader);
    }
    let standing = reader.standing;
    match standing {
        Standing::Broken(f) => steps::idle(reader, PartAnswer::Refused(f)),
        Standing::Closed => steps::idle(reader, PartAnswer::End),
        Standing::Opened => opened(reader, part, signed, buffer, out),
    }
}

// The closing call: the stream's end, or the refusal of the run that is unfinished.
pub fn close(reader: PartReader, signed: bool, buffer: &[u8], out: &mut [i64]) -> PartStep
    ensures { Closes reader buffer.now signed out.old out.new result }
{
    if out.len() < Kind::MAX_ROWS {
        return steps::too_few(reader);
    }
    if buffer.len() < Kind::MAX_BYTES {
        return steps::too_few(reader);
    }
    let standing = reader.standing;
    match standing {
        Standing::Broken(f) => steps::idle(reader, PartAnswer::Refused(f)),
        Standing::Closed => steps::idle(reader, PartAnswer::End),
        Standing::Opened => {
            let h = reader.held.min(buffer.len());
            let a = rle_v2::read_run(&buffer[..h], ByteOffset { bytes: 0 }, signed, out);
            steps::on_close(reader, a)
        }
    }
}
