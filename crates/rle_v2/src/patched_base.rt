// Patched base: four header bytes, the base, packed values, and a list of patches for the values that need more bits.
ghost use Rattle.std.specs.Prelude.{◌≡◌, ◌++◌, map, ◌+◌, ◌*◌, ◌^◌, ◌≤◌, ◌<◌, length, drop};
ghost use Rattle.format.specs.Fields.{bytes_for};
ghost use Rattle.format.specs.Rows.{as_i64};
ghost use Rattle.format.specs.Parse.{patched_run};
ghost use Rattle.util.specs.Packed.{fields, Width};
ghost use Rattle.rle_v2.specs.Pass.{based};
ghost use Rattle.rle_v2.specs.PatchedHead.{InRange, IsWidths, IsParts, body_at, cut_body, IsFound, IsChecked};
ghost use Rattle.rle_v2.specs.PatchedHead.{Ready, patched_places};
ghost use Rattle.rle_v2.specs.RunAt.{run_at, MeasuredAs, ReadAs};

use crate::patch_list::PatchList;
use crate::{header, rows};
use format::{Answer, ByteOffset, Kind, Refusal, RowNumber, Run};
use util::{big_endian, packed, width};

// What the four header bytes say: width code, rows, base bytes, patch width code, gap width, list length.
#[derive(Clone, Copy)]
struct Header {
    code: u8,
    rows: RowNumber,
    base: usize,
    patch: u8,
    gap: usize,
    entries: usize,
}

// The widths in bits: of the values, the patches, and the list's entries.
#[derive(Clone, Copy)]
struct Widths {
    bits: usize,
    patch: usize,
    entry: usize,
}

// The first byte of the values and of the list, and the byte after it.
#[derive(Clone, Copy)]
struct Parts {
    values: ByteOffset,
    list: ByteOffset,
    end: ByteOffset,
}

// What the header of a patched base run says, and where its body stands: rows, base bytes and list length, the widths in bits, and the parts.
#[derive(Clone, Copy)]
struct Found {
    rows: RowNumber,
    base: usize,
    entries: usize,
    bits: usize,
    patch: usize,
    entry: usize,
    values: ByteOffset,
    list: ByteOffset,
    end: ByteOffset,
}

// Where the body's parts begin, and where it ends.
fn parts_of(at: ByteOffset, h: Header, w: Widths) -> Parts
    requires { (at.bytes < 2 ^ 63) × InRange h × IsWidths h w }
    ensures { IsParts at.bytes h result }
{
    let p = at.bytes;
    let rows = h.rows;
    let values = p + 4 + h.base;
    let list = values + packed::block_size(w.bits, rows.rows);
    let end = list + packed::block_size(w.entry, h.entries);
    Parts {
        values: ByteOffset { bytes: values },
        list: ByteOffset { bytes: list },
        end: ByteOffset { bytes: end },
    }
}

// The input ends in the body: in the base, in the values or in the list.
fn broke_off(len: ByteOffset, at: ByteOffset, q: Parts) -> Refusal
    requires { at.bytes + 4 ≤ len.bytes }
    ensures { result ≡ cut_body len.bytes at.bytes q.values.bytes q.list.bytes }
{
    let all = len.bytes;
    let p = at.bytes;
    let values = q.values;
    let list = q.list;
    if all < values.bytes {
        return Refusal::cut(6, at, ByteOffset { bytes: p + 4 });
    }
    if all < list.bytes {
        return Refusal::cut(13, at, values);
    }
    Refusal::cut(14, at, list)
}

// The body: that it is there.
fn body(input: &[u8], at: ByteOffset, h: Header, w: Widths) -> Result<Found, Refusal>
    requires { (at.bytes + 4 ≤ length input.now) × InRange h × IsWidths h w × (w.patch + h.gap ≤ 64) }
    ensures { IsFound input.now at.bytes (body_at h input.now at.bytes) result }
{
    let q = parts_of(at, h, w);
    let end = q.end;
    if input.len() < end.bytes {
        let len = ByteOffset { bytes: input.len() };
        return Err(broke_off(len, at, q));
    }
    let rows = h.rows;
    let values = q.values;
    let list = q.list;
    Ok(Found {
        rows,
        base: h.base,
        entries: h.entries,
        bits: w.bits,
        patch: w.patch,
        entry: w.entry,
        values,
        list,
        end,
    })
}

// What the header's widths refuse, before the body is read.
fn by_widths(input: &[u8], at: ByteOffset, h: Header) -> Result<Found, Refusal>
    requires { (at.bytes + 4 ≤ length input.now) × InRange h }
    ensures { IsFound input.now at.bytes (body_at h input.now at.bytes) result }
{
    let bits = width::bits_of(h.code);
    let patch = width::bits_of(h.patch);
    if 64 < patch + h.gap {
        return Err(Refusal::new(2, at));
    }
    let entry = width::entry_width(patch + h.gap);
    body(input, at, h, Widths { bits, patch, entry })
}

fn headed(input: &[u8], at: ByteOffset) -> Result<Found, Refusal>
    requires { at.bytes < length input.now }
    ensures { IsFound input.now at.bytes (run_at patched_run input.now at.bytes) result }
{
    let p = at.bytes;
    if input.len() - p < 4 {
        return Err(Refusal::new(1, at));
    }
    let h = header::two_bytes(input[p], input[p + 1]);
    let third = input[p + 2];
    let fourth = input[p + 3];
    let rows = h.rows;
    let base = (third / 32) as usize + 1;
    let gap = (fourth / 32) as usize + 1;
    let four = Header {
        code: h.code,
        rows,
        base,
        patch: third % 32,
        gap,
        entries: (fourth % 32) as usize,
    };
    by_widths(input, at, four)
}

// The patch list too passed its tests.
fn checked(input: &[u8], at: ByteOffset) -> Result<Found, Refusal>
    requires { at.bytes < length input.now }
    ensures { IsChecked input.now at.bytes (run_at patched_run input.now at.bytes) result }
{
    let f = headed(input, at)?;
    let from = f.list;
    let patches = PatchList {
        list: &input[from.bytes..],
        bits: f.entry,
        pw: f.patch,
        n: f.entries,
        width: f.bits,
        count: f.rows,
    };
    if let Some(number) = patches.refused_with() {
        return Err(Refusal::new(number, at));
    }
    Ok(f)
}

pub(crate) fn measure(input: &[u8], at: ByteOffset) -> Answer
    requires { at.bytes < length input.now }
    ensures { MeasuredAs patched_run input.now at.bytes result }
{
    let f = checked(input, at)?;
    let end = f.end;
    let consumed = ByteOffset {
        bytes: end.bytes - at.bytes,
    };
    Ok(Some(Run::new(Kind::PatchedBase, f.bits, f.rows, consumed)))
}

// The values with the base added, in their places.
fn lay(block: &[u8], bits: usize, n: RowNumber, base: u64, out: &mut [i64])
    requires width { Width bits }
    requires rows_bound { (n.rows ≤ 65536) × (n.rows ≤ length out.old) × (bytes_for (n.rows * bits) ≤ length block.now) }
    ensures { out.new
        ≡ based base (map as_i64 (fields bits n.rows block.now)) ++ drop n.rows out.old }
{
    packed::unpack(block, bits, n.rows, out);
    rows::add_base(base, &mut out[..n.rows]);
}

// The rows of a run that passed its tests.
fn put(input: &[u8], at: ByteOffset, f: Found, out: &mut [i64])
    requires { Ready input.now at.bytes f × (f.rows.rows ≤ length out.old) }
    ensures { out.new ≡ patched_places input.now at.bytes f out.old }
{
    let p = at.bytes;
    let rows = f.rows;
    let values = f.values;
    let from = f.list;
    let base = big_endian::base_value(input, p + 4, f.base);
    lay(&input[values.bytes..], f.bits, rows, base, out);
    let patches = PatchList {
        list: &input[from.bytes..],
        bits: f.entry,
        pw: f.patch,
        n: f.entries,
        width: f.bits,
        count: rows,
    };
    patches.put(out);
}

// Patched rows are never zigzag decoded, whatever the flag.
pub(crate) fn read(input: &[u8], at: ByteOffset, signed: bool, out: &mut [i64]) -> Answer
    requires { at.bytes < length input.now }
    ensures { ReadAs patched_run input.now at.bytes signed out.old out.new result }
{
    let f = checked(input, at)?;
    let rows = f.rows;
    if out.len() < rows.rows {
        return Err(Refusal::new(8, at));
    }
    put(input, at, f, out);
    let end = f.end;
    let consumed = ByteOffset {
        bytes: end.bytes - at.bytes,
    };
    Ok(Some(Run::new(Kind::PatchedBase, f.bits, rows, consumed)))
}
