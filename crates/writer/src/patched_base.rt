// Patched base: four header bytes, the base, packed values, and a list of patches for the values that need more bits.
ghost use Rattle.std.specs.Prelude.{◌≡◌, true, ◌++◌, map, ◌-◌, ◌*◌, ◌^◌, ◌<◌, ◌≤◌, length, drop};
ghost use Rattle.format.specs.Kept.{is_kept_width};
ghost use Rattle.format.specs.Rows.{as_u64};
ghost use Rattle.format.specs.PatchedWriting as PatchedWriting;
ghost use Rattle.format.specs.PatchedWriting.{base_size, PatchedWritten};
ghost use Rattle.writer.specs.PatchedBase.{sign_magnitude, headed, head_bytes, Ready, CodeOf, HeaderOf, PatchedLaid};

use crate::{head, patch_list, values};
use format::{ALL_BITS, Answer, ByteOffset, Kind, RowNumber, Run, TOP_BIT};
use util::{big_endian, packed, width};

// What the four header bytes say: width code, rows, base bytes, patch width code, gap width, list length.
#[derive(Clone, Copy)]
struct Header {
    code: u8,
    rows: RowNumber,
    base: ByteOffset,
    patch: u8,
    gap: usize,
    entries: usize,
}

// The code of a width in bits that is in the table.
fn table_code(bits: usize) -> Option<u8>
    ensures { CodeOf bits result }
{
    if 64 < bits {
        return None;
    }
    let code = width::code_of(bits);
    if width::bits_of(code) == bits {
        Some(code)
    } else {
        None
    }
}

// Whether a width in bits is kept.
fn is_kept(bits: usize) -> bool
    ensures { result ≡ is_kept_width bits }
{
    match table_code(bits) {
        Some(code) => width::is_kept(code),
        None => false,
    }
}

// The base without its sign, as the definition has it (PatchedWriting.magnitude), of the pattern and not of the signed number.
fn magnitude(base: u64) -> u64
    ensures { result ≡ PatchedWriting.magnitude base }
{
    if base < TOP_BIT {
        base
    } else {
        ALL_BITS - base + 1
    }
}

// The bytes that hold the base and its sign bit: 9 for -2^63, which eight don't hold.
fn base_size(base: u64) -> ByteOffset
    ensures { result.bytes ≡ base_size base }
{
    let bytes = values::bit_length(magnitude(base)) / 8 + 1;
    ByteOffset { bytes }
}

// The base as it is stored in that many bytes: the top bit is the sign, and 0 has none.
fn sign_magnitude(base: u64, size: ByteOffset) -> u64
    requires { (1 ≤ size.bytes) × (size.bytes ≤ 8) × (PatchedWriting.magnitude base < 2 ^ (8 * size.bytes - 1)) }
    ensures { result ≡ sign_magnitude base size.bytes }
{
    let bytes = size.bytes;
    if base < TOP_BIT {
        return base;
    }
    (1 << (8 * bytes - 1)) + magnitude(base)
}

// The header for the rows, with the values and the list that it describes, if a header describes them. A patch of 64 bits leaves no bit for a
// gap.
fn header_of(
    rows: &[i64],
    base: u64,
    bits: usize,
    vals: &mut [u64],
    list: &mut [u64],
) -> Option<Header>
    requires { (1 ≤ length rows.now) × (length rows.now ≤ 512) × (length rows.now ≤ length vals.old)
        × (length list.old ≡ 31) }
    ensures { HeaderOf base bits (map as_u64 rows.now) vals.new list.new result }
{
    let n = rows.len();
    let count = RowNumber { rows: n };
    let code = table_code(bits)?;
    let size = base_size(base).bytes;
    if 8 < size {
        return None;
    }
    values::differences(rows, base, vals);
    let patch = width::narrowest_code(values::above(values::largest(&vals[..n]), bits));
    let pw = width::bits_of(patch);
    if pw == 64 {
        return None;
    }
    let entries = patch_list::fill(vals, count, bits, pw, list)?;
    let gap = patch_list::gap_width(values::largest(&list[..entries]) >> pw);
    values::keep_low(vals, count, bits);
    Some(Header {
        code,
        rows: count,
        base: ByteOffset { bytes: size },
        patch,
        gap,
        entries,
    })
}

// The four header bytes.
fn write_head(h: Header, out: &mut [u8])
    requires { (h.code < 32) × (1 ≤ h.rows.rows) × (h.rows.rows ≤ 512) × (1 ≤ h.base.bytes) × (h.base.bytes ≤ 8)
        × (h.patch < 32) × (1 ≤ h.gap) × (h.gap ≤ 8) × (h.entries ≤ 31) × (4 ≤ length out.old) }
    ensures { out.new ≡ head_bytes h ++ drop 4 out.old }
{
    head::write(2, h.code, h.rows, out);
    out[2] = ((h.base.bytes - 1) * 32) as u8 + h.patch;
    out[3] = ((h.gap - 1) * 32 + h.entries) as u8;
}

// Writes the run, or refuses with 8 if there is no room.
fn lay(h: Header, base: u64, vals: &[u64], list: &[u64], out: &mut [u8]) -> Answer
    requires { Ready h base vals.now list.now }
    ensures { PatchedLaid (headed h base vals.now list.now) out.old out.new result }
{
    let bits = width::bits_of(h.code);
    let entry = width::entry_width(width::bits_of(h.patch) + h.gap);
    let values = 4 + h.base.bytes;
    let patches = values + packed::block_size(bits, h.rows.rows);
    let end = patches + packed::block_size(entry, h.entries);
    if out.len() < end {
        return head::refused(8);
    }
    write_head(h, out);
    big_endian::write(sign_magnitude(base, h.base), h.base.bytes, out, 4);
    packed::pack(vals, h.rows.rows, bits, out, values);
    packed::pack(list, h.entries, entry, out, patches);
    Ok(Some(Run::new(Kind::PatchedBase, bits, h.rows, ByteOffset { bytes: end })))
}

// Writes a run of a kept width. The caller's buffer holds its values on the way.
fn write_over(rows: &[i64], base: i64, width: u8, vals: &mut [u64], out: &mut [u8]) -> Answer
    requires in_bounds { (1 ≤ length rows.now) × (length rows.now ≤ 512) × (length rows.now ≤ length vals.old) }
    requires width_value { is_kept_width width ≡ true }
    ensures { PatchedWritten rows.now base width out.old out.new result }
{
    let base_bits = base.cast_unsigned();
    let mut list = [0u64; Kind::MAX_PATCHES];
    match header_of(rows, base_bits, width as usize, vals, &mut list) {
        Some(h) => lay(h, base_bits, vals, &list, out),
        None => head::refused(10),
    }
}

// A width that is not kept is refused like one that is not in the table.
pub(crate) fn write(rows: &[i64], base: i64, width: u8, out: &mut [u8]) -> Answer
    requires { (1 ≤ length rows.now) × (length rows.now ≤ 512) }
    ensures { PatchedWritten rows.now base width out.old out.new result }
{
    if !is_kept(width as usize) {
        return head::refused(10);
    }
    // a short run clears a small buffer, and not one for any run; a const parameter for the size would copy the writer, and say no less
    if rows.len() <= values::FEW {
        let mut few = [0u64; values::FEW];
        return write_over(rows, base, width, &mut few, out);
    }
    let mut all = [0u64; Kind::MAX_ROWS];
    write_over(rows, base, width, &mut all, out)
}
