// Delta: the header, the first row and the base delta as varints; a packed delta's magnitudes follow in a packed block.
ghost use Rattle.std.specs.Prelude.{◌≡◌, map, ◌+◌, ◌<◌, ◌≤◌, length};
ghost use Rattle.format.specs.Fields.{zigzagged, shortest};
ghost use Rattle.format.specs.Rows.{as_u64};
ghost use Rattle.format.specs.Writing.{first_of, base_delta, Written};
ghost use Rattle.writer.specs.Sizes.{Sized, Measured, Lays};
ghost use Rattle.writer.specs.Start.{start, Started, StartSize};

use crate::packed_rows::PackedRows;
use crate::{head, values};
use format::{Answer, ByteOffset, Form, Kind, RowNumber, Run, TOP_BIT};
use util::{packed, pattern, varint, width};

// Row 1 less row 0; a single row has delta 0.
fn base_delta(rows: &[i64]) -> u64
    ensures { result ≡ base_delta (map as_u64 rows.now) }
{
    if rows.len() < 2 {
        return 0;
    }
    values::pattern_of(rows, 1).wrapping_sub(values::pattern_of(rows, 0))
}

// The first row as it is stored. That there is one stays a demand, here and of two more: a type for it would be made from the slice before each
// call, and is no plainer.
fn first_of(rows: &[i64], signed: bool) -> u64
    requires { 1 ≤ length rows.now }
    ensures { result ≡ first_of signed (map as_u64 rows.now) }
{
    values::stored(signed, values::pattern_of(rows, 0))
}

// The base delta as it is stored.
fn base_of(rows: &[i64]) -> u64
    ensures { result ≡ zigzagged (base_delta (map as_u64 rows.now)) }
{
    pattern::zigzag_of(base_delta(rows))
}

// The bytes of the header and of both varints.
fn start_size(rows: &[i64], signed: bool) -> ByteOffset
    requires { 1 ≤ length rows.now }
    ensures { StartSize (first_of signed (map as_u64 rows.now))
        (zigzagged (base_delta (map as_u64 rows.now))) result.bytes }
{
    let bytes = 2 + varint::size(first_of(rows, signed)) + varint::size(base_of(rows));
    ByteOffset { bytes }
}

// Writes the header and both varints.
fn write_start(code: u8, rows: RowNumber, first: u64, base: u64, out: &mut [u8]) -> ByteOffset
    requires { (code < 32) × (1 ≤ rows.rows) × (rows.rows ≤ 512)
        × (2 + length (shortest first) + length (shortest base) ≤ length out.old) }
    ensures { Started (start code rows.rows first base) out.old out.new result.bytes }
{
    head::write(3, code, rows, out);
    let at = varint::write(first, out, 2);
    let bytes = varint::write(base, out, at);
    ByteOffset { bytes }
}

// The bytes of a fixed delta, if the steps are equal.
pub(crate) fn size_fixed(rows: &[i64], signed: bool, code: u8) -> Option<ByteOffset>
    requires { (1 ≤ length rows.now) × (length rows.now ≤ 512) × (code ≡ 0) }
    ensures { Measured signed Form.FixedDelta code (map as_u64 rows.now) result }
{
    if !values::are_steps(rows, base_delta(rows)) {
        return None;
    }
    Some(start_size(rows, signed))
}

pub(crate) fn write_fixed(rows: &[i64], signed: bool, code: u8, out: &mut [u8]) -> Answer
    requires { (1 ≤ length rows.now) × (length rows.now ≤ 512) × (code ≡ 0) }
    ensures { Written rows.now signed Form.FixedDelta code out.old out.new result }
{
    let Some(bytes) = size_fixed(rows, signed, code) else {
        return head::refused(10);
    };
    if out.len() < bytes.bytes {
        return head::refused(8);
    }
    let n = RowNumber { rows: rows.len() };
    let first = first_of(rows, signed);
    let base = base_of(rows);
    write_start(0, n, first, base, out);
    Ok(Some(Run::new(Kind::Delta, 0, n, bytes)))
}

// The bytes of a packed delta, if every magnitude fits the width.
pub(crate) fn size_packed(run: PackedRows<'_>) -> Option<ByteOffset>
    requires { (2 ≤ length run.rows.now) × (1 ≤ run.code) }
    ensures { Measured run.entry.signed Form.PackedDelta run.entry.code (map as_u64 run.entry.rows.now) result }
{
    let bits = width::bits_of(run.code);
    let falling = TOP_BIT <= base_delta(run.rows);
    if !values::all_steps_fit(&run.rows[1..], falling, bits) {
        return None;
    }
    let start = start_size(run.rows, run.signed).bytes;
    let bytes = start + packed::block_size(bits, run.rows.len() - 2);
    Some(ByteOffset { bytes })
}

// Writes a packed delta, whose bytes are known. The caller's buffer holds its magnitudes on the way.
fn write_packed_over(run: PackedRows<'_>, bytes: ByteOffset, vals: &mut [u64], out: &mut [u8])
    requires in_bounds { (2 ≤ length run.rows.now) × (1 ≤ run.code) × (length run.rows.now ≤ length vals.old)
        × (1 ≤ bytes.bytes) × (bytes.bytes ≤ length out.old) }
    requires sized { Sized run.signed Form.PackedDelta run.code (map as_u64 run.rows.now) bytes.bytes }
    ensures { Lays run.entry.rows.now run.entry.signed Form.PackedDelta run.entry.code Kind.Delta bytes.bytes
        out.old out.new }
{
    let n = run.rows.len();
    let bits = width::bits_of(run.code);
    let falling = TOP_BIT <= base_delta(run.rows);
    values::steps(&run.rows[1..], falling, vals);
    let first = first_of(run.rows, run.signed);
    let base = base_of(run.rows);
    let at = write_start(run.code, RowNumber { rows: n }, first, base, out).bytes;
    packed::pack(vals, n - 2, bits, out, at);
}

// As `direct::write`, but for size, refusal of a width, layout and kind: one function would take these as closures, and is no plainer.
pub(crate) fn write_packed(run: PackedRows<'_>, out: &mut [u8]) -> Answer
    requires { (2 ≤ length run.rows.now) × (1 ≤ run.code) }
    ensures { Written run.entry.rows.now run.entry.signed Form.PackedDelta run.entry.code out.old out.new result }
{
    let Some(bytes) = size_packed(run) else {
        return head::refused(11);
    };
    if out.len() < bytes.bytes {
        return head::refused(8);
    }
    let n = RowNumber {
        rows: run.rows.len(),
    };
    // a short run clears a small buffer, and not one for any run; a const parameter for the size would copy the writer, and say no less
    if run.rows.len() <= values::FEW {
        let mut few = [0u64; values::FEW];
        write_packed_over(run, bytes, &mut few, out);
        return head::answer(Kind::Delta, run.code, n, bytes);
    }
    let mut all = [0u64; Kind::MAX_ROWS];
    write_packed_over(run, bytes, &mut all, out);
    head::answer(Kind::Delta, run.code, n, bytes)
}
