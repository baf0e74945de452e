// Delta: the two-byte header, the first row and the base delta as varints; then, unless the width code is 0, packed magnitudes.
ghost use Rattle.std.specs.Prelude.{◌≡◌, true, false, ◌++◌, map, ◌+◌, ◌*◌, ◌≤◌, ◌<◌, length, drop};
ghost use Rattle.format.specs.Fields.{bytes_for};
ghost use Rattle.format.specs.Rows.{as_i64};
ghost use Rattle.format.specs.Parse.{delta_run};
ghost use Rattle.util.specs.Packed.{fields, Width};
ghost use Rattle.util.specs.Varint.{varint_at};
ghost use Rattle.rle_v2.specs.Pass.{summed, laid};
ghost use Rattle.rle_v2.specs.DeltaStart.{gone_by, Started, StartsAt, packed_at, IsMeasured, Ready, delta_rows};
ghost use Rattle.rle_v2.specs.RunAt.{run_at, MeasuredAs, ReadAs};

use crate::{header, refusal, rows};
use format::{Answer, ByteOffset, Kind, Refusal, RowNumber, Run, TOP_BIT};
use util::varint::{Varint, VarintError};
use util::{packed, pattern, varint, width};

// What the tests of a delta run found: the width of its magnitudes in bits, 0 where it has none; its rows; the bits of its two varints, the place
// after these, and the place after the run. Where the number is not 0, the run is refused with it instead, and the input ends in the field that
// begins at a byte, or, where that is 0, in none. Tried and slower: a Result<Found, Refusal> goes through memory, and a run of four rows takes 32
// in 100 more instructions.
#[derive(Clone, Copy)]
struct Found {
    number: u8,
    field: ByteOffset,
    bits: usize,
    rows: RowNumber,
    first: u64,
    base: u64,
    next: ByteOffset,
    end: ByteOffset,
}

// A run that is refused.
fn gone(number: u8, field: ByteOffset) -> Found
    ensures { result ≡ gone_by number field.bytes }
{
    Found {
        number,
        field,
        bits: 0,
        rows: RowNumber { rows: 0 },
        first: 0,
        base: 0,
        next: ByteOffset { bytes: 0 },
        end: ByteOffset { bytes: 0 },
    }
}

// The varint at a place, as `varint::read` has it. Most have one byte or two: these need no loop, and no call.
fn varint_at(input: &[u8], at: ByteOffset) -> Result<Varint, VarintError>
    ensures { result ≡ varint_at input.now at.bytes }
{
    let p = at.bytes;
    if input.len() <= p {
        return Err(VarintError::Cut);
    }
    let low = input[p];
    let after = p + 1;
    if low < 128 {
        return Ok(Varint {
            bits: low as u64,
            next: after,
        });
    }
    if input.len() <= after {
        return varint::read(input, p);
    }
    let high = input[after];
    if high < 128 {
        let bits = (low as u64) % 128 + 128 * (high as u64);
        return Ok(Varint { bits, next: p + 2 });
    }
    varint::read(input, p)
}

// The two varints of a run of so many rows, as though nothing stood behind them: a fixed delta.
fn starts_at(input: &[u8], at: ByteOffset, rows: RowNumber) -> Found
    requires { at.bytes + 2 ≤ length input.now }
    ensures { StartsAt input.now at.bytes rows.rows result }
{
    let p = at.bytes;
    let body = p + 2;
    match varint_at(input, ByteOffset { bytes: body }) {
        Err(VarintError::Cut) => gone(12, ByteOffset { bytes: body }),
        Err(VarintError::TooLong) => gone(5, ByteOffset { bytes: 0 }),
        Ok(Varint { bits: first, next }) => match varint_at(input, ByteOffset { bytes: next }) {
            Err(VarintError::Cut) => gone(12, ByteOffset { bytes: next }),
            Err(VarintError::TooLong) => gone(5, ByteOffset { bytes: 0 }),
            Ok(
                Varint {
                    bits: base,
                    next: end,
                },
            ) => Found {
                number: 0,
                field: ByteOffset { bytes: 0 },
                bits: 0, // no magnitudes
                rows,
                first,
                base,
                next: ByteOffset { bytes: end },
                end: ByteOffset { bytes: end },
            },
        },
    }
}

// Packed magnitudes behind the varints: one for each row but two.
fn packed_rows(input: &[u8], at: ByteOffset, code: u8, f: Found) -> Found
    requires { Started input.now at.bytes f × (code < 32) × (2 ≤ f.rows.rows) × (f.rows.rows ≤ 512) }
    ensures { IsMeasured input.now at.bytes (packed_at code f input.now at.bytes) result }
{
    let bits = width::bits_of(code);
    let rows = f.rows;
    let block = packed::block_size(bits, rows.rows - 2);
    let next = f.next;
    let p = next.bytes;
    if input.len() - p < block {
        return gone(13, next);
    }
    Found {
        number: 0,
        field: ByteOffset { bytes: 0 },
        bits,
        rows,
        first: f.first,
        base: f.base,
        next,
        end: ByteOffset { bytes: p + block },
    }
}

// Whether a run of so many rows has no room for magnitudes, which its code says it has: they begin with the third row.
fn too_few(code: u8, rows: RowNumber) -> bool
    ensures { (result ≡ true → (code ≡ 0 → ⊥) × (rows.rows ≡ 1)) × (result ≡ false → rows.rows ≡ 1 → code ≡ 0) }
{
    if code == 0 {
        return false;
    }
    rows.rows == 1
}

// The varints are read at one place, whatever stands behind them: half the code.
fn measured(input: &[u8], at: ByteOffset) -> Found
    requires { at.bytes < length input.now }
    ensures { IsMeasured input.now at.bytes (run_at delta_run input.now at.bytes) result }
{
    let p = at.bytes;
    if input.len() - p < 2 {
        return gone(1, ByteOffset { bytes: 0 });
    }
    let h = header::two_bytes(input[p], input[p + 1]);
    let code = h.code;
    let rows = h.rows;
    if too_few(code, rows) {
        return gone(4, ByteOffset { bytes: 0 });
    }
    let f = starts_at(input, at, rows);
    if f.number != 0 {
        return f;
    }
    if code == 0 {
        // a fixed delta: nothing stands behind the varints
        return f;
    }
    packed_rows(input, at, code, f)
}

pub(crate) fn measure(input: &[u8], at: ByteOffset) -> Answer
    requires { at.bytes < length input.now }
    ensures { MeasuredAs delta_run input.now at.bytes result }
{
    let p = at.bytes;
    let f = measured(input, at);
    if f.number != 0 {
        let field = f.field;
        return refusal::answer(f.number, at, field);
    }
    let rows = f.rows;
    let end = f.end;
    let consumed = end.bytes - p;
    Ok(Some(Run::new(Kind::Delta, f.bits, rows, ByteOffset { bytes: consumed })))
}

// The rows after the second: n magnitudes unpacked into the places, and summed up from the row before them.
fn magnitudes(block: &[u8], bits: usize, n: RowNumber, falling: bool, second: u64, out: &mut [i64])
    requires width { Width bits }
    requires rows_bound { (n.rows ≤ 65536) × (n.rows ≤ length out.old) × (bytes_for (n.rows * bits) ≤ length block.now) }
    ensures { out.new
        ≡ summed falling second (map as_i64 (fields bits n.rows block.now)) ++ drop n.rows out.old }
{
    packed::unpack(block, bits, n.rows, out);
    rows::sum(falling, second, &mut out[..n.rows]);
}

// All rows of a run with n magnitudes: the first, the second, which is first + base delta, and those after it, which rise or fall as
// the base delta does.
fn lay_packed(block: &[u8], bits: usize, n: RowNumber, first: u64, step: u64, out: &mut [i64])
    requires width { Width bits }
    requires rows_bound { (n.rows ≤ 512) × (n.rows + 2 ≤ length out.old) × (bytes_for (n.rows * bits) ≤ length block.now) }
    ensures { out.new
        ≡ laid first step (map as_i64 (fields bits n.rows block.now)) ++ drop (n.rows + 2) out.old }
{
    rows::steps(first, step, &mut out[..2]);
    let second = first.wrapping_add(step);
    let falling = TOP_BIT <= step;
    magnitudes(block, bits, n, falling, second, &mut out[2..]);
}

// The rows of a run that passed its tests. Width 0 is a fixed delta: each next row adds the base delta.
fn lay(input: &[u8], f: Found, signed: bool, out: &mut [i64])
    requires { Ready input.now f × (f.rows.rows ≤ length out.old) }
    ensures { out.new ≡ delta_rows input.now signed f ++ drop f.rows.rows out.old }
{
    let first = pattern::row(signed, f.first);
    let step = pattern::unzigzag(f.base);
    let rows = f.rows;
    if f.bits == 0 {
        rows::steps(first, step, &mut out[..rows.rows]);
    } else {
        let next = f.next;
        let p = next.bytes;
        let n = rows.rows - 2;
        lay_packed(&input[p..], f.bits, RowNumber { rows: n }, first, step, out);
    }
}

pub(crate) fn read(input: &[u8], at: ByteOffset, signed: bool, out: &mut [i64]) -> Answer
    requires { at.bytes < length input.now }
    ensures { ReadAs delta_run input.now at.bytes signed out.old out.new result }
{
    let p = at.bytes;
    let f = measured(input, at);
    if f.number != 0 {
        let field = f.field;
        return refusal::answer(f.number, at, field);
    }
    let rows = f.rows;
    if out.len() < rows.rows {
        return Err(Refusal::new(8, at));
    }
    lay(input, f, signed, out);
    let end = f.end;
    let consumed = end.bytes - p;
    Ok(Some(Run::new(Kind::Delta, f.bits, rows, ByteOffset { bytes: consumed })))
}
