// Direct: the header, then every row, zigzagged if signed, in a packed block.
ghost use Rattle.std.specs.Prelude.{map, ◌≤◌, length};
ghost use Rattle.format.specs.Rows.{as_u64};
ghost use Rattle.format.specs.Writing.{Written};
ghost use Rattle.writer.specs.Sizes.{Sized, Measured, Lays};

use crate::packed_rows::PackedRows;
use crate::{head, values};
use format::{Answer, ByteOffset, Form, Kind, RowNumber};
use util::{packed, width};

// The bytes of the run, if every row fits the width.
pub(crate) fn size(run: PackedRows<'_>) -> Option<ByteOffset>
    ensures { Measured run.entry.signed Form.Direct run.entry.code (map as_u64 run.entry.rows.now) result }
{
    let bits = width::bits_of(run.code);
    if !values::all_stored_fit(run.rows, run.signed, bits) {
        return None;
    }
    let bytes = 2 + packed::block_size(bits, run.rows.len());
    Some(ByteOffset { bytes })
}

// Writes the run, whose bytes are known. The caller's buffer holds its values on the way. It makes no answer: one that is returned from a
// call goes through memory.
fn write_over(run: PackedRows<'_>, bytes: ByteOffset, vals: &mut [u64], out: &mut [u8])
    requires in_bounds { (length run.rows.now ≤ length vals.old) × (1 ≤ bytes.bytes) × (bytes.bytes ≤ length out.old) }
    requires sized { Sized run.signed Form.Direct run.code (map as_u64 run.rows.now) bytes.bytes }
    ensures { Lays run.entry.rows.now run.entry.signed Form.Direct run.entry.code Kind.Direct bytes.bytes out.old out.new }
{
    let n = run.rows.len();
    let bits = width::bits_of(run.code);
    values::store(run.rows, run.signed, vals);
    head::write(1, run.code, RowNumber { rows: n }, out);
    packed::pack(vals, n, bits, out, 2);
}

pub(crate) fn write(run: PackedRows<'_>, out: &mut [u8]) -> Answer
    ensures { Written run.entry.rows.now run.entry.signed Form.Direct run.entry.code out.old out.new result }
{
    let Some(bytes) = size(run) else {
        return head::refused(11);
    };
    if out.len() < bytes.bytes {
        return head::refused(8);
    }
    let n = RowNumber {
        rows: run.rows.len(),
    };
    // a short run clears a small buffer, and not one for any run; a const parameter for the size would copy the writer, and say no less
    if run.rows.len() <= values::FEW {
        let mut few = [0u64; values::FEW];
        write_over(run, bytes, &mut few, out);
        return head::answer(Kind::Direct, run.code, n, bytes);
    }
    let mut all = [0u64; Kind::MAX_ROWS];
    write_over(run, bytes, &mut all, out);
    head::answer(Kind::Direct, run.code, n, bytes)
}
