// Short repeat: 2 bits kind, 3 bits size less 1, 3 bits count less 3; then the one value, highest byte first.
ghost use Rattle.std.specs.Prelude.{◌≡◌, ◌∷◌, map, ◌+◌, ◌-◌, ◌*◌, ◌≤◌, length, drop};
ghost use Rattle.format.specs.Rows.{as_u64};
ghost use Rattle.format.specs.Writing.{have_form, Written};
ghost use Rattle.writer.specs.Sizes.{Measured};

use crate::{head, values};
use format::{Answer, ByteOffset, Form, Kind, RowNumber, Run};
use util::big_endian;

fn write_head(bytes: ByteOffset, rows: RowNumber, out: &mut [u8])
    requires { (1 ≤ bytes.bytes) × (bytes.bytes ≤ 8) × (3 ≤ rows.rows) × (rows.rows ≤ 10) × (1 ≤ length out.old) }
    ensures { out.new ≡ ((bytes.bytes - 1) * 8 + (rows.rows - 3)) ∷ drop 1 out.old }
{
    let size = bytes.bytes;
    let count = rows.rows;
    out[0] = ((size - 1) * 8 + (count - Kind::MIN_REPEAT)) as u8;
}

fn are_same(rows: &[i64]) -> bool
    requires { 1 ≤ length rows.now }
    ensures { result ≡ have_form Form.ShortRepeat (map as_u64 rows.now) }
{
    values::all_are(rows, values::pattern_of(rows, 0))
}

// The bytes of the run, if the rows are equal and fit.
pub(crate) fn size(rows: &[i64], signed: bool, width: u8) -> Option<ByteOffset>
    requires { (3 ≤ length rows.now) × (length rows.now ≤ 10) × (1 ≤ width) × (width ≤ 8) }
    ensures { Measured signed Form.ShortRepeat width (map as_u64 rows.now) result }
{
    if !are_same(rows) {
        return None;
    }
    let bytes = width as usize;
    let value = values::stored(signed, values::pattern_of(rows, 0));
    if !values::fits(value, 8 * bytes) {
        return None;
    }
    Some(ByteOffset { bytes: 1 + bytes })
}

pub(crate) fn write(rows: &[i64], signed: bool, width: u8, out: &mut [u8]) -> Answer
    requires { (3 ≤ length rows.now) × (length rows.now ≤ 10) × (1 ≤ width) × (width ≤ 8) }
    ensures { Written rows.now signed Form.ShortRepeat width out.old out.new result }
{
    let Some(bytes) = size(rows, signed, width) else {
        return head::refused(if are_same(rows) { 11 } else { 10 });
    };
    if out.len() < bytes.bytes {
        return head::refused(8);
    }
    let n = RowNumber { rows: rows.len() };
    let w = width as usize;
    let value = values::stored(signed, values::pattern_of(rows, 0));
    write_head(ByteOffset { bytes: w }, n, out);
    big_endian::write(value, w, out, 1);
    Ok(Some(Run::new(Kind::ShortRepeat, 8 * w, n, bytes)))
}
