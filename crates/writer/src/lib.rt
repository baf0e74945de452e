// The run writer: takes rows, flag, form and width, and writes one run. All tests come before the first store.
#![tactic(auto)]

ghost use Rattle.std.specs.Prelude.{◌≡◌, map};
ghost use Rattle.format.specs.Kept.{NarrowestKept};
ghost use Rattle.format.specs.Rows.{as_u64};
ghost use Rattle.format.specs.Writing.{writing, Written};
ghost use Rattle.format.specs.PatchedWriting.{PatchedWritten};
ghost use Rattle.writer.specs.Sizes.{size_in, bytes_of};

use format::{Answer, ByteOffset, Form, Kind, RowNumber};

mod allowed;
mod delta;
mod direct;
mod head;
mod packed_rows;
mod patch_list;
mod patched_base;
mod short_repeat;
mod values;

use packed_rows::PackedRows;

// Writes one run. The width counts bytes for a short repeat, and is a width code otherwise.
pub fn write_run(rows: &[i64], signed: bool, form: Form, width: u8, out: &mut [u8]) -> Answer
    ensures { Written rows.now signed form width out.old out.new result }
{
    let count = RowNumber { rows: rows.len() };
    if !allowed::count(form, count) {
        return head::refused(9);
    }
    if !allowed::width(form, width) {
        return head::refused(10);
    }
    match form {
        Form::ShortRepeat => short_repeat::write(rows, signed, width, out),
        Form::Direct => direct::write(
            PackedRows {
                rows,
                signed,
                code: width,
            },
            out,
        ),
        Form::FixedDelta => delta::write_fixed(rows, signed, width, out),
        Form::PackedDelta => delta::write_packed(
            PackedRows {
                rows,
                signed,
                code: width,
            },
            out,
        ),
    }
}

// The bytes of a run, if its form and width allow these rows.
fn measure(rows: &[i64], signed: bool, form: Form, width: u8) -> Option<ByteOffset>
    ensures { bytes_of result ≡ size_in (writing signed form width (map as_u64 rows.now) 4356) }
{
    let n = RowNumber { rows: rows.len() };
    if !allowed::count(form, n) {
        return None;
    }
    if !allowed::width(form, width) {
        return None;
    }
    match form {
        Form::ShortRepeat => short_repeat::size(rows, signed, width),
        Form::Direct => direct::size(PackedRows {
            rows,
            signed,
            code: width,
        }),
        Form::FixedDelta => delta::size_fixed(rows, signed, width),
        Form::PackedDelta => delta::size_packed(PackedRows {
            rows,
            signed,
            code: width,
        }),
    }
}

// The bytes that `write_run` would write with room for any run, or 0 if it would refuse. Nothing is written.
// Not an Option: its promise says 0 (`size_in`).
pub fn size_of_run(rows: &[i64], signed: bool, form: Form, width: u8) -> ByteOffset
    ensures { result.bytes ≡ size_in (writing signed form width (map as_u64 rows.now) 4356) }
{
    measure(rows, signed, form, width).unwrap_or(ByteOffset { bytes: 0 })
}

// Writes one patched run: every row as its difference from the base. The low bits of the difference, as many as the width says, are the
// row's value, and the others its patch.
pub fn write_patched(rows: &[i64], base: i64, width: u8, out: &mut [u8]) -> Answer
    ensures { PatchedWritten rows.now base width out.old out.new result }
{
    if allowed::between(1, Kind::MAX_ROWS, rows.len()) {
        patched_base::write(rows, base, width, out)
    } else {
        head::refused(9)
    }
}

// The code of the narrowest kept width that holds x. 0 needs one bit.
pub fn narrowest_code(x: u64) -> u8
    ensures { NarrowestKept x result }
{
    util::width::next_kept(util::width::narrowest_code(x))
}
