// The writers, with form and width as numbers of any size.
ghost use Rattle.std.specs.Prelude.{◌≡◌, min};
ghost use Rattle.exports.specs.Runs.{form_of, WrittenBy};
ghost use Rattle.format.specs.PatchedWriting.{PatchedWritten};

use format::{Answer, ByteOffset, Form, Refusal};

// The numbers are the C interface: any number names a form (`form_of` in specs/Runs.antt), so no TryFrom, which would refuse.
fn form_of(form: u64) -> Form
    ensures { result ≡ form_of form }
{
    match form {
        0 => Form::ShortRepeat,
        1 => Form::Direct,
        2 => Form::FixedDelta,
        _ => Form::PackedDelta,
    }
}

// A width above 255 is no form's, and 255 is none either.
fn byte_width(width: u64) -> u8
    ensures { result ≡ min width 255 }
{
    if width <= 255 { width as u8 } else { 255 }
}

// Writes one run; a form that is none of the four is refused, whatever the rows are.
pub(crate) fn write(rows: &[i64], signed: bool, form: u64, width: u64, out: &mut [u8]) -> Answer
    ensures { WrittenBy rows.now signed form width out.old out.new result }
{
    if 3 < form {
        return Err(Refusal::new(10, ByteOffset { bytes: 0 }));
    }
    writer::write_run(rows, signed, form_of(form), byte_width(width), out)
}

// Writes one patched run; a width above 255 is as little in the table as 255 is.
pub(crate) fn write_patched(rows: &[i64], base: i64, width: u64, out: &mut [u8]) -> Answer
    ensures { PatchedWritten rows.now base width out.old out.new result }
{
    writer::write_patched(rows, base, byte_width(width), out)
}
