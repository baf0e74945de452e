// What a form allows: how many rows, and which widths.
ghost use Rattle.std.specs.Prelude.{◌≡◌};
ghost use Rattle.format.specs.Writing as Writing;

use format::{Form, Kind, RowNumber};

pub(crate) fn between(low: usize, high: usize, n: usize) -> bool
    ensures { result ≡ Writing.between low high n }
{
    low <= n && n <= high
}

// The row counts of a form.
pub(crate) fn count(form: Form, rows: RowNumber) -> bool
    ensures { result ≡ Writing.count_allowed form rows.rows }
{
    let n = rows.rows;
    match form {
        Form::ShortRepeat => between(Kind::MIN_REPEAT, Kind::MAX_REPEAT, n),
        Form::Direct => between(1, Kind::MAX_ROWS, n),
        Form::FixedDelta => between(1, Kind::MAX_ROWS, n),
        Form::PackedDelta => between(2, Kind::MAX_ROWS, n),
    }
}

// A packed delta's codes: the kept ones but 0, which is a fixed delta's.
fn packed_width(w: u8) -> bool
    ensures { result ≡ Writing.width_allowed Form.PackedDelta w }
{
    w != 0 && util::width::is_kept(w)
}

// The widths of a form: bytes for a short repeat, a kept code otherwise.
pub(crate) fn width(form: Form, w: u8) -> bool
    ensures { result ≡ Writing.width_allowed form w }
{
    let n = w as usize;
    match form {
        Form::ShortRepeat => between(1, 8, n),
        Form::Direct => util::width::is_kept(w),
        Form::FixedDelta => n == 0,
        Form::PackedDelta => packed_width(w),
    }
}
