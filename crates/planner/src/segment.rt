// One segment of a proposal, and its writer.
ghost use Rattle.std.specs.Prelude.{◌≡◌, ◌<◌, ◌≤◌, length};
ghost use Rattle.writer.specs.Sizes.{size_in};
ghost use Rattle.planner.specs.Check.{equal_lengths, any_run, write_in};
ghost use Rattle.planner.specs.Walk.{form_of, columns, segment_at, in_place, step_in, Ran};

use format::{ByteOffset, Form, RowNumber, answer};

// As it is proposed: any five numbers.
#[derive(Clone, Copy)]
pub(crate) struct Segment {
    pub start: u64,
    pub count: u64,
    pub form: u64,
    pub width: u64,
    pub base: u64,
}

// A proposal: five columns, one entry a segment.
#[derive(Clone, Copy)]
pub(crate) struct Proposal<'a> {
    pub first: &'a [u64],
    pub counts: &'a [u64],
    pub forms: &'a [u64],
    pub widths: &'a [u64],
    pub bases: &'a [u64],
}

impl Proposal<'_> {
    // Whether the columns are of one length.
    pub(crate) fn is_level(self) -> bool
        ensures { result ≡ equal_lengths (columns self.entry) }
    {
        let n = self.first.len();
        self.counts.len() == n
            && self.forms.len() == n
            && self.widths.len() == n
            && self.bases.len() == n
    }

    // The k-th of each column.
    pub(crate) fn at(self, k: usize) -> Segment
        requires { (k < length self.first.now) × (k < length self.counts.now) × (k < length self.forms.now)
            × (k < length self.widths.now) × (k < length self.bases.now) }
        ensures { result ≡ segment_at (columns self.entry) k }
    {
        Segment {
            start: self.first[k],
            count: self.counts[k],
            form: self.forms[k],
            width: self.widths[k],
            base: self.bases[k],
        }
    }
}

// The forms that have no base. (Numbers, as `segments` and `write_in` have them: a number that is no form is one that is not accepted, with 10.
// No form is made of the others.)
fn form_of(form: u64) -> Form
    ensures { result ≡ form_of form }
{
    if form == 0 {
        return Form::ShortRepeat;
    }
    if form == 1 {
        return Form::Direct;
    }
    if form == 2 {
        return Form::FixedDelta;
    }
    Form::PackedDelta
}

// Some rows as the segment's run: its bytes, or 0 where the writer does not accept them. No form has a width above 255.
// (A number for a refusal, since `writer::size_of_run` promises it so.)
fn write(part: &[i64], signed: bool, s: Segment, out: &mut [u8]) -> ByteOffset
    ensures { Ran (write_in signed s.form s.width s.base part.now (length out.old)) out.old
        out.new result.bytes }
{
    if 255 < s.width {
        return ByteOffset { bytes: 0 };
    }
    if 4 < s.form {
        return ByteOffset { bytes: 0 };
    }
    let width = s.width as u8;
    if s.form == 4 {
        let a = writer::write_patched(part, s.base.cast_signed(), width, out);
        return answer::consumed(a);
    }
    let a = writer::write_run(part, signed, form_of(s.form), width, out);
    answer::consumed(a)
}

// The bytes of that run, where there is room for any: nothing is written, but for a patched run, into the place that is lent for it. (0 as above.)
fn size(part: &[i64], signed: bool, s: Segment, run: &mut [u8]) -> ByteOffset
    requires { length run.old ≡ any_run }
    ensures { result.bytes ≡ size_in (write_in signed s.form s.width s.base part.now any_run) }
{
    if 3 < s.form {
        return write(part, signed, s, run);
    }
    if s.width < 256 {
        return writer::size_of_run(part, signed, form_of(s.form), s.width as u8);
    }
    ByteOffset { bytes: 0 }
}

// Whether it begins at this row, and ends within the column.
fn is_in_place(rows: RowNumber, at: RowNumber, s: Segment) -> bool
    requires { at.rows ≤ rows.rows }
    ensures { result ≡ in_place rows.rows at.rows s }
{
    let end = rows.rows;
    let row = at.rows;
    s.start == row as u64 && s.count <= (end - row) as u64
}

// A segment of the rows, where it begins at this row and ends within the column: its bytes, or 0 where it is not accepted.
pub(crate) fn step(
    rows: &[i64],
    signed: bool,
    at: RowNumber,
    s: Segment,
    out: &mut [u8],
) -> ByteOffset
    requires { at.rows ≤ length rows.now }
    ensures { Ran (step_in signed rows.now at.rows s (length out.old)) out.old
        out.new result.bytes }
{
    let row = at.rows;
    let end = RowNumber { rows: rows.len() };
    if !is_in_place(end, at, s) {
        return ByteOffset { bytes: 0 };
    }
    write(&rows[row..row + s.count as usize], signed, s, out)
}

// The same bytes, where there is room for any run. (A function of its own, since most forms are measured without a byte being written.)
pub(crate) fn step_size(
    rows: &[i64],
    signed: bool,
    at: RowNumber,
    s: Segment,
    run: &mut [u8],
) -> ByteOffset
    requires { (at.rows ≤ length rows.now) × (length run.old ≡ any_run) }
    ensures { result.bytes ≡ size_in (step_in signed rows.now at.rows s any_run) }
{
    let row = at.rows;
    let end = RowNumber { rows: rows.len() };
    if !is_in_place(end, at, s) {
        return ByteOffset { bytes: 0 };
    }
    size(&rows[row..row + s.count as usize], signed, s, run)
}
