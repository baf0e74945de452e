// One run converted: read, and written again where its width is odd, or copied.
ghost use Rattle.std.specs.Prelude.{◌≡◌, ◌+◌, ◌/◌, ◌%◌, ◌≤◌, length, take};
ghost use Rattle.format.specs.Kept.{next_kept};
ghost use Rattle.format.specs.Writing.{Written};
ghost use Rattle.convert.specs.Turn.{odd_first, form_first, StepIs};

use format::{Answer, ByteOffset, Form, Kind, Refusal, RowNumber, answer};
use util::width;

// A run: the bytes that it takes up, those of the run that it is converted to, and whether its width is odd.
#[derive(Clone, Copy)]
pub(crate) struct Turn {
    pub taken: ByteOffset,
    pub given: ByteOffset,
    pub odd: bool,
}

// Room for the rows of a run, and for its bytes.
fn rows_room() -> [i64; Kind::MAX_ROWS] {
    [0i64; Kind::MAX_ROWS]
}

pub(crate) fn bytes_room() -> [u8; Kind::MAX_BYTES] {
    [0u8; Kind::MAX_BYTES]
}

// By a run's first byte: 2 bits kind, 5 bits width code. Kinds 1 and 3 are direct and delta; the code 0 of a fixed delta is kept.
fn is_odd(first: u8) -> bool
    ensures { result ≡ odd_first first }
{
    first / 64 % 2 != 0 && !width::is_kept(first / 2 % 32)
}

// (A byte of the stream, whose bits FORMAT.md gives their meaning: a type of kinds would only be read from it, here and above.)
fn form_of(first: u8) -> Form
    ensures { result ≡ form_first first }
{
    if first < 128 {
        Form::Direct
    } else {
        Form::PackedDelta
    }
}

// The first rows, so many, at the next kept width after that of the run that begins with this byte.
fn rewrite(first: u8, rows: &[i64], count: RowNumber, signed: bool, out: &mut [u8]) -> Answer
    requires { count.rows ≤ length rows.now }
    ensures { Written (take count.rows rows.now) signed (form_first first) (next_kept (first / 2 % 32))
        out.old out.new result }
{
    let n = count.rows;
    writer::write_run(
        &rows[..n],
        signed,
        form_of(first),
        width::next_kept(first / 2 % 32),
        out,
    )
}

// The run at a place, converted, in the first bytes of `run`; none where the stream ends.
pub(crate) fn convert_run(
    input: &[u8],
    at: ByteOffset,
    signed: bool,
    run: &mut [u8],
) -> Result<Option<Turn>, Refusal>
    requires { length run.old ≡ 4356 }
    ensures { StepIs signed input.now at.bytes run.new result }
{
    let p = at.bytes;
    // before the places for rows are cleared
    if input.len() <= p {
        return Ok(None);
    }
    let mut rows = rows_room();
    let Some(r) = rle_v2::read_run(input, at, signed, &mut rows)? else {
        return Ok(None);
    };
    let taken = r.consumed;
    let first = input[p];
    if is_odd(first) {
        let w = rewrite(first, &rows, r.rows, signed, run);
        return Ok(Some(Turn {
            taken,
            given: answer::consumed(w),
            odd: true,
        }));
    }
    let size = taken.bytes;
    let source = &input[p..p + size];
    run[..size].copy_from_slice(source);
    Ok(Some(Turn {
        taken,
        given: taken,
        odd: false,
    }))
}
