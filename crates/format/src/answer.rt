// The values of an answer, each by itself: what the words of the C interface and the numbers of the programs say of it.
ghost use Rattle.std.specs.Prelude.{◌≡◌, ◌<◌};
ghost use Rattle.format.specs.Answers.{answer_number, answer_place, answer_cut, answer_width, answer_rows, answer_bytes, answer_packed};

use crate::{Answer, ByteOffset, RowNumber};

// The number of the refusal; 0 if nothing is refused.
pub fn number(answer: Answer) -> u8
    ensures { result ≡ answer_number answer }
{
    match answer {
        Err(refusal) => refusal.number,
        Ok(_) => 0,
    }
}

// The byte where the refused run begins; 0 if nothing is refused.
pub fn place(answer: Answer) -> ByteOffset
    ensures { result.bytes ≡ answer_place answer }
{
    match answer {
        Err(refusal) => refusal.place,
        Ok(_) => ByteOffset { bytes: 0 },
    }
}

// The byte where the field begins that the input ends in; none if nothing is refused.
pub fn cut_field(answer: Answer) -> Option<ByteOffset>
    ensures { result ≡ answer_cut answer }
{
    match answer {
        Err(refusal) => refusal.cut,
        Ok(_) => None,
    }
}

// The width of the run's values in bits; 0 if there is no run.
pub fn width(answer: Answer) -> usize
    ensures { result ≡ answer_width answer }
{
    match answer {
        Ok(Some(run)) => run.width,
        _ => 0,
    }
}

// How many rows the answer yields.
pub fn rows(answer: Answer) -> RowNumber
    ensures { result.rows ≡ answer_rows answer }
{
    match answer {
        Ok(Some(run)) => run.rows,
        _ => RowNumber { rows: 0 },
    }
}

// How many bytes it consumes or, from a writer, writes.
pub fn consumed(answer: Answer) -> ByteOffset
    ensures { result.bytes ≡ answer_bytes answer }
{
    match answer {
        Ok(Some(run)) => run.consumed,
        _ => ByteOffset { bytes: 0 },
    }
}

// The answer as one number.
pub fn packed(answer: Answer) -> u64
    requires { (answer_rows answer < 65536) × (answer_bytes answer < 281474976710656) }
    ensures { result ≡ answer_packed answer }
{
    match answer {
        Ok(Some(run)) => {
            let rows = run.rows;
            let consumed = run.consumed;
            65536 * (consumed.bytes as u64) + (rows.rows as u64)
        }
        Ok(None) => 0,
        Err(refusal) => u64::from(refusal.number),
    }
}
