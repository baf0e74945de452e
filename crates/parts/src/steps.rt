// What a call of the reader in parts comes to, by what the run reader said of
// the bytes looked at: the answer, the bytes taken, and the reader after it.
ghost use Rattle.std.specs.Prelude.{◌≡◌, ◌-◌};
ghost use Rattle.parts.specs.Steps.{still, too_few, holds, stops, refuses, hands, from_first, cut_short, is_cut, is_whole, is_refused};
ghost use Rattle.parts.specs.Steps.{by_answer, by_last};

use format::{
    Answer, ByteOffset, PartAnswer, PartReader, PartStep, Refusal, RowNumber, Run, Standing,
};

// Nothing is taken, and nothing changes.
pub(crate) fn idle(reader: PartReader, answer: PartAnswer) -> PartStep
    ensures { result ≡ still reader answer }
{
    let none = ByteOffset { bytes: 0 };
    PartStep {
        answer,
        taken: none,
        reader,
    }
}

// Refusal 8: too few places, or too few lent bytes.
pub(crate) fn too_few(reader: PartReader) -> PartStep
    ensures { result ≡ too_few reader }
{
    let none = ByteOffset { bytes: 0 };
    idle(reader, PartAnswer::Refused(Refusal::new(8, none)))
}

// All of the part is taken, and the bytes seen are held.
pub(crate) fn hold(reader: PartReader, seen: ByteOffset, part: ByteOffset) -> PartStep
    ensures { result ≡ holds reader seen.bytes part.bytes }
{
    let at = reader.at;
    PartStep {
        answer: PartAnswer::More,
        taken: part,
        reader: PartReader {
            held: seen.bytes,
            at,
            standing: Standing::Opened,
        },
    }
}

// The run is handed out: the next one starts after it.
pub(crate) fn hand(reader: PartReader, taken: ByteOffset, run: Run) -> PartStep
    ensures { result ≡ hands reader taken.bytes run }
{
    let at = reader.at;
    let consumed = run.consumed;
    let next = at.bytes.wrapping_add(consumed.bytes);
    // field by field: a run that is moved whole goes through memory in pieces, padding too
    let rows = run.rows;
    let kind = run.kind;
    let handed = Run {
        kind,
        width: run.width,
        rows: RowNumber { rows: rows.rows },
        consumed: ByteOffset {
            bytes: consumed.bytes,
        },
    };
    PartStep {
        answer: PartAnswer::Run(at, handed),
        taken,
        reader: PartReader {
            held: 0,
            at: ByteOffset { bytes: next },
            standing: Standing::Opened,
        },
    }
}

// Nothing is taken, and the reader stops.
pub(crate) fn stop(reader: PartReader, standing: Standing, answer: PartAnswer) -> PartStep
    ensures { result ≡ stops reader standing answer }
{
    let at = reader.at;
    PartStep {
        answer,
        taken: ByteOffset { bytes: 0 },
        reader: PartReader {
            held: reader.held,
            at,
            standing,
        },
    }
}

pub(crate) fn refuse(reader: PartReader, refusal: Refusal) -> PartStep
    ensures { result ≡ refuses reader refusal }
{
    stop(
        reader,
        Standing::Broken(refusal),
        PartAnswer::Refused(refusal),
    )
}

// A refusal of the bytes from a run's first on, with its bytes counted from the first part, modulo 2^64.
pub(crate) fn from_first(at: ByteOffset, f: Refusal) -> Refusal
    ensures { result ≡ from_first at.bytes f }
{
    let number = f.number;
    let cut = f.cut;
    match cut {
        None => Refusal::new(number, at),
        Some(field) => {
            let byte = at.bytes.wrapping_add(field.bytes);
            Refusal::cut(number, at, ByteOffset { bytes: byte })
        }
    }
}

// The run is unfinished, in its header (1) or in a field (6, 12, 13, 14): more bytes may turn the refusal into another answer.
pub(crate) fn cut_short(f: Refusal) -> bool
    ensures { result ≡ cut_short f.number f.cut }
{
    match f.cut {
        None => f.number == 1,
        Some(_) => true,
    }
}

// A call with a part, by what reading gave of the bytes looked at: those held, and as many of the part's after them as a run can have.
pub(crate) fn on_part(
    reader: PartReader,
    held: ByteOffset,
    seen: ByteOffset,
    part: ByteOffset,
    a: Answer,
) -> PartStep
    ensures { result ≡ by_answer reader held.bytes seen.bytes part.bytes a }
{
    let at = reader.at;
    match a {
        Ok(Some(r)) => {
            let consumed = r.consumed;
            let taken = ByteOffset {
                bytes: consumed.bytes.saturating_sub(held.bytes),
            };
            hand(reader, taken, r)
        }
        Err(f) => {
            if cut_short(f) {
                hold(reader, seen, part)
            } else {
                refuse(reader, from_first(at, f))
            }
        }
        Ok(None) => hold(reader, seen, part),
    }
}

// Whether the run reader says that the run is unfinished.
pub(crate) fn is_cut(a: Answer) -> bool
    ensures { result ≡ is_cut a }
{
    match a {
        Err(f) => cut_short(f),
        Ok(_) => false,
    }
}

// Whether it reads the run. No `matches!`: the case that it leaves has no name for the proof to cite.
pub(crate) fn is_whole(a: Answer) -> bool
    ensures { result ≡ is_whole a }
{
    match a {
        Ok(run) => run.is_some(),
        Err(_) => false,
    }
}

// Whether a call refuses.
pub(crate) fn is_refused(step: PartStep) -> bool
    ensures { result ≡ is_refused step.answer }
{
    matches!(step.answer, PartAnswer::Refused(_))
}

// The closing call of an open reader, by what reading gave of the bytes held: an unfinished run is refused.
pub(crate) fn on_close(reader: PartReader, a: Answer) -> PartStep
    ensures { result ≡ by_last reader a }
{
    let at = reader.at;
    match a {
        Ok(Some(r)) => hand(reader, ByteOffset { bytes: 0 }, r),
        Err(f) => refuse(reader, from_first(at, f)),
        Ok(None) => stop(reader, Standing::Closed, PartAnswer::End),
    }
}
