// RLE version 2: the run reader, a module for each kind of run, the stream reader; and the measures, which give their answers and no rows.
#![tactic(auto)]

ghost use Rattle.std.specs.Prelude.{◌≡◌, ℕ};
ghost use Rattle.format.specs.Runs.{Description};
ghost use Rattle.format.specs.Parse.{Parsed, into};
ghost use Rattle.format.specs.Promises.{answer_of, RunRead, RunMeasured, StreamRead, StreamMeasured};

use format::{Answer, ByteOffset, Counts, Refusal, RowNumber, Stopped, Stream};

mod delta;
mod direct;
mod header;
pub mod part;
mod patch_list;
mod patched_base;
mod refusal;
mod rows;
mod short_repeat;

// What the run reader answers with room enough, for callers that want no rows: a run's kind, width, rows and bytes, or its refusal.
pub fn measure(input: &[u8], at: ByteOffset) -> Answer
    ensures { RunMeasured input.now at.bytes result }
{
    let p = at.bytes;
    if input.len() <= p {
        return Ok(None);
    }
    // the top two bits are the kind; the arms are calls that the compiler knows, which a table of functions would hide from it
    match input[p] / 64 {
        0 => short_repeat::measure(input, at),
        1 => direct::measure(input, at),
        2 => patched_base::measure(input, at),
        _ => delta::measure(input, at),
    }
}

// One run of any kind, from a position of the input on: its rows go into the first places. A refused call consumes nothing and leaves
// every place as it was; a position past the end is empty input.
pub fn read_run(input: &[u8], at: ByteOffset, signed: bool, out: &mut [i64]) -> Answer
    ensures { RunRead input.now at.bytes signed out.old out.new result }
{
    let p = at.bytes;
    if input.len() <= p {
        return Ok(None);
    }
    // The top two bits are the kind. No twin of `measure`: the four readers take more than the four measures, so that one function of both
    // would take the four as parameters, and be no plainer.
    match input[p] / 64 {
        0 => short_repeat::read(input, at, signed, out),
        1 => direct::read(input, at, signed, out),
        2 => patched_base::read(input, at, signed, out),
        _ => delta::read(input, at, signed, out),
    }
}

// The run that the input begins with, as `read_run` reads it, for a caller that reads one run a call: a short repeat is read here, since its
// rows, ten at most, are less work than a call.
pub fn read_first(input: &[u8], signed: bool, out: &mut [i64]) -> Answer
    ensures { RunRead input.now 0 signed out.old out.new result }
{
    if !input.is_empty() && input[0] / 64 == 0 {
        return short_repeat::read(input, ByteOffset { bytes: 0 }, signed, out);
    }
    read_run(input, ByteOffset { bytes: 0 }, signed, out)
}

// The same for a caller that asks again as bytes come in: a direct run that is still cut is told by its header, here.
pub fn read_gathered(input: &[u8], signed: bool, out: &mut [i64]) -> Answer
    ensures { RunRead input.now 0 signed out.old out.new result }
{
    if !input.is_empty() && input[0] / 64 == 1 {
        let _ = direct::measure(input, ByteOffset { bytes: 0 })?;
    }
    read_run(input, ByteOffset { bytes: 0 }, signed, out)
}

// The runs from a position to the end of the input, their rows one after another in the places; the answer names the last of them. At the first
// refusal it stops: the rows of the runs before it stay, and the places after them keep their content.
pub fn read_stream(input: &[u8], at: ByteOffset, signed: bool, out: &mut [i64]) -> Stream
    ensures { StreamRead input.now at.bytes signed out.old out.new result }
{
    let from = at.bytes;
    let mut p = from;
    let mut k: usize = 0;
    let mut last = None;
    // The step is a run's bytes, which is no count. Three ends: one for all would carry the refusal out of the loop in an Option, and match it
    // again.
    while p < input.len() {
        let a = read_run(input, ByteOffset { bytes: p }, signed, &mut out[k..]);
        match a {
            Ok(Some(r)) => {
                let rows = r.rows;
                let consumed = r.consumed;
                k += rows.rows;
                p += consumed.bytes;
                last = Some(r);
            }
            Err(f) => {
                return Err(Stopped {
                    by: f,
                    before: Counts::new(
                        RowNumber { rows: k },
                        ByteOffset { bytes: p - from },
                        last,
                    ),
                });
            }
            Ok(None) => {
                return Ok(Counts::new(RowNumber { rows: k }, ByteOffset { bytes: p - from }, last));
            }
        }
    }
    Ok(Counts::new(RowNumber { rows: k }, ByteOffset { bytes: p - from }, last))
}

// What a measured run comes to in so many places: refusal 8 if it has more rows.
fn in_places(measured: Answer, at: ByteOffset, places: RowNumber) -> Answer
    ensures { (total : ℕ) (m : Parsed Description)
        → measured ≡ answer_of at.bytes total m → result ≡ answer_of at.bytes total (into places.rows m) }
{
    let Some(run) = measured? else {
        return Ok(None);
    };
    let count = run.rows;
    if places.rows < count.rows {
        return Err(Refusal::new(8, at));
    }
    Ok(Some(run))
}

// What the stream reader answers with as many places as a count can name, for callers that want no rows.
pub fn measure_stream(input: &[u8], at: ByteOffset) -> Stream
    ensures { StreamMeasured input.now at.bytes result }
{
    let from = at.bytes;
    let mut place = from;
    let mut count: usize = 0;
    let mut last = None;
    // the step is a run's bytes, as in `read_stream`
    while place < input.len() {
        let here = ByteOffset { bytes: place };
        let m = measure(input, here);
        let left = usize::MAX - count;
        let a = in_places(m, here, RowNumber { rows: left });
        match a {
            Ok(Some(run)) => {
                let rows = run.rows;
                let consumed = run.consumed;
                count += rows.rows;
                place += consumed.bytes;
                last = Some(run);
            }
            Err(f) => {
                let taken = place - from;
                return Err(Stopped {
                    by: f,
                    before: Counts::new(
                        RowNumber { rows: count },
                        ByteOffset { bytes: taken },
                        last,
                    ),
                });
            }
            Ok(None) => {
                let taken = place - from;
                return Ok(Counts::new(
                    RowNumber { rows: count },
                    ByteOffset { bytes: taken },
                    last,
                ));
            }
        }
    }
    let taken = place - from;
    Ok(Counts::new(RowNumber { rows: count }, ByteOffset { bytes: taken }, last))
}
