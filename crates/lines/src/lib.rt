// One line of hexadecimal in, one answer line out: the program `runs`, without its input and output.
#![tactic(auto)]

ghost use Rattle.std.specs.Prelude.{◌≡◌, ◌≤◌, ◌<◌, length, take, get_or, eqb, []};
ghost use Rattle.std.specs.Option.{MatchOption};
ghost use Rattle.format.specs.Answers.{answer_rows};
ghost use Rattle.format.specs.Promises.{RunRead};
ghost use Rattle.lines.specs.Line.{run_text, reply_text, frame_of, frame_text, ended, answer_room, Framed, Answered, LineRead};
ghost use Rattle.text.specs.Written.{TextWritten};

use format::{Answer, ByteOffset, Kind, RowNumber};
use text::{put, put_decimal, put_rows, put_word};

// The fixed words.
const RUN: [u8; 4] = *b"run ";

const REFUSED: [u8; 8] = *b"refused ";

const END: [u8; 3] = *b"end";

const BAD_LINE: [u8; 9] = *b"bad line\n";

// The most characters of a line, and the bytes that they write.
pub const MAX_LINE: usize = 8800;

const MAX_FRAME: usize = MAX_LINE / 2;

// Room for any answer line: `run `, two numbers of at most 20 digits, rows of at most 21 characters, a space before each, and the newline.
pub const ANSWER_ROOM: usize = 46 + 22 * Kind::MAX_ROWS;

// A run's rows, its bytes consumed, and then the rows.
fn put_run(rows: RowNumber, consumed: ByteOffset, values: &[i64], out: &mut [u8]) -> ByteOffset
    requires { (rows.rows ≤ 512) × (rows.rows ≤ length values.now) × (answer_room ≤ length out.old) }
    ensures { TextWritten (run_text rows.rows consumed.bytes (take rows.rows values.now))
        out.old 0 out.new result.bytes }
{
    let mut at = put_word(&RUN, out, 0);
    at = put_decimal(rows.rows as u64, out, at);
    at = put(b' ', out, at);
    at = put_decimal(consumed.bytes as u64, out, at);
    at = put_rows(values, rows.rows, out, at);
    ByteOffset { bytes: at }
}

// What the run reader answered, in words.
fn put_answer(answer: Answer, values: &[i64], out: &mut [u8]) -> ByteOffset
    requires { (answer_rows answer ≤ 512) × (answer_rows answer ≤ length values.now) × (answer_room ≤ length out.old) }
    ensures { TextWritten (reply_text answer (take (answer_rows answer) values.now))
        out.old 0 out.new result.bytes }
{
    match answer {
        Ok(None) => {
            let end = put_word(&END, out, 0);
            ByteOffset { bytes: end }
        }
        Ok(Some(run)) => put_run(run.rows, run.consumed, values, out),
        Err(refusal) => {
            let at = put_word(&REFUSED, out, 0);
            let end = put_decimal(refusal.number as u64, out, at);
            ByteOffset { bytes: end }
        }
    }
}

// Places for the bytes of a line, and for the rows of a run.
fn frame_places() -> [u8; MAX_FRAME]
    ensures { length result ≡ 4400 }
{
    [0; MAX_FRAME]
}

fn row_places() -> [i64; Kind::MAX_ROWS]
    ensures { length result ≡ 512 }
{
    [0; Kind::MAX_ROWS]
}

// How many bytes the line writes, put into the first places of the frame: none where the line is bad.
fn frame_of(line: &[u8], frame: &mut [u8]) -> Option<ByteOffset>
    requires { 4400 ≤ length frame.old }
    ensures { MatchOption result (frame_of line.now ≡ []) (λ n. Framed line.now frame.new n.bytes × (0 < n.bytes)) }
{
    let len = line.len();
    if len == 0 {
        return None;
    }
    if len % 2 == 1 {
        return None;
    }
    if MAX_LINE < len {
        return None;
    }
    if !text::hexadecimal::bytes(line, frame) {
        return None;
    }
    if 1 < frame[0] {
        return None;
    }
    Some(ByteOffset { bytes: len / 2 })
}

// What the run reader answers to a frame that has a flag.
fn read_frame(frame: &[u8], rows: &mut [i64]) -> Answer
    requires { 0 < length frame.now }
    ensures { RunRead frame.now 1 (eqb (get_or frame.now 0 0) 1) rows.old rows.new result }
{
    let signed = frame[0] == 1;
    rle_v2::read_run(frame, ByteOffset::new(1), signed, rows)
}

// The answer line to a frame that has a flag.
fn put_frame(frame: &[u8], out: &mut [u8]) -> ByteOffset
    requires { (0 < length frame.now) × (answer_room ≤ length out.old) }
    ensures { TextWritten (ended (frame_text frame.now)) out.old 0 out.new result.bytes }
{
    let mut rows = row_places();
    let answer = read_frame(frame, &mut rows);
    let at = put_answer(answer, &rows, out);
    let end = put(b'\n', out, at.bytes);
    ByteOffset { bytes: end }
}

// The answer line to a line (its bytes without the newline), in the first bytes of `out`: how many they are. Nothing is written where `out`
// has fewer bytes than any answer line needs (0 and no Option: `Answered` promises a length).
pub fn answer_line(line: &[u8], out: &mut [u8]) -> usize
    ensures { Answered line.now out.old out.new result }
{
    if out.len() < ANSWER_ROOM {
        return 0;
    }
    let mut frame = frame_places();
    let Some(size) = frame_of(line, &mut frame) else {
        return put_word(&BAD_LINE, out, 0);
    };
    let written = put_frame(&frame[..size.bytes], out);
    written.bytes
}

// What the run reader answers to a line (its bytes without the newline), or none where the line is bad; the rows of a run go into the first
// places.
pub fn read_line(line: &[u8], rows: &mut [i64]) -> Option<Answer>
    ensures { LineRead line.now rows.old rows.new result }
{
    let mut frame = frame_places();
    let size = frame_of(line, &mut frame)?;
    Some(read_frame(&frame[..size.bytes], rows))
}
