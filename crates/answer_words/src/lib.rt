// An answer as words that the caller lends: the case, the refusal's number and place, the kind, rows and bytes, the field that was cut, and the
// width; of a stream also its last run. Where the words lent are too few, none is touched, and the number says so.
#![tactic(auto)]

ghost use Rattle.std.specs.Prelude.{◌≡◌, ◌++◌, ◌≤◌, length, drop, leb};
ghost use Rattle.format.specs.Fields.{pick};
ghost use Rattle.format.specs.Answers.{answer_number, answer_place, answer_cut, stream_number, stream_place, stream_cut, stream_rows, stream_bytes, stream_last};
ghost use Rattle.answer_words.specs.Words.{answer_case, answer_kind, answer_words, cut_case, cut_byte, stream_case, stream_words, word_count, stream_word_count, Put, Told};

use format::{ALL_BITS, Answer, ByteOffset, Counts, Stream, answer};

pub mod parts;

// How many words an answer has, and a stream's.
pub const COUNT: usize = 9;

pub const STREAM_COUNT: usize = 14;

// What a call with fewer words answers.
pub const TOO_FEW: u64 = ALL_BITS;

// A number, as each case, kind and flag here: words are the C interface, and each function is its definition in specs/Words.antt, arm by arm.
fn case(answer: Answer) -> u64
    ensures { result ≡ answer_case answer }
{
    match answer {
        Ok(None) => 0,
        Ok(Some(_)) => 1,
        Err(_) => 2,
    }
}

pub(crate) fn kind(answer: Answer) -> u8
    ensures { result ≡ answer_kind answer }
{
    match answer {
        Ok(Some(run)) => {
            let kind = run.kind;
            kind.number()
        }
        _ => 0,
    }
}

// Whether a field was cut, and the byte where it begins: 0 where none was.
pub fn cut_case(field: Option<ByteOffset>) -> u64
    ensures { result ≡ cut_case field }
{
    u64::from(field.is_some())
}

pub fn cut_byte(field: Option<ByteOffset>) -> ByteOffset
    ensures { result.bytes ≡ cut_byte field }
{
    field.unwrap_or(ByteOffset { bytes: 0 })
}

// Words in the first of the words lent, where there is one for each.
pub fn lay(said: &[u64], words: &mut [u64])
    ensures { words.new ≡ pick (leb (length said.now) (length words.old)) (said.now ++ drop (length said.now) words.old) words.old }
{
    if words.len() < said.len() {
        return;
    }
    words[..said.len()].copy_from_slice(said);
}

// That there are words enough is for the caller to show, here and in each function below that stores.
fn store_answer(answer: Answer, words: &mut [u64]) -> u64
    requires { word_count ≤ length words.old }
    ensures { Put answer_words answer_number answer words.old words.new result }
{
    words[0] = case(answer);
    words[1] = answer::number(answer) as u64;
    words[2] = answer::place(answer).bytes as u64;
    words[3] = kind(answer) as u64;
    words[4] = answer::rows(answer).rows as u64;
    words[5] = answer::consumed(answer).bytes as u64;
    words[6] = cut_case(answer::cut_field(answer));
    words[7] = cut_byte(answer::cut_field(answer)).bytes as u64;
    words[8] = answer::width(answer) as u64;
    answer::number(answer) as u64
}

// The words of a call's answer, in the first of the words lent. Answers the refusal's number. `put_stream` and `parts::put_reader` test their own
// counts in the same way: a common function would take the stores as a closure, whose contract (`Put`) is longer than the test.
pub fn put_answer(answer: Answer, words: &mut [u64]) -> u64
    ensures { Told answer_words answer_number answer words.old words.new result }
{
    if words.len() < COUNT {
        return TOO_FEW;
    }
    store_answer(answer, words)
}

fn stream_case(stream: Stream) -> u64
    ensures { result ≡ stream_case stream }
{
    match stream {
        Ok(_) => 1,
        Err(_) => 2,
    }
}

// The refusal as the answer that a call would give; end where the whole stream was read. Here and below two arms, as `stream_number` and
// `stream_rows` have them: a method over a closure is no plainer.
fn refusal_of(stream: Stream) -> Answer
    ensures number { answer_number result ≡ stream_number stream }
    ensures place { answer_place result ≡ stream_place stream }
    ensures cut { answer_cut result ≡ stream_cut stream }
{
    match stream {
        Ok(_) => Ok(None),
        Err(stopped) => Err(stopped.by),
    }
}

// The runs that were read.
fn runs_of(stream: Stream) -> Counts
    ensures rows { result.rows.rows ≡ stream_rows stream }
    ensures bytes { result.consumed.bytes ≡ stream_bytes stream }
    ensures last { result.last ≡ stream_last stream }
{
    match stream {
        Ok(counts) => counts,
        Err(stopped) => stopped.before,
    }
}

fn store_stream(stream: Stream, words: &mut [u64]) -> u64
    requires { stream_word_count ≤ length words.old }
    ensures { Put stream_words stream_number stream words.old words.new result }
{
    let refusal = refusal_of(stream);
    let counts = runs_of(stream);
    let rows = counts.rows;
    let consumed = counts.consumed;
    // the last run as the answer that it would have by itself
    let last = Ok(counts.last);
    words[0] = stream_case(stream);
    words[1] = answer::number(refusal) as u64;
    words[2] = answer::place(refusal).bytes as u64;
    words[3] = 0;
    words[4] = rows.rows as u64;
    words[5] = consumed.bytes as u64;
    words[6] = cut_case(answer::cut_field(refusal));
    words[7] = cut_byte(answer::cut_field(refusal)).bytes as u64;
    words[8] = 0;
    words[9] = case(last);
    words[10] = kind(last) as u64;
    words[11] = answer::width(last) as u64;
    words[12] = answer::rows(last).rows as u64;
    words[13] = answer::consumed(last).bytes as u64;
    answer::number(refusal) as u64
}

// The words of a stream's answer: of no one kind and width, with the counts of the runs that were read and the last of them, also where a
// run is refused.
pub fn put_stream(stream: Stream, words: &mut [u64]) -> u64
    ensures { Told stream_words stream_number stream words.old words.new result }
{
    if words.len() < STREAM_COUNT {
        return TOO_FEW;
    }
    store_stream(stream, words)
}
