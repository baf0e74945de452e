// The reader in parts as words: its state, read from the words that the caller keeps and left there, and what a call does.
ghost use Rattle.std.specs.Prelude.{◌≡◌, [], ◌∷◌, ◌++◌, ◌≤◌, length, drop, get_or};
ghost use Rattle.answer_words.specs.Words.{Put, Told};
ghost use Rattle.answer_words.specs.Parts.{repeated, standing_case, standing_of, cut_of, state_words, state_word_count, refusal_of, reader_of, plain_answer, part_case, part_start, part_number, part_words, part_word_count, PartPut, StepTold};

use crate::{TOO_FEW, cut_byte, cut_case, kind};
use format::{
    Answer, ByteOffset, PartAnswer, PartReader, PartStep, Refusal, RowNumber, Run, Standing, answer,
};

// How many words a state has, and a call's answer.
pub const STATE_COUNT: usize = 7;

pub const COUNT: usize = 11;

fn cut_of(flag: u64, byte: ByteOffset) -> Option<ByteOffset>
    ensures { result ≡ cut_of flag byte.bytes }
{
    if flag == 0 {
        return None;
    }
    Some(byte)
}

// The refusal that the words stand for. That they are all there stays a demand of each function here: C lends the words, and the public
// functions count them once.
fn refusal_of(state: &[u64]) -> Refusal
    requires { state_word_count ≤ length state.now }
    ensures { result ≡ refusal_of state.now }
{
    let number = (state[3] % 256) as u8;
    let place = ByteOffset {
        bytes: state[4] as usize,
    };
    let field = ByteOffset {
        bytes: state[6] as usize,
    };
    let cut = cut_of(state[5], field);
    Refusal { number, place, cut }
}

// An open reader's refusal is not read: it has none.
fn standing_of(state: &[u64]) -> Standing
    requires { state_word_count ≤ length state.now }
    ensures { result ≡ standing_of (get_or state.now 0 0) (refusal_of state.now) }
{
    if state[0] == 0 {
        return Standing::Opened;
    }
    if state[0] == 1 {
        return Standing::Broken(refusal_of(state));
    }
    Standing::Closed
}

// The reader of words that are all there: what is on the way of every part.
fn reader_in(state: &[u64]) -> PartReader
    requires { state_word_count ≤ length state.now }
    ensures { result ≡ reader_of state.now }
{
    let standing = standing_of(state);
    let at = ByteOffset {
        bytes: state[2] as usize,
    };
    PartReader {
        held: state[1] as usize,
        at,
        standing,
    }
}

// The word at i, 0 where there is none.
fn word(state: &[u64], i: usize) -> u64
    ensures { result ≡ get_or state.now i 0 }
{
    state.get(i).copied().unwrap_or(0)
}

// The reader that the words stand for; a word that is missing stands for 0.
pub fn reader_of(state: &[u64]) -> PartReader
    ensures { result ≡ reader_of state.now }
{
    if state.len() < STATE_COUNT {
        let all = [
            word(state, 0),
            word(state, 1),
            word(state, 2),
            word(state, 3),
            word(state, 4),
            word(state, 5),
            word(state, 6),
        ];
        return reader_in(&all);
    }
    reader_in(state)
}

// An arm for each variant: `repeated` in specs/Parts.antt says it in the same way.
fn repeats(standing: Standing) -> Answer
    ensures { result ≡ repeated standing }
{
    match standing {
        Standing::Broken(f) => Err(f),
        Standing::Opened => Ok(None),
        Standing::Closed => Ok(None),
    }
}

// The numbers are the C interface (`standing_case` in specs/Parts.antt).
fn standing_case(standing: Standing) -> u64
    ensures { result ≡ standing_case standing }
{
    match standing {
        Standing::Opened => 0,
        Standing::Broken(_) => 1,
        Standing::Closed => 2,
    }
}

fn store_reader(reader: PartReader, state: &mut [u64]) -> u64
    requires { state_word_count ≤ length state.old }
    ensures { Put state_words (λ s. 0) reader state.old state.new result }
{
    let standing = reader.standing;
    let again = repeats(standing);
    state[0] = standing_case(standing);
    state[1] = reader.held as u64;
    state[2] = reader.at.bytes as u64;
    state[3] = answer::number(again) as u64;
    state[4] = answer::place(again).bytes as u64;
    state[5] = cut_case(answer::cut_field(again));
    state[6] = cut_byte(answer::cut_field(again)).bytes as u64;
    0
}

// The words of a reader, in the first of the words lent.
pub fn put_reader(reader: PartReader, state: &mut [u64]) -> u64
    ensures { Told state_words (λ s. 0) reader state.old state.new result }
{
    if state.len() < STATE_COUNT {
        return TOO_FEW;
    }
    store_reader(reader, state)
}

// A run field by field: one that is moved whole goes through memory in pieces.
fn plain(answer: PartAnswer) -> Answer
    ensures { result ≡ plain_answer answer }
{
    match answer {
        PartAnswer::Run(_, r) => {
            let kind = r.kind;
            let rows = r.rows;
            let consumed = r.consumed;
            Ok(Some(Run::new(kind, r.width, rows, consumed)))
        }
        PartAnswer::Refused(f) => Err(f),
        PartAnswer::More => Ok(None),
        PartAnswer::End => Ok(None),
    }
}

// The numbers are the C interface (`part_case` in specs/Parts.antt).
fn case(answer: PartAnswer) -> u64
    ensures { result ≡ part_case answer }
{
    match answer {
        PartAnswer::Run(_, _) => 1,
        PartAnswer::Refused(_) => 2,
        PartAnswer::More => 3,
        PartAnswer::End => 0,
    }
}

fn start(answer: PartAnswer) -> ByteOffset
    ensures { result.bytes ≡ part_start answer }
{
    match answer {
        PartAnswer::Run(at, _) => at,
        PartAnswer::Refused(_) => ByteOffset { bytes: 0 },
        PartAnswer::More => ByteOffset { bytes: 0 },
        PartAnswer::End => ByteOffset { bytes: 0 },
    }
}

// The words of what a call does, in the first of the words lent. Answers the refusal's number.
fn store_part(step: PartStep, words: &mut [u64]) -> u64
    requires { part_word_count ≤ length words.old }
    ensures { Put part_words part_number step words.old words.new result }
{
    let said = step.answer;
    let a = plain(said);
    words[0] = case(said);
    words[1] = answer::number(a) as u64;
    words[2] = answer::place(a).bytes as u64;
    words[3] = kind(a) as u64;
    words[4] = answer::rows(a).rows as u64;
    words[5] = answer::consumed(a).bytes as u64;
    words[6] = cut_case(answer::cut_field(a));
    words[7] = cut_byte(answer::cut_field(a)).bytes as u64;
    words[8] = answer::width(a) as u64;
    words[9] = start(said).bytes as u64;
    words[10] = step.taken.bytes as u64;
    answer::number(a) as u64
}

fn store_step(step: PartStep, state: &mut [u64], words: &mut [u64]) -> u64
    requires state_word_count_in_bounds { state_word_count ≤ length state.old }
    requires part_word_count_in_bounds { part_word_count ≤ length words.old }
    ensures { PartPut step state.old state.new words.old words.new result }
{
    store_reader(step.reader, state);
    store_part(step, words)
}

// What a call does, told: the answer, and the reader for the next call.
pub fn put_step(step: PartStep, state: &mut [u64], words: &mut [u64]) -> u64
    ensures { StepTold step state.old state.new words.old words.new result }
{
    if state.len() < STATE_COUNT {
        return TOO_FEW;
    }
    if words.len() < COUNT {
        return TOO_FEW;
    }
    store_step(step, state, words)
}

// The words of a call that refuses nothing: of a run, or of none.
fn lay(
    case: u64,
    kind: u64,
    rows: RowNumber,
    bytes: ByteOffset,
    width: usize,
    start: ByteOffset,
    taken: ByteOffset,
    words: &mut [u64],
)
    requires { part_word_count ≤ length words.old }
    ensures { words.new ≡ (case ∷ 0 ∷ 0 ∷ kind ∷ rows.rows ∷ bytes.bytes ∷ 0 ∷ 0 ∷ width ∷ start.bytes ∷ taken.bytes ∷ []) ++ drop part_word_count words.old }
{
    words[0] = case;
    words[1] = 0;
    words[2] = 0;
    words[3] = kind;
    words[4] = rows.rows as u64;
    words[5] = bytes.bytes as u64;
    words[6] = 0;
    words[7] = 0;
    words[8] = width as u64;
    words[9] = start.bytes as u64;
    words[10] = taken.bytes as u64;
}

fn store_taken(step: PartStep, state: &mut [u64], words: &mut [u64]) -> u64
    requires state_word_count_in_bounds { state_word_count ≤ length state.old }
    requires part_word_count_in_bounds { part_word_count ≤ length words.old }
    ensures { PartPut step state.old state.new words.old words.new result }
{
    let said = step.answer;
    match said {
        PartAnswer::Run(at, r) => {
            let kind = r.kind;
            let rows = r.rows;
            let consumed = r.consumed;
            store_reader(step.reader, state);
            lay(
                1,
                kind.number() as u64,
                rows,
                consumed,
                r.width,
                at,
                step.taken,
                words,
            );
            0
        }
        PartAnswer::More => {
            store_reader(step.reader, state);
            let none = ByteOffset { bytes: 0 };
            lay(
                3,
                0,
                RowNumber { rows: 0 },
                none,
                0,
                none,
                step.taken,
                words,
            );
            0
        }
        PartAnswer::Refused(_) => store_step(step, state, words),
        PartAnswer::End => store_step(step, state, words),
    }
}

// The same as `put_step`, for the call that is made most: what a run or a held part is told by is known before a word is stored.
pub fn put_taken(step: PartStep, state: &mut [u64], words: &mut [u64]) -> u64
    ensures { StepTold step state.old state.new words.old words.new result }
{
    if state.len() < STATE_COUNT {
        return TOO_FEW;
    }
    if words.len() < COUNT {
        return TOO_FEW;
    }
    store_taken(step, state, words)
}
