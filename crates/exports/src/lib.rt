// The exported functions, which a caller in Rust or C calls: slices in and out, numbers, and one number back. `orc_read_run` answers by that number
// alone and lays its rows out as bytes. All others lay their answer down in words of the caller's (`answer_words/specs/Words.antt` says what each word means),
// and read and write the caller's rows in place; the number is then the refusal's. All of it is the C interface: flags, forms and refusals as numbers,
// columns beside one another, and words with a length, stay so here, and nothing is lent before the words are counted.
#![tactic(auto)]

ghost use Rattle.std.specs.Prelude.{◌≡◌};
ghost use Rattle.format.specs.Kept.{NarrowestKept};
ghost use Rattle.exports.specs.RowBytes.{Loaded};
ghost use Rattle.exports.specs.Version.{face_version};
ghost use Rattle.exports.specs.Runs.{RunTold, StreamTold, BooleansTold, ValueTold, WriteTold};
ghost use Rattle.exports.specs.Labels.{LabelTold};
ghost use Rattle.exports.specs.Patched.{PatchedTold};
ghost use Rattle.exports.specs.Counts.{CountTold};

use format::{ByteOffset, RowNumber};

pub mod batch_calls;
mod batch_words;
pub mod byte_calls;
mod bytes;
pub mod column_calls;
mod column_words;
mod convert_words;
mod count_words;
mod forms;
pub mod index_calls;
mod index_words;
mod label_words;
pub mod lined_up_calls;
mod lined_up_words;
pub mod part_calls;
pub mod rescue_calls;
mod rescue_words;
mod row_words;
mod salvage_words;

// The version of these functions: one more with each change of what they take or answer.
#[unsafe(no_mangle)]
pub extern "C" fn orc_version() -> u64
    ensures { result ≡ face_version }
{
    14
}

// One run at the start of the input, its rows as eight bytes each, lowest first. The flag is 0 for unsigned, and any other number for signed.
// Answers 0 for end, 1 to 14 for a refusal, else 65,536 times the bytes consumed, plus the rows.
#[unsafe(no_mangle)]
pub extern "C" fn orc_read_run(input: &[u8], out: &mut [u8], flag: u64) -> u64
    ensures { Loaded input.now flag out.old out.new result }
{
    if input.len() == 0 {
        return 0;
    }
    let signed = flag != 0;
    // the top two bits are the kind
    if input[0] / 64 == 0 {
        return bytes::read_repeat(input, signed, out);
    }
    // a short run pays for ten places, and not for 512
    if bytes::is_short(input) {
        let mut rows = bytes::few_rows();
        return bytes::read_by(input, signed, &mut rows, out);
    }
    let mut rows = bytes::all_rows();
    bytes::read_by(input, signed, &mut rows, out)
}

// One run from a position on, its rows in the first of the rows lent.
#[unsafe(no_mangle)]
pub extern "C" fn orc_read_run_at(
    input: &[u8],
    at: u64,
    flag: u64,
    rows: &mut [i64],
    words: &mut [u64],
) -> u64
    ensures { RunTold input.now at flag rows.old rows.new words.old words.new result }
{
    if words.len() < answer_words::COUNT {
        return answer_words::TOO_FEW;
    }
    let answer = rle_v2::read_run(input, ByteOffset { bytes: at as usize }, flag != 0, rows);
    answer_words::put_answer(answer, words)
}

// The runs from a position to the end of the input, their rows one after another in the rows lent. At the first refusal it stops, and the
// rows of the runs before it stay.
#[unsafe(no_mangle)]
pub extern "C" fn orc_read_stream(
    input: &[u8],
    at: u64,
    flag: u64,
    rows: &mut [i64],
    words: &mut [u64],
) -> u64
    ensures { StreamTold input.now at flag rows.old rows.new words.old words.new result }
{
    if words.len() < answer_words::STREAM_COUNT {
        return answer_words::TOO_FEW;
    }
    let stream = rle_v2::read_stream(input, ByteOffset { bytes: at as usize }, flag != 0, rows);
    answer_words::put_stream(stream, words)
}

// n booleans from a position on, as bytes of 0 or 1 in the first n bytes lent.
#[unsafe(no_mangle)]
pub extern "C" fn orc_read_booleans(
    input: &[u8],
    at: u64,
    n: u64,
    out: &mut [u8],
    words: &mut [u64],
) -> u64
    ensures { BooleansTold input.now at n out.old out.new words.old words.new result }
{
    if words.len() < answer_words::COUNT {
        return answer_words::TOO_FEW;
    }
    let answer = boolean_rle::read_booleans(
        input,
        ByteOffset { bytes: at as usize },
        RowNumber { rows: n as usize },
        out,
    );
    answer_words::put_answer(answer, words)
}

// A value of n bytes at a position. The caller has the bytes: where this answers with a value, it is the n bytes from the position on.
#[unsafe(no_mangle)]
pub extern "C" fn orc_byte_value(input: &[u8], at: u64, n: u64, words: &mut [u64]) -> u64
    ensures { ValueTold input.now at n words.old words.new result }
{
    if words.len() < answer_words::COUNT {
        return answer_words::TOO_FEW;
    }
    let answer = variable_length::read_value(
        input,
        ByteOffset { bytes: at as usize },
        ByteOffset { bytes: n as usize },
    );
    answer_words::put_answer(answer, words)
}

// Writes one run. The form: 0 short repeat, 1 direct, 2 fixed delta, 3 packed delta. The width counts bytes for a short repeat, and is a
// width code otherwise.
#[unsafe(no_mangle)]
pub extern "C" fn orc_write_run(
    rows: &[i64],
    flag: u64,
    form: u64,
    width: u64,
    out: &mut [u8],
    words: &mut [u64],
) -> u64
    ensures { WriteTold rows.now flag form width out.old out.new words.old words.new result }
{
    if words.len() < answer_words::COUNT {
        return answer_words::TOO_FEW;
    }
    let answer = forms::write(rows, flag != 0, form, width, out);
    answer_words::put_answer(answer, words)
}

// Writes one patched run: the base is subtracted from every row, and the width counts the bits that a row's value keeps of the difference.
#[unsafe(no_mangle)]
pub extern "C" fn orc_write_patched(
    rows: &[i64],
    base: i64,
    width: u64,
    out: &mut [u8],
    words: &mut [u64],
) -> u64
    ensures { PatchedTold rows.now base width out.old out.new words.old words.new result }
{
    if words.len() < answer_words::COUNT {
        return answer_words::TOO_FEW;
    }
    let answer = forms::write_patched(rows, base, width, out);
    answer_words::put_answer(answer, words)
}

// The narrowest kept width code that holds x. 0 needs one bit.
#[unsafe(no_mangle)]
pub extern "C" fn orc_narrowest_code(x: u64) -> u64
    ensures { NarrowestKept x result }
{
    writer::narrowest_code(x) as u64
}

// What a row is called, by a dictionary (its block and the lengths of its names), the named rows' numbers and a flag for each row; or the
// fallback. The caller has the bytes: a name is the part of the block from where it begins on, of its size, and a fallback is all of it.
#[unsafe(no_mangle)]
pub extern "C" fn orc_label(
    lengths: &[i64],
    numbers: &[i64],
    flags: &[u8],
    block: &[u8],
    fallback: &[u8],
    row: u64,
    words: &mut [u64],
) -> u64
    ensures { LabelTold lengths.now numbers.now flags.now block.now fallback.now row words.old words.new result }
{
    if words.len() < label_words::COUNT {
        return answer_words::TOO_FEW;
    }
    let label = labels::label_of(
        lengths,
        numbers,
        flags,
        block,
        fallback,
        RowNumber { rows: row as usize },
    );
    let said = label_words::of(label);
    answer_words::lay(&said, words);
    said[1]
}

// How many of the first n booleans are true, of booleans packed eight to a byte, highest bit first.
#[unsafe(no_mangle)]
pub extern "C" fn orc_count_true(packed: &[u8], n: u64, words: &mut [u64]) -> u64
    ensures { CountTold packed.now n words.old words.new result }
{
    if words.len() < count_words::COUNT {
        return answer_words::TOO_FEW;
    }
    let count = boolean_rle::count::count_true(packed, RowNumber { rows: n as usize });
    let said = count_words::of(count);
    answer_words::lay(&said, words);
    said[1]
}
