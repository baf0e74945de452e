// Flags and bytes written as byte runs, and how many bytes they take: the exported functions over `byte_writer`.
ghost use Rattle.std.specs.Prelude.{◌≡◌, length};
ghost use Rattle.byte_writer.specs.Choice.{written};
ghost use Rattle.byte_writer.specs.Flags.{flag_bytes};
ghost use Rattle.exports.specs.ByteRuns.{byte_run_words, BooleansWrittenTold, BytesWrittenTold};

use byte_writer::Written;
use format::Refusal;

// How many words the answer of the byte writer has.
pub const COUNT: usize = 5;

// What writing bytes came to, as words. The C interface: each list of words has columns of its own, as `batch_words` says.
#[tactic(auto, unfolding(crate::specs::ByteRuns::byte_run_words))]
pub(crate) fn words_of(answer: Result<Written, Refusal>) -> [u64; COUNT]
    ensures { result ≡ byte_run_words answer }
{
    match answer {
        Ok(w) => [1, 0, 0, w.rows.rows as u64, w.size.bytes as u64],
        Err(f) => [2, f.number as u64, f.place.bytes as u64, 0, 0],
    }
}

// Flags as a boolean column: any byte but 0 is true. Nothing is written on refusal 8.
#[unsafe(no_mangle)]
pub extern "C" fn orc_write_booleans(flags: &[u8], out: &mut [u8], words: &mut [u64]) -> u64
    ensures { BooleansWrittenTold flags.now out.old out.new words.old words.new result }
{
    if words.len() < answer_words::COUNT {
        return answer_words::TOO_FEW;
    }
    let answer = byte_writer::write_booleans(flags, out);
    answer_words::put_answer(answer, words)
}

// Bytes as a byte column. Nothing is written on refusal 8.
#[unsafe(no_mangle)]
pub extern "C" fn orc_write_bytes(bytes: &[u8], out: &mut [u8], words: &mut [u64]) -> u64
    ensures { BytesWrittenTold bytes.now out.old out.new words.old words.new result }
{
    if words.len() < COUNT {
        return answer_words::TOO_FEW;
    }
    let answer = byte_writer::write_bytes(bytes, out);
    let said = words_of(answer);
    answer_words::lay(&said, words);
    said[1]
}

// How many bytes `orc_write_booleans` would write.
#[unsafe(no_mangle)]
pub extern "C" fn orc_size_of_booleans(flags: &[u8]) -> u64
    ensures { result ≡ length (written (flag_bytes flags.now)) }
{
    byte_writer::size_of_booleans(flags).bytes as u64
}

// How many bytes `orc_write_bytes` would write.
#[unsafe(no_mangle)]
pub extern "C" fn orc_size_of_bytes(bytes: &[u8]) -> u64
    ensures { result ≡ length (written bytes.now) }
{
    byte_writer::size_of_bytes(bytes).bytes as u64
}
