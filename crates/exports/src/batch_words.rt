// Batches as words: the case, the refusal's number and place, how many rows, flags or bytes were read, the position after them, and the field that was cut.
ghost use Rattle.std.specs.Prelude.{◌≡◌};
ghost use Rattle.exports.specs.Batches.{rows_words, flags_words, bytes_words};

use answer_words::{cut_byte, cut_case};
use batches::BatchRead;
use boolean_rle::bytes::BytesRead;
use boolean_rle::flags::FlagsRead;
use format::Refusal;

// These three, and `of` in the other modules of words, stay apart: each lays down columns of its own (the C interface, specs/), and one function over
// closures for the columns would say the same two arms with more.

// How many words each has.
pub const ROWS_COUNT: usize = 8;

pub const FLAGS_COUNT: usize = 9;

pub const BYTES_COUNT: usize = 8;

// Of rows.
#[tactic(auto, unfolding(crate::specs::Batches::rows_words))]
pub(crate) fn of_rows(batch: Result<Option<BatchRead>, Refusal>) -> [u64; ROWS_COUNT]
    ensures { result ≡ rows_words batch }
{
    match batch {
        Ok(Some(b)) => {
            let next = b.next;
            [
                1,
                0,
                0,
                b.rows.rows as u64,
                next.run.bytes as u64,
                next.skip.rows as u64,
                0,
                0,
            ]
        }
        Ok(None) => [0, 0, 0, 0, 0, 0, 0, 0],
        Err(f) => {
            let cut = f.cut;
            [
                2,
                f.number as u64,
                f.place.bytes as u64,
                0,
                0,
                0,
                cut_case(cut),
                cut_byte(cut).bytes as u64,
            ]
        }
    }
}

// Of flags.
#[tactic(auto, unfolding(crate::specs::Batches::flags_words))]
pub(crate) fn of_flags(batch: Result<FlagsRead, Refusal>) -> [u64; FLAGS_COUNT]
    ensures { result ≡ flags_words batch }
{
    match batch {
        Ok(b) => {
            let next = b.next;
            [
                1,
                0,
                0,
                b.rows.rows as u64,
                next.run.bytes as u64,
                next.bytes.bytes as u64,
                next.bits as u64,
                0,
                0,
            ]
        }
        Err(f) => {
            let cut = f.cut;
            [
                2,
                f.number as u64,
                f.place.bytes as u64,
                0,
                0,
                0,
                0,
                cut_case(cut),
                cut_byte(cut).bytes as u64,
            ]
        }
    }
}

// Of bytes.
#[tactic(auto, unfolding(crate::specs::Batches::bytes_words))]
pub(crate) fn of_bytes(batch: Result<BytesRead, Refusal>) -> [u64; BYTES_COUNT]
    ensures { result ≡ bytes_words batch }
{
    match batch {
        Ok(b) => {
            let next = b.next;
            [
                1,
                0,
                0,
                b.rows.rows as u64,
                next.run.bytes as u64,
                next.bytes.bytes as u64,
                0,
                0,
            ]
        }
        Err(f) => {
            let cut = f.cut;
            [
                2,
                f.number as u64,
                f.place.bytes as u64,
                0,
                0,
                0,
                cut_case(cut),
                cut_byte(cut).bytes as u64,
            ]
        }
    }
}
