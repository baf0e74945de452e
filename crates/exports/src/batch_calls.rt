// Rows, flags and bytes in batches, from a position of the file's own row index: the exported functions over `batches` and `boolean_rle`.
ghost use Rattle.exports.specs.Batches.{RowsTold, FlagsTold, BytesTold};

use crate::batch_words;
use batches::RowPosition;
use boolean_rle::positions::{BytePosition, FlagPosition};
use format::{ByteOffset, RowNumber};

// The rows of a stream from a position on, as many as there are places: the run that begins at a byte, and the rows to skip from there.
#[unsafe(no_mangle)]
pub extern "C" fn orc_read_rows(
    input: &[u8],
    run: u64,
    skip: u64,
    flag: u64,
    rows: &mut [i64],
    words: &mut [u64],
) -> u64
    ensures { RowsTold input.now run skip flag rows.old rows.new words.old words.new result }
{
    if words.len() < batch_words::ROWS_COUNT {
        return answer_words::TOO_FEW;
    }
    let from = RowPosition {
        run: ByteOffset {
            bytes: run as usize,
        },
        skip: RowNumber {
            rows: skip as usize,
        },
    };
    let batch = batches::read_rows(input, from, flag != 0, rows);
    let said = batch_words::of_rows(batch);
    answer_words::lay(&said, words);
    said[1]
}

// n flags of a boolean column from a position on, as bytes of 0 or 1, all or none: the byte run that begins at a byte, the bytes of what the runs stand for
// to skip from there, and the bits of the next byte.
#[unsafe(no_mangle)]
pub extern "C" fn orc_read_flags(
    input: &[u8],
    run: u64,
    bytes: u64,
    bits: u64,
    n: u64,
    out: &mut [u8],
    words: &mut [u64],
) -> u64
    ensures { FlagsTold input.now run bytes bits n out.old out.new words.old words.new result }
{
    if words.len() < batch_words::FLAGS_COUNT {
        return answer_words::TOO_FEW;
    }
    let from = FlagPosition {
        run: ByteOffset {
            bytes: run as usize,
        },
        bytes: ByteOffset {
            bytes: bytes as usize,
        },
        bits: bits as usize,
    };
    let batch = boolean_rle::flags::read_flags(input, from, RowNumber { rows: n as usize }, out);
    let said = batch_words::of_flags(batch);
    answer_words::lay(&said, words);
    said[1]
}

// n bytes of a byte column from a position on, all or none.
#[unsafe(no_mangle)]
pub extern "C" fn orc_read_bytes(
    input: &[u8],
    run: u64,
    bytes: u64,
    n: u64,
    out: &mut [u8],
    words: &mut [u64],
) -> u64
    ensures { BytesTold input.now run bytes n out.old out.new words.old words.new result }
{
    if words.len() < batch_words::BYTES_COUNT {
        return answer_words::TOO_FEW;
    }
    let from = BytePosition {
        run: ByteOffset {
            bytes: run as usize,
        },
        bytes: ByteOffset {
            bytes: bytes as usize,
        },
    };
    let batch = boolean_rle::bytes::read_bytes(input, from, RowNumber { rows: n as usize }, out);
    let said = batch_words::of_bytes(batch);
    answer_words::lay(&said, words);
    said[1]
}
