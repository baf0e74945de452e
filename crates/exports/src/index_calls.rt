// The row index of a stream, and salvage by groups: the exported functions over `index` and `salvage`.
ghost use Rattle.exports.specs.Index.{IndexTold, LookUpTold, ReadFromTold};
ghost use Rattle.exports.specs.Salvage.{SalvageTold};

use crate::{index_words, row_words, salvage_words};
use format::RowNumber;

// The row index of a stream, in the first places of three columns: first row, byte offset and rows of each run.
#[unsafe(no_mangle)]
pub extern "C" fn orc_build_index(
    input: &[u8],
    first: &mut [u64],
    at: &mut [u64],
    counts: &mut [u64],
    words: &mut [u64],
) -> u64
    ensures { IndexTold input.now first.old at.old counts.old first.new at.new counts.new words.old words.new result }
{
    if words.len() < index_words::BUILT_COUNT {
        return answer_words::TOO_FEW;
    }
    let built = index::build(input, first, at, counts);
    let said = index_words::of_built(built);
    answer_words::lay(&said, words);
    said[1]
}

// The entry of an index that holds a row. The columns have an entry's place for each run, and no other.
#[unsafe(no_mangle)]
pub extern "C" fn orc_look_up(
    input: &[u8],
    first: &[u64],
    at: &[u64],
    counts: &[u64],
    row: u64,
    words: &mut [u64],
) -> u64
    ensures { LookUpTold input.now (record { firsts = first.now; offsets = at.now; counts = counts.now }) row words.old words.new result }
{
    if words.len() < index_words::FOUND_COUNT {
        return answer_words::TOO_FEW;
    }
    let found = index::look_up(input, first, at, counts, RowNumber { rows: row as usize });
    let said = index_words::of_found(found);
    answer_words::lay(&said, words);
    said[1]
}

// The rows of a stream from a row on, through its index, in the first of the rows lent.
#[unsafe(no_mangle)]
pub extern "C" fn orc_read_from(
    input: &[u8],
    first: &[u64],
    at: &[u64],
    counts: &[u64],
    row: u64,
    flag: u64,
    rows: &mut [i64],
    words: &mut [u64],
) -> u64
    ensures { ReadFromTold input.now (record { firsts = first.now; offsets = at.now; counts = counts.now }) row flag rows.old rows.new words.old words.new result }
{
    if words.len() < row_words::COUNT {
        return answer_words::TOO_FEW;
    }
    let from = RowNumber { rows: row as usize };
    let preview = index::read_from(input, first, at, counts, from, flag != 0, rows);
    let said = row_words::of(preview);
    answer_words::lay(&said, words);
    said[1]
}

// Salvages a stream by its groups, each with a start byte and a row count: the new stream in the first bytes of `out`, and a line for each group in
// the first of `report`. A refused call leaves both as they were.
#[unsafe(no_mangle)]
pub extern "C" fn orc_salvage(
    input: &[u8],
    starts: &[u64],
    counts: &[u64],
    fill: i64,
    flag: u64,
    out: &mut [u8],
    report: &mut [u8],
    words: &mut [u64],
) -> u64
    ensures { SalvageTold input.now starts.now counts.now fill flag out.old out.new report.old report.new words.old words.new result }
{
    if words.len() < salvage_words::COUNT {
        return answer_words::TOO_FEW;
    }
    let outcome = salvage::salvage(input, starts, counts, fill, flag != 0, out, report);
    let said = salvage_words::of(outcome);
    answer_words::lay(&said, words);
    said[1]
}
