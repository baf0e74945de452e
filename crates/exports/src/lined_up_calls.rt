// Columns whose parts are lined up: rows with their flags, and labels with their rows. The exported functions over `present` and `labels::label_column`.
ghost use Rattle.labels.specs.Column.{places_in};
ghost use Rattle.exports.specs.LinedUp.{SpreadTold, LabelsTold};

use crate::{lined_up_words, row_words};
use format::ByteOffset;

// The column whose present rows are given: each at the place of its flag, and the fill at the others.
#[unsafe(no_mangle)]
pub extern "C" fn orc_spread(
    flags: &[u8],
    rows: &[i64],
    fill: i64,
    out: &mut [i64],
    words: &mut [u64],
) -> u64
    ensures { SpreadTold flags.now rows.now fill out.old out.new words.old words.new result }
{
    if words.len() < row_words::COUNT {
        return answer_words::TOO_FEW;
    }
    let spread = present::spread(flags, rows, fill, out);
    let said = row_words::of(spread);
    answer_words::lay(&said, words);
    said[1]
}

// What every row is called, in one pass: where each name of the dictionary begins, and for each row where its name begins and how long it is.
#[unsafe(no_mangle)]
pub extern "C" fn orc_label_column(
    flags: &[u8],
    numbers: &[i64],
    lengths: &[i64],
    block: u64,
    offsets: &mut [u64],
    starts: &mut [u64],
    sizes: &mut [u64],
    words: &mut [u64],
) -> u64
    ensures { LabelsTold flags.now numbers.now lengths.now block
        (places_in offsets.old starts.old sizes.old)
        (places_in offsets.new starts.new sizes.new)
        words.old words.new result }
{
    if words.len() < lined_up_words::LABELS_COUNT {
        return answer_words::TOO_FEW;
    }
    let size = ByteOffset {
        bytes: block as usize,
    };
    let labels = labels::label_column(flags, numbers, lengths, size, offsets, starts, sizes);
    let said = lined_up_words::of_labels(labels);
    answer_words::lay(&said, words);
    said[1]
}
