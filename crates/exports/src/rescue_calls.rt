// Rows rescued from a damaged stream by the positions of the file's own row index: the exported function over `rescue`.
ghost use Rattle.exports.specs.Rescue.{RescueTold};

use crate::rescue_words;

// The rows of all groups in the first places of `rows`, and 1 (kept) or 0 (replaced) for each group in the first of `verdicts`. A group
// has a position (the byte of a run and the rows to skip from there) and a row count. A refused call leaves both as they were.
#[unsafe(no_mangle)]
pub extern "C" fn orc_rescue(
    input: &[u8],
    runs: &[u64],
    skips: &[u64],
    counts: &[u64],
    fill: i64,
    flag: u64,
    rows: &mut [i64],
    verdicts: &mut [u8],
    words: &mut [u64],
) -> u64
    ensures { RescueTold
        input.now runs.now skips.now counts.now fill flag
        rows.old rows.new verdicts.old verdicts.new words.old words.new result }
{
    if words.len() < rescue_words::COUNT {
        return answer_words::TOO_FEW;
    }
    let rescued = rescue::rescue(input, flag != 0, runs, skips, counts, fill, rows, verdicts);
    let said = rescue_words::of(rescued);
    answer_words::lay(&said, words);
    said[1]
}
