// Columns of rows planned, checked and written, and streams converted: the exported functions over `planner` and `convert`.
ghost use Rattle.exports.specs.Columns.{PlanTold, CheckTold, ColumnTold};
ghost use Rattle.exports.specs.Converting.{ConvertTold};
ghost use Rattle.planner.specs.Check.{proposal};

use crate::{column_words, convert_words};
use format::ByteOffset;

// Proposes how a column is cut into runs: how many segments, each an entry in the first places of the five columns (first row, rows, form,
// width, base). None where a column has too few places. What it proposes is accepted wherever there is room, and has no more bytes than direct
// runs of 64 bits.
#[unsafe(no_mangle)]
pub extern "C" fn orc_plan(
    rows: &[i64],
    flag: u64,
    first: &mut [u64],
    counts: &mut [u64],
    forms: &mut [u64],
    widths: &mut [u64],
    bases: &mut [u64],
) -> u64
    ensures { PlanTold rows.now flag (proposal first.new counts.new forms.new widths.new bases.new) result }
{
    planner::plan(rows, flag != 0, first, counts, forms, widths, bases) as u64
}

// Whether a proposal is accepted in so much room.
#[unsafe(no_mangle)]
pub extern "C" fn orc_check_column(
    rows: &[i64],
    flag: u64,
    first: &[u64],
    counts: &[u64],
    forms: &[u64],
    widths: &[u64],
    bases: &[u64],
    room: u64,
    words: &mut [u64],
) -> u64
    ensures { CheckTold rows.now flag (proposal first.now counts.now forms.now widths.now bases.now) room words.old words.new result }
{
    if words.len() < column_words::CHECK_COUNT {
        return answer_words::TOO_FEW;
    }
    let checked = planner::check(
        rows,
        flag != 0,
        first,
        counts,
        forms,
        widths,
        bases,
        ByteOffset {
            bytes: room as usize,
        },
    );
    let said = column_words::of_checked(checked);
    answer_words::lay(&said, words);
    0
}

// A column as a stream of runs: as it is proposed, where that is accepted, else as direct runs of 64 bits, 512 rows each and the rest last.
// Nothing is written on refusal 8.
#[unsafe(no_mangle)]
pub extern "C" fn orc_write_column(
    rows: &[i64],
    flag: u64,
    first: &[u64],
    counts: &[u64],
    forms: &[u64],
    widths: &[u64],
    bases: &[u64],
    out: &mut [u8],
    words: &mut [u64],
) -> u64
    ensures { ColumnTold rows.now flag (proposal first.now counts.now forms.now widths.now bases.now) out.old out.new words.old words.new result }
{
    if words.len() < column_words::COUNT {
        return answer_words::TOO_FEW;
    }
    let answer = planner::write_column(rows, flag != 0, first, counts, forms, widths, bases, out);
    let said = column_words::of(answer);
    answer_words::lay(&said, words);
    said[1]
}

// The stream with each direct or packed delta run of an odd width at the next kept one, in the first bytes lent; every other run is
// copied. Nothing is written on a refusal: the stream's own, then 8.
#[unsafe(no_mangle)]
pub extern "C" fn orc_convert(input: &[u8], flag: u64, out: &mut [u8], words: &mut [u64]) -> u64
    ensures { ConvertTold input.now flag out.old out.new words.old words.new result }
{
    if words.len() < convert_words::COUNT {
        return answer_words::TOO_FEW;
    }
    let converted = convert::convert(input, flag != 0, out);
    let said = convert_words::of(converted);
    answer_words::lay(&said, words);
    said[1]
}
