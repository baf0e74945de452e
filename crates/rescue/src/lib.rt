// Rows rescued by positions (FORMAT.md, "Rows rescued by positions"): the rows of a damaged stream, by the positions that ORC's row index
// has for its row groups. A group that ends where the next one begins keeps its rows; in any other each row is the fill row.
#![tactic(auto)]

ghost use Rattle.std.specs.Prelude.{◌≡◌, length, Ok};
ghost use Rattle.format.specs.Answers.{refusing};
ghost use Rattle.rescue.specs.Rescue.{positions, groups};
ghost use Rattle.rescue.specs.RescuePromise.{Written, RowsRescued};
ghost use Rattle.rescue.specs.RescueSteps.{row_position, Fit, all_groups};

use batches::RowPosition;
use format::{ByteOffset, Refusal, RowNumber};

mod group;
mod listed;

// How many rows were written, and how many groups were kept.
#[derive(Clone, Copy)]
pub struct Totals {
    pub rows: RowNumber,
    pub kept: usize,
}

// A refusal: it has no place. Its number is a `u8`, and no enum, because C and `refuse_if` in specs/Rescue say refusals by their numbers.
fn refused(number: u8) -> Refusal
    ensures { result ≡ refusing number 0 }
{
    Refusal::new(number, ByteOffset { bytes: 0 })
}

fn row_position(run: usize, skip: usize) -> RowPosition
    ensures { result ≡ row_position run skip }
{
    RowPosition {
        run: ByteOffset { bytes: run },
        skip: RowNumber { rows: skip },
    }
}

// Writes each group's rows and its verdict, 1 if it is kept and 0 if it is replaced. A position is made plain once: where one group should end is where the next one begins.
fn rescue_all(
    input: &[u8],
    signed: bool,
    runs: &[u64],
    skips: &[u64],
    counts: &[u64],
    fill: i64,
    rows: &mut [i64],
    verdicts: &mut [u8],
) -> Totals
    requires { Fit runs.now skips.now counts.now (length rows.old) (length verdicts.old) }
    ensures { Written
        (all_groups signed fill input.now (groups (positions runs.now skips.now) counts.now))
        rows.old rows.new verdicts.old verdicts.new (Ok result) }
{
    let end = ByteOffset { bytes: input.len() };
    let mut here = group::make_plain(input, listed::position_at(end, runs, skips, 0));
    let mut at: usize = 0;
    let mut kept: usize = 0;
    for i in 0..counts.len() {
        let to = at + counts[i] as usize;
        let next = group::make_plain(input, listed::position_at(end, runs, skips, i + 1));
        let keep = group::rescue(input, here, next, signed, fill, &mut rows[at..to]);
        verdicts[i] = u8::from(keep);
        kept += usize::from(keep);
        here = next;
        at = to;
    }
    Totals {
        rows: RowNumber { rows: at },
        kept,
    }
}

// The rows of a damaged stream by its groups, each with a position (a run's byte and the rows to skip from there) and a row count. A group
// is kept if all its rows can be read from its position and the next group begins right after them; otherwise each of its rows is the fill
// row. Refused with 17 if the columns are of unequal length or the positions are not in order, then with 8 if there are too few places for
// rows or verdicts. A refused call changes no place.
pub fn rescue(
    input: &[u8],
    signed: bool,
    runs: &[u64],
    skips: &[u64],
    counts: &[u64],
    fill: i64,
    rows: &mut [i64],
    verdicts: &mut [u8],
) -> Result<Totals, Refusal>
    ensures { RowsRescued
        input.now signed runs.now skips.now counts.now fill
        rows.old rows.new verdicts.old verdicts.new result }
{
    if runs.len() != skips.len() || runs.len() != counts.len() {
        return Err(refused(17));
    }
    let end = ByteOffset { bytes: input.len() };
    if !listed::in_order(end, runs, skips) {
        return Err(refused(17));
    }
    let places = RowNumber { rows: rows.len() };
    if listed::too_many(counts, places) || verdicts.len() < counts.len() {
        return Err(refused(8));
    }
    Ok(rescue_all(input, signed, runs, skips, counts, fill, rows, verdicts))
}
