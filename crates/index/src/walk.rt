// Walks over a stream by its runs' measures: no row is decoded. Three loops and not one that takes a closure: it would need a contract for the
// walk and for each closure, and what the loops share is the measure and one sum.
ghost use Rattle.std.specs.Prelude.{◌≡◌, ℕ, ◌+◌, length};
ghost use Rattle.format.specs.Streams.{stream};
ghost use Rattle.index.specs.Walk.{total_of, survey_from, right_from, same_three, Roomy, Filled};

use format::{ByteOffset, Refusal, RowNumber};

// A whole stream: how many runs it has, and how many rows, if these are at most 2^64 - 1.
#[derive(Clone, Copy)]
pub(crate) struct Whole {
    pub runs: usize,
    pub rows: Option<RowNumber>,
}

// A count of rows and more of them, while it is at most 2^64 - 1.
#[tactic(auto, unfolding(crate::specs::Walk::total_of))]
fn more(total: Option<RowNumber>, n: RowNumber) -> Option<RowNumber>
    ensures { (m : ℕ) → total ≡ total_of m → result ≡ total_of (m + n.rows) }
{
    let m = total?;
    let rows = m.rows.checked_add(n.rows)?;
    Some(RowNumber { rows })
}

// The runs and rows of a stream, or the stream's own refusal.
pub(crate) fn whole_of(input: &[u8]) -> Result<Whole, Refusal>
    ensures { result ≡ survey_from 0 0 0 (stream input.now) }
{
    let mut place: usize = 0;
    // the runs beside the walk, whose step is a run's bytes: no range and no slice to walk by `for`; `right` and `fill` the same
    let mut runs: usize = 0;
    let mut rows = Some(RowNumber { rows: 0 });
    while let Some(run) = rle_v2::measure(input, ByteOffset { bytes: place })? {
        let consumed = run.consumed;
        rows = more(rows, run.rows);
        place += consumed.bytes;
        runs += 1;
    }
    Ok(Whole { runs, rows })
}

// Whether three numbers of the columns are a run's, before which there are so many rows and bytes.
#[tactic(auto, unfolding(crate::specs::Walk::total_of))]
fn is_entry(
    first: u64,
    at: u64,
    count: u64,
    total: Option<RowNumber>,
    place: ByteOffset,
    rows: RowNumber,
) -> bool
    ensures { (m : ℕ) → total ≡ total_of m → result ≡ same_three first at count m place.bytes rows.rows }
{
    let Some(m) = total else {
        return false;
    };
    first as usize == m.rows && at as usize == place.bytes && count as usize == rows.rows
}

// Whether the columns, which are of one length, are exactly the stream's.
pub(crate) fn right(input: &[u8], first: &[u64], at: &[u64], counts: &[u64]) -> bool
    requires { (length at.now ≡ length first.now) × (length counts.now ≡ length first.now) }
    ensures { result ≡ right_from 0 0 first.now at.now counts.now (stream input.now) }
{
    let mut place: usize = 0;
    let mut i: usize = 0;
    let mut total = Some(RowNumber { rows: 0 });
    // an `Ok(Some(run))` here does not tell the proof, in its else, that the answer is none
    while place < input.len() {
        let from = ByteOffset { bytes: place };
        let Some(run) = rle_v2::measure(input, from).unwrap_or(None) else {
            return false;
        };
        let rows = run.rows;
        let consumed = run.consumed;
        if first.len() <= i {
            return false;
        }
        if !is_entry(first[i], at[i], counts[i], total, from, rows) {
            return false;
        }
        total = more(total, rows);
        place += consumed.bytes;
        i += 1;
    }
    i == first.len()
}

// A whole stream's columns, into their first places.
pub(crate) fn fill(input: &[u8], first: &mut [u64], at: &mut [u64], counts: &mut [u64])
    requires { Roomy input.now (length first.old) (length at.old) (length counts.old) }
    ensures { Filled input.now first.old at.old counts.old
        first.new at.new counts.new }
{
    let mut place: usize = 0;
    let mut row: usize = 0;
    let mut i: usize = 0;
    // until the end: the stream is whole, so no run is refused
    while let Some(run) = rle_v2::measure(input, ByteOffset { bytes: place }).unwrap_or(None) {
        let rows = run.rows;
        let consumed = run.consumed;
        first[i] = row as u64;
        at[i] = place as u64;
        counts[i] = rows.rows as u64;
        row += rows.rows;
        place += consumed.bytes;
        i += 1;
    }
}
