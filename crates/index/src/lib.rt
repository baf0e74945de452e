// The row index of an integer stream, beside it: three lent columns, one place a run, with its first row, its byte offset and its rows. They
// are three slices, and no slice of entries, because C lends them so.
// A caller's index is not trusted: it is compared with the stream before it is used.
#![tactic(auto)]

ghost use Rattle.std.specs.Prelude.{◌≡◌, ◌+◌, ◌-◌, ◌≤◌, ◌<◌, length, take, drop, ◌++◌};
ghost use Rattle.index.specs.Entries.{holds_row};
ghost use Rattle.format.specs.Answers.{refusing};
ghost use Rattle.index.specs.Columns.{holder_in};
ghost use Rattle.index.specs.Promises.{found_of, BuiltIn, LookedUp, ReadFrom};
ghost use Rattle.index.specs.Walk.{left_of, Ready, RowsLaid};

use format::{ByteOffset, Kind, Refusal, RowNumber};
use util::rows;

mod walk;

// One run: its first row, where it begins, and how many rows it has.
#[derive(Clone, Copy)]
pub struct Entry {
    pub first: RowNumber,
    pub at: ByteOffset,
    pub rows: RowNumber,
}

// What was built: how many entries, and the rows and bytes of the stream.
#[derive(Clone, Copy)]
pub struct Sizes {
    pub entries: usize,
    pub rows: RowNumber,
    pub consumed: ByteOffset,
}

impl Entry {
    // By one place of the three columns.
    fn new(first: u64, at: u64, rows: u64) -> Self
        ensures { result ≡ record { first = record { rows = first }; at = record { bytes = at }; rows = record { rows = rows } } }
    {
        Entry {
            first: RowNumber {
                rows: first as usize,
            },
            at: ByteOffset { bytes: at as usize },
            rows: RowNumber {
                rows: rows as usize,
            },
        }
    }

    // Whether its rows hold a row. Not row < first + rows: the sum may pass 2^64 - 1.
    fn holds(self, row: RowNumber) -> bool
        ensures { result ≡ holds_row (record { first = self.first.rows; at = self.at.bytes; rows = self.rows.rows }) row.rows }
    {
        let first = self.first;
        let rows = self.rows;
        first.rows <= row.rows && row.rows - first.rows < rows.rows
    }
}

// A refusal that is not the stream's own: it has no place. Its number is a `u8`, and no enum, because C and `refuses` in specs/Entries say
// refusals by their numbers.
fn refused(number: u8) -> Refusal
    ensures { result ≡ refusing number 0 }
{
    Refusal::new(number, ByteOffset { bytes: 0 })
}

// The index of a stream, in the first places of the three columns. It refuses without touching them: 15 if they are of unequal length; the
// stream's own refusal; then 8 if an entry lacks a place or the rows pass 2^64 - 1.
pub fn build(
    input: &[u8],
    first: &mut [u64],
    at: &mut [u64],
    counts: &mut [u64],
) -> Result<Sizes, Refusal>
    ensures { BuiltIn input.now first.old at.old counts.old
        first.new at.new counts.new result }
{
    let places = first.len();
    if at.len() != places || counts.len() != places {
        return Err(refused(15));
    }
    let found = walk::whole_of(input)?;
    let Some(rows) = found.rows else {
        return Err(refused(8));
    };
    if places < found.runs {
        return Err(refused(8));
    }
    walk::fill(input, first, at, counts);
    Ok(Sizes {
        entries: found.runs,
        rows,
        consumed: ByteOffset { bytes: input.len() },
    })
}

// The entry that holds a row, of columns of one length: 16 if there is none.
fn holder(first: &[u64], at: &[u64], counts: &[u64], row: RowNumber) -> Result<Entry, Refusal>
    requires { (length at.now ≡ length first.now) × (length counts.now ≡ length first.now) }
    ensures { result ≡ found_of (holder_in row.rows first.now at.now counts.now) }
{
    for i in 0..first.len() {
        let entry = Entry::new(first[i], at[i], counts[i]);
        if entry.holds(row) {
            return Ok(entry);
        }
    }
    Err(refused(16))
}

// The entry that holds a row. Refusals: 15 if the columns are of unequal length, or are not exactly the stream's (a refused stream has
// none); 16 if there is no such row.
pub fn look_up(
    input: &[u8],
    first: &[u64],
    at: &[u64],
    counts: &[u64],
    row: RowNumber,
) -> Result<Entry, Refusal>
    ensures { LookedUp input.now
        (record { firsts = first.now; offsets = at.now; counts = counts.now }) row.rows result }
{
    let places = first.len();
    if at.len() != places || counts.len() != places {
        return Err(refused(15));
    }
    if !walk::right(input, first, at, counts) {
        return Err(refused(15));
    }
    holder(first, at, counts, row)
}

// How many rows there are from a row on, by the last entry's first row and its rows, if there are places for them.
fn left_from(first: u64, rows: u64, row: RowNumber, places: usize) -> Option<RowNumber>
    requires { row.rows < first + rows }
    ensures { result ≡ left_of first rows row.rows places }
{
    let first = first as usize;
    let rows = rows as usize;
    // not first + rows - row: the sum may pass 2^64 - 1
    let left = if first <= row.rows {
        rows - (row.rows - first)
    } else {
        rows.checked_add(first - row.rows)?
    };
    if places < left {
        return None;
    }
    Some(RowNumber { rows: left })
}

// The rows from a row on that the run at a place holds and the runs behind it, where there is room for them.
fn lay(input: &[u8], at: ByteOffset, skip: RowNumber, signed: bool, out: &mut [i64])
    requires { Ready input.now at.bytes skip.rows (length out.old) }
    ensures { RowsLaid input.now at.bytes skip.rows signed out.old out.new }
{
    let mut held = rows::scratch();
    let a = rle_v2::read_run(input, at, signed, &mut held);
    match a {
        Ok(Some(run)) => {
            let count = run.rows;
            let consumed = run.consumed;
            let n = count.rows - skip.rows;
            // by its units: with copy_from_slice these are two ranges of bare numbers
            rows::copy(&held, skip, RowNumber { rows: n }, out);
            let next = ByteOffset {
                bytes: at.bytes + consumed.bytes,
            };
            let _ = rle_v2::read_stream(input, next, signed, &mut out[n..]);
        }
        // neither is: the stream is whole. Two arms: a `_` for both does not tell the proof that the answer is none.
        Err(_) => {}
        Ok(None) => {}
    }
}

// The rows from row `row` on, through the index: all of the stream's rows but the first `row`, in the first places. It decodes from the
// run that holds the row on. Refusals: 15 and 16 as `look_up`, then 8, with no place touched.
pub fn read_from(
    input: &[u8],
    first: &[u64],
    at: &[u64],
    counts: &[u64],
    row: RowNumber,
    signed: bool,
    out: &mut [i64],
) -> Result<RowNumber, Refusal>
    ensures { ReadFrom input.now
        (record { firsts = first.now; offsets = at.now; counts = counts.now })
        row.rows signed out.old out.new result }
{
    let entry = look_up(input, first, at, counts, row)?;
    let last = first.len() - 1;
    let Some(left) = left_from(first[last], counts[last], row, out.len()) else {
        return Err(refused(8));
    };
    let from = entry.first;
    let skip = RowNumber {
        rows: row.rows - from.rows,
    };
    lay(input, entry.at, skip, signed, out);
    Ok(left)
}
