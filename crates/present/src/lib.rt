// Columns with missing rows: flags say which rows are there, and each row that is there goes to its own place, with a fill in the others.
#![tactic(auto)]

ghost use Rattle.std.specs.Prelude.{◌≡◌, ◌≤◌, ◌++◌, length, drop};
ghost use Rattle.format.specs.Fields.{pick};
ghost use Rattle.present.specs.Present.{is_there, rows_for, present, SpreadOut};
ghost use Rattle.present.specs.Present as Present;

use format::{ByteOffset, Refusal, RowNumber};

// How many rows a flag stands for: one, or none if it is 0. It is computed and not branched on, since flags can't be guessed.
pub fn rows_for(flag: u8) -> RowNumber
    ensures { result.rows ≡ rows_for flag }
{
    RowNumber {
        rows: (flag as usize + 255) / 256,
    }
}

// The row if the flag is not 0, else the fill; looked up, for the same reason.
fn row_or_fill(flag: u8, row: i64, fill: i64) -> i64
    ensures { result ≡ pick (is_there flag) row fill }
{
    let both = [fill, row];
    both[rows_for(flag).rows]
}

// How many rows are there: the flags that are not 0.
pub fn count_present(flags: &[u8]) -> RowNumber
    ensures { result.rows ≡ present flags.now }
{
    let mut found: usize = 0;
    for &flag in flags {
        found += rows_for(flag).rows;
    }
    RowNumber { rows: found }
}

// The whole column, into the first places: for each flag the next row, or the fill. The first loop has a next row at every flag, there or
// not, and ends with the last row; after that only the fill is left.
fn lay(flags: &[u8], rows: &[i64], fill: i64, out: &mut [i64])
    requires { (present flags.now ≡ length rows.now) × (length flags.now ≤ length out.old) }
    ensures { out.new ≡ Present.spread fill flags.now rows.now
        ++ drop (length flags.now) out.old }
{
    // a `for` over the flags would need a test of `next` and a `break` at each, and over the rows a test of the flag, which can't be guessed
    let mut next: usize = 0;
    let mut i: usize = 0;
    while next < rows.len() {
        let flag = flags[i];
        out[i] = row_or_fill(flag, rows[next], fill);
        next += rows_for(flag).rows;
        i += 1;
    }
    out[i..flags.len()].fill(fill);
}

// A column with missing rows, into the first places: row i is the next of `rows` if flag i is not 0, else the fill. It refuses without
// touching a place: 21 if there are not exactly as many rows as flags that are not 0; then 8 if there are fewer places than flags.
pub fn spread(flags: &[u8], rows: &[i64], fill: i64, out: &mut [i64]) -> Result<RowNumber, Refusal>
    ensures { SpreadOut flags.now rows.now fill out.old out.new result }
{
    // 21 and 8 stay numbers: they are docs/FORMAT.md's, which `SpreadOut` names and C is given
    let there = count_present(flags);
    if there.rows != rows.len() {
        return Err(Refusal::new(21, ByteOffset { bytes: 0 }));
    }
    if out.len() < flags.len() {
        return Err(Refusal::new(8, ByteOffset { bytes: 0 }));
    }
    lay(flags, rows, fill, out);
    Ok(RowNumber { rows: flags.len() })
}
