// Rows in places: room for the rows of any run, and rows copied from one slice into another.
ghost use Rattle.std.specs.Prelude.{◌≡◌, ◌+◌, ◌≤◌, ◌++◌, length, take, drop};
ghost use Rattle.util.specs.Rows.{most_rows};

use format::{Kind, RowNumber};

// Places for the rows of one run.
pub fn scratch() -> [i64; Kind::MAX_ROWS]
    ensures { length result ≡ most_rows }
{
    [0; Kind::MAX_ROWS]
}

// Rows from one slice, without the first few, into the first places of another.
pub fn copy(rows: &[i64], skip: RowNumber, n: RowNumber, out: &mut [i64])
    requires { (skip.rows + n.rows ≤ length rows.now) × (n.rows ≤ length out.old) }
    ensures { out.new ≡ take n.rows (drop skip.rows rows.now) ++ drop n.rows out.old }
{
    out[..n.rows].copy_from_slice(&rows[skip.rows..skip.rows + n.rows]);
}
