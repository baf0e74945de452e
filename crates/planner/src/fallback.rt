// The direct runs of 64 bits as a proposal, for a column that nothing better was found for.
ghost use Rattle.std.specs.Prelude.{◌≡◌, ◌&&◌, length, leb};
ghost use Rattle.proposer.specs.Proposed.{Proposed};
ghost use Rattle.planner.specs.Check.{proposal};
ghost use Rattle.planner.specs.Plan.{direct_runs, DirectLaid, FallsBack};

use crate::write;
use format::{Kind, RowNumber};

// How many direct runs so many rows have.
fn runs_of(rows: RowNumber) -> usize
    ensures { result ≡ direct_runs rows.rows }
{
    rows.rows.div_ceil(Kind::MAX_ROWS)
}

// Whether each column has n places.
fn have_places(
    n: usize,
    first: usize,
    counts: usize,
    forms: usize,
    widths: usize,
    bases: usize,
) -> bool
    ensures { result ≡ (leb n first && leb n counts && leb n forms && leb n widths && leb n bases) }
{
    n <= first && n <= counts && n <= forms && n <= widths && n <= bases
}

// The segments of the direct runs, in the first places of the columns: 512 rows each, and the rest last.
fn lay(
    rows: RowNumber,
    runs: usize,
    first: &mut [u64],
    counts: &mut [u64],
    forms: &mut [u64],
    widths: &mut [u64],
    bases: &mut [u64],
)
    requires { (runs ≡ direct_runs rows.rows) × Proposed first.old counts.old forms.old widths.old bases.old runs }
    ensures { DirectLaid rows.rows
        (proposal first.new counts.new forms.new widths.new bases.new) runs }
{
    let n = rows.rows;
    for k in 0..runs {
        let row = Kind::MAX_ROWS * k;
        let left = n - row;
        let count = write::part_rows(RowNumber { rows: left }).rows;
        first[k] = row as u64;
        counts[k] = count as u64;
        forms[k] = 1;
        widths[k] = write::WIDEST as u64;
        bases[k] = 0;
    }
}

// The direct runs as a proposal, if the columns have places for them. (Five columns that are written, as `proposer::propose` has them; and 0 for
// none, as in `FallsBack` and `Proposes`.)
pub(crate) fn propose(
    rows: &[i64],
    first: &mut [u64],
    counts: &mut [u64],
    forms: &mut [u64],
    widths: &mut [u64],
    bases: &mut [u64],
) -> usize
    ensures { FallsBack rows.now
        (proposal first.new counts.new forms.new widths.new bases.new) result }
{
    write::know(rows);
    let n = RowNumber { rows: rows.len() };
    let runs = runs_of(n);
    if !have_places(
        runs,
        first.len(),
        counts.len(),
        forms.len(),
        widths.len(),
        bases.len(),
    ) {
        return 0;
    }
    lay(n, runs, first, counts, forms, widths, bases);
    runs
}
