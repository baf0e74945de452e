// Proposes where a column is cut into runs, and each run's form, width and base (FORMAT.md, "Planner"): a shortest path, found by dynamic programming
// over a window of rows. It is proved safe and ending and no more: `planner` checks every proposal, and has the direct runs of 64 bits if one is not
// accepted.
//
// A node of the graph is a row, an edge is a run that begins there, and its length is the run's bits. For each window of at most 512 rows: `candidates`
// finds which widths its rows and steps ask for, and no other edges are looked at; `walk` goes over the rows once, with an open run for each of these
// widths and each form (`frames` are those of patched runs); the `path` of least bits is turned round, and its runs are proposed, all of them or all but
// the last.
#![tactic(auto)]

ghost use Rattle.std.specs.Prelude.{◌≤◌, ◌<◌, length};
ghost use Rattle.proposer.specs.Proposed.{Proposed};

mod bits;
mod candidates;
mod cells;
mod columns;
mod frames;
mod patched;
mod path;
mod runs;
mod states;
mod walk;

use columns::Columns;
use format::Kind;
use path::{Path, WINDOW};
use states::Form;

// A window's last run is left to the next window where it begins this late: a run is then not cut where the window ends, and a row is
// walked over at most 4/3 times.
const LATE: u64 = WINDOW / 4 * 3;

// The runs laid so far: where the next begins, how many, and their bytes. Those that the columns have no place for are counted and lost.
#[derive(Clone, Copy)]
struct LaidRuns {
    at: usize,
    count: usize,
    bytes: u64,
}

// So many rows further, at least one, up to the end.
fn further(at: usize, rows: u64, end: usize) -> usize
    requires { at < end }
    ensures { (at < result) × (result ≤ end) }
{
    if rows == 0 {
        at + 1
    } else if (end - at) as u64 <= rows {
        end
    } else {
        at + rows as usize
    }
}

// Whether the step to row i is this one.
fn is_step(rows: &[i64], i: usize, step: u64) -> bool {
    0 < i && cells::row(rows, i).wrapping_sub(cells::row(rows, i - 1)) == step
}

// How many rows the first so many, in equal steps, go on with: a fixed delta takes them at no cost, behind the window too.
fn stretch(rows: &[i64], count: u64) -> u64 {
    let step = cells::row(rows, 1).wrapping_sub(cells::row(rows, 0));
    let end = rows.len().min(WINDOW as usize);
    for i in count as usize..end {
        if !is_step(rows, i, step) {
            return i as u64;
        }
    }
    count.max(end as u64)
}

// The end of the run that begins `from` rows into a window.
fn run_end(rows: &[i64], at: usize, run: u64, from: u64, window: u64) -> usize
    requires { at < length rows.now }
    ensures { (at < result) × (result ≤ length rows.now) }
{
    let end = states::from(run);
    let count = end.wrapping_sub(from);
    let rows_on = match states::form_of(run) {
        Form::Fixed if end == window => stretch(&rows[at..], count),
        _ => count,
    };
    further(at, rows_on, rows.len())
}

// Where the runs of a window end that are proposed now: with the window, or before its last run where that begins late and more rows follow.
fn stop_of(at: usize, last: u64, end: usize, rows: usize) -> usize
    requires { at < end }
    ensures { (at < result) × (result ≤ end) }
{
    if end < rows && LATE <= last {
        return further(at, last, end);
    }
    end
}

// The runs of a path through the rows up to `end`: those up to `stop` or, with a fixed delta that goes on, a little further.
fn lay_runs(
    rows: &[i64],
    signed: bool,
    end: usize,
    stop: usize,
    path: &Path,
    laid: LaidRuns,
    columns: &mut Columns<'_>,
) -> LaidRuns
    requires { (laid.count ≤ laid.at) × (laid.at < stop) × (stop ≤ end) × (end ≤ length rows.now) }
    ensures { (laid.at < result.at) × (result.at ≤ length rows.now) × (result.count ≤ result.at) }
{
    let start = laid.at;
    let mut laid = laid;
    while laid.at < stop {
        let from = (laid.at - start) as u64;
        let state = path.at(from);
        let next = run_end(rows, laid.at, state, from, (end - start) as u64);
        let run = runs::of(&rows[laid.at..next], signed, states::form_of(state));
        columns.put(laid.count, laid.at, next - laid.at, run);
        laid = LaidRuns {
            at: next,
            count: laid.count + 1,
            bytes: laid.bytes.wrapping_add(run.bytes),
        };
    }
    laid
}

// The runs of one window more.
fn lay_window(
    rows: &[i64],
    signed: bool,
    path: &mut Path,
    laid: LaidRuns,
    columns: &mut Columns<'_>,
) -> LaidRuns
    requires { (laid.count ≤ laid.at) × (laid.at < length rows.now) }
    ensures { (laid.at < result.at) × (result.at ≤ length rows.now) × (result.count ≤ result.at) }
{
    let at = laid.at;
    let end = further(at, WINDOW, rows.len());
    walk::walk(&rows[at..end], signed, path);
    let last = path.turn((end - at) as u64);
    let stop = stop_of(at, last, end, rows.len());
    lay_runs(rows, signed, end, stop, path, laid, columns)
}

// The direct runs of 64 bits.
fn lay_widest(rows: usize, columns: &mut Columns<'_>) -> usize {
    let count = rows.div_ceil(Kind::MAX_ROWS);
    for k in 0..count {
        let at = k * Kind::MAX_ROWS;
        columns.put(k, at, (rows - at).min(Kind::MAX_ROWS), runs::widest());
    }
    count
}

// The bytes of the direct runs of 64 bits.
fn widest_bytes(rows: u64) -> u64 {
    (rows << 3).wrapping_add(rows.div_ceil(WINDOW) << 1)
}

// The runs of all windows.
fn lay_all(rows: &[i64], signed: bool, columns: &mut Columns<'_>) -> LaidRuns {
    let mut path = Path::new();
    let mut laid = LaidRuns {
        at: 0,
        count: 0,
        bytes: 0,
    };
    while laid.at < rows.len() {
        laid = lay_window(rows, signed, &mut path, laid, columns);
    }
    laid
}

// The cheapest runs, which are never above the direct runs of 64 bits. Answers how many.
fn lay(rows: &[i64], signed: bool, columns: &mut Columns<'_>) -> usize {
    let laid = lay_all(rows, signed, columns);
    if widest_bytes(rows.len() as u64) < laid.bytes {
        return lay_widest(rows.len(), columns);
    }
    laid.count
}

// Proposes runs for a column, in the first places of the five: first row, rows, form (0 short repeat, 1 direct, 2 fixed delta, 3 packed delta, 4
// patched), width (bytes, code, code, code, bits) and base. Answers how many, or 0 where a column has too few places: columns and 0 are as `orc_plan`
// and the promise (`Proposed`) have them.
pub fn propose(
    rows: &[i64],
    signed: bool,
    first: &mut [u64],
    counts: &mut [u64],
    forms: &mut [u64],
    widths: &mut [u64],
    bases: &mut [u64],
) -> usize
    ensures { Proposed first.old counts.old forms.old widths.old bases.old result }
{
    let mut columns = Columns {
        first,
        counts,
        forms,
        widths,
        bases,
    };
    let room = columns.room();
    let count = lay(rows, signed, &mut columns);
    if count <= room { count } else { 0 }
}
