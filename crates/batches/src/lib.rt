// Rows in batches (FORMAT.md, "Rows in batches"): as many rows of an integer stream as there are places, from a position on that ORC's row
// index names.
#![tactic(auto)]

ghost use Rattle.std.specs.Prelude.{◌≡◌, ◌+◌, ◌≤◌, ◌<◌, length, take, drop, ◌++◌};
ghost use Rattle.format.specs.Fields.{two64};
ghost use Rattle.batches.specs.BatchPromise.{position_in, batch_read_as, RowsRead};
ghost use Rattle.batches.specs.BatchSteps.{RunHolds, Finds, more, HeldRun, PartLaid, RunPart, BatchFrom};

use format::{ByteOffset, Kind, Refusal, RowNumber, Run};
use rle_v2::part;
use util::rows;

// Where a row stands: the byte where a run begins, and how many rows to skip from there.
#[derive(Clone, Copy)]
pub struct RowPosition {
    pub run: ByteOffset,
    pub skip: RowNumber,
}

// A batch: how many rows it has, and the position of the row after them.
#[derive(Clone, Copy)]
pub struct BatchRead {
    pub rows: RowNumber,
    pub next: RowPosition,
}

impl BatchRead {
    fn new(rows: RowNumber, run: ByteOffset, skip: RowNumber) -> Self
        ensures { result ≡ batch_read_as rows.rows run.bytes skip.rows }
    {
        BatchRead {
            rows,
            next: RowPosition { run, skip },
        }
    }

    // A batch that leaves the beginning of a run.
    fn up_to(rows: RowNumber, run: ByteOffset) -> Self
        ensures { result ≡ batch_read_as rows.rows run.bytes 0 }
    {
        BatchRead::new(rows, run, RowNumber { rows: 0 })
    }

    // The batch with k rows more before its own.
    fn after(self, k: RowNumber) -> Self
        requires { k.rows + self.rows.rows < two64 }
        ensures { result ≡ more k.rows self }
    {
        let own = self.rows;
        let next = self.next;
        let rows = RowNumber {
            rows: k.rows + own.rows,
        };
        BatchRead::new(rows, next.run, next.skip)
    }
}

// Finds a position's row: the run that holds it and the rows to skip in it, or the byte that it begins at, which is not looked at. Runs that
// are skipped as a whole are measured and not decoded; with no row to skip nothing is looked at.
// rescue's make_plain is the same walk, and not this one: here the promise is the same batches, there it is the position itself (plain_in).
fn seek(input: &[u8], from: RowPosition) -> Result<RowPosition, Refusal>
    ensures { Finds input.now from result }
{
    let at = from.run;
    let skip = from.skip;
    let mut place = at.bytes;
    let mut left = skip.rows;
    while 0 < left {
        let Some(run) = rle_v2::measure(input, ByteOffset { bytes: place })? else {
            // more rows to skip than there are
            return Err(Refusal::new(16, ByteOffset { bytes: 0 }));
        };
        let rows = run.rows;
        let consumed = run.consumed;
        if left < rows.rows {
            return Ok(RowPosition {
                run: ByteOffset { bytes: place },
                skip: RowNumber { rows: left },
            });
        }
        left -= rows.rows;
        place += consumed.bytes;
    }
    Ok(RowPosition {
        run: ByteOffset { bytes: place },
        skip: RowNumber { rows: 0 },
    })
}

// Fewer places, for a short run: they are less to clear.
fn short_scratch() -> [i64; 128]
    ensures { length result ≡ 128 }
{
    [0; 128]
}

// The rows of a run that was read aside, from a position within it on, as many as there are places.
fn lay_part(run: Run, held: &[i64], from: RowPosition, out: &mut [i64]) -> BatchRead
    requires { HeldRun run held.now from }
    ensures { PartLaid run held.now from out.old out.new result }
{
    let at = from.run;
    let skip = from.skip;
    let rows = run.rows;
    let consumed = run.consumed;
    let left = rows.rows - skip.rows;
    let places = out.len();
    if places < left {
        // by its units: with copy_from_slice these are two ranges of bare numbers
        rows::copy(held, skip, RowNumber { rows: places }, out);
        let next = RowNumber {
            rows: skip.rows + places,
        };
        return BatchRead::new(RowNumber { rows: places }, at, next);
    }
    rows::copy(held, skip, RowNumber { rows: left }, out);
    let end = ByteOffset {
        bytes: at.bytes + consumed.bytes,
    };
    BatchRead::up_to(RowNumber { rows: left }, end)
}

// The rows of one run, from a position within it on, as many as there are places. It is read aside, into few places if they are enough.
fn read_aside(input: &[u8], from: RowPosition, signed: bool, out: &mut [i64]) -> BatchRead
    requires { RunHolds input.now from }
    ensures { RunPart input.now from signed out.old out.new result }
{
    let at = from.run;
    let mut few = short_scratch();
    let a = rle_v2::read_run(input, at, signed, &mut few);
    if let Ok(Some(run)) = a {
        return lay_part(run, &few, from, out);
    }
    let mut held = rows::scratch();
    let b = rle_v2::read_run(input, at, signed, &mut held);
    match b {
        Ok(Some(run)) => lay_part(run, &held, from, out),
        // neither is: a run begins there. Two arms: a `_` for both does not tell the proof that the answer is none.
        Err(_) => BatchRead::up_to(RowNumber { rows: 0 }, at),
        Ok(None) => BatchRead::up_to(RowNumber { rows: 0 }, at),
    }
}

// The same, for a run of any kind. Of a direct run only those rows are unpacked, into their places; another run is read aside.
fn read_part(input: &[u8], from: RowPosition, signed: bool, out: &mut [i64]) -> BatchRead
    requires { RunHolds input.now from }
    ensures { RunPart input.now from signed out.old out.new result }
{
    let at = from.run;
    let skip = from.skip;
    let room = out.len();
    match part::read(input, at, skip, signed, out) {
        Some(run) => {
            let rows = run.rows;
            let consumed = run.consumed;
            let left = rows.rows - skip.rows;
            if room < left {
                let next = RowNumber {
                    rows: skip.rows + room,
                };
                return BatchRead::new(RowNumber { rows: room }, at, next);
            }
            let end = ByteOffset {
                bytes: at.bytes + consumed.bytes,
            };
            BatchRead::up_to(RowNumber { rows: left }, end)
        }
        None => read_aside(input, from, signed, out),
    }
}

// The rows of the runs from a byte on, as many as there are places. A run that fits is read into its places, and one that is cut by
// the batch's end is read in part; no run after it is looked at.
fn read_runs(input: &[u8], at: ByteOffset, signed: bool, out: &mut [i64]) -> BatchRead
    ensures { BatchFrom input.now (record { run = at.bytes; skip = 0 }) signed
        out.old out.new result }
{
    let mut p = at.bytes;
    let mut k: usize = 0;
    while k < out.len() {
        let a = rle_v2::read_run(input, ByteOffset { bytes: p }, signed, &mut out[k..]);
        match a {
            Ok(Some(r)) => {
                let rows = r.rows;
                let consumed = r.consumed;
                k += rows.rows;
                p += consumed.bytes;
            }
            Err(f) => {
                // the run has more rows than there are places left; by its number, which `Refusal` has because C does
                if f.number == 8 {
                    let from = RowPosition {
                        run: ByteOffset { bytes: p },
                        skip: RowNumber { rows: 0 },
                    };
                    let last = read_part(input, from, signed, &mut out[k..]);
                    return last.after(RowNumber { rows: k });
                }
                return BatchRead::up_to(RowNumber { rows: k }, ByteOffset { bytes: p });
            }
            Ok(None) => {
                return BatchRead::up_to(RowNumber { rows: k }, ByteOffset { bytes: p });
            }
        }
    }
    BatchRead::up_to(RowNumber { rows: k }, ByteOffset { bytes: p })
}

// The rows from a position within a run on: the rest of that run, and the runs after it. Without places nothing is decoded.
fn read_within(input: &[u8], from: RowPosition, signed: bool, out: &mut [i64]) -> BatchRead
    requires { RunHolds input.now from }
    ensures { BatchFrom input.now (position_in from) signed out.old out.new result }
{
    if out.is_empty() {
        return BatchRead::new(RowNumber { rows: 0 }, from.run, from.skip);
    }
    let first = read_part(input, from, signed, out);
    let rows = first.rows;
    let n = rows.rows;
    if n == out.len() {
        return first;
    }
    let next = first.next;
    let rest = read_runs(input, next.run, signed, &mut out[n..]);
    rest.after(rows)
}

// The rows from a byte on, or none at the end. Only if none was read is the byte looked at again: there are no places, the run is refused, or the input ends.
fn read_begun(
    input: &[u8],
    at: ByteOffset,
    signed: bool,
    out: &mut [i64],
) -> Result<Option<BatchRead>, Refusal>
    ensures { RowsRead input.now (record { run = at; skip = record { rows = 0 } }) signed
        out.old out.new result }
{
    let read = read_runs(input, at, signed, out);
    let rows = read.rows;
    if 0 < rows.rows {
        return Ok(Some(read));
    }
    // three arms and no `?`: the edit end_for_broken changes what a refusal gives
    match rle_v2::measure(input, at) {
        Ok(Some(_)) => Ok(Some(read)),
        Err(f) => Err(f),
        Ok(None) => Ok(None),
    }
}

// As many rows as there are places, or as are left before the end or the first refused run, from a position on. They go into the
// first places, and the answer names the position of the row after them. If none is left it answers none at the end, the stream's own
// refusal, or 16 if more rows are to be skipped than there are, and touches no place.
pub fn read_rows(
    input: &[u8],
    from: RowPosition,
    signed: bool,
    out: &mut [i64],
) -> Result<Option<BatchRead>, Refusal>
    ensures { RowsRead input.now from signed out.old out.new result }
{
    let found = seek(input, from)?;
    let skip = found.skip;
    if skip.rows == 0 {
        return read_begun(input, found.run, signed, out);
    }
    Ok(Some(read_within(input, found, signed, out)))
}
