// The check in front of the writer of whole columns, and that writer (FORMAT.md, "Column writer"). Whoever proposes how a column is cut
// into runs, the stream reads back as the rows: a proposal that is not accepted is not written.
#![tactic(auto)]

ghost use Rattle.std.specs.Prelude.{◌≡◌};
ghost use Rattle.planner.specs.Check.{proposal, checked_as, Wrote};
ghost use Rattle.planner.specs.Plan.{Proposes};

use format::{ByteOffset, Refusal, RowNumber};

mod accept;
mod fallback;
mod segment;
mod write;

use segment::Proposal;

// The runs of a column, their rows and their bytes.
#[derive(Clone, Copy)]
pub struct Columned {
    pub runs: usize,
    pub rows: RowNumber,
    pub bytes: ByteOffset,
}

// What was written: the proposal's runs, or direct runs of 64 bits. (Both are runs that were written: no Result, whose Err is the refusal.)
#[derive(Clone, Copy)]
pub enum ColumnRuns {
    Planned(Columned),
    Direct(Columned),
}

// The runs of a proposal, if it is accepted in so much room. It is five columns, one entry a segment: first row, rows, form (0 short repeat, 1
// direct, 2 fixed delta, 3 packed delta, 4 patched), width (bytes, code, code, code, W in bits), and base, which only patched runs have.
// (Here and below the columns are five parameters, since C hands them down so: `orc_check_column`, `orc_write_column`, `orc_plan`.)
pub fn check(
    rows: &[i64],
    signed: bool,
    first: &[u64],
    counts: &[u64],
    forms: &[u64],
    widths: &[u64],
    bases: &[u64],
    room: ByteOffset,
) -> Option<Columned>
    ensures { result ≡ checked_as signed rows.now
        (proposal first.now counts.now forms.now widths.now bases.now)
        room.bytes }
{
    let p = Proposal {
        first,
        counts,
        forms,
        widths,
        bases,
    };
    if !p.is_level() {
        return None;
    }
    accept::walk(rows, signed, p, room)
}

// Writes a column by a proposal, where the check accepts it; else as direct runs of 64 bits, 512 rows each and the rest last;
// or 8, and nothing.
pub fn write_column(
    rows: &[i64],
    signed: bool,
    first: &[u64],
    counts: &[u64],
    forms: &[u64],
    widths: &[u64],
    bases: &[u64],
    out: &mut [u8],
) -> Result<ColumnRuns, Refusal>
    ensures { Wrote signed rows.now
        (proposal first.now counts.now forms.now widths.now bases.now)
        out.old out.new result }
{
    let room = ByteOffset { bytes: out.len() };
    let c = check(rows, signed, first, counts, forms, widths, bases, room);
    if let Some(t) = c {
        let p = Proposal {
            first,
            counts,
            forms,
            widths,
            bases,
        };
        write::planned(rows, signed, p, out);
        return Ok(ColumnRuns::Planned(t));
    }
    if !write::wide_fits(RowNumber { rows: rows.len() }, room) {
        return Err(Refusal::new(8, ByteOffset { bytes: 0 }));
    }
    Ok(ColumnRuns::Direct(write::wide(rows, signed, out)))
}

// Proposes how a column is cut into runs, in the first places of the five columns: how many. What is proposed has passed the check, so it
// is written wherever there is room, and it has no more bytes than the direct runs of 64 bits. None if there are no rows, or if a column
// has fewer places than there are direct runs and nothing shorter was found: the direct runs are proposed if nothing better is. (A number, and 0
// for none, as `Proposes` has it and `orc_plan` answers it.)
pub fn plan(
    rows: &[i64],
    signed: bool,
    first: &mut [u64],
    counts: &mut [u64],
    forms: &mut [u64],
    widths: &mut [u64],
    bases: &mut [u64],
) -> usize
    ensures { Proposes signed rows.now
        (proposal first.new counts.new forms.new widths.new bases.new) result }
{
    if rows.is_empty() {
        return 0;
    }
    let k = proposer::propose(rows, signed, first, counts, forms, widths, bases);
    let p = Proposal {
        first,
        counts,
        forms,
        widths,
        bases,
    };
    let n = accept::sound(rows, signed, p, k);
    if 0 < n {
        return n;
    }
    fallback::propose(rows, first, counts, forms, widths, bases)
}
