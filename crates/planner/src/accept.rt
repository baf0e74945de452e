// The check: a walk over the segments, by the bytes of each.
ghost use Rattle.std.specs.Prelude.{◌≡◌, true};
ghost use Rattle.proposer.specs.Proposed.{Proposed};
ghost use Rattle.planner.specs.Check.{equal_lengths, checked_as};
ghost use Rattle.planner.specs.Plan.{Kept};
ghost use Rattle.planner.specs.Walk.{columns};

use crate::segment::Proposal;
use crate::{Columned, segment, write};
use format::{ByteOffset, Kind, RowNumber};

// Room for any run: a patched one is written to tell its bytes.
fn bytes_room() -> [u8; Kind::MAX_BYTES] {
    [0u8; Kind::MAX_BYTES]
}

// Every segment begins where the one before it ends and is accepted, the last ends with the last row, and there is so much room.
pub(crate) fn walk(rows: &[i64], signed: bool, p: Proposal, room: ByteOffset) -> Option<Columned>
    requires { equal_lengths (columns p) ≡ true }
    ensures { result ≡ checked_as signed rows.now
        (columns p.entry)
        room.bytes }
{
    let limit = room.bytes;
    let mut run = bytes_room();
    let mut row: usize = 0;
    let mut bytes: usize = 0;
    for k in 0..p.first.len() {
        let s = p.at(k);
        let at = RowNumber { rows: row };
        let n = segment::step_size(rows, signed, at, s, &mut run).bytes;
        if n == 0 {
            return None;
        }
        if limit - bytes < n {
            return None;
        }
        row += s.count as usize;
        bytes += n;
    }
    if row < rows.len() {
        return None;
    }
    Some(Columned {
        runs: p.first.len(),
        rows: RowNumber { rows: row },
        bytes: ByteOffset { bytes },
    })
}

// The first k segments, where they are accepted and have no more bytes than the direct runs; else none. (0 for none, as `Proposes` and `orc_plan`
// have it.)
pub(crate) fn sound(rows: &[i64], signed: bool, p: Proposal, k: usize) -> usize
    requires { Proposed p.first.now p.counts.now p.forms.now p.widths.now p.bases.now k }
    ensures { Kept signed rows.now
        (columns p.entry) result }
{
    let any = ByteOffset { bytes: usize::MAX };
    let part = Proposal {
        first: &p.first[..k],
        counts: &p.counts[..k],
        forms: &p.forms[..k],
        widths: &p.widths[..k],
        bases: &p.bases[..k],
    };
    let c = walk(rows, signed, part, any);
    match c {
        Some(t) => {
            if write::is_longer(t.bytes, RowNumber { rows: rows.len() }) {
                return 0;
            }
            k
        }
        None => 0,
    }
}
