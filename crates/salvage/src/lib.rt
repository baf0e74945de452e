// Salvage of a damaged stream: its row groups, each kept byte for byte if it reads whole with its rows, or replaced by runs of a fill row;
// and a report with a line for each.
#![tactic(auto)]

ghost use Rattle.std.specs.Prelude.{◌≡◌, Bool, length};
ghost use Rattle.salvage.specs.Salvage.{refused_with, Salvaged};
ghost use Rattle.salvage.specs.Steps.{room_for};

use format::{ByteOffset, Refusal};
use groups::Groups;

mod fill;
mod groups;
mod line;

// How many bytes were written: of the new stream, and of the report.
#[derive(Clone, Copy)]
pub struct Sizes {
    pub stream: ByteOffset,
    pub report: ByteOffset,
}

// A refusal by its number, at place 0. (`Refusal` of the format has a number, and the definition `refused_with` takes it.)
fn refused(number: u8) -> Result<Sizes, Refusal>
    ensures { result ≡ refused_with number }
{
    Err(Refusal::new(number, ByteOffset { bytes: 0 }))
}

// Both outputs have room for what is to be written. Only sizes are needed for that, and each is compared with the room that is left: no sum
// passes 2^64, and a count of any size costs the same.
fn has_room(groups: Groups, fill: i64, signed: bool, out: &[u8], report: &[u8]) -> bool
    ensures { result ≡ room_for signed fill groups.entry.input.now groups.entry.starts.now groups.entry.counts.now
        (length out.now) (length report.now) }
{
    let first = fill::stored(fill, signed);
    let mut stream: usize = 0;
    let mut lines: usize = 0;
    for i in 0..groups.starts.len() {
        let group = groups.group(i);
        let made = fill::group_size(group, first);
        if out.len() - stream < made.bytes {
            return false;
        }
        let told = line::size(group.keep, i as u64, group.rows);
        if report.len() - lines < told.bytes {
            return false;
        }
        stream += made.bytes;
        lines += told.bytes;
    }
    true
}

// Writes each group, and its line.
fn write_all(
    groups: Groups,
    fill: i64,
    signed: bool,
    out: &mut [u8],
    report: &mut [u8],
) -> Result<Sizes, Refusal>
    requires { room_for signed fill groups.input.now groups.starts.now groups.counts.now
        (length out.old) (length report.old) ≡ Bool.true }
    ensures { Salvaged groups.entry.input.now groups.entry.starts.now groups.entry.counts.now fill signed out.old
        out.new report.old report.new result }
{
    let first = fill::stored(fill, signed);
    let mut stream = ByteOffset { bytes: 0 };
    let mut lines = ByteOffset { bytes: 0 };
    for i in 0..groups.starts.len() {
        let group = groups.group(i);
        stream = fill::put_group(group, first, out, stream);
        lines = line::put_line(group.keep, i as u64, group.rows, report, lines);
    }
    Ok(Sizes {
        stream,
        report: lines,
    })
}

// Salvages a stream by its groups, each with a start byte and a row count. Refusals: 17 starts that do not begin at 0, do not rise strictly
// or pass the end, or counts that are not as many; 8 either output lacks room. A refused call leaves both as they were.
pub fn salvage(
    input: &[u8],
    starts: &[u64],
    counts: &[u64],
    fill: i64,
    signed: bool,
    out: &mut [u8],
    report: &mut [u8],
) -> Result<Sizes, Refusal>
    ensures { Salvaged input.now starts.now counts.now fill signed out.old
        out.new report.old report.new result }
{
    if starts.len() != counts.len() {
        return refused(17);
    }
    if !groups::starts_right(starts, ByteOffset { bytes: input.len() }) {
        return refused(17);
    }
    let groups = Groups {
        input,
        starts,
        counts,
    };
    if !has_room(groups, fill, signed, out, report) {
        return refused(8);
    }
    write_all(groups, fill, signed, out, report)
}
