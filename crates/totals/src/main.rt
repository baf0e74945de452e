// Standard input to standard output: lines of hexadecimal, one frame a line, and at the end the totals over all of them. Reading goes in large
// blocks, so that an input of any length takes no more room. A line that would pass a limit ends the reading.
#![tactic(auto)]

mod taking;

ghost use Rattle.std.specs.Prelude.{◌≡◌, ◌+◌, ◌≤◌, length, take};
ghost use Rattle.blocks.specs.Blocks.{part, came, NoNewline};
ghost use Rattle.text.specs.Written.{TextWritten};
ghost use Rattle.totals.specs.Program.{written_for, After, Turned, Final, Over};

use blocks::reading;
use blocks::reading::{Read, Reads};
use std::{io, thread};
use taking::{Next, Turn};
use tally::totals::Totals;

const REFUSED_20: [u8; 11] = *b"refused 20\n";

// The totals and how it goes on, after so many reads.
#[derive(Clone, Copy)]
struct Standing {
    totals: Totals,
    next: Next,
    reads: Reads,
}

// Every byte that the program writes to its output goes through here, and is what the definition writes for the totals of all that was read.
// No contract can say what the system writes, so that it is said here of what is handed over.
fn say(rt: &(impl Print + Eprint), totals: Totals, stopped: bool, reads: Reads, text: &[u8])
    requires { Final reads totals stopped × (text.now ≡ written_for totals stopped) }
{
    if let Err(e) = rt.write_all(text) {
        let _ = eprintln!(rt; "totals: the output is cut, standard output cannot be written: {e}");
    }
}

// Places for the lines of the totals, and for all that is written.
fn line_places() -> [u8; 4096]
    ensures { 4096 ≡ length result }
{
    [0; 4096]
}

fn text_places() -> [u8; 65536]
    ensures { 65536 ≡ length result }
{
    [0; 65536]
}

// `stopped` stays a flag: `written_for`, `Final` and the theorem `FinalSays` speak of it.
// The lines of the totals, and the refusal last where one stopped the reading, in the first bytes of `out`: how many bytes they are.
fn put_text(totals: Totals, stopped: bool, out: &mut [u8]) -> usize
    requires { 8192 ≤ length out.old }
    ensures { TextWritten (written_for totals stopped) out.old 0 out.new result }
{
    let mut lines = line_places();
    let n = tally::report::show(totals, &mut lines);
    let end = text::put_word(&lines[..n], out, 0);
    if stopped {
        return text::put_word(&REFUSED_20, out, end);
    }
    end
}

fn tell(rt: &(impl Print + Eprint), totals: Totals, stopped: bool, reads: Reads)
    requires { Final reads totals stopped }
{
    let mut out = text_places();
    let end = put_text(totals, stopped, &mut out);
    say(rt, totals, stopped, reads, &out[..end]);
}

// What to do with what is held and what came after it, by what the system answered. The error stands in `block`, so that the answer is
// determined.
fn take_came(rt: &impl Eprint, before: Totals, block: Read, input: &[u8], rows: &mut [i64]) -> Turn
    requires { (length input.now ≡ block.held + came block.got) × NoNewline (take block.held input.now) × (length rows.old ≡ 512) }
    ensures { After before input.now block.held block.got block.error result.totals result.next }
{
    if block.got > 0 {
        return taking::take_block(before, input, rows);
    }
    if block.got == 0 {
        return taking::take_last(before, input, rows);
    }
    if !blocks::is_not_ready(block.error) {
        let e = io::Error::from_raw_os_error(block.error);
        let _ = eprintln!(rt; "totals: nothing is written, standard input cannot be read: {e}");
        return Turn {
            totals: before,
            next: Next::Failed,
        };
    }
    if block.error == blocks::EAGAIN {
        thread::yield_now();
    }
    Turn {
        totals: before,
        next: Next::Begun(0, block.held),
    }
}

// One block, after what is left of the one before.
fn turn(
    rt: &(impl Input + Eprint),
    before: Standing,
    input: &mut [u8],
    from: usize,
    end: usize,
    rows: &mut [i64],
) -> Standing
    requires { NoNewline (part from end input.old) × (length rows.old ≡ 512) }
    ensures { Turned before.totals before.reads (part from end input.old) input.new result.totals result.next result.reads }
{
    let block = reading::one_more(rt, before.reads, input, from, end);
    let taken = take_came(rt, before.totals, block, &input[..block.stop], rows);
    Standing {
        totals: taken.totals,
        next: taken.next,
        reads: block.reads,
    }
}

// (Not one function with `run` of the program `runs`: what `Ready` and `Over` say of a turn differs, so that one for both is no plainer.)
// Reads and takes to the end. A proved loop has to end, and nothing says that the input does: the loop has as many turns as no input uses up.
fn take_all(rt: &(impl Input + Eprint)) -> Standing
    ensures { Over result.next result.reads result.totals }
{
    let mut input = blocks::input_places();
    let mut rows = taking::row_places();
    let mut all = Standing {
        totals: Totals::empty(),
        next: Next::Begun(0, 0),
        reads: reading::none(),
    };
    for _ in 0..u64::MAX {
        let Next::Begun(from, end) = all.next else {
            return all;
        };
        all = turn(rt, all, &mut input, from, end, &mut rows);
    }
    all
}

// The totals are told, unless reading failed.
fn main(rt: HostRuntime) {
    let all = take_all(&rt);
    match all.next {
        Next::Ended => tell(&rt, all.totals, false, all.reads),
        Next::Stopped => tell(&rt, all.totals, true, all.reads),
        Next::Failed | Next::Begun(_, _) => {}
    }
}
