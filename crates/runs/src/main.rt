// Standard input to standard output: lines of hexadecimal, one frame a line, and for each its answer line. Reading and writing go in large
// blocks. What was read and is not answered yet is the beginning of one line, so that a line of any length takes no more room.
#![tactic(auto)]

mod cutting;
mod saying;

ghost use Rattle.std.specs.Prelude.{◌≡◌, ◌+◌, ◌^◌, ◌<◌, ◌≤◌, length};
ghost use Rattle.lines.specs.Line.{answer_room};
ghost use Rattle.blocks.specs.Blocks.{part, came, NoNewline};
ghost use Rattle.runs.specs.Program.{Pending, Last, ReadGave, Open, AfterBlock, AfterEnd, After, Turned, Over};

use blocks::reading;
use blocks::reading::{Read, Reads};
use saying::Said;
use std::{io, thread};

// From where to where in the input a line has begun; that the input has ended; that reading failed; or that the output cannot be written.
// (Four cases: no Option or Result has that shape, and `AfterBlock`, `AfterEnd` and `Over` speak of each.)
#[derive(Clone, Copy)]
enum Left {
    Begun(usize, usize),
    Ended,
    Failed,
    Unwritten,
}

// How it goes on, after some answers.
#[derive(Clone, Copy)]
struct Outcome {
    left: Left,
    said: Said,
}

// The same after some reads.
#[derive(Clone, Copy)]
struct Standing {
    left: Left,
    reads: Reads,
    said: Said,
}

// Answers the whole lines of a block and writes the answers: where the line after them begins.
fn answer_block(
    rt: &(impl Print + Eprint),
    reads: Reads,
    before: Said,
    input: &[u8],
    output: &mut [u8],
) -> Outcome
    requires { Pending reads before input.now × (answer_room ≤ length output.old) }
    ensures { AfterBlock reads input.now result.left result.said }
{
    let mut said = before;
    let mut from = 0;
    loop {
        let p = cutting::answer_lines(&input[from..], output);
        if p.taken == 0 {
            return Outcome {
                left: Left::Begun(from, input.len()),
                said,
            };
        }
        let next = from + p.taken;
        said = said.say(rt, reads, &input[from..next], &output[..p.written]);
        if said.is_cut() {
            return Outcome {
                left: Left::Unwritten,
                said,
            };
        }
        from = next;
    }
}

// A last line that no newline ends is answered too.
fn answer_last(
    rt: &(impl Print + Eprint),
    reads: Reads,
    before: Said,
    line: &[u8],
    output: &mut [u8],
) -> Outcome
    requires { NoNewline line.now × Last reads before line.now × (answer_room ≤ length output.old) }
    ensures { AfterEnd reads result.left result.said }
{
    if line.len() == 0 {
        return Outcome {
            left: Left::Ended,
            said: before,
        };
    }
    let written = lines::answer_line(line, output);
    let said = before.say(rt, reads, line, &output[..written]);
    if said.is_cut() {
        return Outcome {
            left: Left::Unwritten,
            said,
        };
    }
    Outcome {
        left: Left::Ended,
        said,
    }
}

// What to do with what is held and what came behind it, by what the system answered. The error stands in `block`, so that the answer is
// determined.
fn answer_came(
    rt: &(impl Print + Eprint),
    block: Read,
    before: Said,
    input: &[u8],
    output: &mut [u8],
) -> Outcome
    requires { ReadGave block.reads before input.now block.got × (answer_room ≤ length output.old) }
    ensures { After block.reads before input.now block.held block.got block.error result.left result.said }
{
    if block.got > 0 {
        return answer_block(rt, block.reads, before, input, output);
    }
    if block.got == 0 {
        return answer_last(rt, block.reads, before, input, output);
    }
    if !blocks::is_not_ready(block.error) {
        let e = io::Error::from_raw_os_error(block.error);
        let _ = eprintln!(rt; "runs: the output is cut, standard input cannot be read: {e}");
        return Outcome {
            left: Left::Failed,
            said: before,
        };
    }
    if block.error == blocks::EAGAIN {
        thread::yield_now();
    }
    Outcome {
        left: Left::Begun(0, block.held),
        said: before,
    }
}

// Places for the answers of a block.
fn text_places() -> [u8; 65536]
    ensures { 65536 ≡ length result }
{
    [0; 65536]
}

// One block, behind what is left of the one before.
fn turn(
    rt: &(impl Input + Print + Eprint),
    before: Standing,
    input: &mut [u8],
    from: usize,
    end: usize,
    output: &mut [u8],
) -> Standing
    requires { (before.reads.count + 1 < 2 ^ 64) × Open before.reads before.said (part from end input.old) × (answer_room ≤ length output.old) }
    ensures { Turned before.reads before.said (part from end input.old) input.new result.left result.reads result.said }
{
    let block = reading::one_more(rt, before.reads, input, from, end);
    let answers = answer_came(rt, block, before.said, &input[..block.stop], output);
    Standing {
        left: answers.left,
        reads: block.reads,
        said: answers.said,
    }
}

// (Not one function with `take_all` of the program `totals`: what `Ready` and `Over` say of a turn differs, so that one for both is no plainer.)
// Reads and answers to the end. A proved loop has to end, and nothing says that the input does: the loop has as many turns as no input uses up.
fn run(rt: &(impl Input + Print + Eprint)) -> Standing
    ensures { Over result.left result.reads result.said }
{
    let mut input = blocks::input_places();
    let mut output = text_places();
    let mut all = Standing {
        left: Left::Begun(0, 0),
        reads: reading::none(),
        said: Said::nothing(),
    };
    for _ in 0..u64::MAX {
        let Left::Begun(from, end) = all.left else {
            return all;
        };
        all = turn(rt, all, &mut input, from, end, &mut output);
    }
    all
}

fn main(rt: HostRuntime) {
    run(&rt);
}
