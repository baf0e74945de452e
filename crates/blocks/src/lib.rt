// Standard input in blocks, cut into lines: what the programs share. What was read and is not taken yet is the beginning of one line, so
// that a line of any length takes no more room.
#![tactic(auto)]

pub mod reading;

ghost use Rattle.std.specs.Prelude.{◌≡◌, ◌≢◌, ◌+◌, ◌^◌, ◌<◌, ◌≤◌, min, length, drop, replicate, None, IfSome, IfOk, IfErr, OnErr, pos, negsuc};
ghost use Rattle.std.specs.IoError.{error_kind, raw_os_error};
ghost use Rattle.blocks.specs.Blocks.{line_length, part, Kept, came, Came, not_ready};

use std::io;
use std::io::{ErrorKind, Read};

// As many characters of a line as show that it is over 8,800.
pub const MAX_HELD: usize = 8801;

// Where a line ends.
const NEWLINE: u8 = b'\n';

// How much is read at once.
const BLOCK: usize = 65536;

// The system's errors: a signal broke the read off; nothing was ready; reading failed.
pub const EINTR: i32 = 4;

pub const EAGAIN: i32 = 11;

const EIO: i32 = 5;

// What the system answered to a read: how many bytes came, or -1 and its error. No Result: `came`, `not_ready` and `one_more` (specs/) speak of
// the two numbers.
#[derive(Clone, Copy)]
struct Answer {
    got: isize,
    error: i32,
}

// What stands in the input after a read: the beginning of a line that was kept, what came behind it, and what the system answered. (No Result:
// `Came` speaks of `got`, -1 with the rest.)
#[derive(Clone, Copy)]
pub(crate) struct Block {
    pub held: usize,
    pub stop: usize,
    pub got: isize,
    pub error: i32,
}

// A block, after as much as a line's beginning can take.
pub fn input_places() -> [u8; MAX_HELD + BLOCK]
    ensures { result ≡ replicate 74337 0 }
{
    [0; MAX_HELD + BLOCK]
}

// Where the line that begins at a place ends: at its newline, or with the
// input. Behind the input there is no line, and it ends where it begins.
pub fn line_end(input: &[u8], at: usize) -> usize
    ensures { result ≡ at + line_length (drop at input.now) }
{
    for i in at..input.len() {
        if input[i] == NEWLINE {
            return i;
        }
    }
    at.max(input.len())
}

// Moves what is left of a block, the beginning of a line, to the front of the input: how much it is. A line that is too long is bad however
// it goes on, so that no more of it is kept than shows that.
fn keep(input: &mut [u8], from: usize, end: usize) -> usize
    requires { (from ≤ end) × (end ≤ length input.old) }
    ensures { Kept (part from end input.old) input.old input.new result }
{
    let n = (end - from).min(MAX_HELD);
    input.copy_within(from..from + n, 0);
    n
}

// The system's number of an error. One of the library's own has none, and takes that of its kind.
fn error_number(error: &io::Error) -> i32
    ensures os { IfSome (raw_os_error error.now) (λ n. result ≡ n) }
    ensures broken_off { raw_os_error error.now ≡ None → error_kind error.now ≡ ErrorKind.Interrupted → result ≡ pos 4 }
    ensures nothing_ready { raw_os_error error.now ≡ None → error_kind error.now ≡ ErrorKind.WouldBlock → result ≡ pos 11 }
    ensures failed { raw_os_error error.now ≡ None
        → error_kind error.now ≢ ErrorKind.Interrupted → error_kind error.now ≢ ErrorKind.WouldBlock
        → result ≡ pos 5 }
{
    if let Some(number) = error.raw_os_error() {
        return number;
    }
    match error.kind() {
        ErrorKind::Interrupted => EINTR,
        ErrorKind::WouldBlock => EAGAIN,
        _ => EIO,
    }
}

// What a read of std's answered, as the system says it.
fn answer_to(asked: &io::Result<usize>) -> Answer
    requires { IfOk asked.now (λ n. n < 2 ^ 63) }
    ensures came { IfOk asked.now (λ n. (result.got ≡ pos n) × (result.error ≡ pos 0)) }
    ensures failed { OnErr asked.now (result.got ≡ negsuc 0) }
    ensures os { IfErr asked.now (λ e. IfSome (raw_os_error e) (λ n. result.error ≡ n)) }
{
    match asked {
        Ok(n) => Answer {
            got: *n as isize,
            error: 0,
        },
        Err(e) => Answer {
            got: -1,
            error: error_number(e),
        },
    }
}

// One read into the places. The system never says that more came than there was room for.
fn read_into(rt: &impl Input, places: &mut [u8]) -> Answer
    ensures { came result.got ≤ length places.new }
{
    let mut reader = rt.reader();
    let asked = reader.read(places);
    answer_to(&asked)
}

// How many of the places hold what came: none where reading failed, and never more than there are.
fn count(got: isize, places: &[u8]) -> usize
    ensures within { result ≤ length places.now }
    ensures value { result ≡ min (came got) (length places.now) }
{
    if got > 0 {
        (got as usize).min(places.len())
    } else {
        0
    }
}

// One read: what is left of the block before is moved to the front, and what is read stands behind it. Places behind the input have nothing
// left in them. What the system answers goes on as it is: no contract can name it before.
pub(crate) fn read_on(rt: &impl Input, input: &mut [u8], from: usize, end: usize) -> Block
    ensures { Came (part from end input.old) input.new result.held result.stop result.got }
{
    let last = end.min(input.len());
    let held = keep(input, from.min(last), last);
    let answer = read_into(rt, &mut input[held..]);
    let got = answer.got;
    let stop = held + count(got, &input[held..]);
    Block {
        held,
        stop,
        got,
        error: answer.error,
    }
}

// A read that a signal broke off, or that found nothing ready, is no end: it
// is tried again. The error is handed in, so that the answer is determined.
pub fn is_not_ready(error: i32) -> bool
    ensures { result ≡ not_ready error }
{
    error == EINTR || error == EAGAIN
}
