// One byte run: which run comes next at a place of the bytes, and its layout in the output.
ghost use Rattle.std.specs.Prelude.{◌≡◌, ◌+◌, ◌<◌, ◌≤◌, min, length, drop, take};
ghost use Rattle.format.specs.Booleans.{run_layout};
ghost use Rattle.byte_writer.specs.Choice.{stretch, before, repeated, alone, in_literals, next_run};
ghost use Rattle.byte_writer.specs.Flags as Flags;
ghost use Rattle.byte_writer.specs.Steps.{are_equal, next_of, Laid, Ready, size_in, count_in};

use crate::source;

// The next run: copies of one byte, or literal bytes. How many. Neither is a lack or a failure, so it is no Option and no Result.
#[derive(Clone, Copy)]
pub(crate) enum Next {
    Repeat(usize),
    Literals(usize),
}

impl Next {
    // How many bytes it stands for.
    pub(crate) fn count(self) -> usize
        ensures { result ≡ count_in self }
    {
        match self {
            Next::Repeat(count) | Next::Literals(count) => count,
        }
    }

    // How many bytes its layout has. This is counted and no conversion, so there is nothing to derive.
    pub(crate) fn size(self) -> usize
        requires { count_in self ≤ 130 }
        ensures { result ≡ size_in self }
    {
        match self {
            Next::Repeat(_) => 2,
            Next::Literals(count) => count + 1,
        }
    }
}

// How many equal bytes stand at a place, counted up to `most`.
fn stretch_at(s: &[u8], packed: bool, at: usize, most: usize) -> usize
    requires { (at < length (Flags.source packed s.now)) × (1 ≤ most) }
    ensures { result ≡ min most (stretch (drop at (Flags.source packed s.now))) }
{
    let stop = most.min(source::count(s, packed) - at);
    let first = source::byte_at(s, packed, at);
    for i in 1..stop {
        if source::byte_at(s, packed, at + i) != first {
            return i;
        }
    }
    stop
}

// How many of n equal bytes the first repeat has. Of 132 it leaves three, and not two.
fn first_repeat(n: usize) -> usize
    ensures { result ≡ repeated n }
{
    if n == 132 {
        return 129;
    }
    n.min(130)
}

// Whether repeats leave a byte alone of the stretch at a place: one or none.
fn alone_at(s: &[u8], packed: bool, at: usize) -> usize
    requires { at ≤ length (Flags.source packed s.now) }
    ensures { result ≡ alone (stretch (drop at (Flags.source packed s.now))) }
{
    let n = source::count(s, packed);
    if n <= at {
        return 0;
    }
    if stretch_at(s, packed, at, n) % 130 == 1 {
        return 1;
    }
    0
}

// Three bytes are equal.
fn are_equal(first: u8, second: u8, third: u8) -> bool
    ensures { result ≡ are_equal first second third }
{
    second == first && third == first
}

// How many bytes stand before three equal ones, counted up to 128. Each byte is asked for once; the last two bytes begin no three.
fn before_at(s: &[u8], packed: bool, at: usize) -> usize
    requires { at < length (Flags.source packed s.now) }
    ensures { result ≡ min 128 (before (drop at (Flags.source packed s.now))) }
{
    let left = source::count(s, packed) - at;
    let most = left.min(128);
    if left < 3 {
        return most;
    }
    let stop = (left - 2).min(128);
    let mut first = source::byte_at(s, packed, at);
    let mut second = source::byte_at(s, packed, at + 1);
    for i in 0..stop {
        let third = source::byte_at(s, packed, at + i + 2);
        if are_equal(first, second, third) {
            return i;
        }
        first = second;
        second = third;
    }
    most
}

// How many literals stand at a place, counted up to 128: if they leave room, also the byte that would be left alone.
fn literals_at(s: &[u8], packed: bool, at: usize) -> usize
    requires { at < length (Flags.source packed s.now) }
    ensures { result ≡ min 128 (in_literals (drop at (Flags.source packed s.now))) }
{
    let count = before_at(s, packed, at);
    if 128 <= count {
        return count;
    }
    count + alone_at(s, packed, at + count)
}

// The run that the bytes from a place on begin with. 133 equal bytes are begun as any more are.
pub(crate) fn next_at(s: &[u8], packed: bool, at: usize) -> Next
    requires { at < length (Flags.source packed s.now) }
    ensures { result ≡ next_of (next_run (drop at (Flags.source packed s.now))) }
{
    let count = stretch_at(s, packed, at, 133);
    if 3 <= count {
        return Next::Repeat(first_repeat(count));
    }
    Next::Literals(literals_at(s, packed, at))
}

// Literal bytes in the places from k on.
fn put_bytes(s: &[u8], packed: bool, at: usize, count: usize, out: &mut [u8], k: usize)
    requires { (at + count ≤ length (Flags.source packed s.now)) × (k + count ≤ length out.old) }
    ensures { Laid (take count (drop at (Flags.source packed s.now))) k out.old out.new }
{
    for i in 0..count {
        out[k + i] = source::byte_at(s, packed, at + i);
    }
}

// A run in the places from k on: its control byte, and the byte or the bytes.
pub(crate) fn put(s: &[u8], packed: bool, at: usize, run: Next, out: &mut [u8], k: usize)
    requires { Ready (drop at (Flags.source packed s.now)) run k out.old }
    ensures { Laid (run_layout (next_run (drop at (Flags.source packed s.now)))) k out.old out.new }
{
    match run {
        Next::Repeat(count) => {
            out[k] = (count - 3) as u8;
            out[k + 1] = source::byte_at(s, packed, at);
        }
        Next::Literals(count) => {
            out[k] = (256 - count) as u8;
            put_bytes(s, packed, at, count, out, k + 1);
        }
    }
}
