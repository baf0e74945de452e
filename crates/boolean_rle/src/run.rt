// A byte run where it stands in the input: its bytes, or their bits, into places.
ghost use Rattle.std.specs.Prelude.{◌≡◌, ◌+◌, ◌-◌, ◌*◌, ◌≤◌, ◌<◌, min, length, drop, get_or, Ok};
ghost use Rattle.format.specs.Booleans.{bits};
ghost use Rattle.boolean_rle.specs.Found.{found_at, bytes_at, Wrote};

use crate::ByteRun;
use util::bytes;

// The run that was found at a place.
#[derive(Clone, Copy)]
pub(crate) struct RunAt<'a> {
    pub(crate) input: &'a [u8],
    pub(crate) at: usize,
    pub(crate) run: ByteRun,
    ghost found: { found_at input.now at ≡ Ok run },
}

impl RunAt<'_> {
    // Byte i.
    pub(crate) fn byte(self, i: usize) -> u8
        requires { i < self.run.count }
        ensures { result ≡ get_or (bytes_at self.entry.input.now self.entry.at) i 0 }
    {
        let RunAt { input, at, .. } = self;
        if input[at] < 128 {
            return input[at + 1];
        }
        input[at + 1 + i]
    }

    // Some bytes, from byte `first` on, in the places from k on: copies of its one byte, or a part of its literals.
    pub(crate) fn put_bytes(self, first: usize, count: usize, out: &mut [u8], k: usize)
        requires { (count ≤ self.run.count - first) × (k + count ≤ length out.old) }
        ensures { Wrote k (k + count) (drop first (bytes_at self.entry.input.now self.entry.at)) out.old out.new }
    {
        // none of a run that is skipped whole, after which the input may end
        if count == 0 {
            return;
        }
        let RunAt { input, at, .. } = self;
        let places = &mut out[k..k + count];
        if input[at] < 128 {
            places.fill(input[at + 1]);
            return;
        }
        let start = at + 1 + first;
        bytes::lay(&input[start..start + count], places);
    }

    // The bits of some bytes, from byte `first` on, in eight places each, from k on. The control is looked at once for all: a look at it for
    // each byte keeps the compiler from vectors.
    fn put_whole(self, first: usize, count: usize, out: &mut [u8], k: usize)
        requires { (count ≤ self.run.count - first) × (k + 8 * count ≤ length out.old) }
        ensures { Wrote k (k + 8 * count) (bits (drop first (bytes_at self.entry.input.now self.entry.at))) out.old out.new }
    {
        // none of a run that is skipped whole, after which the input may end
        if count == 0 {
            return;
        }
        let RunAt { input, at, .. } = self;
        if input[at] < 128 {
            crate::put_copies(input[at + 1], count, out, k);
            return;
        }
        crate::put_literals(input, at + 1 + first, count, out, k);
    }

    // The booleans without those of the first bytes, from place k on and up to place n: the place after them.
    pub(crate) fn put(self, skip: usize, n: usize, out: &mut [u8], k: usize) -> usize
        requires { (k ≤ n) × (n ≤ length out.old) }
        ensures value { result ≡ min n (k + 8 * (self.entry.run.count - skip)) }
        ensures wrote { Wrote k result (bits (drop skip (bytes_at self.entry.input.now self.entry.at))) out.old out.new }
    {
        let whole = (n - k) / 8;
        let count = self.run.count.saturating_sub(skip);
        if count <= whole {
            self.put_whole(skip, count, out, k);
            return k + 8 * count;
        }
        self.put_whole(skip, whole, out, k);
        crate::put_bits(self.byte(skip + whole), 0, (n - k) % 8, out, k + 8 * whole);
        n
    }
}
