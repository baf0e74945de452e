// The groups of a stream: their starts, the bytes of each, and whether it is kept.
ghost use Rattle.std.specs.Prelude.{◌≡◌, ◌<◌, length, get_or};
ghost use Rattle.salvage.specs.Laws.{RightStarts};
ghost use Rattle.salvage.specs.Salvage.{starts_right, kept};
ghost use Rattle.salvage.specs.Steps.{stop_of, bytes_of, group};

use format::{ByteOffset, RowNumber};

// A stream, the byte at which each of its groups starts, and how many rows each has.
#[derive(Clone, Copy)]
pub(crate) struct Groups<'a> {
    pub input: &'a [u8],
    pub starts: &'a [u64],
    pub counts: &'a [u64],
    pub ghost right: { RightStarts input.now starts.now counts.now },
}

// One of them: its bytes, its rows, and whether it is kept.
#[derive(Clone, Copy)]
pub(crate) struct Group<'a> {
    pub bytes: &'a [u8],
    pub rows: RowNumber,
    pub keep: bool,
}

impl<'a> Groups<'a> {
    // The bytes of group i, where they stand.
    fn bytes_of(self, i: usize) -> &'a [u8]
        requires { i < length self.starts.now }
        ensures { result.now ≡ bytes_of self.entry.input.now self.entry.starts.now i }
    {
        let Groups { input, starts, .. } = self;
        let from = starts[i] as usize;
        let end = ByteOffset { bytes: input.len() };
        let stop = stop_of(end, starts, i);
        &input[from..stop.bytes]
    }

    // Group i.
    pub(crate) fn group(self, i: usize) -> Group<'a>
        requires { i < length self.starts.now }
        ensures bytes { result.bytes.now ≡ bytes_of self.entry.input.now self.entry.starts.now i }
        ensures rows { result.rows.rows ≡ get_or self.entry.counts.now i 0 }
        ensures keep { result.keep ≡ kept (group result.bytes.now result.rows.rows) }
    {
        let bytes = self.bytes_of(i);
        let rows = RowNumber {
            rows: self.counts[i] as usize,
        };
        Group {
            bytes,
            rows,
            keep: is_kept(bytes, rows),
        }
    }
}

// They begin at 0, rise strictly, and do not pass the end; an empty list only with an empty stream.
pub(crate) fn starts_right(starts: &[u64], end: ByteOffset) -> bool
    ensures { result ≡ starts_right end.bytes starts.now }
{
    let Some((first, more)) = starts.split_first() else {
        return end.bytes == 0;
    };
    if *first != 0 {
        return false;
    }
    let mut last = 0;
    for next in more {
        if *next <= last {
            return false;
        }
        last = *next;
    }
    last <= end.bytes as u64
}

// Where group i ends: at the next start, or at the end.
fn stop_of(end: ByteOffset, starts: &[u64], i: usize) -> ByteOffset
    requires { i < length starts.now }
    ensures { result.bytes ≡ stop_of end.bytes starts.now i }
{
    match starts.get(i + 1) {
        Some(next) => ByteOffset {
            bytes: *next as usize,
        },
        None => end,
    }
}

// A group is kept exactly if its bytes read as a whole stream of exactly its rows.
fn is_kept(bytes: &[u8], rows: RowNumber) -> bool
    ensures { result ≡ kept (group bytes.now rows.rows) }
{
    if bytes.is_empty() {
        return rows.rows == 0;
    }
    match rle_v2::measure_stream(bytes, ByteOffset { bytes: 0 }) {
        Ok(counts) => {
            let read = counts.rows;
            read.rows == rows.rows
        }
        Err(_) => false,
    }
}
