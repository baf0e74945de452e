// A patched run while its rows come in: its frame (the least and the greatest of the rows that W bits hold above the least) and what the rows
// outside cost as patches.
use crate::patched::MAX_ENTRIES;
use crate::states::FAR;
use crate::{bits, patched};

// A frame is changed where it stands: handed on by value, its numbers would be copied at each row.
#[derive(Clone, Copy)]
pub(crate) struct Frame {
    // where it begins, in rows
    pub start: u64,
    low: u64,
    high: u64,
    // how many rows are equal to the greatest
    highs: u64,
    // entries of the list, skips among them
    entries: u64,
    // bits of the widest difference that is patched
    reach: u64,
    last: u64,
    gap: u64,
    // how many rows outside came one behind the other
    pub streak: u64,
    // bits of all before the run, its header, base and values; and of its list
    bits: u64,
    list: u64,
}

// Bits of a patched run's header and base.
pub(crate) fn head(base: u64) -> u64 {
    let bytes = patched::base_bytes(base);
    if bytes == 9 {
        FAR
    } else {
        (bytes << 3).wrapping_add(32)
    }
}

impl Frame {
    // A run of one row, behind so many bits, head and row among them.
    fn of(at: u64, row: u64, bits: u64) -> Frame {
        Frame {
            start: at,
            low: row,
            high: row,
            highs: 1,
            entries: 0,
            reach: 0,
            last: at,
            gap: 1,
            streak: 0,
            bits,
            list: 16,
        }
    }

    // A state that any run replaces.
    pub(crate) fn none() -> Frame {
        Frame {
            highs: 0,
            ..Frame::of(0, 0, FAR)
        }
    }

    // A run of one row behind so many bits, the head among them.
    pub(crate) fn open(width: u64, at: u64, row: u64, before: u64) -> Frame {
        Frame::of(at, row, before.wrapping_add(width))
    }

    // The bits up to here, if the run ends.
    pub(crate) fn cost(&self) -> u64 {
        bits::whole_bytes(self.bits).wrapping_add(self.list)
    }

    // One row more.
    pub(crate) fn take(&mut self, width: u64, at: u64, row: u64) {
        self.bits = self.bits.wrapping_add(width);
        if row.wrapping_sub(self.low) >> (width % 64) != 0 {
            self.take_outside(width, at, row);
        } else if !bits::is_below(row, self.high) {
            self.raise(row);
        }
    }

    // A row outside: the frame is lowered to it, or it becomes a patch.
    fn take_outside(&mut self, width: u64, at: u64, row: u64) {
        if !bits::is_below(row, self.low) {
            self.patch(width, at, row);
        } else if self.high.wrapping_sub(row) >> (width % 64) == 0 {
            self.lower(row);
        } else if at != self.start.wrapping_add(1) {
            self.patch(width, at, row);
        } else {
            // the first row was the one that sticks out
            let first = self.low;
            self.lower(row);
            self.high = row;
            self.highs = 1;
            self.patch(width, self.start, first);
        }
    }

    fn lower(&mut self, row: u64) {
        self.bits = self
            .bits
            .wrapping_add(head(row))
            .wrapping_sub(head(self.low));
        self.low = row;
    }

    fn raise(&mut self, row: u64) {
        self.highs = if row == self.high {
            self.highs.wrapping_add(1)
        } else {
            1
        };
        self.high = row;
        if self.entries == 0 {
            // a list must not be empty: the greatest rows are patched, over a base 2^W below them
            self.list = if MAX_ENTRIES < self.highs {
                FAR
            } else {
                bits::whole_bytes(self.highs.wrapping_mul(9))
            };
        }
    }

    fn patch(&mut self, width: u64, at: u64, row: u64) {
        let distance = at.wrapping_sub(self.last);
        self.last = at;
        self.streak = if distance == 1 {
            self.streak.wrapping_add(1)
        } else {
            1
        };
        self.entries = self.entries.wrapping_add(patched::entries(distance));
        self.gap = self.gap.max(distance.min(255));
        self.reach = self.reach.max(bits::needs(row.wrapping_sub(self.low)));
        let patch = patched::table(self.reach.max(width.wrapping_add(1)).wrapping_sub(width));
        self.list = if self.entries <= MAX_ENTRIES && patched::is_read_everywhere(patch) {
            bits::whole_bytes(self.entries.wrapping_mul(patched::entry(patch, self.gap)))
        } else {
            FAR
        };
    }

    // The base that the run is written with.
    pub(crate) fn base(&self, width: u64) -> u64 {
        if self.entries == 0 {
            self.high.wrapping_sub(1 << (width % 64))
        } else {
            self.low
        }
    }
}
