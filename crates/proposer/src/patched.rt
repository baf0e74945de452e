// What the patched writer makes of rows, a base and a width, without writing it.
use crate::bits;
use format::Kind;

// The most entries of a list.
pub(crate) const MAX_ENTRIES: u64 = Kind::MAX_PATCHES as u64;

// What is patched so far: entries of the list, skips among them, the row of the last, the largest gap and the patches' bits.
#[derive(Clone, Copy)]
struct List {
    entries: u64,
    last: u64,
    gap: u64,
    patches: u64,
}

impl List {
    // The list over a base.
    fn over(rows: &[i64], base: u64, width: u64) -> List {
        let mut list = List {
            entries: 0,
            last: 0,
            gap: 1,
            patches: 0,
        };
        for (at, row) in rows.iter().enumerate() {
            list.take(
                row.cast_unsigned().wrapping_sub(base) >> (width % 64),
                at as u64,
            );
        }
        list
    }

    fn take(&mut self, patch: u64, at: u64) {
        if patch == 0 {
            return;
        }
        let distance = at.wrapping_sub(self.last);
        self.entries = self.entries.wrapping_add(entries(distance));
        self.last = at;
        self.gap = self.gap.max(distance.min(255));
        self.patches |= patch;
    }
}

// The entries that a patch takes so far behind the one before: a gap of more than 255 rows is skips first.
pub(crate) fn entries(distance: u64) -> u64 {
    1 + distance.saturating_sub(1) / 255
}

// The width of the table that has so many bits.
pub(crate) fn table(bits: u64) -> u64 {
    if bits < 25 {
        bits
    } else if bits < 33 {
        bits.wrapping_add(1) >> 1 << 1
    } else {
        bits::whole_bytes(bits)
    }
}

// The bits of an entry.
pub(crate) fn entry(patch: u64, gap: u64) -> u64 {
    table(patch.wrapping_add(bits::needs(gap)))
}

// Bytes of a base, which has a sign bit beside its magnitude: 9 for -2^63, which no run has.
pub(crate) fn base_bytes(base: u64) -> u64 {
    bits::needs(bits::magnitude(base)) / 8 + 1
}

// Whether every reader has the patch width: 56 bits at most, and some do not know 26, 28 and 30.
pub(crate) fn is_read_everywhere(patch: u64) -> bool {
    patch <= 56 && !(25 <= patch && patch <= 30)
}

// The bytes of the run, where the writer accepts it and every reader reads it: the list is not empty.
pub(crate) fn bytes(rows: &[i64], base: u64, width: u64) -> Option<u64> {
    let l = List::over(rows, base, width);
    let patch = table(bits::needs(l.patches));
    if l.entries == 0
        || MAX_ENTRIES < l.entries
        || 8 < base_bytes(base)
        || !is_read_everywhere(patch)
    {
        return None;
    }
    let values = bits::whole_bytes((rows.len() as u64).wrapping_mul(width));
    let list = bits::whole_bytes(l.entries.wrapping_mul(entry(patch, l.gap)));
    let head = base_bytes(base).wrapping_add(4);
    Some((values.wrapping_add(list) >> 3).wrapping_add(head))
}
