// The patch list of a patched base run: gaps from one entry to the next, and patches that stand above the values' bits.
ghost use Rattle.std.specs.Prelude.{◌≡◌, ℕ, false, ◌∷◌, ◌+◌, ◌≤◌, ◌<◌, length, drop, get_or};
ghost use Rattle.format.specs.Fields.{pick};
ghost use Rattle.format.specs.Runs.{patch_limit, out_of_place};
ghost use Rattle.util.specs.Packed.{fields, field_at};
ghost use Rattle.rle_v2.specs.PatchList.{IsEntry, Listed, large, list_number, IsListRefusal, patch_all};

use format::RowNumber;
use util::packed;

#[derive(Clone, Copy)]
struct Entry {
    gap: usize,
    patch: u64,
    // an entry with gap 255 and patch 0 only moves on
    skip: bool,
}

// A list of n entries of so many bits, whose patches have pw bits each, and the width in bits of the values that they belong to, of so many rows.
#[derive(Clone, Copy)]
pub(crate) struct PatchList<'a> {
    pub(crate) list: &'a [u8],
    pub(crate) bits: usize,
    pub(crate) pw: usize,
    pub(crate) n: usize,
    pub(crate) width: usize,
    pub(crate) count: RowNumber,
    ghost bytes: { (i : ℕ) → get_or list.now i 0 < 256 },
    ghost listed: { Listed bits pw n list.now },
    ghost widths: { (0 < width) × (width ≤ 64) × (count.rows ≤ 512) },
}

// The least patch that does not fit above a value of so many bits: 2^(64-W), and at 64 bits 1.
fn patch_limit(width: usize) -> u64
    requires { (0 < width) × (width ≤ 64) }
    ensures { result ≡ patch_limit width }
{
    if width == 64 { 1 } else { 1 << (64 - width) }
}

impl PatchList<'_> {
    // Entry k: the patch is the low patch-width bits, and the gap is all bits above.
    fn entry(self, k: usize) -> Entry
        requires { k < self.n }
        ensures apart { IsEntry self.entry.pw (field_at self.entry.bits k self.entry.list.now) result.gap result.patch result.skip }
        ensures next { drop k (fields self.entry.bits self.entry.n self.entry.list.now)
            ≡ field_at self.entry.bits k self.entry.list.now ∷ drop (k + 1) (fields self.entry.bits self.entry.n self.entry.list.now) }
    {
        let PatchList { list, bits, pw, .. } = self;
        let e = packed::field(list, bits, k);
        let gap = e >> pw;
        let patch = packed::cut(e, 0, pw);
        Entry {
            gap: gap as usize,
            patch,
            skip: gap == 255 && patch == 0,
        }
    }

    // An entry is out of place: refusal 7, unless a patch from entry `from` on is too large. Places are not followed any more, since their
    // sum may pass 2^64. The number is the format's own, and one of these two always: an enum would be turned into it at once.
    fn out_of_place(self, from: usize) -> u8
        requires { from ≤ self.n }
        ensures { result ≡ pick (large self.entry.width self.entry.pw (drop from (fields self.entry.bits self.entry.n self.entry.list.now))) 3 7 }
    {
        let limit = patch_limit(self.width);
        for k in from..self.n {
            let e = self.entry(k);
            if limit <= e.patch {
                return 3;
            }
        }
        7
    }

    // What the list is refused with, if it is. Refusal 3: a patch is too large for the values' width; a skip's patch is 0, and never is.
    // Refusal 7: the last entry is a skip, two entries share a place, or a place is past the rows. Places never fall from one entry to the
    // next, so it is enough to hold each against the one before it.
    pub(crate) fn refused_with(self) -> Option<u8>
        ensures { IsListRefusal (list_number self.entry.width self.entry.pw self.entry.count.rows (fields self.entry.bits self.entry.n self.entry.list.now)) result }
    {
        let count = self.count;
        let rows = count.rows;
        let limit = patch_limit(self.width);
        let mut place: usize = 0;
        let mut free: usize = 0;
        let mut skip = false;
        for k in 0..self.n {
            let e = self.entry(k);
            if limit <= e.patch {
                return Some(3);
            }
            place += e.gap;
            skip = e.skip;
            if !skip {
                if place < free || rows <= place {
                    return Some(self.out_of_place(k));
                }
                free = place + 1;
            }
        }
        if skip { Some(7) } else { None }
    }

    // The patches, into rows that stand in their places.
    pub(crate) fn put(self, out: &mut [i64])
        requires { (self.count.rows ≤ length out.old)
            × (out_of_place self.pw self.count.rows (fields self.bits self.n self.list.now) ≡ false) }
        ensures { out.new ≡ patch_all self.entry.width self.entry.pw 0 out.old (fields self.entry.bits self.entry.n self.entry.list.now) }
    {
        // no place reaches the rows' number: the list passed its test
        let mut row: usize = 0;
        for k in 0..self.n {
            let e = self.entry(k);
            row += e.gap;
            if !e.skip {
                let patch = packed::raised(e.patch, self.width);
                out[row] = out[row].cast_unsigned().wrapping_add(patch).cast_signed();
            }
        }
    }
}
