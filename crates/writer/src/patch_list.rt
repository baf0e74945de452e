// The patch list: an entry for each value that needs more bits, its gap above its patch, and skips if a gap is above 255.
ghost use Rattle.std.specs.Prelude.{◌≡◌, ◌+◌, ◌*◌, ◌^◌, ◌≤◌, ◌<◌, length, take, ltb};
ghost use Rattle.format.specs.Digits.{AllBelow};
ghost use Rattle.format.specs.PatchedWriting.{patches_above, entries_from, least_from};
ghost use Rattle.writer.specs.PatchedBase.{Listed};

use crate::values;
use format::RowNumber;

// An entry: the patch is the low patch-width bits, and the gap is all bits above.
fn entry(gap: usize, patch: u64, pw: usize) -> u64
    requires { (gap ≤ 255) × (pw ≤ 56) × (patch < 2 ^ pw) }
    ensures { result ≡ gap * 2 ^ pw + patch }
{
    ((gap as u64) << pw) + patch
}

// Fills the list for the first rows' values: a patch is what stands above `bits`. Answers how many entries there are, if the list has places for
// them. Gaps count from `from`, the row of the last entry. A while, since a skip is an entry and no row: i stands still at it.
pub(crate) fn fill(
    vals: &[u64],
    rows: RowNumber,
    bits: usize,
    pw: usize,
    list: &mut [u64],
) -> Option<usize>
    requires rows_in_bounds { (rows.rows ≤ length vals.now) × (rows.rows ≤ 512) × (bits ≤ 64) × (pw ≤ 56) × (length list.old ≤ 31) }
    requires all_below { AllBelow (2 ^ (pw + bits)) (take rows.rows vals.now) }
    ensures { Listed pw (entries_from 0 (patches_above bits 0 (take rows.rows vals.now))) list.new result }
{
    let n = rows.rows;
    let mut i: usize = 0;
    let mut from: usize = 0;
    let mut k: usize = 0;
    while i < n {
        let patch = values::above(vals[i], bits);
        if patch == 0 {
            i += 1;
        } else {
            if k == list.len() {
                return None;
            }
            if from + 255 < i {
                list[k] = entry(255, 0, pw);
                from += 255;
                k += 1;
            } else {
                list[k] = entry(i - from, patch, pw);
                from = i;
                i += 1;
                k += 1;
            }
        }
    }
    Some(k)
}

// The least gap width for gaps up to the one given.
pub(crate) fn gap_width(gap: u64) -> usize
    requires { gap < 256 }
    ensures { result ≡ least_from (λ g. ltb gap (2 ^ g)) 1 8 }
{
    let bits = values::bit_length(gap);
    if bits == 0 { 1 } else { bits }
}
