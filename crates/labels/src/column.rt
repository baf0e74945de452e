// The passes of `label_column`: one over the rows to find whether each has what it needs, one over the lengths, and one that lays the rows.
ghost use Rattle.std.specs.Prelude.{◌≡◌, true, ◌++◌, ◌≤◌, ◌<◌, pos, length, drop, get_or};
ghost use Rattle.labels.specs.Labels.{none_below, add_up_to};
ghost use Rattle.labels.specs.Column.{has_number, good_rows, offsets_from};
ghost use Rattle.labels.specs.RowPass.{name_in, RowsReady, RowsLaid};

use crate::Name;
use format::{ByteOffset, RowNumber};

// Whether a row has what it needs: it has no name, or a number stands in this entry, and it is one of the dictionary.
fn has_number(flag: u8, lengths: &[i64], numbers: &[i64], at: usize) -> bool
    ensures { result ≡ has_number lengths.now flag (drop at numbers.now) }
{
    flag == 0 || crate::whole_at(numbers, at).is_some_and(|k| k < lengths.len())
}

// How many rows stand before the first named row whose number is outside the dictionary or missing: all, if there is none.
pub(crate) fn good_rows(flags: &[u8], numbers: &[i64], lengths: &[i64]) -> RowNumber
    ensures { result.rows ≡ good_rows lengths.now flags.now numbers.now }
{
    let mut next: usize = 0;
    for (i, &flag) in flags.iter().enumerate() {
        if !has_number(flag, lengths, numbers, next) {
            return RowNumber { rows: i };
        }
        next += present::rows_for(flag).rows;
    }
    RowNumber { rows: flags.len() }
}

// Where each name begins, into the first places.
pub(crate) fn put_offsets(lengths: &[i64], block: ByteOffset, offsets: &mut [u64])
    requires { (add_up_to lengths.now block.bytes ≡ true) × (length lengths.now ≤ length offsets.old) }
    ensures { offsets.new ≡ offsets_from 0 lengths.now
        ++ drop (length lengths.now) offsets.old }
{
    let mut sum: usize = 0;
    for (i, &length) in lengths.iter().enumerate() {
        offsets[i] = sum as u64;
        sum += length as usize;
    }
}

// The name of a row whose number is in this entry: 0 and 0 if it has none, as `LabelledAll` and the caller in C have it.
fn name_for(flag: u8, numbers: &[i64], at: usize, lengths: &[i64], offsets: &[u64]) -> Name
    requires { (has_number lengths.now flag (drop at numbers.now) ≡ true) × (length lengths.now ≤ length offsets.now)
        × (none_below lengths.now ≡ true) }
    ensures { result ≡ name_in flag numbers.now at lengths.now offsets.now }
{
    if flag == 0 {
        return Name {
            start: ByteOffset { bytes: 0 },
            size: ByteOffset { bytes: 0 },
        };
    }
    let k = numbers[at] as usize;
    Name {
        start: ByteOffset {
            bytes: offsets[k] as usize,
        },
        size: ByteOffset {
            bytes: lengths[k] as usize,
        },
    }
}

// Where each row's name begins and its length, into the first places of both.
pub(crate) fn put_labels(
    flags: &[u8],
    numbers: &[i64],
    lengths: &[i64],
    offsets: &[u64],
    starts: &mut [u64],
    sizes: &mut [u64],
)
    requires { RowsReady flags.now numbers.now lengths.now offsets.now (length starts.old) (length sizes.old)
        × (none_below lengths.now ≡ true) }
    ensures { RowsLaid flags.now numbers.now lengths.now
        starts.old sizes.old starts.new sizes.new }
{
    let mut next: usize = 0;
    for (i, &flag) in flags.iter().enumerate() {
        let name = name_for(flag, numbers, next, lengths, offsets);
        starts[i] = name.start.bytes as u64;
        sizes[i] = name.size.bytes as u64;
        next += present::rows_for(flag).rows;
    }
}
