// The pass that finishes rows in their places: every reader makes one at most, after all its tests.
ghost use Rattle.std.specs.Prelude.{◌≡◌};
ghost use Rattle.rle_v2.specs.Pass.{stepped, unzigzagged, decoded, based, moved, summed};

use util::pattern;

// Rows that are all the same, which are steps of 0. Two a turn: where there are ten at the most, as in a short repeat, a loop of one a turn is
// compiled to a test of each place.
pub(crate) fn repeat(value: u64, out: &mut [i64])
    ensures { out.new ≡ stepped value 0 out.old }
{
    let count = out.len();
    let row = value.cast_signed();
    let mut i: usize = 0;
    while 2 <= count - i {
        out[i] = row;
        out[i + 1] = row;
        i += 2;
    }
    if i < count {
        out[i] = row;
    }
}

// Rows from the first on, each the one before it plus the step.
pub(crate) fn steps(first: u64, step: u64, out: &mut [i64])
    ensures { out.new ≡ stepped first step out.old }
{
    let mut x = first;
    for row in out.iter_mut() {
        *row = x.cast_signed();
        x = x.wrapping_add(step);
    }
}

// Places that hold stored values, as rows.
pub(crate) fn decode(signed: bool, out: &mut [i64])
    ensures { out.new ≡ decoded signed out.old }
{
    if signed {
        for row in out.iter_mut() {
            *row = pattern::unzigzag(row.cast_unsigned()).cast_signed();
        }
    }
}

// Places with the base added.
pub(crate) fn add_base(base: u64, out: &mut [i64])
    ensures { out.new ≡ based base out.old }
{
    for row in out.iter_mut() {
        *row = base.wrapping_add(row.cast_unsigned()).cast_signed();
    }
}

// The row after x, by a magnitude.
fn moved_by(falling: bool, x: u64, m: u64) -> u64
    ensures { result ≡ moved falling x m }
{
    if falling {
        x.wrapping_sub(m)
    } else {
        x.wrapping_add(m)
    }
}

// Places that hold magnitudes, summed up from the row before them.
pub(crate) fn sum(falling: bool, before: u64, out: &mut [i64])
    ensures { out.new ≡ summed falling before out.old }
{
    let mut x = before;
    for row in out.iter_mut() {
        x = moved_by(falling, x, row.cast_unsigned());
        *row = x.cast_signed();
    }
}
