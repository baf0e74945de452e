// The numbers that a run stores: rows, zigzagged if signed, and the steps between rows.
ghost use Rattle.std.specs.Prelude.{◌≡◌, false, ◌++◌, map, ◌+◌, ◌-◌, ◌/◌, ◌^◌, ◌≤◌, ◌<◌, length, get_or, take, drop, ltb, eqb};
ghost use Rattle.format.specs.Rows.{as_u64};
ghost use Rattle.format.specs.Writing as Writing;
ghost use Rattle.format.specs.Writing.{step_to, steps_of, every};
ghost use Rattle.format.specs.PatchedWriting as PatchedWriting;
ghost use Rattle.writer.specs.PatchedBase.{Largest, BitLength};

use format::RowNumber;
use util::{packed, pattern};

// The most rows of a short run. A buffer for any run is 4 KB, and clearing it costs more than writing a few rows.
pub(crate) const FEW: usize = 16;

// The 64 bits of a row.
fn pattern(row: i64) -> u64
    ensures { result ≡ as_u64 row }
{
    row.cast_unsigned()
}

// The 64 bits of the row at i.
pub(crate) fn pattern_of(rows: &[i64], i: usize) -> u64
    requires { i < length rows.now }
    ensures { result ≡ get_or (map as_u64 rows.now) i 0 }
{
    rows[i].cast_unsigned()
}

// A row as it is stored: zigzagged if signed.
pub(crate) fn stored(signed: bool, row: u64) -> u64
    ensures { result ≡ Writing.stored signed row }
{
    if signed { pattern::zigzag_of(row) } else { row }
}

// The step from one row to the next: turned around if the run falls. It takes the difference of two rows; rle_v2's `moved_by` goes the other way.
fn step(falling: bool, x: u64, y: u64) -> u64
    ensures { result ≡ step_to falling x y }
{
    if falling {
        x.wrapping_sub(y)
    } else {
        y.wrapping_sub(x)
    }
}

// What stands above the low bits. There is no shift by 64, so 64 bits are a case of their own. That bits are at most 64 stays a demand of four
// functions: a type for it would be opened for each shift and for util's `pack`, which takes the number, and is no plainer.
pub(crate) fn above(x: u64, bits: usize) -> u64
    requires { bits ≤ 64 }
    ensures { result ≡ x / 2 ^ bits }
{
    if bits < 64 { x >> bits } else { 0 }
}

// How many bits x has; 0 has none.
pub(crate) fn bit_length(x: u64) -> usize
    ensures { BitLength x result }
{
    (64 - x.leading_zeros()) as usize
}

// Whether x fits that many bits.
pub(crate) fn fits(x: u64, bits: usize) -> bool
    requires { bits ≤ 64 }
    ensures { result ≡ ltb x (2 ^ bits) }
{
    above(x, bits) == 0
}

// Every row, as it is stored.
pub(crate) fn store(rows: &[i64], signed: bool, vals: &mut [u64])
    requires { length rows.now ≤ length vals.old }
    ensures { vals.new ≡ map (Writing.stored signed) (map as_u64 rows.now)
        ++ drop (length rows.now) vals.old }
{
    for (i, row) in rows.iter().enumerate() {
        vals[i] = stored(signed, row.cast_unsigned());
    }
}

// The difference row - base of every row.
pub(crate) fn differences(rows: &[i64], base: u64, vals: &mut [u64])
    requires { length rows.now ≤ length vals.old }
    ensures { vals.new ≡ PatchedWriting.differences base (map as_u64 rows.now)
        ++ drop (length rows.now) vals.old }
{
    for (i, row) in rows.iter().enumerate() {
        vals[i] = row.cast_unsigned().wrapping_sub(base);
    }
}

// Cuts the first rows' values to their low bits, in place.
pub(crate) fn keep_low(vals: &mut [u64], rows: RowNumber, bits: usize)
    requires { (rows.rows ≤ length vals.old) × (0 < bits) × (bits ≤ 64) }
    ensures { vals.new ≡ PatchedWriting.lows bits (take rows.rows vals.old)
        ++ drop rows.rows vals.old }
{
    for value in vals[..rows.rows].iter_mut() {
        *value = packed::cut(*value, 0, bits);
    }
}

// The largest of the values, or 0 if there is none.
pub(crate) fn largest(vals: &[u64]) -> u64
    ensures { Largest vals.now result }
{
    let mut most: u64 = 0;
    for value in vals {
        most = most.max(*value);
    }
    most
}

// The steps from each row to the next.
pub(crate) fn steps(rows: &[i64], falling: bool, vals: &mut [u64])
    requires { (1 ≤ length rows.now) × (length rows.now ≤ length vals.old) }
    ensures { vals.new ≡ steps_of falling (map as_u64 rows.now)
        ++ drop (length rows.now - 1) vals.old }
{
    for i in 0..rows.len() - 1 {
        vals[i] = step(falling, pattern_of(rows, i), pattern_of(rows, i + 1));
    }
}

// Whether every step from a row to the next is the one given. It stops at the first that is not.
pub(crate) fn are_steps(rows: &[i64], value: u64) -> bool
    ensures { result ≡ every (λ x. eqb x value) (steps_of false (map as_u64 rows.now)) }
{
    for i in 1..rows.len() {
        if step(false, pattern_of(rows, i - 1), pattern_of(rows, i)) != value {
            return false;
        }
    }
    true
}

// Whether every row is the one given.
pub(crate) fn all_are(rows: &[i64], value: u64) -> bool
    ensures { result ≡ every (λ x. eqb x value) (map as_u64 rows.now) }
{
    rows.iter().all(|row| pattern(*row) == value)
}

// Whether every row, as it is stored, fits that many bits. It stops at the first that does not.
pub(crate) fn all_stored_fit(rows: &[i64], signed: bool, bits: usize) -> bool
    requires { bits ≤ 64 }
    ensures { result ≡ every (λ x. ltb x (2 ^ bits)) (map (Writing.stored signed) (map as_u64 rows.now)) }
{
    rows.iter()
        .all(|row| fits(stored(signed, pattern(*row)), bits))
}

// Whether every step from a row to the next fits that many bits.
pub(crate) fn all_steps_fit(rows: &[i64], falling: bool, bits: usize) -> bool
    requires { bits ≤ 64 }
    ensures { result ≡ every (λ x. ltb x (2 ^ bits)) (steps_of falling (map as_u64 rows.now)) }
{
    for i in 1..rows.len() {
        let x = step(falling, pattern_of(rows, i - 1), pattern_of(rows, i));
        if !fits(x, bits) {
            return false;
        }
    }
    true
}
