// Numbers of rows, and the kept widths (FORMAT.md, "Kept widths"): 1, 2, 4, 8, 16, 24, 32, 40, 48, 56 and 64 bits are the classes 0 to 10. Rows are
// 64-bit patterns throughout; sums wrap and shifts are taken modulo 64, so that nothing is asked of a number: what is proposed is checked elsewhere.
ghost use Rattle.std.specs.Prelude.{◌≤◌};

use util::pattern;

// The next multiple of eight: bits of whole bytes.
pub(crate) fn whole_bytes(bits: u64) -> u64 {
    bits.wrapping_add(7) >> 3 << 3
}

// Whether one row is below another, as signed numbers.
pub(crate) fn is_below(a: u64, b: u64) -> bool {
    a.cast_signed() < b.cast_signed()
}

// The size of a step, without its direction.
pub(crate) fn magnitude(step: u64) -> u64 {
    step.cast_signed().unsigned_abs()
}

// The number that stands for a row: zigzagged if signed, by util, since the library has no zigzag.
pub(crate) fn number(row: u64, signed: bool) -> u64 {
    if signed { pattern::zigzag_of(row) } else { row }
}

// How many bits a number needs; 0 needs one.
pub(crate) fn needs(number: u64) -> u64
    ensures { result ≤ 64 }
{
    (64 - (number | 1).leading_zeros()) as u64
}

// The bits of the shortest varint: eight for each seven that the number needs.
pub(crate) fn varint(number: u64) -> u64 {
    (needs(number) * 37 + 222) >> 8 << 3
}

// The class of the narrowest kept width that has so many bits. Sums and no branches, since rows vary.
pub(crate) fn class(bits: u64) -> u64 {
    let above = bits.wrapping_sub(1) % 64;
    (above >> 3)
        .wrapping_add(u64::from(0 < above))
        .wrapping_add(u64::from(1 < above))
        .wrapping_add(u64::from(3 < above))
}

// The bits of a class.
pub(crate) fn width(class: u64) -> u64 {
    if class < 3 {
        1 << class
    } else {
        class.wrapping_sub(2) << 3
    }
}

// The code of a class's width.
pub(crate) fn code(class: u64) -> u64 {
    if class < 6 {
        width(class).wrapping_sub(1)
    } else {
        class.wrapping_add(21)
    }
}
