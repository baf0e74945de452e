// The 32 widths of packed fields, by their codes, and the narrowest that holds a number.
ghost use Rattle.std.specs.Prelude.{◌≡◌, ◌<◌, ◌≤◌};
ghost use Rattle.format.specs.Fields.{width, least_width, Narrowest};
ghost use Rattle.format.specs.Kept.{is_kept, next_kept};
ghost use Rattle.util.specs.Width.{LeastCode};

// The bits that a width code means. Code instead of a table: a constant array would be rebuilt at each call.
pub fn bits_of(code: u8) -> usize
    requires { code < 32 }
    ensures { result ≡ width code }
{
    let k = code as usize;
    if k < 24 {
        k + 1
    } else if k < 27 {
        26 + 2 * (k - 24)
    } else {
        32 + 8 * (k - 27)
    }
}

// The code of the least width that holds that many bits.
pub fn code_of(bits: usize) -> u8
    requires { bits ≤ 64 }
    ensures { LeastCode bits result }
{
    if bits < 2 {
        0
    } else if bits < 25 {
        (bits - 1) as u8
    } else if bits < 33 {
        // 26, 28, 30, 32
        (23 + (bits - 23) / 2) as u8
    } else {
        // 40, 48, 56, 64
        (23 + (bits + 7) / 8) as u8
    }
}

// The width of a patch list's entries: the least table width that holds that many bits.
pub fn entry_width(bits: usize) -> usize
    requires { bits ≤ 64 }
    ensures { result ≡ least_width bits }
{
    bits_of(code_of(bits))
}

// The narrowest width code that holds x. 0 needs one bit.
pub fn narrowest_code(x: u64) -> u8
    ensures { Narrowest x result }
{
    code_of((64 - u64::leading_zeros(x)) as usize)
}

// The next kept code, from this one on. Those of 1, 2, 4, 8, 16, 24, 32, 40, 48, 56 and 64 bits are kept.
pub fn next_kept(code: u8) -> u8
    requires { code < 32 }
    ensures { result ≡ next_kept code }
{
    if code < 2 {
        code
    } else if code < 4 {
        3
    } else if code < 8 {
        7
    } else if code < 16 {
        15
    } else if code < 24 {
        23
    } else if code < 28 {
        27
    } else {
        code
    }
}

// Whether a code is kept.
pub fn is_kept(code: u8) -> bool
    ensures { result ≡ is_kept code }
{
    if 31 < code {
        return false;
    }
    next_kept(code) == code
}
