// Text written at a place of the caller's buffer: each function returns the place after it.
#![tactic(auto)]

pub mod hexadecimal;

ghost use Rattle.std.specs.Prelude.{◌≡◌, ◌∷◌, [], ◌++◌, ◌+◌, ◌*◌, ◌%◌, ◌<◌, ◌≤◌, length, take};
ghost use Rattle.text.specs.Decimal.{decimal, row_text, rows_text};
ghost use Rattle.text.specs.Written.{TextWritten};

use util::bytes;

// One character.
pub fn put(c: u8, out: &mut [u8], at: usize) -> usize
    requires { at < length out.old }
    ensures { TextWritten (c ∷ []) out.old at out.new result }
{
    out[at] = c;
    at + 1
}

// A fixed word. Here and below the buffer and the place in it stay two parameters: `TextWritten` (specs) names both.
pub fn put_word(word: &[u8], out: &mut [u8], at: usize) -> usize
    requires { at + length word.now ≤ length out.old }
    ensures { TextWritten word.now out.old at out.new result }
{
    let end = at + word.len();
    bytes::lay(word, &mut out[at..end]);
    end
}

// The character of the lowest digit of x.
fn low_digit(x: u64) -> u8
    ensures { result ≡ 48 + x % 10 }
{
    (48 + x % 10) as u8
}

// A number in decimal: the digits above its lowest, and then that. By hand, since `Display` writes to what may fail, and this can't.
pub fn put_decimal(x: u64, out: &mut [u8], at: usize) -> usize
    requires { at + length (decimal x) ≤ length out.old }
    ensures { TextWritten (decimal x) out.old at out.new result }
{
    let c = low_digit(x);
    if x < 10 {
        return put(c, out, at);
    }
    let next = put_decimal(x / 10, out, at);
    put(c, out, next)
}

// A label and the number after it, which has at most 20 digits.
pub fn put_labelled(label: &[u8], x: u64, out: &mut [u8], at: usize) -> usize
    requires { at + (length label.now + length (decimal x)) ≤ length out.old }
    ensures text_written { TextWritten (label.now ++ decimal x) out.old at out.new result }
    ensures upper_bound { result ≤ at + (length label.now + 20) }
{
    let place = put_word(label, out, at);
    put_decimal(x, out, place)
}

// A row, a negative one as a minus sign and its magnitude.
fn put_row(row: i64, out: &mut [u8], at: usize) -> usize
    requires { at + length (row_text row) ≤ length out.old }
    ensures { TextWritten (row_text row) out.old at out.new result }
{
    let size = row.unsigned_abs();
    if 0 <= row {
        return put_decimal(size, out, at);
    }
    let next = put(b'-', out, at);
    put_decimal(size, out, next)
}

// The first n rows (the clauses name n), with a space before each. With its space, a row takes 22 characters at most.
pub fn put_rows(rows: &[i64], n: usize, out: &mut [u8], at: usize) -> usize
    requires { (n ≤ length rows.now) × (at + 22 * n ≤ length out.old) }
    ensures { TextWritten (rows_text (take n rows.now)) out.old at out.new result }
{
    let mut place = at;
    for row in &rows[..n] {
        let next = put(b' ', out, place);
        place = put_row(*row, out, next);
    }
    place
}
