// Packed fields: a block of n fields of width w, highest bit of each byte first, both ways.
ghost use Rattle.std.specs.Prelude.{◌≡◌, ◌+◌, ◌-◌, ◌*◌, ◌/◌, ◌%◌, ◌^◌, ◌<◌, ◌≤◌, ◌++◌, map, length, take, drop};
ghost use Rattle.format.specs.Digits.{AllBelow, number};
ghost use Rattle.format.specs.Fields.{bytes_for, block_bytes};
ghost use Rattle.format.specs.Rows.{as_i64};
ghost use Rattle.util.specs.Packed.{fields, bits, field_at, Width, Room, FieldsLaid, Lays};

use crate::{big_endian, pattern};

// The eight bytes at i as a number.
pub(crate) fn word(s: &[u8], i: usize) -> u64
    requires { i + 8 ≤ length s.now }
    ensures { result ≡ number 256 (take 8 (drop i s.now)) }
{
    u64::from_be_bytes([
        s[i],
        s[i + 1],
        s[i + 2],
        s[i + 3],
        s[i + 4],
        s[i + 5],
        s[i + 6],
        s[i + 7],
    ])
}

// The four bytes at i as a number.
fn half(s: &[u8], i: usize) -> u64
    requires { i + 4 ≤ length s.now }
    ensures { result ≡ number 256 (take 4 (drop i s.now)) }
{
    u64::from(u32::from_be_bytes([s[i], s[i + 1], s[i + 2], s[i + 3]]))
}

// The two bytes at i as a number.
fn quarter(s: &[u8], i: usize) -> u64
    requires { i + 2 ≤ length s.now }
    ensures { result ≡ number 256 (take 2 (drop i s.now)) }
{
    u64::from(u16::from_be_bytes([s[i], s[i + 1]]))
}

// The w bits of x above its lowest `low`.
pub fn cut(x: u64, low: usize, w: usize) -> u64
    requires { (0 < w) × (w + low ≤ 64) }
    ensures { result ≡ x / 2 ^ low % 2 ^ w }
{
    (x >> low) & (u64::MAX >> (64 - w))
}

// Where the eight of len bytes begin that hold the w bits from bit p on: with their first byte or, near the end, eight bytes before it.
fn window(len: usize, p: usize, w: usize) -> usize
    requires { (8 ≤ len) × (p % 8 + w ≤ 64) × (p + w ≤ 8 * len) }
    ensures { (8 * result ≤ p) × (p + w ≤ 8 * (result + 8)) × (result + 8 ≤ len) }
{
    if p / 8 < len - 8 { p / 8 } else { len - 8 }
}

// The w bits from bit p on, wherever they stand.
fn bits_from(s: &[u8], p: usize, w: usize) -> u64
    requires { (0 < w) × (p % 8 + w ≤ 64) × (p + w ≤ 8 * length s.now) × (p < 2 ^ 32) }
    ensures { result ≡ bits p w s.now }
{
    let len = s.len();
    if len < 8 {
        return cut(big_endian::bytes(s, 0, len), 8 * len - (p + w), w);
    }
    let i = window(len, p, w);
    cut(word(s, i), 8 * (i + 8) - (p + w), w)
}

// Field k of those that s begins with.
pub fn field(s: &[u8], w: usize, k: usize) -> u64
    requires width { Width w }
    requires k_bound { (k < 65536) × (w * (k + 1) ≤ 8 * length s.now) }
    ensures { result ≡ field_at w k s.now }
{
    bits_from(s, k * w, w)
}

// How many bytes n fields of width w take.
pub fn block_size(w: usize, n: usize) -> usize
    requires { (w ≤ 64) × (n ≤ 65536) }
    ensures { result ≡ bytes_for (n * w) }
{
    (n * w).div_ceil(8)
}

// The bytes, the eight's first, its word and the width stay parameters of these three: a struct of them with an invariant was tried, and its
// methods' proofs didn't close, for want of the fact that its bytes are below 256.

// Field j of the eight that start with byte b: two or four bytes, or bits of x, the word at b, or bits of a word of its own.
fn one_of_eight(s: &[u8], b: usize, x: u64, j: usize, w: usize) -> u64
    requires width { Width w }
    requires j_bound { (j < 8) × (b + w ≤ length s.now) × (b + 8 ≤ length s.now) }
    requires x_value { x ≡ number 256 (take 8 (drop b s.now)) }
    ensures { result ≡ bits (8 * b + j * w) w s.now }
{
    if w == 32 {
        return half(s, b + 4 * j);
    }
    if w == 16 {
        return quarter(s, b + 2 * j);
    }
    let p = j * w;
    if p + w <= 64 {
        return cut(x, 64 - (p + w), w);
    }
    let i = window(w, p, w);
    cut(word(s, b + i), 8 * (i + 8) - (p + w), w)
}

// The same as a row.
fn row_of_eight(s: &[u8], b: usize, x: u64, j: usize, w: usize) -> i64
    requires width { Width w }
    requires j_bound { (j < 8) × (b + w ≤ length s.now) × (b + 8 ≤ length s.now) }
    requires x_value { x ≡ number 256 (take 8 (drop b s.now)) }
    ensures { result ≡ as_i64 (bits (8 * b + j * w) w s.now) }
{
    pattern::to_i64(one_of_eight(s, b, x, j, w))
}

// Four of the same eight, from field j on, into the places from k on. All four are read before the first is stored: the optimiser can't
// know that the places don't overlap the bytes, and takes the four at once only in this order.
fn four(s: &[u8], b: usize, x: u64, j: usize, w: usize, out: &mut [i64], k: usize)
    requires width { Width w }
    requires j_bound { (j + 4 ≤ 8) × (b + w ≤ length s.now) × (b + 8 ≤ length s.now) }
    requires x_value { x ≡ number 256 (take 8 (drop b s.now)) }
    requires w_value { (8 * b + j * w ≡ k * w) × (k + 4 ≤ length out.old) }
    ensures { Lays w s.now k (k + 4) out.old out.new }
{
    let r0 = row_of_eight(s, b, x, j, w);
    let r1 = row_of_eight(s, b, x, j + 1, w);
    let r2 = row_of_eight(s, b, x, j + 2, w);
    let r3 = row_of_eight(s, b, x, j + 3, w);
    out[k] = r0;
    out[k + 1] = r1;
    out[k + 2] = r2;
    out[k + 3] = r3;
}

// Eight fields are w bytes: those from byte b on, put into the places from k on.
fn eight(s: &[u8], b: usize, w: usize, out: &mut [i64], k: usize)
    requires width { Width w }
    requires b_value { (8 * b ≡ k * w) × (b + w ≤ length s.now) × (b + 8 ≤ length s.now) × (k + 8 ≤ length out.old) }
    ensures { Lays w s.now k (k + 8) out.old out.new }
{
    let x = word(s, b);
    four(s, b, x, 0, w, out, k);
    four(s, b, x, 4, w, out, k + 4);
}

// All n fields of one byte each. One a turn: out of this loop the optimiser makes one of as many as the processor takes at once.
fn single_bytes(s: &[u8], w: usize, n: usize, out: &mut [i64]) -> usize
    requires w_value { w ≡ 8 }
    requires room { Room w n s.now out.old }
    ensures { FieldsLaid w n s.now result out.old out.new }
{
    for k in 0..n {
        out[k] = i64::from(s[k]);
    }
    n
}

// As many fields, up to n, as eights that lie in whole words: how many. The width is said twice: a caller that gives v as a number has
// a copy of the loop made for that width, and has the contract at w.
fn eights(s: &[u8], w: usize, v: usize, n: usize, out: &mut [i64]) -> usize
    requires width { Width v }
    requires v_value { v ≡ w }
    requires room { Room w n s.now out.old }
    ensures { FieldsLaid w n s.now result out.old out.new }
{
    let turns = n / 8;
    for turn in 0..turns {
        let b = turn * v;
        // eight narrow fields are less than a word
        if v < 8 && s.len() < b + 8 {
            return 8 * turn;
        }
        eight(s, b, v, out, 8 * turn);
    }
    8 * turns
}

// The same, with a copy of the loop for each width of the table. No const parameter: the last arm, whose width is no constant, would need a
// second function beside it; and no table of functions, which would hide from the compiler which loop is called.
fn eights_at(s: &[u8], w: usize, n: usize, out: &mut [i64]) -> usize
    requires width { Width w }
    requires room { Room w n s.now out.old }
    ensures { FieldsLaid w n s.now result out.old out.new }
{
    match w {
        1 => eights(s, w, 1, n, out),
        2 => eights(s, w, 2, n, out),
        3 => eights(s, w, 3, n, out),
        4 => eights(s, w, 4, n, out),
        5 => eights(s, w, 5, n, out),
        6 => eights(s, w, 6, n, out),
        7 => eights(s, w, 7, n, out),
        8 => single_bytes(s, w, n, out),
        9 => eights(s, w, 9, n, out),
        10 => eights(s, w, 10, n, out),
        11 => eights(s, w, 11, n, out),
        12 => eights(s, w, 12, n, out),
        13 => eights(s, w, 13, n, out),
        14 => eights(s, w, 14, n, out),
        15 => eights(s, w, 15, n, out),
        16 => eights(s, w, 16, n, out),
        17 => eights(s, w, 17, n, out),
        18 => eights(s, w, 18, n, out),
        19 => eights(s, w, 19, n, out),
        20 => eights(s, w, 20, n, out),
        21 => eights(s, w, 21, n, out),
        22 => eights(s, w, 22, n, out),
        23 => eights(s, w, 23, n, out),
        24 => eights(s, w, 24, n, out),
        26 => eights(s, w, 26, n, out),
        28 => eights(s, w, 28, n, out),
        30 => eights(s, w, 30, n, out),
        32 => eights(s, w, 32, n, out),
        40 => eights(s, w, 40, n, out),
        48 => eights(s, w, 48, n, out),
        56 => eights(s, w, 56, n, out),
        64 => eights(s, w, 64, n, out),
        _ => eights(s, w, w, n, out),
    }
}

// All fields of a block of fewer than eight bytes, out of one number.
fn few(s: &[u8], w: usize, n: usize, out: &mut [i64])
    requires w_nonzero { 0 < w }
    requires n_nonzero { (0 < n) × (length s.now < 8) × Room w n s.now out.old }
    ensures { FieldsLaid w n s.now n out.old out.new }
{
    let len = s.len();
    let x = big_endian::bytes(s, 0, len);
    let mut low = 8 * len;
    for k in 0..n {
        low -= w;
        out[k] = pattern::to_i64(cut(x, low, w));
    }
}

// The n fields that s begins with, put into the first n places as rows with the same bits: the eights, and then the rest. A count beside the
// slices, since the clauses name it and both may be longer.
pub fn unpack(s: &[u8], w: usize, n: usize, out: &mut [i64])
    requires width { Width w }
    requires n_bound { (n ≤ 65536) × (n ≤ length out.old) × (bytes_for (n * w) ≤ length s.now) }
    ensures { out.new ≡ map as_i64 (fields w n s.now) ++ drop n out.old }
{
    if 0 < n && s.len() < 8 {
        few(s, w, n, out);
        return;
    }
    let laid = eights_at(s, w, n, out);
    for k in laid..n {
        out[k] = pattern::to_i64(field(s, w, k));
    }
}

// x moved up by c bits. Two shifts, since c can be 64.
pub fn raised(x: u64, c: usize) -> u64
    requires { c ≤ 64 }
    ensures { result ≡ x * 2 ^ c % 2 ^ 64 }
{
    (x << (c / 2)) << (c - c / 2)
}

// The first n of vals as fields, written at `at` with zero padding. Of the values before k, b bytes are written, and the t bits after those
// are at the top of x.
pub fn pack(vals: &[u64], n: usize, w: usize, out: &mut [u8], at: usize)
    requires width { Width w }
    requires n_bound { (n ≤ 65536) × (n ≤ length vals.now) × (at + bytes_for (n * w) ≤ length out.old) }
    requires all_below { AllBelow (2 ^ w) (take n vals.now) }
    ensures { out.new ≡ take at out.old ++ block_bytes w n (record { values = take n vals.now; pad = 0 })
        ++ drop (at + bytes_for (n * w)) out.old }
{
    let mut x = 0;
    let mut t = 0;
    let mut b = 0;
    for v in &vals[..n] {
        t += w;
        if t < 64 {
            x += *v << (64 - t);
        } else {
            t -= 64;
            big_endian::write(x + (*v >> t), 8, out, at + b);
            b += 8;
            x = raised(*v, 64 - t);
        }
    }
    if 0 < t {
        let q = t.div_ceil(8);
        big_endian::write(x >> (64 - 8 * q), q, out, at + b);
    }
}
