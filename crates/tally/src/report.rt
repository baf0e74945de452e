// The text of totals: a line for each count, for the smallest and the largest row, and for the sum as a whole number. (No Display: there is no
// heap, and text goes into lent bytes `out` from a place `at`, as `TextWritten` of `text` says for each word.)
ghost use Rattle.std.specs.Prelude.{◌≡◌, ◌+◌, ◌≤◌, length};
ghost use Rattle.text.specs.Written.{TextWritten};
ghost use Rattle.tally.specs.Wide.{wide_value, size_of};
ghost use Rattle.tally.specs.Text.{number_text, whole_text, count_line, extreme_line, refusal_line, refusals_text, runs_text, sum_line};
ghost use Rattle.tally.specs.Text.{totals_text, Shown};

use crate::sums::{Tenth, Wide};
use crate::totals::Totals;
use text::{put, put_decimal, put_rows, put_word};

// The fixed words.
const LINES: [u8; 6] = *b"lines ";

const BAD: [u8; 4] = *b"bad ";

const END: [u8; 4] = *b"end ";

const SHORT: [u8; 6] = *b"short ";

const DIRECT: [u8; 7] = *b"direct ";

const PATCHED: [u8; 8] = *b"patched ";

const DELTA: [u8; 6] = *b"delta ";

const ROWS: [u8; 5] = *b"rows ";

const SMALLEST: [u8; 8] = *b"smallest";

const LARGEST: [u8; 7] = *b"largest";

const SUM: [u8; 4] = *b"sum ";

// Room for the lines of any totals.
pub const ROOM: usize = 1024;

const REFUSED: [u8; 8] = *b"refused ";

const NONE: [u8; 5] = *b" none";

// A number in two words: the digits above its last, and then that. What fits one word is written as such.
fn put_size(size: Wide, out: &mut [u8], at: usize) -> usize
    requires { at + length (number_text (size_of size)) ≤ length out.old }
    ensures { TextWritten (number_text (size_of size)) out.old at out.new result }
{
    if size.high == 0 {
        return put_decimal(size.low, out, at);
    }
    let tenth = size.tenth();
    let next = put_size(tenth.quotient, out, at);
    put(48 + tenth.digit, out, next)
}

// The whole number that two words stand for: one below 0 is a minus sign and its size.
fn put_whole(wide: Wide, out: &mut [u8], at: usize) -> usize
    requires { at + length (whole_text (wide_value wide)) ≤ length out.old }
    ensures { TextWritten (whole_text (wide_value wide)) out.old at out.new result }
{
    let size = wide.size();
    if wide.is_negative() {
        let next = put(b'-', out, at);
        return put_size(size, out, next);
    }
    put_size(size, out, at)
}

// A word and a count, on a line.
fn put_count(word: &[u8], count: u64, out: &mut [u8], at: usize) -> usize
    requires { at + (length word.now + 21) ≤ length out.old }
    ensures text_written { TextWritten (count_line word.now count) out.old at out.new result }
    ensures upper_bound { result ≤ at + (length word.now + 21) }
{
    let mut place = put_word(word, out, at);
    place = put_decimal(count, out, place);
    put(b'\n', out, place)
}

// A word, and a row or none, on a line.
fn put_extreme(word: &[u8], extreme: Option<i64>, out: &mut [u8], at: usize) -> usize
    requires { at + (length word.now + 23) ≤ length out.old }
    ensures text_written { TextWritten (extreme_line word.now extreme) out.old at out.new result }
    ensures upper_bound { result ≤ at + (length word.now + 23) }
{
    let place = put_word(word, out, at);
    match extreme {
        None => {
            let next = put_word(&NONE, out, place);
            put(b'\n', out, next)
        }
        Some(row) => {
            let next = put_rows(&[row], 1, out, place);
            put(b'\n', out, next)
        }
    }
}

// A refusal's number and its count, on a line.
fn put_refusal(number: u64, count: u64, out: &mut [u8], at: usize) -> usize
    requires { at + 50 ≤ length out.old }
    ensures text_written { TextWritten (refusal_line number count) out.old at out.new result }
    ensures upper_bound { result ≤ at + 50 }
{
    let mut place = put_word(&REFUSED, out, at);
    place = put_decimal(number, out, place);
    place = put(b' ', out, place);
    place = put_decimal(count, out, place);
    put(b'\n', out, place)
}

// The refusals by number. (No loop: `refusals_text` is written out line by line.)
fn put_refusals(counts: [u64; 15], out: &mut [u8], at: usize) -> usize
    requires { at + 500 ≤ length out.old }
    ensures text_written { TextWritten (refusals_text counts) out.old at out.new result }
    ensures upper_bound { result ≤ at + 500 }
{
    let mut place = put_refusal(1, counts[1], out, at);
    place = put_refusal(2, counts[2], out, place);
    place = put_refusal(3, counts[3], out, place);
    place = put_refusal(4, counts[4], out, place);
    place = put_refusal(5, counts[5], out, place);
    place = put_refusal(6, counts[6], out, place);
    place = put_refusal(7, counts[7], out, place);
    place = put_refusal(12, counts[12], out, place);
    place = put_refusal(13, counts[13], out, place);
    put_refusal(14, counts[14], out, place)
}

// The sum, on a line.
fn put_sum(sum: Wide, out: &mut [u8], at: usize) -> usize
    requires { at + 45 ≤ length out.old }
    ensures { TextWritten (sum_line (wide_value sum)) out.old at out.new result }
{
    let mut place = put_word(&SUM, out, at);
    place = put_whole(sum, out, place);
    put(b'\n', out, place)
}

// The runs by kind, and their rows. (No loop: `runs_text` is written out line by line.)
fn put_runs(runs: [u64; 6], rows: u64, out: &mut [u8], at: usize) -> usize
    requires { at + 140 ≤ length out.old }
    ensures text_written { TextWritten (runs_text runs rows) out.old at out.new result }
    ensures upper_bound { result ≤ at + 140 }
{
    let mut place = put_count(&SHORT, runs[0], out, at);
    place = put_count(&DIRECT, runs[1], out, place);
    place = put_count(&PATCHED, runs[2], out, place);
    place = put_count(&DELTA, runs[3], out, place);
    put_count(&ROWS, rows, out, place)
}

fn put_totals(totals: Totals, out: &mut [u8]) -> usize
    requires { 1024 ≤ length out.old }
    ensures { TextWritten (totals_text totals) out.old 0 out.new result }
{
    let mut at = put_count(&LINES, totals.lines, out, 0);
    at = put_count(&BAD, totals.bads, out, at);
    at = put_count(&END, totals.ends, out, at);
    at = put_refusals(totals.refusals, out, at);
    at = put_runs(totals.runs, totals.rows, out, at);
    at = put_extreme(&SMALLEST, totals.smallest, out, at);
    at = put_extreme(&LARGEST, totals.largest, out, at);
    put_sum(totals.sum, out, at)
}

// The lines of totals, in the first bytes of `out`: how many bytes they
// are. Nothing is written where `out` has less room than any totals need (0
// and no Option: `Shown` promises a length).
pub fn show(totals: Totals, out: &mut [u8]) -> usize
    ensures { Shown totals out.old out.new result }
{
    if out.len() < ROOM {
        return 0;
    }
    put_totals(totals, out)
}
