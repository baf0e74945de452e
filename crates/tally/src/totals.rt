// Totals over lines of the program's input, taken line by line or combined:
// counts, the smallest and the largest row, and the exact sum of all rows.
ghost use Rattle.std.specs.Prelude.{◌≡◌, ◌+◌, ◌≤◌, [], ◌∷◌, length, nat_lt, Err};
ghost use Rattle.format.specs.Fields.{pick};
ghost use Rattle.tally.specs.Totals.{run, rows_in, lower, higher, of_two, of_all, totals, empty, limit};
ghost use Rattle.tally.specs.Held.{Taken, slot, line_with, reply_to, held, counting, each_plus, together, stopped, combined, take_line};

use crate::sums::{Wide, sum_of};
use format::{Answer, ByteOffset, Kind, Refusal};

// At most 2^32 lines, and at most 2^32 rows.
pub const LIMIT: u64 = 4294967296;

// How a line was answered, without its rows: a bad line, the end, a refusal by its number, or a run by its kind. (Four cases, of which two
// have no value: no Option or Result has that shape, and one in another would be no plainer.)
#[derive(Clone, Copy)]
pub enum Reply {
    Bad,
    End,
    Refused(u8),
    Run(Kind),
}

// Totals: refusals by number, runs by the number of their kind. (Arrays with a place for each number, as the definitions `held`, `numbers` and
// `kinds` and the theorem `CodeTells` have them; no heap, so no map.)
#[derive(Clone, Copy)]
pub struct Totals {
    pub lines: u64,
    pub bads: u64,
    pub ends: u64,
    pub refusals: [u64; 15],
    pub runs: [u64; 6],
    pub rows: u64,
    pub smallest: Option<i64>,
    pub largest: Option<i64>,
    pub sum: Wide,
}

// Taking stopped, by refusal 20: the totals as before.
#[derive(Clone, Copy)]
pub struct Stopped {
    pub totals: Totals,
    pub refusal: Refusal,
}

// Both extremes of some rows.
#[derive(Clone, Copy)]
struct Range {
    smallest: Option<i64>,
    largest: Option<i64>,
}

// The smaller of two rows, where there are two. (`lower` and `higher` are two: one over a closure could promise its `post` alone.)
pub fn lower(a: Option<i64>, b: Option<i64>) -> Option<i64>
    ensures { result ≡ of_two lower a b }
{
    match (a, b) {
        (Some(a), Some(b)) => Some(a.min(b)),
        _ => a.or(b),
    }
}

// The larger of two rows, where there are two.
pub fn higher(a: Option<i64>, b: Option<i64>) -> Option<i64>
    ensures { result ≡ of_two higher a b }
{
    match (a, b) {
        (Some(a), Some(b)) => Some(a.max(b)),
        _ => a.or(b),
    }
}

fn range_of(rows: &[i64]) -> Range
    ensures { (result.smallest ≡ of_all lower rows.now) × (result.largest ≡ of_all higher rows.now) }
{
    let Some((first, more)) = rows.split_first() else {
        let none = None;
        return Range {
            smallest: none,
            largest: none,
        };
    };
    let mut smallest = *first;
    let mut largest = *first;
    for row in more {
        smallest = smallest.min(*row);
        largest = largest.max(*row);
    }
    Range {
        smallest: Some(smallest),
        largest: Some(largest),
    }
}

// Each count and the one at its place, modulo 2^64: no lines lead to so many.
fn add_each<const N: usize>(counts: [u64; N], more: [u64; N]) -> [u64; N]
    ensures { result ≡ each_plus counts.entry more.entry }
{
    let mut sums = counts;
    for i in 0..N {
        sums[i] = sums[i].wrapping_add(more[i]);
    }
    sums
}

// Where a refusal is counted. (By its number, as `Refusal` of the format has it and the definition `slot` takes it.)
fn slot(number: u8) -> usize
    ensures { result ≡ slot number }
{
    if number < 15 { usize::from(number) } else { 0 }
}

// Only a run has rows.
fn row_count(reply: Reply, rows: &[i64]) -> u64
    ensures { result ≡ length (rows_in (line_with reply rows.now)) }
{
    match reply {
        Reply::Run(_) => rows.len() as u64,
        Reply::Bad | Reply::End | Reply::Refused(_) => 0,
    }
}

// Two counts are more than the limit together.
fn too_many(a: u64, b: u64) -> bool
    ensures { result ≡ nat_lt limit (a + b) }
{
    LIMIT < a.saturating_add(b)
}

// The reply to a line that is not bad: what the run reader answers.
impl From<Answer> for Reply {
    ghost from_gives = { λ answer reply. reply ≡ reply_to answer };

    fn from(answer: Answer) -> Self {
        match answer {
            Ok(None) => Reply::End,
            Ok(Some(run)) => Reply::Run(run.kind),
            Err(refusal) => Reply::Refused(refusal.number),
        }
    }
}

impl Stopped {
    fn at(totals: Totals) -> Self
        ensures { ◌≡◌ {A = Taken} (Err result) (stopped totals) }
    {
        Stopped {
            totals,
            refusal: Refusal::new(20, ByteOffset { bytes: 0 }),
        }
    }
}

impl Totals {
    // Of no lines.
    pub fn empty() -> Self
        ensures { result ≡ held empty }
    {
        Totals::counting(0, 0, 0)
    }

    // Of lines without rows, so many of them bad, and so many ends.
    fn counting(lines: u64, bads: u64, ends: u64) -> Self
        ensures { result ≡ counting lines bads ends }
    {
        Totals {
            lines,
            bads,
            ends,
            refusals: [0; 15],
            runs: [0; 6],
            rows: 0,
            smallest: None,
            largest: None,
            sum: Wide { high: 0, low: 0 },
        }
    }

    // Of one run.
    fn of_run(kind: Kind, rows: &[i64]) -> Self
        requires { length rows.now ≤ limit }
        ensures { result ≡ held (totals (run kind rows.now ∷ [])) }
    {
        let range = range_of(rows);
        let mut runs = [0u64; 6];
        runs[kind.number() as usize] = 1;
        Totals {
            lines: 1,
            bads: 0,
            ends: 0,
            refusals: [0; 15],
            runs,
            rows: rows.len() as u64,
            smallest: range.smallest,
            largest: range.largest,
            sum: sum_of(rows),
        }
    }

    // Of one line.
    fn of_line(reply: Reply, rows: &[i64]) -> Self
        requires { length (rows_in (line_with reply rows.now)) ≤ limit }
        ensures { result ≡ held (totals (line_with reply rows.now ∷ [])) }
    {
        match reply {
            Reply::Bad => Totals::counting(1, 1, 0),
            Reply::End => Totals::counting(1, 0, 1),
            Reply::Refused(number) => {
                let at = slot(number);
                let mut one = Totals::counting(1, 0, 0);
                one.refusals[at] = 1;
                one
            }
            Reply::Run(kind) => Totals::of_run(kind, rows),
        }
    }

    // Both, the second's lines after the first's.
    fn together(self, more: Totals) -> Self
        ensures { result ≡ together self more }
    {
        Totals {
            lines: self.lines.wrapping_add(more.lines),
            bads: self.bads.wrapping_add(more.bads),
            ends: self.ends.wrapping_add(more.ends),
            refusals: add_each(self.refusals, more.refusals),
            runs: add_each(self.runs, more.runs),
            rows: self.rows.wrapping_add(more.rows),
            smallest: lower(self.smallest, more.smallest),
            largest: higher(self.largest, more.largest),
            sum: self.sum.plus(more.sum),
        }
    }

    // Two inputs, the second's lines after the first's. Refusal 20, with
    // the first's totals, where they are more lines or rows than the limit.
    pub fn combine(self, more: Totals) -> Result<Totals, Stopped>
        ensures { result ≡ combined self more }
    {
        if too_many(self.lines, more.lines) {
            return Err(Stopped::at(self));
        }
        if too_many(self.rows, more.rows) {
            return Err(Stopped::at(self));
        }
        Ok(self.together(more))
    }

    // One line more: its reply, and its rows, which count for a run alone.
    // Refusal 20, with the totals as before, where it would pass a limit.
    pub fn take(self, reply: Reply, rows: &[i64]) -> Result<Totals, Stopped>
        ensures { result ≡ take_line self (line_with reply rows.now) }
    {
        if too_many(self.lines, 1) {
            return Err(Stopped::at(self));
        }
        if too_many(self.rows, row_count(reply, rows)) {
            return Err(Stopped::at(self));
        }
        Ok(self.together(Totals::of_line(reply, rows)))
    }
}
