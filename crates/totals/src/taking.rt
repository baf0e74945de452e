// Lines taken into the totals: the part of the program that neither reads nor writes.
ghost use Rattle.std.specs.Prelude.{◌≡◌, length};
ghost use Rattle.tally.specs.Held.{take_line};
ghost use Rattle.blocks.specs.Blocks.{NoNewline};
ghost use Rattle.totals.specs.Program.{answer_to, AfterBlock, AfterEnd};
ghost use Rattle.totals.specs.declared.taking.Next.TheVariants as Nexts;

use format::Kind;
use tally::totals::{Reply, Stopped, Totals};

// From where to where in the input a line has begun; that the input has ended; that refusal 20 ended the reading; or that reading failed.
// (Four cases: no Option or Result has that shape, and `AfterBlock`, `AfterEnd` and `Over` speak of each.)
#[derive(Clone, Copy)]
pub(crate) enum Next {
    Begun(usize, usize),
    Ended,
    Stopped,
    Failed,
}

// The totals after some lines, and how it goes on.
#[derive(Clone, Copy)]
pub(crate) struct Turn {
    pub totals: Totals,
    pub next: Next,
}

// Places for the rows of a run.
pub(crate) fn row_places() -> [i64; Kind::MAX_ROWS]
    ensures { length result ≡ 512 }
{
    [0; Kind::MAX_ROWS]
}

// Refusal 20 ended the reading: the totals are those before the line that would pass a limit.
fn stopped(stop: Stopped) -> Turn
    ensures totals { result.totals ≡ stop.totals }
    ensures next { result.next ≡ Nexts.Stopped }
{
    Turn {
        totals: stop.totals,
        next: Next::Stopped,
    }
}

// One line's answer taken into the totals.
fn take_line(before: Totals, line: &[u8], rows: &mut [i64]) -> Result<Totals, Stopped>
    requires { length rows.old ≡ 512 }
    ensures { result ≡ take_line before (answer_to line.now) }
{
    match lines::read_line(line, rows) {
        None => before.take(Reply::Bad, &[]),
        Some(answer) => {
            let count = format::answer::rows(answer);
            before.take(Reply::from(answer), &rows[..count.rows])
        }
    }
}

// Takes the whole lines of a block, to the first that would pass a limit.
pub(crate) fn take_block(before: Totals, input: &[u8], rows: &mut [i64]) -> Turn
    requires { length rows.old ≡ 512 }
    ensures { AfterBlock before input.now result.totals result.next }
{
    let mut totals = before;
    let mut from = 0;
    loop {
        let end = blocks::line_end(input, from);
        if end == input.len() {
            return Turn {
                totals,
                next: Next::Begun(from, end),
            };
        }
        match take_line(totals, &input[from..end], rows) {
            Ok(more) => totals = more,
            Err(stop) => return stopped(stop),
        }
        from = end + 1;
    }
}

// A last line that no newline ends is taken too.
pub(crate) fn take_last(before: Totals, line: &[u8], rows: &mut [i64]) -> Turn
    requires { NoNewline line.now × (length rows.old ≡ 512) }
    ensures { AfterEnd before line.now result.totals result.next }
{
    if line.is_empty() {
        return Turn {
            totals: before,
            next: Next::Ended,
        };
    }
    match take_line(before, line, rows) {
        Ok(totals) => Turn {
            totals,
            next: Next::Ended,
        },
        Err(stop) => stopped(stop),
    }
}
