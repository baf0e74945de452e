// A batch from a position of the row index, of bytes or of flags. The positions before and after it are found first; only then is a place
// written.
ghost use Rattle.std.specs.Prelude.{◌≡◌, ℕ, ◌≤◌, List, length, Result, Ok};
ghost use Rattle.boolean_rle.specs.declared.Cut.{Cut};
ghost use Rattle.boolean_rle.specs.Found.{Wrote};
ghost use Rattle.boolean_rle.specs.Walked.{Walked};

use crate::Cut;
use format::{ByteOffset, Refusal, RowNumber};

// A batch: how many values, and the position after them.
#[derive(Clone, Copy)]
pub struct Read<P> {
    pub rows: RowNumber,
    pub next: P,
}

// A position of a stream: the plain position after n values from it on, and the values that stand after it.
pub(crate) trait Position: Copy {
    ghost end: { List ℕ → Self → ℕ → Result Self Cut };

    ghost ahead: { List ℕ → Self → List ℕ };

    fn after(self, input: &[u8], n: usize) -> Result<Self, Cut>
        ensures { result ≡ end input.now self n };

    // The n values after a plain position, in the first n places.
    fn put(self, input: &[u8], n: usize, out: &mut [u8])
        requires plain { (p : Self) × (end input.now p 0 ≡ Ok self) }
        requires there { (q : Self) × (end input.now self n ≡ Ok q) }
        requires room { n ≤ length out.old }
        ensures { Wrote 0 n (ahead input.now self) out.old out.new };
}

// The n values after a position, in the first n places, and the position after them; what is refused, is refused at the byte `at`.
pub(crate) fn read_batch<P: Position>(
    input: &[u8],
    from: P,
    at: ByteOffset,
    n: RowNumber,
    out: &mut [u8],
) -> Result<Read<P>, Refusal>
    ensures { Walked (P.end input.now) (P.ahead input.now) at.bytes from n.rows out.old out.new result }
{
    let rows = n.rows;
    let begin = from.after(input, 0).map_err(|cut| cut.refusal(at))?;
    let next = begin.after(input, rows).map_err(|cut| cut.refusal(at))?;
    if out.len() < rows {
        return Err(Refusal::new(8, at));
    }
    begin.put(input, rows, out);
    Ok(Read { rows: n, next })
}
