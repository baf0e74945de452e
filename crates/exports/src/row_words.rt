// How many rows a call laid down, as words: the case, the refusal's number and place, and the rows. For the rows of a stream from a row on, and for
// a column with missing rows.
ghost use Rattle.std.specs.Prelude.{◌≡◌};
ghost use Rattle.exports.specs.Index.{preview_words};
ghost use Rattle.exports.specs.LinedUp.{spread_words};

use format::{Refusal, RowNumber};

// How many words it has.
pub const COUNT: usize = 4;

// The C interface: each list of words has columns of its own, as `batch_words` says.
#[tactic(auto, unfolding(crate::specs::Index::preview_words, crate::specs::LinedUp::spread_words))]
pub(crate) fn of(laid: Result<RowNumber, Refusal>) -> [u64; COUNT]
    ensures preview { result ≡ preview_words laid }
    ensures spread { result ≡ spread_words laid }
{
    match laid {
        Ok(n) => [1, 0, 0, n.rows as u64],
        Err(f) => [2, f.number as u64, f.place.bytes as u64, 0],
    }
}
