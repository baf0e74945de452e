// Rows rescued by positions, as words: the case, the refusal's number and place, how many rows were written and how many groups were kept.
ghost use Rattle.std.specs.Prelude.{◌≡◌};
ghost use Rattle.exports.specs.Rescue.{rescue_words};

use format::Refusal;
use rescue::Totals;

// How many words it has.
pub const COUNT: usize = 5;

// The C interface: each list of words has columns of its own, as `batch_words` says.
#[tactic(auto, unfolding(crate::specs::Rescue::rescue_words))]
pub(crate) fn of(rescued: Result<Totals, Refusal>) -> [u64; COUNT]
    ensures { result ≡ rescue_words rescued }
{
    match rescued {
        Ok(totals) => [1, 0, 0, totals.rows.rows as u64, totals.kept as u64],
        Err(f) => [2, f.number as u64, f.place.bytes as u64, 0, 0],
    }
}
