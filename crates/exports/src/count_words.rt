// A count of true booleans as words: the case, the refusal's number and place, the count, and the field that was cut.
ghost use Rattle.std.specs.Prelude.{◌≡◌};
ghost use Rattle.exports.specs.Counts.{count_words};

use answer_words::{cut_byte, cut_case};
use format::Refusal;

// How many words a count has.
pub const COUNT: usize = 6;

#[tactic(auto, unfolding(crate::specs::Counts::count_words))]
pub(crate) fn of(count: Result<usize, Refusal>) -> [u64; COUNT]
    ensures { result ≡ count_words count }
{
    match count {
        Ok(n) => [1, 0, 0, n as u64, 0, 0],
        Err(f) => {
            let cut = f.cut;
            [
                2,
                f.number as u64,
                f.place.bytes as u64,
                0,
                cut_case(cut),
                cut_byte(cut).bytes as u64,
            ]
        }
    }
}
