// What the converter answers, as words: the case, the refusal's number and place, how many runs were altered, the bytes, and the field
// that was cut.
ghost use Rattle.std.specs.Prelude.{◌≡◌};
ghost use Rattle.exports.specs.Converting.{convert_words};

use answer_words::{cut_byte, cut_case};
use convert::Conversion;
use format::Refusal;

// How many words it has.
pub const COUNT: usize = 7;

#[tactic(auto, unfolding(crate::specs::Converting::convert_words))]
pub(crate) fn of(converted: Result<Conversion, Refusal>) -> [u64; COUNT]
    ensures { result ≡ convert_words converted }
{
    match converted {
        Ok(c) => [1, 0, 0, c.altered as u64, c.bytes.bytes as u64, 0, 0],
        Err(f) => {
            let cut = f.cut;
            [
                2,
                f.number as u64,
                f.place.bytes as u64,
                0,
                0,
                cut_case(cut),
                cut_byte(cut).bytes as u64,
            ]
        }
    }
}
