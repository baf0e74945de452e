// What a salvage came to, as words: the case, the refusal's number and place, and how many bytes the new stream and the report have.
ghost use Rattle.std.specs.Prelude.{◌≡◌};
ghost use Rattle.exports.specs.Salvage.{salvage_words};

use format::Refusal;
use salvage::Sizes;

// How many words it has.
pub const COUNT: usize = 5;

#[tactic(auto, unfolding(crate::specs::Salvage::salvage_words))]
pub(crate) fn of(outcome: Result<Sizes, Refusal>) -> [u64; COUNT]
    ensures { result ≡ salvage_words outcome }
{
    match outcome {
        Ok(sizes) => [
            1,
            0,
            0,
            sizes.stream.bytes as u64,
            sizes.report.bytes as u64,
        ],
        Err(f) => [2, f.number as u64, f.place.bytes as u64, 0, 0],
    }
}
