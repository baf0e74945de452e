// A label as words: the case, the refusal's number and place, where a name begins in the block, and how many bytes it or the fallback has.
ghost use Rattle.std.specs.Prelude.{◌≡◌};
ghost use Rattle.exports.specs.Labels.{label_words};

use format::Refusal;
use labels::Label;

// How many words a label has.
pub const COUNT: usize = 5;

#[tactic(auto, unfolding(crate::specs::Labels::label_words))]
pub(crate) fn of(label: Result<Label, Refusal>) -> [u64; COUNT]
    ensures { result ≡ label_words label }
{
    match label {
        Ok(Label::Name(n)) => [1, 0, 0, n.start.bytes as u64, n.size.bytes as u64],
        Ok(Label::Fallback(n)) => [3, 0, 0, 0, n.bytes as u64],
        Err(f) => [2, f.number as u64, f.place.bytes as u64, 0, 0],
    }
}
