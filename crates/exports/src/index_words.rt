// The index's answers as words: the case, the refusal's number and place; of what was built also how much, and the field that was cut; of what
// was found the entry.
ghost use Rattle.std.specs.Prelude.{◌≡◌};
ghost use Rattle.exports.specs.Index.{built_words, found_words};

use answer_words::{cut_byte, cut_case};
use format::Refusal;
use index::{Entry, Sizes};

// How many words each has.
pub const BUILT_COUNT: usize = 8;

pub const FOUND_COUNT: usize = 6;

// Of what was built.
#[tactic(auto, unfolding(crate::specs::Index::built_words))]
pub(crate) fn of_built(built: Result<Sizes, Refusal>) -> [u64; BUILT_COUNT]
    ensures { result ≡ built_words built }
{
    match built {
        Ok(s) => [
            1,
            0,
            0,
            s.entries as u64,
            s.rows.rows as u64,
            s.consumed.bytes as u64,
            0,
            0,
        ],
        Err(f) => {
            let cut = f.cut;
            [
                2,
                f.number as u64,
                f.place.bytes as u64,
                0,
                0,
                0,
                cut_case(cut),
                cut_byte(cut).bytes as u64,
            ]
        }
    }
}

// Of what was found.
#[tactic(auto, unfolding(crate::specs::Index::found_words))]
pub(crate) fn of_found(found: Result<Entry, Refusal>) -> [u64; FOUND_COUNT]
    ensures { result ≡ found_words found }
{
    match found {
        Ok(e) => [
            1,
            0,
            0,
            e.first.rows as u64,
            e.at.bytes as u64,
            e.rows.rows as u64,
        ],
        Err(f) => [2, f.number as u64, f.place.bytes as u64, 0, 0, 0],
    }
}
