// What the check of a proposal answers as words, and what the column writer does: the case, the refusal's number and place, and the runs,
// their rows and their bytes.
ghost use Rattle.std.specs.Prelude.{◌≡◌};
ghost use Rattle.exports.specs.Columns.{check_words, column_words};

use format::Refusal;
use planner::{ColumnRuns, Columned};

// How many words the check's answer has, and the writer's.
pub const CHECK_COUNT: usize = 4;

pub const COUNT: usize = 6;

// Of what the check says: a list for each variant (`check_words`), as in `of` below.
#[tactic(auto, unfolding(crate::specs::Columns::check_words))]
pub(crate) fn of_checked(checked: Option<Columned>) -> [u64; CHECK_COUNT]
    ensures { result ≡ check_words checked }
{
    match checked {
        Some(c) => [1, c.runs as u64, c.rows.rows as u64, c.bytes.bytes as u64],
        None => [0, 0, 0, 0],
    }
}

// Of what the writer did.
#[tactic(auto, unfolding(crate::specs::Columns::column_words))]
pub(crate) fn of(answer: Result<ColumnRuns, Refusal>) -> [u64; COUNT]
    ensures { result ≡ column_words answer }
{
    match answer {
        Ok(ColumnRuns::Planned(c)) => [
            1,
            0,
            0,
            c.runs as u64,
            c.rows.rows as u64,
            c.bytes.bytes as u64,
        ],
        Ok(ColumnRuns::Direct(c)) => [
            3,
            0,
            0,
            c.runs as u64,
            c.rows.rows as u64,
            c.bytes.bytes as u64,
        ],
        Err(f) => [2, f.number as u64, f.place.bytes as u64, 0, 0, 0],
    }
}
