// The labels of a column, as words: the case, the refusal's number and place, how many rows, and the refused row.
ghost use Rattle.std.specs.Prelude.{◌≡◌};
ghost use Rattle.exports.specs.LinedUp.{labels_words, refused_row};

use format::RowNumber;
use labels::ColumnRefusal;

// How many words they have.
pub const LABELS_COUNT: usize = 5;

// The first row that is refused, 0 if none is. A match as plain as `map_or` with a closure, whose contract would say the same once more.
fn refused_row(row: Option<RowNumber>) -> u64
    ensures { result ≡ refused_row row }
{
    match row {
        Some(row) => row.rows as u64,
        None => 0,
    }
}

// Of the labels of a column.
#[tactic(auto, unfolding(crate::specs::LinedUp::labels_words))]
pub(crate) fn of_labels(labels: Result<RowNumber, ColumnRefusal>) -> [u64; LABELS_COUNT]
    ensures { result ≡ labels_words labels }
{
    match labels {
        Ok(n) => [1, 0, 0, n.rows as u64, 0],
        Err(ColumnRefusal { refusal, row }) => [
            2,
            refusal.number as u64,
            refusal.place.bytes as u64,
            0,
            refused_row(row),
        ],
    }
}
