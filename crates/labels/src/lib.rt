// Labels for the chunk list: stem names are a dictionary (one byte block and a column of lengths), a column of numbers, and flags that say
// which rows have a name.
#![tactic(auto)]

ghost use Rattle.std.specs.Prelude.{◌≡◌, true, ◌≤◌, ◌<◌, Ok, Err, length};
ghost use Rattle.labels.specs.Labels.{name_at, fallback_of, refused_with, add_up_to, add_up, start_of, entry_of, Labelled, PartHanded};
ghost use Rattle.labels.specs.Labels as Labels;
ghost use Rattle.labels.specs.Whole.{whole_of, whole_at};
ghost use Rattle.labels.specs.Column.{places_in, column_refused, row_refused, LabelledAll};

use format::{ByteOffset, Refusal, RowNumber};

mod column;

// A name: the byte of the block where it begins, and how many bytes it has.
#[derive(Clone, Copy)]
pub struct Name {
    pub start: ByteOffset,
    pub size: ByteOffset,
}

// What a row is called: a name of the dictionary, or the caller's own fallback, by its length. (Two kinds of label, neither of them a refusal or
// nothing: an Option or a Result would give one of them a name that it is not.)
#[derive(Clone, Copy)]
pub enum Label {
    Name(Name),
    Fallback(ByteOffset),
}

// Why the rows of a column are not called anything: a refusal, and the first row that it is for where it is for one row.
#[derive(Clone, Copy)]
pub struct ColumnRefusal {
    pub refusal: Refusal,
    pub row: Option<RowNumber>,
}

impl Label {
    pub fn name(start: ByteOffset, size: ByteOffset) -> Self
        ensures { Ok result ≡ name_at start.bytes size.bytes }
    {
        Label::Name(Name { start, size })
    }

    pub fn fallback(size: ByteOffset) -> Self
        ensures { Ok result ≡ fallback_of size.bytes }
    {
        Label::Fallback(size)
    }

    // By FORMAT.md's number, which the definition `refused_with`, `format::Refusal` and the caller in C have.
    pub fn refused(number: u8) -> Result<Self, Refusal>
        ensures { result ≡ refused_with number }
    {
        Err(Refusal::new(number, ByteOffset { bytes: 0 }))
    }
}

impl ColumnRefusal {
    // By FORMAT.md's number, as the definitions `column_refused` and `row_refused` have it.
    pub fn new(number: u8) -> Self
        ensures { Err result ≡ column_refused number }
    {
        ColumnRefusal {
            refusal: Refusal::new(number, ByteOffset { bytes: 0 }),
            row: None,
        }
    }

    pub fn of_row(number: u8, row: RowNumber) -> Self
        ensures { Err result ≡ row_refused number row.rows }
    {
        ColumnRefusal {
            refusal: Refusal::new(number, ByteOffset { bytes: 0 }),
            row: Some(row),
        }
    }
}

// A length or a number as a natural number: none if it is below 0.
fn whole_of(x: i64) -> Option<usize>
    ensures { result ≡ whole_of x }
{
    usize::try_from(x).ok()
}

// An entry of a column as a natural number: none if it is missing or below 0.
fn whole_at(column: &[i64], i: usize) -> Option<usize>
    ensures { result ≡ whole_at column.now i }
{
    whole_of(*column.get(i)?)
}

// No length is below 0, and they add up to the block's bytes. The sum stops where it passes the block, so it never wraps.
fn add_up(lengths: &[i64], block: ByteOffset) -> bool
    ensures { result ≡ add_up_to lengths.now block.bytes }
{
    let bytes = block.bytes;
    let mut sum: usize = 0;
    for &length in lengths {
        let Some(size) = whole_of(length) else {
            return false;
        };
        if bytes - sum < size {
            return false;
        }
        sum += size;
    }
    sum == bytes
}

// Where name k begins: the sum of the lengths before it.
fn start_of(lengths: &[i64], block: &[u8], k: usize) -> ByteOffset
    requires { (add_up lengths.now block.now ≡ true) × (k ≤ length lengths.now) }
    ensures { result.bytes ≡ start_of lengths.now k }
{
    let mut sum: usize = 0;
    for &length in &lengths[..k] {
        sum += length as usize;
    }
    ByteOffset { bytes: sum }
}

// Which entry of the numbers is the row's: as many as the rows before it have names.
fn entry_of(flags: &[u8], row: RowNumber) -> usize
    requires { row.rows ≤ length flags.now }
    ensures { result ≡ entry_of flags.now row.rows }
{
    let before = row.rows;
    let named = present::count_present(&flags[..before]);
    named.rows
}

// The name of the number that stands in this entry.
fn named(lengths: &[i64], numbers: &[i64], block: &[u8], at: usize) -> Result<Label, Refusal>
    requires { add_up lengths.now block.now ≡ true }
    ensures { result ≡ Labels.named lengths.now numbers.now at }
{
    let Some(k) = whole_at(numbers, at) else {
        return Label::refused(19);
    };
    let Some(size) = whole_at(lengths, k) else {
        return Label::refused(19);
    };
    Ok(Label::name(start_of(lengths, block, k), ByteOffset { bytes: size }))
}

// What the row is called. Refusals: 16 no such row, 18 lengths below 0 or not adding up to the block, 19 a number outside the dictionary or
// a missing entry.
pub fn label_of(
    lengths: &[i64],
    numbers: &[i64],
    flags: &[u8],
    block: &[u8],
    fallback: &[u8],
    row: RowNumber,
) -> Result<Label, Refusal>
    ensures { Labelled lengths.now numbers.now flags.now block.now
        fallback.now row.rows result }
{
    let i = row.rows;
    if flags.len() <= i {
        return Label::refused(16);
    }
    if !add_up(lengths, ByteOffset { bytes: block.len() }) {
        return Label::refused(18);
    }
    if flags[i] == 0 {
        return Ok(Label::fallback(ByteOffset {
            bytes: fallback.len(),
        }));
    }
    named(lengths, numbers, block, entry_of(flags, row))
}

// The name itself, a part of the block, or the fallback, lent and not copied: empty if `label_of` refuses.
pub fn part_of<'a>(
    lengths: &[i64],
    numbers: &[i64],
    flags: &[u8],
    block: &'a [u8],
    fallback: &'a [u8],
    row: RowNumber,
) -> &'a [u8]
    ensures { PartHanded lengths.now numbers.now flags.now block.now
        fallback.now row.rows result.now }
{
    match label_of(lengths, numbers, flags, block, fallback, row) {
        Ok(Label::Name(name)) => {
            let from = name.start.bytes;
            let to = from + name.size.bytes;
            &block[from..to]
        }
        Ok(Label::Fallback(_)) => fallback,
        Err(_) => &block[..0],
    }
}

// What every row is called, in one pass. The first places of `offsets` get where each name begins in the block, those of `starts` and
// `sizes` for each row where its name begins and its length, or 0 and 0 if it has none. It refuses without touching a place: 18 as
// `label_of`; then 19, with the first row whose number is outside the dictionary or missing; then 8 if there are too few places in any of
// the three. (Three lent columns and no list of names: `orc_label_column` hands them down, and `LabelledAll` speaks of each.)
pub fn label_column(
    flags: &[u8],
    numbers: &[i64],
    lengths: &[i64],
    block: ByteOffset,
    offsets: &mut [u64],
    starts: &mut [u64],
    sizes: &mut [u64],
) -> Result<RowNumber, ColumnRefusal>
    ensures { LabelledAll flags.now numbers.now lengths.now block.bytes
        (places_in offsets.old starts.old sizes.old)
        (places_in offsets.new starts.new sizes.new) result }
{
    if !add_up(lengths, block) {
        return Err(ColumnRefusal::new(18));
    }
    let rows = flags.len();
    let good = column::good_rows(flags, numbers, lengths);
    if good.rows < rows {
        return Err(ColumnRefusal::of_row(19, good));
    }
    if offsets.len() < lengths.len() {
        return Err(ColumnRefusal::new(8));
    }
    if starts.len() < rows {
        return Err(ColumnRefusal::new(8));
    }
    if sizes.len() < rows {
        return Err(ColumnRefusal::new(8));
    }
    column::put_offsets(lengths, block, offsets);
    column::put_labels(flags, numbers, lengths, offsets, starts, sizes);
    Ok(RowNumber { rows })
}
