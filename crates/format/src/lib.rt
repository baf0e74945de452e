// The nouns of docs/FORMAT.md: units, kinds, answers. What bytes mean stands in specs/, and the laws of that meaning in proofs/.
#![tactic(auto)]

ghost use Rattle.std.specs.Prelude.{◌≡◌};
ghost use Rattle.format.specs.Answers.{running, refusing, cutting, counting, kind_number};

pub mod answer;

// File offsets count bytes.
#[derive(Clone, Copy)]
pub struct ByteOffset {
    pub bytes: usize,
}

// Row numbers count rows.
#[derive(Clone, Copy)]
pub struct RowNumber {
    pub rows: usize,
}

// The ends of 64 bits: all bits set, and the top bit alone, which is the pattern of the lowest row.
pub const ALL_BITS: u64 = 18446744073709551615;

pub const TOP_BIT: u64 = 9223372036854775808;

// What a call read or wrote: one of the four kinds of integer run, booleans, or a byte value.
#[derive(Clone, Copy)]
pub enum Kind {
    ShortRepeat,
    Direct,
    PatchedBase,
    Delta,
    Booleans,
    ByteValues,
}

// What the writer writes. Fixed and packed delta are forms of one kind.
#[derive(Clone, Copy)]
pub enum Form {
    ShortRepeat,
    Direct,
    FixedDelta,
    PackedDelta,
}

// A run: its kind, the width of its values in bits, and how many rows and bytes it has.
#[derive(Clone, Copy)]
pub struct Run {
    pub kind: Kind,
    pub width: usize,
    pub rows: RowNumber,
    pub consumed: ByteOffset,
}

// A refusal: its number (FORMAT.md, "Refusals"), the byte where the refused run begins, and for 6, 12, 13 and 14 the byte where the field
// begins that the input ends in.
#[derive(Clone, Copy)]
pub struct Refusal {
    pub number: u8,
    pub place: ByteOffset,
    pub cut: Option<ByteOffset>,
}

// What a call answers: a run, none at the end of the input, or a refusal.
pub type Answer = Result<Option<Run>, Refusal>;

// Several runs: their rows and bytes, and the last of them, if there is one.
#[derive(Clone, Copy)]
pub struct Counts {
    pub rows: RowNumber,
    pub consumed: ByteOffset,
    pub last: Option<Run>,
}

// A stream that is refused: the refusal, and the runs before it.
#[derive(Clone, Copy)]
pub struct Stopped {
    pub by: Refusal,
    pub before: Counts,
}

// What the stream reader answers: every run was read, or one was refused.
pub type Stream = Result<Counts, Stopped>;

// A reader of parts is open, or was refused, or closed.
#[derive(Clone, Copy)]
pub enum Standing {
    Opened,
    Broken(Refusal),
    Closed,
}

// A reader of parts: how many bytes of the buffer belong to the unfinished run; where that run starts, counted from the first part, modulo
// 2^64; and whether the reader is open.
#[derive(Clone, Copy)]
pub struct PartReader {
    pub held: usize,
    pub at: ByteOffset,
    pub standing: Standing,
}

// What it answers: a run with its start; "all taken, no run yet"; a refusal; or, after closing, the stream's end.
#[derive(Clone, Copy)]
pub enum PartAnswer {
    Run(ByteOffset, Run),
    More,
    Refused(Refusal),
    End,
}

// What a call does: its answer, how many of the part's bytes it took, and the reader after it.
#[derive(Clone, Copy)]
pub struct PartStep {
    pub answer: PartAnswer,
    pub taken: ByteOffset,
    pub reader: PartReader,
}

impl ByteOffset {
    pub fn new(bytes: usize) -> Self
        ensures { result.bytes ≡ bytes }
    {
        ByteOffset { bytes }
    }
}

impl RowNumber {
    pub fn new(rows: usize) -> Self
        ensures { result.rows ≡ rows }
    {
        RowNumber { rows }
    }
}

impl Kind {
    // The most rows that a run holds: nine bits of its header, plus one.
    pub const MAX_ROWS: usize = 512;

    // The most bytes that a run has: a patched header, eight bytes of base, 512 values and 31 entries of 64 bits.
    pub const MAX_BYTES: usize = 4356;

    // The most bytes in front of a run's packed rows: a delta header, and two varints of ten bytes.
    pub const MAX_FRONT: usize = 22;

    // The fewest and the most rows of a short repeat: three bits of its header, plus three.
    pub const MIN_REPEAT: usize = 3;

    pub const MAX_REPEAT: usize = 10;

    // The most entries of a patch list: five bits of the header.
    pub const MAX_PATCHES: usize = 31;

    // The two bits of a run's header; 4 and 5 are the kinds that have no header.
    pub fn number(self) -> u8
        ensures { result ≡ kind_number self }
    {
        match self {
            Kind::ShortRepeat => 0,
            Kind::Direct => 1,
            Kind::PatchedBase => 2,
            Kind::Delta => 3,
            Kind::Booleans => 4,
            Kind::ByteValues => 5,
        }
    }
}

impl Run {
    pub fn new(kind: Kind, width: usize, rows: RowNumber, consumed: ByteOffset) -> Self
        ensures { result ≡ running kind width rows.rows consumed.bytes }
    {
        Run {
            kind,
            width,
            rows,
            consumed,
        }
    }
}

impl Refusal {
    pub fn new(number: u8, place: ByteOffset) -> Self
        ensures { result ≡ refusing number place.bytes }
    {
        Refusal {
            number,
            place,
            cut: None,
        }
    }

    // The input ends in the field that begins at this byte.
    pub fn cut(number: u8, place: ByteOffset, field: ByteOffset) -> Self
        ensures { result ≡ cutting number place.bytes field.bytes }
    {
        Refusal {
            number,
            place,
            cut: Some(field),
        }
    }
}

impl Counts {
    pub fn new(rows: RowNumber, consumed: ByteOffset, last: Option<Run>) -> Self
        ensures { result ≡ counting rows.rows consumed.bytes last }
    {
        Counts {
            rows,
            consumed,
            last,
        }
    }
}
