// Which widths the rows of a window ask for: the walk's states are these and no others, so that its cost is small where the rows are alike.
use crate::{bits, cells, states};

// The candidates of a window: widths of direct runs and of packed deltas; and frames, as patched runs are called while their rows come in.
#[derive(Drop)]
pub(crate) struct Candidates {
    pub direct: Widths,
    pub packed: Widths,
    pub frames: Frames,
}

// Widths that are chosen, as a state counts them, and how many; and for each class, in four bits, the first of them that has it. An array, since
// there is no heap here, a rule of the project.
#[derive(Drop)]
pub(crate) struct Widths {
    pub count: u64,
    pub bits: [u64; 16],
    first: u64,
}

// The classes of at most two frames; there is no second without a first.
#[derive(Clone, Copy)]
pub(crate) struct Frames {
    pub one: Option<u64>,
    pub two: Option<u64>,
}

// How many rows there are of each class, by their numbers; and how many steps, by their sizes. Arrays, since there is no heap here.
#[derive(Drop)]
struct Counts {
    numbers: [u64; 16],
    steps: [u64; 16],
}

// The row and the step before, and how many steps differed so far.
#[derive(Clone, Copy)]
struct Seen {
    row: u64,
    step: u64,
    uneven: u64,
}

impl Widths {
    fn none() -> Widths {
        Widths {
            count: 0,
            bits: [0; 16],
            first: 0,
        }
    }

    // One class more: the next width that is chosen has it, its own where it is taken.
    fn offer(&mut self, class: u64, take: bool) {
        self.first |= self.count << (class % 16 * 4);
        if take {
            cells::put(&mut self.bits, self.count, states::more(bits::width(class)));
            self.count = self.count.wrapping_add(1);
        }
    }

    // A class that one row in 64 has; and the widest, which some row needs.
    fn choose_direct(&mut self, numbers: &[u64; 16], rows: u64) {
        let mut seen = 0u64;
        for (class, here) in numbers[..11].iter().enumerate() {
            seen = seen.wrapping_add(*here);
            self.offer(
                class as u64,
                is_common(*here, rows) || 0 < *here && seen == rows,
            );
        }
    }

    // A class that one step in 64 has, from two bits on. A step that is wider than all of these ends a run, and may be the first of the next.
    // At 64 bits a direct run is as good.
    fn choose_packed(&mut self, steps: &[u64; 16], uneven: u64) {
        self.offer(0, false);
        // steps of one bit are packed in two
        let mut narrow = steps[0];
        for class in 1..10 {
            let here = steps[class].wrapping_add(narrow);
            self.offer(class as u64, is_common(here, uneven));
            narrow = 0;
        }
        self.offer(10, false);
    }

    // The first that has a class.
    pub(crate) fn first(&self, class: u64) -> u64 {
        self.first >> (class % 16 * 4) & 15
    }

    // The bits of the last, which is the widest.
    fn widest(&self) -> u64 {
        states::bits(cells::at(&self.bits, self.count.wrapping_sub(1)))
    }
}

impl Frames {
    // One class more, where there are fewer than two.
    fn offer(&mut self, class: u64) {
        if self.one.is_none() {
            self.one = Some(class);
        } else if self.two.is_none() {
            self.two = Some(class);
        }
    }
}

impl Candidates {
    // None yet.
    pub(crate) fn none() -> Candidates {
        Candidates {
            direct: Widths::none(),
            packed: Widths::none(),
            frames: Frames {
                one: None,
                two: None,
            },
        }
    }

    // Those of a window, chosen where they stand: a function that answered with them would have them copied, twice a window.
    pub(crate) fn choose(&mut self, rows: &[i64], signed: bool) {
        let mut counts = Counts {
            numbers: [0; 16],
            steps: [0; 16],
        };
        let uneven = counts.take_all(rows, signed);
        self.direct
            .choose_direct(&counts.numbers, rows.len() as u64);
        self.packed.choose_packed(&counts.steps, uneven);
        self.frames = choose_frames(&counts.steps, uneven, self.direct.widest());
    }
}

impl Counts {
    // Counts all rows. Answers how many steps differ.
    fn take_all(&mut self, rows: &[i64], signed: bool) -> u64 {
        let mut seen = Seen {
            row: cells::row(rows, 0),
            step: 0,
            uneven: 0,
        };
        for row in rows {
            seen = self.take(seen, row.cast_unsigned(), signed);
        }
        seen.uneven
    }

    // Counts a row by the class of its number, and its step by that of its size where it differs from the step before: equal steps are a fixed delta's,
    // and say nothing of the others.
    fn take(&mut self, seen: Seen, row: u64, signed: bool) -> Seen {
        let number = bits::number(row, signed);
        cells::tally(&mut self.numbers, bits::class(bits::needs(number)), 1);
        let step = row.wrapping_sub(seen.row);
        let differs = u64::from(step != seen.step);
        let size = bits::magnitude(step);
        cells::tally(&mut self.steps, bits::class(bits::needs(size)), differs);
        Seen {
            row,
            step,
            uneven: seen.uneven.wrapping_add(differs),
        }
    }
}

// Whether one in 64 is here.
fn is_common(here: u64, all: u64) -> bool {
    0 < here && all <= here << 6
}

// The two narrowest frames that hold every fourth step: a frame of W bits has no wider step between two of its rows. A frame as wide as
// the widest direct run gains nothing. Up to 40 bits, and not 2, which is near 1 and 4.
fn choose_frames(steps: &[u64; 16], uneven: u64, widest: u64) -> Frames {
    let mut frames = Frames {
        one: None,
        two: None,
    };
    let mut held = 0u64;
    for (k, here) in steps[..8].iter().enumerate() {
        let class = k as u64;
        held = held.wrapping_add(*here);
        if class != 1 && bits::width(class) < widest && 0 < held && uneven <= held << 2 {
            frames.offer(class);
        }
    }
    frames
}
