// For each row of a window, the cheapest path up to it: its last run as a state, in whole bytes.
ghost use Rattle.std.specs.Prelude.{◌<◌};

use crate::{bits, states};
use format::Kind;

// Rows of a window: the most that a run has.
pub(crate) const WINDOW: u64 = Kind::MAX_ROWS as u64;

// A place for each row of a window, and one behind the last: an array, since there is no heap here, a rule of the project.
const PLACES: usize = Kind::MAX_ROWS + 1;

#[derive(Drop)]
pub(crate) struct Path {
    places: [u64; PLACES],
}

// Where a run begins that has an end: before it, whatever the state says.
fn begin(state: u64, end: u64) -> u64
    requires { 0 < end }
    ensures { result < end }
{
    states::from(state).min(end - 1)
}

impl Path {
    pub(crate) fn new() -> Path {
        Path {
            places: [0; PLACES],
        }
    }

    // The path up to no row takes no bits.
    pub(crate) fn start(&mut self) {
        self.put(0, 0);
    }

    pub(crate) fn at(&self, row: u64) -> u64 {
        match self.places.get(row as usize) {
            Some(state) => *state,
            None => 0,
        }
    }

    fn put(&mut self, row: u64, state: u64) {
        if let Some(place) = self.places.get_mut(row as usize) {
            *place = state;
        }
    }

    // The bits of the path up to a row.
    pub(crate) fn bits_to(&self, row: u64) -> u64 {
        states::bits(self.at(row))
    }

    // The path up to a row ends with this run, whose bytes are whole.
    pub(crate) fn end(&mut self, row: u64, run: u64) {
        self.put(
            row,
            states::more(bits::whole_bytes(states::bits(run))) | run & 16383,
        );
    }

    // Turns the path round: from now on each run stands where it begins, its end for the beginning. Answers where the last begins.
    pub(crate) fn turn(&mut self, rows: u64) -> u64 {
        let mut end = rows;
        let mut run = self.at(rows);
        while 0 < end {
            let from = begin(run, end);
            let form = states::form_of(run);
            run = self.at(from);
            self.put(from, states::state(0, end, form));
            end = from;
        }
        // the last run's end is the one place that was not written over
        states::from(self.at(rows))
    }
}
