// One walk over a window of rows, which finds the cheapest path to each row: a row extends each open run, or opens it anew after the cheapest path to
// the row before.
use crate::candidates::{Candidates, Frames, Widths};
use crate::frames::{self, Frame};
use crate::path::Path;
use crate::states::{CLOSED, Form};
use crate::{bits, cells, states};
use format::Kind;

// Steps of 0 in the shortest and in the longest short repeat.
const MIN_EQUAL: u64 = Kind::MIN_REPEAT as u64 - 1;

const MAX_EQUAL: u64 = Kind::MAX_REPEAT as u64 - 1;

// The runs that are open: a direct run and a packed delta of each width, and a patched run of each frame. Arrays, since there is no heap here.
#[derive(Drop)]
struct Open {
    direct: [u64; 16],
    packed: [u64; 16],
    one: Frame,
    two: Frame,
}

// The step before, whether the packed deltas that are open fall, whether this step turned them, the fixed delta, and how many steps of 0
// came last.
#[derive(Clone, Copy)]
struct Steps {
    step: u64,
    falls: bool,
    turns: bool,
    fixed: u64,
    equal: u64,
}

// These with one step more, and the cheapest of the runs that end there.
#[derive(Clone, Copy)]
struct Stepped {
    steps: Steps,
    best: u64,
}

impl Steps {
    fn none() -> Steps {
        Steps {
            step: 0,
            falls: false,
            turns: false,
            fixed: CLOSED,
            equal: 0,
        }
    }

    // One step more. A run that begins with it begins at the row before, behind so many bits with its header, first row and this step.
    fn take(self, step: u64, from: u64, bits: u64) -> Steps {
        let fresh = states::state(bits, from, Form::Fixed);
        // a step of 0 goes on with either direction; `&` and no branch, since steps vary
        let turns = (step != 0) & ((step >> 63 == 1) != self.falls);
        Steps {
            step,
            falls: self.falls != turns,
            turns,
            fixed: if step == self.step {
                self.fixed.min(fresh)
            } else {
                fresh
            },
            equal: if step == 0 {
                self.equal.wrapping_add(1)
            } else {
                0
            },
        }
    }

    // The packed delta that begins with this step: one of 0 begins a run that rises.
    fn packed(self, from: u64, bits: u64) -> u64 {
        if self.step == 0 && self.falls {
            CLOSED
        } else {
            states::state(bits, from, Form::Packed)
        }
    }

    // The first of the packed widths that goes on with this step.
    fn first(self, packed: &Widths) -> u64 {
        if self.turns {
            packed.count
        } else {
            packed.first(bits::class(bits::needs(bits::magnitude(self.step))))
        }
    }
}

// The direct run of width k with this row: those from `first` on have it.
fn direct_at(runs: &mut [u64; 16], widths: &Widths, k: u64, first: u64, fresh: u64) -> u64 {
    let on = cells::at(runs, k)
        .min(fresh)
        .wrapping_add(cells::at(&widths.bits, k));
    let run = if k < first { CLOSED } else { on };
    cells::put(runs, k, run);
    run
}

// The packed delta of width k with this step: those from `first` on have it, and each may begin with it. Least and sum stand in another order than
// for a direct run, so the two are no twins.
fn packed_at(runs: &mut [u64; 16], widths: &Widths, k: u64, first: u64, fresh: u64) -> u64 {
    let on = cells::at(runs, k).wrapping_add(cells::at(&widths.bits, k));
    let run = if k < first { CLOSED } else { on }.min(fresh);
    cells::put(runs, k, run);
    run
}

// The cheapest of all direct runs.
fn go_direct(runs: &mut [u64; 16], widths: &Widths, first: u64, fresh: u64) -> u64 {
    let mut best = CLOSED;
    for k in 0..widths.count {
        best = best.min(direct_at(runs, widths, k, first, fresh));
    }
    best
}

// The cheapest of all packed deltas.
fn go_packed(runs: &mut [u64; 16], widths: &Widths, first: u64, fresh: u64) -> u64 {
    let mut best = CLOSED;
    for k in 0..widths.count {
        best = best.min(packed_at(runs, widths, k, first, fresh));
    }
    best
}

// A short repeat of the last rows, which are equal: as many as it takes.
fn go_short(path: &Path, at: u64, equal: u64, bits: u64) -> u64 {
    if equal < MIN_EQUAL {
        return CLOSED;
    }
    let from = at.wrapping_sub(equal.min(MAX_EQUAL));
    let run = bits::whole_bytes(bits).wrapping_add(8);
    states::state(path.bits_to(from).wrapping_add(run), from, Form::Short)
}

// A patched run of this class: on with it, or a new one where that is cheaper, and where five rows in a row have left the frame for another
// form. `before` has the head in it. Answers the cheaper of it and the best of the other runs.
fn go_patched(frame: &mut Frame, class: u64, at: u64, row: u64, before: u64, best: u64) -> u64 {
    let width = bits::width(class);
    let form = Form::Patched(class);
    frame.take(width, at, row);
    let cost = frame.cost();
    let fresh = before
        .wrapping_add(bits::whole_bytes(width))
        .wrapping_add(16);
    if fresh < cost || 5 <= frame.streak && states::bits(best) < cost {
        *frame = Frame::open(width, at, row, before);
        return best.min(states::state(fresh, at, form));
    }
    best.min(states::state(cost, frame.start, form))
}

impl Open {
    fn none() -> Open {
        Open {
            direct: [CLOSED; 16],
            packed: [CLOSED; 16],
            one: Frame::none(),
            two: Frame::none(),
        }
    }

    // The patched runs, each with the best of those before it.
    fn go_frames(&mut self, frames: Frames, at: u64, row: u64, before: u64, best: u64) -> u64 {
        let Some(one) = frames.one else {
            return best;
        };
        let opened = before.wrapping_add(frames::head(row));
        let best = go_patched(&mut self.one, one, at, row, opened, best);
        match frames.two {
            Some(two) => go_patched(&mut self.two, two, at, row, opened, best),
            None => best,
        }
    }

    // The runs of equal and of packed steps. From the second row on there is a step; a run that begins with it begins at the row before.
    fn go_steps(
        &mut self,
        steps: Steps,
        rows: &[i64],
        i: usize,
        signed: bool,
        candidates: &Candidates,
        path: &Path,
    ) -> Stepped {
        if i == 0 {
            return Stepped {
                steps,
                best: CLOSED,
            };
        }
        let from = i as u64 - 1;
        let behind = cells::row(rows, i - 1);
        let step = cells::row(rows, i).wrapping_sub(behind);
        let head = bits::varint(bits::number(behind, signed)).wrapping_add(bits::varint(
            bits::number(step, true),
        ));
        let bits = path.bits_to(from).wrapping_add(head).wrapping_add(16);
        let on = steps.take(step, from, bits);
        let best = go_packed(
            &mut self.packed,
            &candidates.packed,
            on.first(&candidates.packed),
            on.packed(from, bits),
        );
        Stepped {
            steps: on,
            best: best.min(on.fixed),
        }
    }

    // Row i of the window: every open run with it, and the cheapest in the path.
    fn go(
        &mut self,
        steps: Steps,
        rows: &[i64],
        i: usize,
        signed: bool,
        candidates: &Candidates,
        path: &mut Path,
    ) -> Steps {
        let at = i as u64;
        let row = cells::row(rows, i);
        let bits = bits::needs(bits::number(row, signed));
        let before = path.bits_to(at);
        let first = candidates.direct.first(bits::class(bits));
        let fresh = states::state(before.wrapping_add(16), at, Form::Direct);
        let direct = go_direct(&mut self.direct, &candidates.direct, first, fresh);
        let stepped = self.go_steps(steps, rows, i, signed, candidates, path);
        let best = direct
            .min(stepped.best)
            .min(go_short(path, at, stepped.steps.equal, bits));
        let best = self.go_frames(candidates.frames, at, row, before, best);
        path.end(at.wrapping_add(1), best);
        stepped.steps
    }
}

// Walks over the rows of a window, row after row.
pub(crate) fn walk(rows: &[i64], signed: bool, path: &mut Path) {
    let mut chosen = Candidates::none();
    chosen.choose(rows, signed);
    // moved, to where nothing was lent: the walk reads them at each row
    let candidates = chosen;
    let mut open = Open::none();
    let mut steps = Steps::none();
    path.start();
    for i in 0..rows.len() {
        steps = open.go(steps, rows, i, signed, &candidates, path);
    }
}
