// The five columns of a proposal, a place of each for a run.
ghost use Rattle.proposer.specs.Proposed.{Proposed};

use crate::cells;
use crate::runs::Run;

#[derive(Drop)]
pub(crate) struct Columns<'a> {
    pub first: &'a mut [u64],
    pub counts: &'a mut [u64],
    pub forms: &'a mut [u64],
    pub widths: &'a mut [u64],
    pub bases: &'a mut [u64],
}

impl<'a> Columns<'a> {
    // For how many runs each of the five has places.
    pub(crate) fn room(&self) -> usize
        ensures { Proposed self.now.first.now self.now.counts.now self.now.forms.now self.now.widths.now self.now.bases.now result }
    {
        self.first
            .len()
            .min(self.counts.len())
            .min(self.forms.len())
            .min(self.widths.len())
            .min(self.bases.len())
    }

    // Puts a run into place k.
    pub(crate) fn put(&mut self, k: usize, at: usize, rows: usize, run: Run) {
        cells::lay(self.first, k, at as u64);
        cells::lay(self.counts, k, rows as u64);
        cells::lay(self.forms, k, run.form.number());
        cells::lay(self.widths, k, run.width);
        cells::lay(self.bases, k, run.base);
    }
}
