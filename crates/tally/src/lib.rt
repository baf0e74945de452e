// Totals over lines of the program's input: counts, the smallest and the
// largest row, the exact sum of all rows, and the text of all of them.
#![tactic(auto)]

pub mod report;
pub mod sums;
pub mod totals;
