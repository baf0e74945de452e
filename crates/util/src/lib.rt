// What the readers and the writer share: the fields of the layouts (docs/FORMAT.md), a module each, and copies into places.
#![tactic(auto)]

pub mod big_endian;
pub mod bytes;
pub mod packed;
pub mod pattern;
pub mod rows;
pub mod varint;
pub mod width;
