//! Event lines: how one is taken from a source, byte by byte, and what may be wrong with it.
#![tactic(auto)]

mod faults;
mod lines;

pub use faults::{EventFault, LineFault};
pub use lines::{Line, MAX_LINE_BYTES, read_line};
