//! The report on a plan: the loads of all nodes at each instant at which something happens, and the
//! verdict.
#![tactic(auto)]

pub mod events;
mod lines;
mod writing;

pub use lines::broken_line;
pub use writing::report;
