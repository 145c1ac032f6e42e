//! The commands that carry a plan out, over event lines of a source: `execute` prints what may start, and `repair`
//! writes what is left after a failure.
#![tactic(auto)]

mod events;
pub mod executing;
pub mod repairing;
