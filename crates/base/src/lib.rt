//! What all crates share: the one type of want of memory, and arithmetic of lists.
//!
//! The arithmetic is definitions (specs/) and lemmas (proofs/) alone: sums and products over the numbers below a bound, the
//! least of a list, and fronts of lists. Nothing here is of the planner.
#![tactic(auto)]

pub mod memory;

pub use memory::Memory;
