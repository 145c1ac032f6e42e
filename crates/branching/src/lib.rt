//! Choosing where an undecided region is split.
#![tactic(auto)]

pub mod brancher;
mod ends;
pub mod first_free;
mod forced;
mod known;
pub mod least_start;
pub mod most_failures;
mod open;
mod order;
mod passed;
mod picks;
mod split;
pub mod stay_first;
