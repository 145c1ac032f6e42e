//! Quick tests of what is sure in a region, by the numbers that are kept beside it.
#![tactic(auto)]

pub mod coming;
mod elsewhere;
mod holding;
pub mod known;
pub mod members;
pub mod quick;
mod scattered;
pub mod tally;
mod weighed;
