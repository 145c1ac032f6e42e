//! Certificate trees: what proves that a plan is the best one, that there is none, or how far a search got.
#![tactic(auto)]

pub mod laws;
pub mod steps;

pub use steps::{Goal, Step};
