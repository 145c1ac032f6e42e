//! What is said on standard error beside an answer: what helps to go on from there, and how far a long command is.
#![tactic(auto)]

pub mod answers;
mod finding;
pub mod last_line;
pub mod least;
mod meaning;
pub mod progress;
pub mod searches;
