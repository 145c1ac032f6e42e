//! Independent parts of a problem, solved one after the other, and what that says of the whole.
#![tactic(auto)]

mod answer;
mod answering;
pub mod laws;
mod part;
mod sections;
mod solving;

pub use answer::{PartsAnswer, WholeAnswer};
pub use answering::solve_parts;
