//! What decides on problems: the trait of solvers, the search by rules and a brancher that are handed in, and calls that
//! ask a solver over texts in memory.
#![tactic(auto)]

mod certifying;
mod in_memory;
pub mod laws;
mod traits;

pub use certifying::certify;
pub use in_memory::{check_text, solve_to_text};
pub use traits::Solver;
