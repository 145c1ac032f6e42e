//! The verdict on the certificates of the parts of a problem.
#![tactic(auto)]

mod checking;
mod sections;
mod seen;
mod verdict;
mod wanted;

pub use checking::check_parts;
pub use verdict::{PartsFault, PartsVerdict, WholeGoal};
