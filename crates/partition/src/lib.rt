//! Independent parts of a problem, taken apart and put together.
#![tactic(auto)]

mod building;
mod covering;
mod cutting;
mod dealing;
mod division;
mod faults;
mod groups_fault;
mod kept;
mod numbering;
mod plans;
mod reach;
mod reading;
mod sharing;
mod split_problem;
mod splitting;

pub use faults::find_fault;
pub use groups_fault::GroupsFault;
pub use reading::read_groups;
pub use split_problem::SplitProblem;
pub use splitting::split;
