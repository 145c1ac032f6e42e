//! The command `explain`: why an instance has no valid plan.
#![tactic(auto)]

pub mod explaining;
