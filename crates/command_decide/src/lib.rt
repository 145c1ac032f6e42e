//! The commands that ask a solver: `plan` writes a plan with its certificate, and `check` tells the verdict on one.
#![tactic(auto)]

pub mod checking;
pub mod planning;
