//! What all commands have in common: how one ends and its status, the instance and the plan that commands read from
//! files, two texts that are written into two files, and what is counted and printed on the way.
#![tactic(auto)]

pub mod fault;
pub mod inputs;
pub mod outputs;
pub mod status;
