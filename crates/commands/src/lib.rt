//! What the words of the command line ask for: `run::run` is the top call, and says what it promises. The commands
//! themselves are in crates below, each with what it answers and leaves.
#![tactic(auto)]

pub mod laws;
pub mod run;
pub mod status;
