//! The words of the command line, and the command that they are.
#![tactic(auto)]

pub mod words;
