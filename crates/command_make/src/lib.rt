//! The commands that make an instance: `generate`, by a seed, and `script`, by the rules that a script adds to one.
#![tactic(auto)]

pub mod generating;
pub mod outputs;
mod script_input;
pub mod scripting;
