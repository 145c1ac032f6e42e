//! Scripts: a small language of rules, whose lines are read and put into a problem.
#![tactic(auto)]

pub mod bindings;
pub mod calls;
mod cursor;
mod digits;
pub mod elements;
pub mod faults;
mod gathered;
pub mod kinds;
pub mod laws;
pub mod pass;
mod pieces;
mod places;
pub mod reading;
pub mod script;
pub mod sets;
pub mod statement;
pub mod text;
pub mod tokens;
