//! The command `demo`: it generates a problem, plans it, and checks what was found.
#![tactic(auto)]

pub mod demonstrating;
