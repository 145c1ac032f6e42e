//! The command `checkparts`, which tells the verdict on the plan and the certificates of all parts of an instance.
#![tactic(auto)]

pub mod checking_parts;
mod verdict_lines;
