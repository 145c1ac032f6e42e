//! The commands that report on a plan: `replay` prints its report, `show` lists it, and `picture` draws it.
#![tactic(auto)]

pub mod picturing;
pub mod replaying;
pub mod showing;
