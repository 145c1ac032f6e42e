//! The search: one region on a trail, a stack of outer sides that wait, and each line of the certificate
//! written when it is found.
#![tactic(auto)]

mod found;
mod ground;
pub mod laws;
mod leaves;
mod levels;
mod looks;
mod progress;
mod rounds;
mod solving;
mod staying;

pub use found::Found;
pub use solving::solve;
