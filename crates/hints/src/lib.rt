//! Where to look first. Nothing is promised of what is told here.
#![tactic(auto)]

mod nearby;
mod seats;

pub use nearby::Nearby;
pub use seats::Seats;
