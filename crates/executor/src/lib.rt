//! The monitor of a plan that is carried out: which action may start, whatever ends late or fails.
#![tactic(auto)]

mod hindrance;
pub mod laws;
mod monitor;
mod phase;
mod phases;
mod times;

pub use monitor::Monitor;
pub use phase::{NewFault, Phase, StepFault};
