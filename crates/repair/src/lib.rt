//! What is left of a problem and its plan once some actions have ended: going on after a failure.
#![tactic(auto)]

mod ended;
mod faults;
mod following;
mod going_on;
pub mod laws;
mod words;

pub use faults::RestFault;
pub use following::{Ending, follow};
pub use going_on::rest;
