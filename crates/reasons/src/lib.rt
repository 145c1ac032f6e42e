//! The ten reasons that refute a region, when a region is closed, and what both say of plans.
#![tactic(auto)]

pub mod laws;
pub mod reason;

pub use reason::{Reason, ReasonKind};
