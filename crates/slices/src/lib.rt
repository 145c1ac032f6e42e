//! Timed plans: legal choices, what each uses and where, and the one definition of a valid plan.
#![tactic(auto)]

pub mod actions;
pub mod choice;
pub mod elements;
pub mod form;
pub mod holding;
pub mod laws;
pub mod plan;
pub mod rule;
pub mod slice;
pub mod snapshot;
pub mod stage;

pub use form::Form;
pub use plan::Plan;
pub use slice::Weight;
