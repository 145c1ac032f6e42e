//! Independent parts of a problem: which groups of nodes split it, what its parts are, and what plans of the parts say of the whole.
#![tactic(auto)]

pub mod fault;
pub mod laws;

pub use fault::SplitFault;
