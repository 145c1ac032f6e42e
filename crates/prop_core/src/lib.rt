//! Propagators: what closes a region, as boxed objects of the caller, and lists of them.
#![tactic(auto)]

pub mod all;
pub mod asking;
pub mod cover;
pub mod propagator;
