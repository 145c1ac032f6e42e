//! The walk over the steps of a certificate: whether each is due and holds, and what the tree shows at its end.
#![tactic(auto)]

mod claims;
mod counts;
mod ends;
mod followers;
mod frontier;
pub mod laws;
mod lean;
pub mod walk;
pub mod why;
