//! The sum of the least ends of a region, kept beside it: no plan of the region costs less.
#![tactic(auto)]

pub mod ends;
pub mod laws;
pub mod lower_bound;
