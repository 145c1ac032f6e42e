//! How many nodes of a set are surely powered during a period, and whether that stays within an amount.
#![tactic(auto)]

pub mod period;
pub mod power;
