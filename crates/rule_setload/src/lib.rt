//! The rule of the constraints on amounts: what machines hold on the nodes of a set, and how many of these are powered.
#![tactic(auto)]

pub mod amounts;
mod bounds;
mod concerned;
mod fit;
mod holders;
mod holding;
mod most;
mod movers_hold;
mod propose;
mod refuting;
pub mod rule;
mod span;
mod spared;
mod stayers;
mod walk;
