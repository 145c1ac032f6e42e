//! The rules of the places of machines: where a constraint lets them not be, and nodes that are needed.
#![tactic(auto)]

mod allowed;
mod forbidden;
mod nodes;
mod optional;
mod places;
pub mod rule;
mod shutdowns;
pub mod watcher;
