//! The rule of the constraints that keep machines apart.
#![tactic(auto)]

mod clear;
mod dirty;
mod hall;
pub mod keeper;
mod longest;
mod pair_look;
mod pairs;
mod posts;
mod reach;
mod refuting;
pub mod rule;
mod strangers;
mod suggest;
mod twins;
mod unmoved;
pub mod watcher;
