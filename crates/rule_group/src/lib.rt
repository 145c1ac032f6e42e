//! The rule of the constraints on whole groups of machines.
#![tactic(auto)]

mod acting;
mod cuts;
mod elsewhere;
mod in_turn;
mod kept;
mod ordered;
mod places;
mod refuting;
pub mod rule;
mod spots;
mod together;
mod together_cuts;
mod turn_cuts;
