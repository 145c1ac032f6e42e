//! How soon a machine gives up its host, until when it may surely be there, and before when it is known not to start at nodes.
#![tactic(auto)]

pub mod ends;
pub mod gone;
pub mod leaving;
