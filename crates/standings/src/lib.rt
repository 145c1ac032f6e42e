//! Where machines surely stand in a region, kept beside it while it is changed and undone.
#![tactic(auto)]

pub mod host;
pub mod laws;
pub mod leaves;
pub mod levels;
pub mod numbers;
pub mod pairs;
pub mod seen;
pub mod stays;
pub mod table;
pub mod uses;
