//! That the certificates of solved parts are accepted.
#![tactic(auto)]

pub mod laws;
