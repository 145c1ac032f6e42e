//! What commands on independent parts of an instance read beside it: the groups of nodes, and the problem that they split.
#![tactic(auto)]

mod groups_input;
pub mod split_input;
