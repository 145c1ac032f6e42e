//! Numbers of nodes that are kept beside a region while it is changed and undone.
#![tactic(auto)]

pub mod firsts;
pub mod fixed;
pub mod movers;
pub mod near;
pub mod node_load;
pub mod number_lists;
