//! Clusters and problems that are made of what another one has: copies, and adds that are known not to be refused.
#![tactic(auto)]

mod adding;
mod copying;
mod making;

pub use adding::{add_machine, add_node, add_rule, new_cluster};
pub use copying::{copy_constraints, copy_machine, copy_node};
pub use making::{bare, cluster_with, problem_with};
