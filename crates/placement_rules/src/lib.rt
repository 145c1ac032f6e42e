//! Whether a constraint holds of a plan at an instant, whatever its form.
//!
//! `holds` makes one pass over the members of a constraint, over the machines or over the nodes,
//! with a local table of nodes; it takes no memory.
#![tactic(auto)]

mod actions;
mod apart;
mod counts;
mod forms;
mod groups;
mod places;

pub use forms::holds;
