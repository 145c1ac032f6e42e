//! The listing of a plan, for people: one line an action, in the order in which they start.
#![tactic(auto)]

pub mod actions;
mod lines;
mod names;
mod writing;

pub use actions::{Action, listing};
pub use lines::last_end;
pub use names::{host_of, kind_text, name, node_name, target_of};
pub use writing::show_plan;
