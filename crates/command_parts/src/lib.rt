//! The commands that make something of independent parts of an instance: `cut` writes one part as an instance of its own,
//! and `parts` plans part after part.
#![tactic(auto)]

pub mod cutting;
pub mod planning_parts;
