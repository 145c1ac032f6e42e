//! What a node, and all nodes, surely have and use at the most during a period.
#![tactic(auto)]

pub mod change_instants;
pub mod hold_on;
pub mod kept;
pub mod loose_room;
mod measures;
pub mod node_rooms;
pub mod over;
pub mod period;
pub mod room;
pub mod total_fit;
pub mod total_over;
pub mod total_uses;
pub mod uses;

pub(crate) use kept::Kept;
pub(crate) use period::Period;
pub(crate) use profiles::fixed::{Fixed, resource_total};
pub(crate) use standings::leaves::leaves_of;
pub(crate) use standings::numbers::{Arrival, Leaving, NEVER, Standing, standing_of};
pub(crate) use standings::uses::{base, comes_by, gain};
