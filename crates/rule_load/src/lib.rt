//! The rule of the loads of nodes. What most of its files name is passed on from here.
#![tactic(auto)]

mod confirm;
mod dirty;
mod doubt;
mod horizon;
pub mod keeper;
mod node_look;
mod nodes;
mod reason;
mod refuting;
pub mod rule;
mod suggest;
mod total_look;
mod total_suggest;
pub mod watcher;

pub(crate) use keeper::LoadKeeper;
pub(crate) use load_bounds::kept::Kept;
pub(crate) use load_bounds::period::Period;
pub(crate) use load_bounds::{change_instants, room, uses};
pub(crate) use profiles::fixed::{Fixed, resource_total};
pub(crate) use standings::host::{host_of, is_host};
pub(crate) use standings::leaves::leaves_of;
pub(crate) use standings::numbers::{Arrival, Leaving, NEVER, Standing, standing_of};
pub(crate) use standings::uses::{base, comes_by, gain};
