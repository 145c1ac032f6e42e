//! Reading an instance: the problem that a text has, or the text's first fault.
#![tactic(auto)]

mod amounts;
mod constraint_kind;
mod durations;
mod fault;
mod fields;
mod keys;
mod listing;
mod lists;
mod machines;
mod names;
mod nodes;
mod read;
mod rules;
mod states;

pub use fault::InstanceFault;
pub use read::read_instance;
