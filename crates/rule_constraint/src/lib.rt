//! Constraints as the watches of rules: an index of them by what they look at, and the watcher of those that give reasons of
//! some kinds.
#![tactic(auto)]

pub mod disturb;
pub mod index;
pub mod kinds;
pub mod machines;
pub mod watcher;

pub use index::ConstraintIndex;
pub use machines::host;
pub use watcher::{ConstraintWatcher, Kinds};
