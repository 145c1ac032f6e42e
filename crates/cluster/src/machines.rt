//! Virtual machines.
use crate::durations::Duration;
use crate::kinds::KIND_COUNT;
use crate::limits::MAX_RESOURCES;
use crate::names::Name;
use crate::states::State;

/// A virtual machine.
#[derive(Drop)]
pub struct Machine {
    pub name: Name,
    /// Its state at present.
    pub state: State,
    /// How much it uses of each resource at present, at most `MAX_AMOUNT`, and 0 past the resources that the cluster lists.
    pub usage: [u64; MAX_RESOURCES],
    /// Its own durations by kind, in place of the cluster's; it may have those of the eight machine kinds.
    pub own: [Option<Duration>; KIND_COUNT],
}
