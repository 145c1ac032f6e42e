//! Nodes.
use crate::durations::Duration;
use crate::kinds::KIND_COUNT;
use crate::limits::MAX_RESOURCES;
use crate::names::Name;

/// A node: a server that hosts machines.
#[derive(Drop)]
pub struct Node {
    pub name: Name,
    /// Whether it is online at present.
    pub online: bool,
    /// How much it has of each resource, at most `MAX_AMOUNT`, and 0 past the resources that the cluster lists.
    pub capacity: [u64; MAX_RESOURCES],
    /// Its own durations by kind, in place of the cluster's; it may have those of the two node kinds.
    pub own: [Option<Duration>; KIND_COUNT],
}
