//! How much a cluster takes, and how great its numbers may be.

/// Resources of a cluster, at most.
pub const MAX_RESOURCES: usize = 8;

/// Nodes of a cluster, at most.
pub const MAX_NODES: usize = 512;

/// Machines of a cluster, at most.
pub const MAX_MACHINES: usize = 4_096;

/// Bytes of a name, at most.
pub const MAX_NAME_BYTES: usize = 64;

/// Units of one resource that a node has or a machine uses, at most.
pub const MAX_AMOUNT: u64 = 1_000_000_000;

/// Instants of the `base` of a duration, and of its `per`, at most.
pub const MAX_DURATION: u32 = 1_000_000;
