//! How much a problem takes, and how great its numbers may be.

/// Constraints of a problem, at most.
pub const MAX_CONSTRAINTS: usize = 4_096;

/// The greatest last instant.
pub const MAX_HORIZON: u32 = 1_000_000;

/// Groups of an `Among`, at most.
pub const MAX_GROUPS: usize = 512;

/// Parts of a `Split`, at most.
pub const MAX_PARTS: usize = 4_096;

/// `num` and `den` of an `Overbook`, at most.
pub const MAX_SCALE: u64 = 1_000;
