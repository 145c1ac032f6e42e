//! What a plan has to keep at each instant.
use cluster::{Instant, NodeId, VmId};

/// One thing that a plan has to keep: the load of a node for a resource is within its capacity;
/// a node on which a machine is present or has its image is usable; the constraint of a number
/// holds.
#[derive(Clone, Copy, Debug, PartialEq, Eq)]
pub enum Rule {
    Load(NodeId, u8),
    Usable(VmId, NodeId),
    Constraint(u32),
}

/// The least instant at which a rule is broken, and the first rule that is broken there.
#[derive(Clone, Copy, Debug, PartialEq, Eq)]
pub struct Broken {
    pub at: Instant,
    pub rule: Rule,
}
