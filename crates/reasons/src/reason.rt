//! Reasons: why a region of plans holds none that is of use.
use cluster::{Element, Instant, NodeId, NodeSet, VmId};

/// Why a region holds no valid plan, or none that costs less than the one handed in.
///
/// Resources are given by their place in the cluster's list, constraints by their number.
#[derive(Clone, Copy)]
pub enum Reason {
    /// The element has no choice left.
    Empty(Element),
    /// A plan is handed in, and the sum of the least ends is no less than its cost.
    Bound,
    /// At the instant, the least uses of the resource on the nodes exceed the capacities of those of
    /// them that may be usable.
    Load(Instant, u8, NodeSet),
    /// At the instant, two machines that the constraint keeps apart are surely on the node.
    Pair(u32, Instant, VmId, VmId, NodeId),
    /// At the instant, the machine is surely on the node, where the constraint lets it not be.
    Place(u32, Instant, VmId, NodeId),
    /// At the instant, no group of the constraint has all members; or the later machine of a
    /// precedence has surely started and the earlier one surely not ended; or two members of a
    /// serialize surely act.
    Group(u32, Instant),
    /// At the instant, the least uses or presences on the nodes of the constraint exceed its amount.
    SetLoad(u32, Instant),
    /// At the instant, more nodes of the constraint are surely powered than its amount.
    Power(u32, Instant),
    /// At the instant, the machine is surely on the node or has its image there, and the node is
    /// surely not usable.
    Usable(Instant, VmId, NodeId),
    /// At the instant, more members of the spread are surely on the nodes than there are nodes.
    Hall(u32, Instant, NodeSet),
}

/// The kinds of reasons, in the order of `Reason`.
#[derive(Clone, Copy, Debug, PartialEq, Eq)]
pub enum ReasonKind {
    Empty,
    Bound,
    Load,
    Pair,
    Place,
    Group,
    SetLoad,
    Power,
    Usable,
    Hall,
}
