//! The keys of each kind of object.

/// The keys of an instance.
pub(crate) const ROOT_KEYS: [&str; 6] = [
    "horizon",
    "resources",
    "durations",
    "nodes",
    "machines",
    "constraints",
];

/// The keys of a duration.
pub(crate) const DURATION_KEYS: [&str; 3] = ["base", "per", "resource"];

/// The keys of a node.
pub(crate) const NODE_KEYS: [&str; 4] = ["name", "online", "capacity", "durations"];

/// The keys of a machine without a host.
pub(crate) const MACHINE_KEYS: [&str; 4] = ["name", "state", "use", "durations"];

/// The keys of a machine with a host.
pub(crate) const HOSTED_KEYS: [&str; 5] = ["name", "state", "node", "use", "durations"];

// ---- constraints, by their fields

pub(crate) const MACHINES_KEYS: [&str; 2] = ["kind", "machines"];

pub(crate) const FLAGGED_MACHINES_KEYS: [&str; 3] = ["kind", "machines", "continuous"];

pub(crate) const BOTH_KEYS: [&str; 4] = ["kind", "machines", "nodes", "continuous"];

pub(crate) const AMONG_KEYS: [&str; 4] = ["kind", "machines", "groups", "continuous"];

pub(crate) const SPLIT_KEYS: [&str; 3] = ["kind", "parts", "continuous"];

pub(crate) const PRECEDENCE_KEYS: [&str; 3] = ["kind", "before", "after"];

pub(crate) const PRESERVE_KEYS: [&str; 4] = ["kind", "machines", "resource", "amount"];

pub(crate) const RESOURCE_CAPACITY_KEYS: [&str; 5] = [
    "kind",
    "nodes",
    "resource",
    "amount",
    "continuous",
];

pub(crate) const NODE_COUNT_KEYS: [&str; 4] = ["kind", "nodes", "amount", "continuous"];

pub(crate) const OVERBOOK_KEYS: [&str; 5] = ["kind", "nodes", "resource", "num", "den"];

pub(crate) const NODES_KEYS: [&str; 2] = ["kind", "nodes"];
