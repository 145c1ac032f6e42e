//! The kinds of constraints.

/// The kind of a constraint, without its fields.
#[derive(Clone, Copy, Debug, PartialEq, Eq)]
pub(crate) enum ConstraintKind {
    Spread,
    Ban,
    Fence,
    Gather,
    Lonely,
    Among,
    Split,
    Root,
    Precedence,
    Serialize,
    Preserve,
    ResourceCapacity,
    RunningCapacity,
    MaxOnline,
    Overbook,
    Online,
    Offline,
    Running,
    Sleeping,
    Ready,
    Killed,
}

/// The kinds in the order of their words.
pub(crate) const CONSTRAINT_KINDS: [ConstraintKind; 21] = [
    ConstraintKind::Spread,
    ConstraintKind::Ban,
    ConstraintKind::Fence,
    ConstraintKind::Gather,
    ConstraintKind::Lonely,
    ConstraintKind::Among,
    ConstraintKind::Split,
    ConstraintKind::Root,
    ConstraintKind::Precedence,
    ConstraintKind::Serialize,
    ConstraintKind::Preserve,
    ConstraintKind::ResourceCapacity,
    ConstraintKind::RunningCapacity,
    ConstraintKind::MaxOnline,
    ConstraintKind::Overbook,
    ConstraintKind::Online,
    ConstraintKind::Offline,
    ConstraintKind::Running,
    ConstraintKind::Sleeping,
    ConstraintKind::Ready,
    ConstraintKind::Killed,
];
