//! Targets and wishes: what is wanted of an element at the horizon.

/// A state that is wanted at the horizon.
#[derive(Clone, Copy, Debug, PartialEq, Eq)]
pub enum Target {
    Online,
    Offline,
    Running,
    Sleeping,
    Ready,
    Killed,
}

/// What is wanted of an element.
#[derive(Clone, Copy, Debug, PartialEq, Eq)]
pub enum Wish {
    /// Nothing is said: a machine keeps its state, and a node may do either.
    Keep,
    /// One state is wanted, however often.
    To(Target),
    /// Two different states are wanted.
    Clash,
}
