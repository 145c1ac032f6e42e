//! The words of states.

/// A state by its word, whatever its host.
#[derive(Clone, Copy, Debug, PartialEq, Eq)]
pub(crate) enum StateWord {
    Init,
    Ready,
    Running,
    Sleeping,
    Gone,
}

/// The states in the order of their words.
pub(crate) const STATES: [StateWord; 5] = [
    StateWord::Init,
    StateWord::Ready,
    StateWord::Running,
    StateWord::Sleeping,
    StateWord::Gone,
];
