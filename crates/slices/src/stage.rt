//! Stages of actions.

/// How far an action has come: whether it has started, and whether it has ended.
#[derive(Clone, Copy, Debug, PartialEq, Eq)]
pub struct Stage {
    pub started: bool,
    pub ended: bool,
}

/// What may be so of an action at one moment: it has started; it has not ended; both, so that it
/// is under way.
#[derive(Clone, Copy, Debug, PartialEq, Eq)]
pub enum Progress {
    Started,
    Unended,
    Acting,
}

/// The stage of what has not started, and of an idle element.
pub(crate) const WAITING: Stage = Stage {
    started: false,
    ended: false,
};
