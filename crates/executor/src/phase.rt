//! How far an action has come, and why an event is refused.
use cluster::Element;
use slices::rule::Broken;

/// How far the action of an element has come; an idle element has none.
#[derive(Clone, Copy, Debug, PartialEq, Eq)]
pub enum Phase {
    None,
    Waiting,
    Running,
    Ended,
    Failed,
}

/// Why an event is refused.
#[derive(Clone, Copy, Debug, PartialEq, Eq)]
pub enum StepFault {
    /// The element does not wait: it has no action, or its action has been started before.
    Already,
    /// The action of this element has failed, or has to end first.
    NotReady(Element),
    /// The element has no action that runs.
    NotRunning,
}

/// Why there is no monitor.
#[derive(Clone, Copy, Debug, PartialEq, Eq)]
pub enum NewFault {
    /// The plan is not valid: its first broken rule.
    NotValid(Broken),
    /// An allocation was refused.
    Memory,
}
