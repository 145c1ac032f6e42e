//! Choices: what a plan does with an element.
use crate::ids::NodeId;

/// Where an action takes its element: to a node, or to none, as a shutdown does.
#[derive(Clone, Copy, Debug, PartialEq, Eq)]
pub enum Place {
    Nowhere,
    At(NodeId),
}

/// A whole point in time, from 0, the present, to the horizon of a problem.
pub type Instant = u32;

/// What a plan does with an element: nothing, or one action with a place and a start.
#[derive(Clone, Copy, Debug, PartialEq, Eq)]
pub enum Choice {
    Idle,
    Act { place: Place, start: Instant },
}
