//! Rows of starts, parts of an element's choices, and changes by them.
use cluster::{Element, Instant, Place};

/// The starts from `lo` to `hi` at one place.
#[derive(Clone, Copy, Debug, PartialEq, Eq)]
pub struct Row {
    pub place: Place,
    pub lo: Instant,
    pub hi: Instant,
}

/// The start 0 at no node, which fills places of memory that no row is in yet.
impl Default for Row {
    fn default() -> Row {
        Row {
            place: Place::Nowhere,
            lo: 0,
            hi: 0,
        }
    }
}

/// A part of an element's choices.
#[derive(Clone, Copy, Debug, PartialEq, Eq)]
pub enum Part {
    /// Idle alone.
    Idle,
    /// The starts at a place up to an instant, which is one of them.
    Upto(Place, Instant),
    /// The starts at a place from an instant on, which is one of them.
    From(Place, Instant),
}

/// A side of a part.
#[derive(Clone, Copy, Debug, PartialEq, Eq)]
pub enum Side {
    Inside,
    Outside,
}

/// A narrowing: the element keeps its choices on one side of the part.
#[derive(Clone, Copy, Debug, PartialEq, Eq)]
pub struct Change {
    pub element: Element,
    pub part: Part,
    pub side: Side,
}
