//! What a narrowing takes away, kept so that it can be put back.
use crate::parts::Row;

/// What a cut has taken from a domain.
#[derive(Clone, Copy, Debug, PartialEq, Eq)]
pub enum Lost {
    /// Nothing: no choice was in the part.
    Nothing,
    /// Idle.
    Idle,
    /// Starts of this row, or all of them: the row as it was before.
    Row(Row),
}

/// How an element's domain from before a change is told after it, so that a cut of one row need not copy all rows.
#[derive(Clone, Copy, Debug, PartialEq, Eq)]
pub enum Before {
    /// It is the domain that was kept.
    Kept,
    /// It is the domain now, with what that has lost.
    Lost(Lost),
}
