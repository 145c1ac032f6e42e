//! What looks find.
use cluster::{Choice, Element, Instant};

/// What a look at one thing that can be broken finds in a region.
#[derive(Clone, Copy, Debug, PartialEq, Eq)]
pub enum Look {
    /// At no instant up to the horizon is it broken in the region, or with any one element set to an end
    /// of its choices: to Idle, or to the first or the last start of a row.
    Clean,
    /// It is broken in the region at the instant.
    Fail(Instant),
    /// It is broken at the instant with the element set to that end of its choices.
    Cut(Element, Choice, Instant),
}
