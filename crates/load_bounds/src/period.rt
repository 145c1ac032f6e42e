//! Stretches of time.
use cluster::Instant;

/// The instants from one to another, both of them among them.
#[derive(Clone, Copy, Debug, PartialEq, Eq)]
pub struct Period {
    pub from: Instant,
    pub to: Instant,
}
