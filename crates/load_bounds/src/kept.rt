//! What is kept beside a region, as far as a node needs it.
use crate::{Fixed, Standing};
use cluster::Instant;

/// What does not change, where each machine surely stands, the machines near the node, and before when each does not
/// start there.
#[derive(Clone, Copy)]
pub struct Kept<'a> {
    pub fixed: &'a Fixed,
    pub standings: &'a [Standing],
    pub near: &'a [u32],
    pub firsts: &'a [Instant],
}
