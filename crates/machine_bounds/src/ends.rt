//! When nodes are given up, and the first of them at which a machine may start before.
ghost use Rattle.std.specs.Prelude.{◌≡◌, ℕ, ◌<◌, ◌/◌, ◌%◌, ◌⊎◌, slice_index_or, IfNone, IfSome};
ghost use Rattle.std.specs.Int.{bit_at};
ghost use Rattle.machine_bounds.specs.Prelude.{AreEnds, AreEnough, HaveBits, IsKnown};

use crate::gone::{BOUND_WORDS, BOUNDS, Gone, NODE_WORDS};
use cluster::limits::MAX_NODES;
use cluster::{Instant, VmId};

/// When each node is given up, and of those that are given up after an instant what is asked of machines.
#[derive(Clone, Copy)]
pub struct Ends {
    /// When each node is given up.
    pub until: [u64; MAX_NODES],
    /// One more than the last of those nodes, or 0.
    pub past: usize,
    /// The bits of those nodes.
    pub nodes: [u64; NODE_WORDS],
    /// The bits of the bounds that are no earlier than their nodes are given up.
    pub enough: [u64; BOUND_WORDS],
}

// one more than the last node that is given up after an instant, or 0
fn past_of(until: &[u64; MAX_NODES], from: Instant) -> usize
    ensures { (n : ℕ) → from < slice_index_or until.now n 0 → n < result }
{
    let mut past = 0;
    for n in 0..MAX_NODES {
        if until[n] > u64::from(from) {
            past = n + 1;
        }
    }
    past
}

// the bits of the nodes that are given up after an instant
fn nodes_of(until: &[u64; MAX_NODES], from: Instant) -> [u64; NODE_WORDS]
    ensures { HaveBits until.now from result }
{
    let mut nodes = [0; NODE_WORDS];
    for n in 0..MAX_NODES {
        if until[n] > u64::from(from) {
            nodes[n / 64] |= 1 << (n % 64);
        }
    }
    nodes
}

// the bits of the bounds that are no earlier than their nodes are given up
fn enough_of(until: &[u64; MAX_NODES], bounds: &[u64; BOUNDS]) -> [u64; BOUND_WORDS]
    ensures { AreEnough until.now bounds.now result }
{
    let mut enough = [0; BOUND_WORDS];
    for i in 0..BOUNDS {
        if until[i % MAX_NODES] <= bounds[i] {
            enough[i / 64] |= 1 << (i % 64);
        }
    }
    enough
}

impl Ends {
    /// When each node is given up, beside the bounds that are kept of machines.
    pub fn new(until: [u64; MAX_NODES], from: Instant, gone: &Gone) -> Ends
        ensures until { result.until ≡ until }
        ensures ends { AreEnds from result }
        ensures enough { AreEnough until gone.now.bounds result.enough }
    {
        Ends {
            past: past_of(&until, from),
            nodes: nodes_of(&until, from),
            enough: enough_of(&until, gone.bounds()),
            until,
        }
    }
}

// of 64 nodes those that are wanted and neither of two words has
#[tactic(auto, using(crate::proofs::EndLemmas::bit_known))]
fn unknown_of(wanted: u64, first: u64, second: u64) -> u64
    ensures { (i : ℕ) → i < 64 → bit_at result i ≡ 0 → bit_at wanted i ≡ 1 → (bit_at first i ≡ 1) ⊎ (bit_at second i ≡ 1) }
{
    wanted & !(first | second)
}

// the place of the first bit of a word
#[tactic(auto, using(crate::proofs::EndLemmas::first_set))]
fn first_bit(word: u64) -> u32
    requires { 0 < word }
    ensures within { result < 64 }
    ensures before { (i : ℕ) → i < result → bit_at word i ≡ 0 }
{
    word.trailing_zeros()
}

/// The first of the nodes that are given up after an instant at which a machine is not known to start no sooner, told by
/// bits.
pub fn first_unknown(gone: &Gone, w: VmId, ends: &Ends) -> Option<usize>
    ensures none { IfNone result ((n : ℕ) → bit_at (slice_index_or ends.now.nodes (n / 64) 0) (n % 64) ≡ 1 → IsKnown gone.now.words.top ends.now.enough w.0 n) }
    ensures some { IfSome result (λ k. (n : ℕ) → n < k → bit_at (slice_index_or ends.now.nodes (n / 64) 0) (n % 64) ≡ 1 → IsKnown gone.now.words.top ends.now.enough w.0 n) }
{
    let words = gone.words();
    let from = w.0 as usize * BOUND_WORDS;
    if words.len() < from + BOUND_WORDS {
        return Some(0);
    }
    for k in 0..NODE_WORDS {
        let first = words[from + k] & ends.enough[k];
        let second = words[from + NODE_WORDS + k] & ends.enough[NODE_WORDS + k];
        let unknown = unknown_of(ends.nodes[k], first, second);
        if unknown != 0 {
            return Some(64 * k + first_bit(unknown) as usize);
        }
    }
    None
}
