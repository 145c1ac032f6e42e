//! A law of the definitions: the contract of a function that does nothing.
ghost use Rattle.search.specs.Laws.{TreeIsTrue};

/// An answer that a tree shows, with a whole plan if with any, is so of all plans.
#[tactic(auto, using(crate::proofs::Public::tree_is_true))]
pub fn tree_is_true()
    ensures { TreeIsTrue }
{}
