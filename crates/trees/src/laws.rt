//! Laws of the definitions: each is the contract of a function that does nothing, and a lemma of the
//! same name in proofs/Public proves it.
ghost use Rattle.trees.specs.Prelude.{CertificatesHold, FoundIsLean, FoundIsSearched, FoundProves, LeanTreesFit, LeastHolds, LeastIsShown, PlansFoundHold, ProvedExcludes, ProvedLeaves, StayingProves};

/// A tree that proves sets, and leaves nothing, leaves no valid plan in them that costs less than
/// the one handed in, and none at all where no plan is handed in.
#[tactic(auto, using(crate::proofs::Public::proved_excludes))]
pub fn proved_excludes()
    ensures { ProvedExcludes }
{}

/// A valid plan of sets that a tree proves costs no less than the one handed in, or is in sets that
/// the tree leaves.
#[tactic(auto, using(crate::proofs::Public::proved_leaves))]
pub fn proved_leaves()
    ensures { ProvedLeaves }
{}

/// So no valid plan costs less than the least that the tree shows.
#[tactic(auto, using(crate::proofs::Public::least_holds))]
pub fn least_holds()
    ensures { LeastHolds }
{}

/// A tree shows a least exactly where it leaves sets.
#[tactic(auto, using(crate::proofs::Public::least_is_shown))]
pub fn least_is_shown()
    ensures { LeastIsShown }
{}

/// What the goal of a certificate says is so: the plan is optimal and costs so much, no plan is
/// valid, or no valid plan costs less than the least that is shown.
#[tactic(auto, using(crate::proofs::Public::certificates_hold))]
pub fn certificates_hold()
    ensures { CertificatesHold }
{}

/// A plan of a plan leaf is a valid plan of the instance, and costs no less than the one handed in.
#[tactic(auto, using(crate::proofs::Public::plans_found_hold))]
pub fn plans_found_hold()
    ensures { PlansFoundHold }
{}

/// A lean tree has no decision, or fewer than the sets that it proves hold plans; and at least two
/// fewer where it leaves some.
#[tactic(auto, using(crate::proofs::Public::lean_trees_fit))]
pub fn lean_trees_fit()
    ensures { LeanTreesFit }
{}

/// What a search found proves the sets, where the plan that it keeps costs no more than any that it
/// named.
#[tactic(auto, using(crate::proofs::Public::found_proves))]
pub fn found_proves()
    ensures { FoundProves }
{}

/// What a search found is lean.
#[tactic(auto, using(crate::proofs::Public::found_is_lean))]
pub fn found_is_lean()
    ensures { FoundIsLean }
{}

/// What a search found is searched at each step.
#[tactic(auto, using(crate::proofs::Public::found_is_searched))]
pub fn found_is_searched()
    ensures { FoundIsSearched }
{}

/// Where a plan that costs nothing is handed in, the bound alone proves any sets.
#[tactic(auto, using(crate::proofs::Public::staying_proves))]
pub fn staying_proves()
    ensures { StayingProves }
{}
