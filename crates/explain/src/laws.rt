//! Laws of problems with fewer constraints: each is the contract of a function that does nothing, and a lemma of the same
//! name in proofs/Public proves it.
ghost use Rattle.explain.specs.Prelude.{FewerRules, SubOfAll};

/// With all its constraints it is the problem itself.
#[tactic(auto, using(crate::proofs::Public::sub_of_all))]
pub fn sub_of_all()
    ensures { SubOfAll }
{}

/// A valid plan stays valid, and costs the same, without a constraint that is no part of the demand, of the capacity or of
/// the legal choices.
#[tactic(auto, using(crate::proofs::Public::fewer_rules))]
pub fn fewer_rules()
    ensures { FewerRules }
{}
