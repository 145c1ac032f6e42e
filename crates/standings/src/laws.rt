//! Laws of the definitions: each is the contract of a function that does nothing, and a lemma of the
//! same name in proofs/Public proves it.
ghost use Rattle.standings.specs.Laws.{BeforeLaw, FewerLaw, GrowLaw, KeptLaw, LoadLaw, PresencesLaw, PresentLaw};

/// What a machine surely has on a node is a function of its two numbers.
#[tactic(auto, using(crate::proofs::LawLemmas::kept_law))]
pub fn kept_law()
    ensures { KeptLaw }
{}

/// So is whether it is surely present there.
#[tactic(auto, using(crate::proofs::LawLemmas::present_law))]
pub fn present_law()
    ensures { PresentLaw }
{}

/// The load of a node is a sum over the numbers of all machines.
#[tactic(auto, using(crate::proofs::LawLemmas::load_law))]
pub fn load_law()
    ensures { LoadLaw }
{}

/// So are the presences there.
#[tactic(auto, using(crate::proofs::LawLemmas::presences_law))]
pub fn presences_law()
    ensures { PresencesLaw }
{}

/// The sets before a change that is told are those of the region before it.
#[tactic(auto, using(crate::proofs::LawLemmas::before_law))]
pub fn before_law()
    ensures { BeforeLaw }
{}

/// By the change its element has fewer choices.
pub fn fewer_law()
    ensures { FewerLaw }
{}

/// The numbers of fewer choices say no less, where there are some.
pub fn grow_law()
    ensures { GrowLaw }
{}
