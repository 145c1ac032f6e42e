//! Laws of what is left of an execution, and of events that are read: each is the contract of a function that does
//! nothing, and a lemma of the same name in proofs/Public proves it.
ghost use Rattle.repair.specs.Laws.{EndingIsOne, RestCosts, RestHosts, RestIsPlan, RestIsSound, RestIsValid};

/// The choices that are left are legal in the new problem.
#[tactic(auto, using(crate::proofs::Public::rest_is_plan))]
pub fn rest_is_plan()
    ensures { RestIsPlan }
{}

/// They are valid for it.
#[tactic(auto, using(crate::proofs::Public::rest_is_valid))]
pub fn rest_is_valid()
    ensures { RestIsValid }
{}

/// They cost the sum of the ends of what has not ended.
#[tactic(auto, using(crate::proofs::Public::rest_costs))]
pub fn rest_costs()
    ensures { RestCosts }
{}

/// Each host of the new problem is online.
#[tactic(auto, using(crate::proofs::Public::rest_hosts))]
pub fn rest_hosts()
    ensures { RestHosts }
{}

/// The new problem is sound.
#[tactic(auto, using(crate::proofs::Public::rest_is_sound))]
pub fn rest_is_sound()
    ensures { RestIsSound }
{}

/// Two endings of the reading of one text are the same.
#[tactic(auto, using(crate::proofs::Public::ending_is_one))]
pub fn ending_is_one()
    ensures { EndingIsOne }
{}
