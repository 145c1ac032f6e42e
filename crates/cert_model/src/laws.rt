//! A law of the definitions: the contract of a function that does nothing.
ghost use Rattle.cert_model.specs.Laws.{ProofsHold};

/// Where the steps of a walk are those of a tree for the plan that was handed in, or for none, what
/// the goal that they show says is so: the plan is optimal and costs so much, no plan is valid, or no
/// valid plan costs less than the least that is shown.
#[tactic(auto, using(crate::proofs::Public::proofs_hold))]
pub fn proofs_hold()
    ensures { ProofsHold }
{}
