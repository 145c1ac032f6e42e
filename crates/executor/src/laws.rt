//! Laws of executions: each is the contract of a function that does nothing, and a lemma of the same
//! name in proofs/Public proves it.
ghost use Rattle.executor.specs.Laws.{BeginsWell, StepsKeep, ExecutionsAreSafe, EveryRunIsSafe, NeverStandsStill, EndsAsPlanned, RestKeeps};

/// At first all actions wait, and so an execution begins.
#[tactic(auto, using(crate::proofs::Public::begins_well))]
pub fn begins_well()
    ensures { BeginsWell }
{}

/// Each event keeps what is so of an execution at every moment.
#[tactic(auto, using(crate::proofs::Public::steps_keep))]
pub fn steps_keep()
    ensures { StepsKeep }
{}

/// At each moment of an execution of a valid plan, no node is over a capacity, every presence and
/// image is on a usable node, and every continuous constraint holds.
#[tactic(auto, using(crate::proofs::Public::executions_are_safe))]
pub fn executions_are_safe()
    ensures { ExecutionsAreSafe }
{}

/// The same after every list of events.
#[tactic(auto, using(crate::proofs::Public::every_run_is_safe))]
pub fn every_run_is_safe()
    ensures { EveryRunIsSafe }
{}

/// Where nothing runs, nothing has failed and an action waits, an action may start.
#[tactic(auto, using(crate::proofs::Public::never_stands_still))]
pub fn never_stands_still()
    ensures { NeverStandsStill }
{}

/// When all actions have ended, all is where the plan has it at the horizon.
#[tactic(auto, using(crate::proofs::Public::ends_as_planned))]
pub fn ends_as_planned()
    ensures { EndsAsPlanned }
{}

/// What has ended counts at once, and all else goes as planned: so each rule is kept at each instant of the plan.
#[tactic(auto, using(crate::proofs::Public::rest_keeps))]
pub fn rest_keeps()
    ensures { RestKeeps }
{}
