//! What hinders an action from starting, and which one may start.
ghost use Rattle.std.specs.Prelude.{◌≡◌, ◌↔◌, length, IsSome, IsTrue, MatchOption};
ghost use Rattle.executor.specs.Prelude.{AllEnded, AreTimes, choices_of, Element as AnElement, element_count, inventory_of, IsAtTheEnd, IsElement, IsExecution, IsFirst, IsHindrance, IsIdle, IsPlanOf, MayStart, phases_in};
ghost use Rattle.executor.specs.declared.phase.Phase.TheVariants as Phase;

use crate::phase::Phase;
use crate::phases::{all_ended, first_failed};
use crate::times::{Times, first_open, first_ready};
use catalogue::Problem;
use cluster::Element;
use slices::Plan;

/// What hinders an action that waits: the first one that has failed, or else the first one that it
/// waits for and that has not ended.
pub(crate) fn hindrance(
    p: &Problem,
    plan: &Plan,
    times: &[Option<Times>],
    phases: &[Phase],
    e: Element,
) -> Option<Element>
    requires plan { IsPlanOf p.now.given plan.now }
    requires times { AreTimes p.now.given (choices_of plan.now) times.now }
    requires rows { length phases.now ≡ element_count (inventory_of p.now.given) }
    requires element { IsElement p.now.given e }
    requires waiting { phases_in p.now.given phases.now e ≡ Phase.Waiting }
    ensures { MatchOption result (MayStart p.now.given (choices_of plan.now) (phases_in p.now.given phases.now) e) (IsHindrance p.now.given (choices_of plan.now) (phases_in p.now.given phases.now) e) }
{
    if let Some(x) = first_failed(phases) {
        return Some(p.cluster().element(x));
    }
    match first_open(times, phases, p.cluster().number(e)) {
        Some(x) => Some(p.cluster().element(x)),
        None => None,
    }
}

/// The first action that may start.
pub(crate) fn first_that_may_start(
    p: &Problem,
    plan: &Plan,
    times: &[Option<Times>],
    phases: &[Phase],
) -> Option<Element>
    requires plan { IsPlanOf p.now.given plan.now }
    requires times { AreTimes p.now.given (choices_of plan.now) times.now }
    requires rows { length phases.now ≡ element_count (inventory_of p.now.given) }
    requires execution { IsExecution p.now.given (choices_of plan.now) (phases_in p.now.given phases.now) }
    ensures first { MatchOption result ((e : AnElement) → ¬ MayStart p.now.given (choices_of plan.now) (phases_in p.now.given phases.now) e) (IsFirst p.now.given (MayStart p.now.given (choices_of plan.now) (phases_in p.now.given phases.now))) }
    ensures goes_on { IsIdle (phases_in p.now.given phases.now) → IsSome result }
{
    if let Some(_) = first_failed(phases) {
        return None;
    }
    match first_ready(times, phases) {
        Some(x) => Some(p.cluster().element(x)),
        None => None,
    }
}

/// Whether all actions have ended; then all is where the plan has it at the horizon.
pub(crate) fn is_finished(p: &Problem, plan: &Plan, phases: &[Phase]) -> bool
    requires plan { IsPlanOf p.now.given plan.now }
    requires rows { length phases.now ≡ element_count (inventory_of p.now.given) }
    requires execution { IsExecution p.now.given (choices_of plan.now) (phases_in p.now.given phases.now) }
    ensures ended { IsTrue result ↔ AllEnded (phases_in p.now.given phases.now) }
    ensures planned { IsTrue result → IsAtTheEnd p.now.given (choices_of plan.now) (phases_in p.now.given phases.now) }
{
    all_ended(phases)
}
