//! The least instant at which a rule is broken, from 0, the starts and the horizon alone.
//!
//! Between the starts of the elements that a rule speaks of, there is only less for it to bear. So
//! these starts are gone over in order, each once, until the rule is broken.
ghost use Rattle.std.specs.Prelude.{◌≡◌, ℕ, ◌<◌, ◌≤◌, false, length, slice_get};
ghost use Rattle.judge.specs.Prelude.{choices_of, continuous_at, IsContinuous, IsLower, IsMetBefore, IsPlanOf, IsSuspect, KeepsAllAt, StandsBefore};

use crate::next::{next_start, next_that_matters};
use crate::standing::stands;
use catalogue::Problem;
use placement_rules::holds;
use slices::Plan;
use slices::form::form_of;

/// The least instant at which a load exceeds a capacity or a machine stands on a node that is not
/// usable, or one past the horizon.
fn least_standing(p: &Problem, plan: &Plan) -> u32
    requires plan { IsPlanOf p.now.given plan.now }
    ensures suspect { IsSuspect p.now.given (choices_of plan.now) result }
    ensures stands { StandsBefore p.now.given (choices_of plan.now) result }
{
    let horizon = p.horizon();
    let mut t = 0;
    while t <= horizon {
        if !stands(p, plan, t) {
            return t;
        }
        t = next_start(p, plan, t);
    }
    t
}

/// The least instant below best at which a continuous constraint does not hold, or else best.
fn least_held(p: &Problem, plan: &Plan, c: u32, best: u32) -> u32
    requires plan { IsPlanOf p.now.given plan.now }
    requires constraint { IsContinuous p.now.given c }
    requires best { IsSuspect p.now.given (choices_of plan.now) best }
    ensures lower { IsLower p.now.given (choices_of plan.now) best result }
    ensures met { IsMetBefore p.now.given (choices_of plan.now) result c }
{
    let form = form_of(&p.constraints()[c as usize]);
    let mut at = 0;
    while at < best {
        if !holds(p, c, plan, at) {
            return at;
        }
        at = next_that_matters(p, plan, &form, at);
    }
    best
}

/// The horizon, where that is below best and a constraint that applies only there does not hold, or
/// else best.
fn least_at_end(p: &Problem, plan: &Plan, c: u32, best: u32) -> u32
    requires plan { IsPlanOf p.now.given plan.now }
    requires constraint { c < length p.now.given.constraints }
    requires discrete { continuous_at (slice_get p.now.given.constraints c) ≡ false }
    requires best { IsSuspect p.now.given (choices_of plan.now) best }
    ensures lower { IsLower p.now.given (choices_of plan.now) best result }
    ensures met { IsMetBefore p.now.given (choices_of plan.now) result c }
{
    let horizon = p.horizon();
    if horizon < best && !holds(p, c, plan, horizon) {
        horizon
    } else {
        best
    }
}

/// The least instant below best at which the constraint applies and does not hold, or else best.
fn least_met(p: &Problem, plan: &Plan, c: u32, best: u32) -> u32
    requires plan { IsPlanOf p.now.given plan.now }
    requires constraint { c < length p.now.given.constraints }
    requires best { IsSuspect p.now.given (choices_of plan.now) best }
    ensures lower { IsLower p.now.given (choices_of plan.now) best result }
    ensures met { IsMetBefore p.now.given (choices_of plan.now) result c }
{
    if p.constraints()[c as usize].is_continuous() {
        least_held(p, plan, c, best)
    } else {
        least_at_end(p, plan, c, best)
    }
}

/// The least instant below best at which some constraint applies and does not hold, or else best.
fn least_of_all(p: &Problem, plan: &Plan, best: u32) -> u32
    requires plan { IsPlanOf p.now.given plan.now }
    requires best { IsSuspect p.now.given (choices_of plan.now) best }
    ensures lower { IsLower p.now.given (choices_of plan.now) best result }
    ensures met { (c : ℕ) → c < length p.now.given.constraints → IsMetBefore p.now.given (choices_of plan.now) result c }
{
    let mut least = best;
    for c in 0..p.constraints().len() {
        least = least_met(p, plan, c as u32, least);
    }
    least
}

/// The least instant at which a rule is broken, or one past the horizon.
pub(crate) fn least_broken(p: &Problem, plan: &Plan) -> u32
    requires plan { IsPlanOf p.now.given plan.now }
    ensures suspect { IsSuspect p.now.given (choices_of plan.now) result }
    ensures kept { (t : ℕ) → t < result → t ≤ p.now.given.horizon → KeepsAllAt p.now.given (choices_of plan.now) t }
{
    let standing = least_standing(p, plan);
    least_of_all(p, plan, standing)
}
