//! From bytes to a plan.

ghost use Rattle.std.specs.Prelude.{IfOk, IfSome, codes};
ghost use Rattle.std.specs.Option.{ok_or};
ghost use Rattle.plan_json.specs.Prelude.{actions_from, AreActions, Field, field_by, Gives, IsPlanOf, json_of, NotJson, plan_fault_of, plan_of, plan_or_none, plan_with, root, walk};
ghost use Rattle.serde_json.specs.View.{view};

use crate::actions::actions;
use crate::choosing::{choices, first_to_act};
use crate::fault::PlanFault;
use crate::fields::Action;
use crate::marks::Actions;
use catalogue::Problem;
use json_walk::{JsonFault, MAX_TEXT_BYTES, PathRef, read_value};
use serde_json::Value;
use slices::Plan;
use std::alloc::Global;

/// The keys of a plan.
pub(crate) const PLAN_KEYS: [&str; 1] = ["actions"];

/// The member `actions`.
fn actions_field(alloc: Global, p: &Problem, value: &Value) -> Result<Actions, PlanFault>
    ensures gives { Gives plan_fault_of (λ actions. actions) result
        (field_by Field (actions_from p.now.given) (view value.now) root (codes "actions")) }
    ensures legal { IfOk result (AreActions p.now.given) }
{
    let list = json_walk::field_at(alloc, value, &PathRef::Root, "actions")?;
    actions(alloc, p, list, &PathRef::Root.key("actions"))
}

/// The plan of the actions, unless an element has to act that none is of.
#[tactic(auto, unfolding(crate::specs::Plans::plan_with))]
fn plan_with(alloc: Global, p: &Problem, actions: &[Action]) -> Result<Plan, PlanFault>
    requires { AreActions p.now.given actions.now }
    ensures gives { Gives plan_fault_of (λ plan. plan) result (plan_with p.now.given actions.now) }
    ensures plan { IfOk result (IsPlanOf p.now.given) }
{
    let choices = choices(alloc, p, actions)?;
    match first_to_act(p, &choices) {
        Some(element) => Err(PlanFault::MustAct(element)),
        None => Ok(Plan::idle_or(p, choices)),
    }
}

/// The plan of an object.
#[tactic(auto, unfolding(crate::specs::Plans::walk))]
fn walk(alloc: Global, p: &Problem, value: &Value) -> Result<Plan, PlanFault>
    ensures gives { Gives plan_fault_of (λ plan. plan) result (walk p.now.given (view value.now)) }
    ensures plan { IfOk result (IsPlanOf p.now.given) }
{
    let actions = actions_field(alloc, p, value)?;
    json_walk::only_at(alloc, value, &PathRef::Root, &PLAN_KEYS)?;
    plan_with(alloc, p, actions.items())
}

/// The plan of a value, or none for `null`.
#[tactic(auto, unfolding(crate::specs::Plans::plan_or_none))]
fn plan_or_none(alloc: Global, p: &Problem, value: &Value) -> Result<Option<Plan>, PlanFault>
    ensures gives { Gives plan_fault_of (λ plan. plan) result (plan_or_none p.now.given (view value.now)) }
    ensures plan { IfOk result (λ plan. IfSome plan (IsPlanOf p.now.given)) }
{
    if value.is_null() {
        return Ok(None);
    }
    Ok(Some(walk(alloc, p, value)?))
}

/// The plan that bytes have for a problem, or none where they are `null`.
///
/// An element that no action names is idle. The first fault is the answer: more than
/// `json_walk::MAX_TEXT_BYTES` bytes; no JSON; then, in the order of the text, the first value that is missing, of the wrong
/// kind, out of range, unknown or no listed name; in each action after its own values an element
/// that was named before, then a choice that is not legal or of another kind; at the end the first
/// element in order that no action names and that may not be idle.
#[tactic(auto, unfolding(crate::specs::Plans::plan_of))]
pub fn read_plan(alloc: Global, p: &Problem, bytes: &[u8]) -> Result<Option<Plan>, PlanFault>
    ensures gives { Gives plan_fault_of (λ plan. plan) result (plan_of p.now.given bytes.now) }
    ensures plan { IfOk result (λ plan. IfSome plan (IsPlanOf p.now.given)) }
{
    if bytes.len() > MAX_TEXT_BYTES {
        return Err(PlanFault::TooLong);
    }
    let value = value(alloc, bytes)?;
    plan_or_none(alloc, p, &value)
}

/// The value that the bytes have.
fn value(alloc: Global, bytes: &[u8]) -> Result<Value, PlanFault>
    ensures { Gives plan_fault_of view result (ok_or (json_of bytes.now) NotJson) }
{
    match read_value(alloc, bytes) {
        Ok(value) => Ok(value),
        Err(JsonFault::NotJson) => Err(PlanFault::NotJson),
        Err(JsonFault::Memory) => Err(PlanFault::Memory),
    }
}
