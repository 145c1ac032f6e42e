//! The actions of a plan, one after the other.

ghost use Rattle.std.specs.Prelude.{◌≡◌, [], IfOk, OnOk, map};
ghost use Rattle.plan_json.specs.Prelude.{action_step, actions_from, AreActions, as_choice, each, Gives, is_kind, is_legal_action, IsElement, path_of, plan_fault_of};
ghost use Rattle.serde_json.specs.View.{view};

use crate::fault::PlanFault;
use crate::fields::{Action, one_action};
use crate::marks::Actions;
use catalogue::Problem;
use cluster::limits::{MAX_MACHINES, MAX_NODES};
use cluster::{Choice, Kind};
use json_walk::{FaultKind, PathRef};
use serde_json::Value;
use slices::actions::{is_legal, kind_of};
use std::alloc::Global;

/// The choice that an action names.
pub(crate) fn as_choice(action: Action) -> Choice
    ensures { result ≡ as_choice action }
{
    Choice::Act {
        place: action.place,
        start: action.start,
    }
}

/// Whether a kind is that one.
fn is_kind(own: Option<Kind>, kind: Kind) -> bool
    ensures { result ≡ is_kind own kind }
{
    match own {
        None => false,
        Some(own) => own.number() == kind.number(),
    }
}

/// Whether an action has the kind that its element takes at its place, and is a legal choice of it.
fn is_legal_action(p: &Problem, action: Action) -> bool
    requires { IsElement p.now.given action.element }
    ensures { result ≡ is_legal_action p.now.given action }
{
    is_kind(kind_of(p, action.element, action.place), action.kind)
        && is_legal(p, action.element, as_choice(action))
}

/// One more action, of an element that has none.
#[tactic(auto, using(crate::proofs::MarkLemmas::reading_rules), unfolding(crate::specs::Plans::action_step))]
fn push_action(
    alloc: Global,
    p: &Problem,
    path: &PathRef,
    place: u64,
    actions: &mut Actions,
    value: &Value,
) -> Result<(), PlanFault>
    requires { AreActions p.now.given actions.old }
    ensures gives { Gives plan_fault_of (λ _. actions.new) result
        (action_step p.now.given (path_of path.now) place actions.old (view value.now)) }
    ensures legal { OnOk result (AreActions p.now.given actions.new) }
{
    let path = path.item(place);
    let action = one_action(alloc, p.cluster(), value, &path)?;
    if actions.has(action.element) {
        return Err(PlanFault::Twice(path.key("element").to_text(alloc)?));
    }
    if !is_legal_action(p, action) {
        return Err(PlanFault::NotLegal(path.to_text(alloc)?));
    }
    actions.push(action)?;
    Ok(())
}

#[tactic(auto, using(json_walk::proofs::Public::loop_rules, crate::proofs::MarkLemmas::no_actions))]
fn actions_in(
    alloc: Global,
    p: &Problem,
    values: &[Value],
    path: &PathRef,
) -> Result<Actions, PlanFault>
    ensures gives { Gives plan_fault_of (λ actions. actions) result
        (each (action_step p.now.given (path_of path.now)) 0 [] (map view values.now)) }
    ensures legal { IfOk result (AreActions p.now.given) }
{
    let mut actions = Actions::new(alloc);
    for (i, value) in values.iter().enumerate() {
        push_action(alloc, p, path, i as u64, &mut actions, value)?;
    }
    Ok(actions)
}

/// The actions of a list, of elements that differ.
#[tactic(auto, unfolding(crate::specs::Plans::actions_from))]
pub(crate) fn actions(
    alloc: Global,
    p: &Problem,
    value: &Value,
    path: &PathRef,
) -> Result<Actions, PlanFault>
    ensures gives { Gives plan_fault_of (λ actions. actions) result
        (actions_from p.now.given (view value.now) (path_of path.now)) }
    ensures legal { IfOk result (AreActions p.now.given) }
{
    let values = json_walk::list_at(alloc, value, path)?;
    if values.len() > MAX_MACHINES + MAX_NODES {
        return Err(json_walk::fault_at(alloc, path, FaultKind::OutOfRange).into());
    }
    actions_in(alloc, p, values, path)
}
