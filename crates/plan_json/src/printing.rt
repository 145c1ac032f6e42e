//! From a plan to its text.

ghost use Rattle.std.specs.Prelude.{◌≡◌, ◌++◌, IfOk, IfSome, OnOk};
ghost use Rattle.std.specs.Option.{option_copied};
ghost use Rattle.plan_json.specs.Prelude.{action_data, actions_data, choice_data, IsElement, IsPlanOf, items, name_data, plan_data, plan_of, plan_text, word_at};
ghost use Rattle.serde_json.specs.View.{view};

use crate::names::name;
use base::Memory;
use catalogue::Problem;
use cluster::{Choice, Element, Instant, Place};
use json_text::{ListOut, ObjectOut, number, print, word};
use serde_json::Value;
use slices::Plan;
use slices::actions::kind_of;
use std::alloc::Global;

/// The name of an element.
fn name_value(alloc: Global, p: &Problem, e: Element) -> Result<Value, Memory>
    ensures { IfOk result (λ v. view v ≡ name_data p.now.given e) }
{
    word(alloc, name(p.cluster(), e))
}

/// The word of the kind that an element takes at a place.
fn word_at(p: &Problem, e: Element, place: Place) -> &'static str
    requires { IsElement p.now.given e }
    ensures { result.now ≡ word_at p.now.given e place }
{
    match kind_of(p, e, place) {
        Some(kind) => kind.word(),
        None => "",
    }
}

/// An action as an object.
#[tactic(auto, unfolding(crate::specs::Print::action_data))]
fn action_value(
    alloc: Global,
    p: &Problem,
    e: Element,
    place: Place,
    start: Instant,
) -> Result<Value, Memory>
    requires { IsElement p.now.given e }
    ensures { IfOk result (λ v. view v ≡ action_data p.now.given e place start) }
{
    let mut object = ObjectOut::new(alloc);
    object.put("element", name_value(alloc, p, e)?)?;
    object.put("kind", word(alloc, word_at(p, e, place))?)?;
    if let Place::At(n) = place {
        object.put("place", name_value(alloc, p, Element::Node(n))?)?;
    }
    object.put("start", number(u64::from(start)))?;
    Ok(object.finish())
}

/// One more action, if the element's choice is one.
fn push_choice(
    alloc: Global,
    p: &Problem,
    e: Element,
    choice: Choice,
    list: &mut ListOut,
) -> Result<(), Memory>
    requires { IsElement p.now.given e }
    ensures { OnOk result (items list.new ≡ items list.old ++ choice_data p.now.given e choice) }
{
    match choice {
        Choice::Idle => Ok(()),
        Choice::Act { place, start } => list.push(action_value(alloc, p, e, place, start)?),
    }
}

/// All actions in the order of the elements.
#[tactic(auto, using(base::proofs::Ranges::pieces_more), unfolding(crate::specs::Print::actions_data))]
fn actions_list(alloc: Global, p: &Problem, plan: &Plan) -> Result<ListOut, Memory>
    requires { IsPlanOf p.now.given plan.now }
    ensures { IfOk result (λ list. items list ≡ actions_data p.now.given plan.now) }
{
    let mut list = ListOut::new(alloc);
    for x in 0..p.cluster().element_count() {
        let e = p.cluster().element(x);
        push_choice(alloc, p, e, plan.choice(e), &mut list)?;
    }
    Ok(list)
}

/// A plan as an object, and no plan as `null`.
#[tactic(auto, unfolding(crate::specs::Print::plan_data))]
fn plan_value(alloc: Global, p: &Problem, plan: Option<&Plan>) -> Result<Value, Memory>
    requires { IfSome plan (λ plan. IsPlanOf p.now.given plan.now) }
    ensures { IfOk result (λ v. view v ≡ plan_data p.now.given (option_copied plan.entry)) }
{
    let Some(plan) = plan else {
        return Ok(Value::Null);
    };
    let mut object = ObjectOut::new(alloc);
    object.put("actions", actions_list(alloc, p, plan)?.finish())?;
    Ok(object.finish())
}

/// The text of a plan: compact JSON and a newline, the actions in the order of their elements;
/// `null` where there is no plan.
///
/// The bytes read back to the plan.
#[tactic(auto, using(crate::proofs::Printed::plain_plan), unfolding(crate::specs::Print::plan_text))]
pub fn print_plan(alloc: Global, p: &Problem, plan: Option<&Plan>) -> Result<Vec<u8>, Memory>
    requires { IfSome plan (λ plan. IsPlanOf p.now.given plan.now) }
    ensures text { IfOk result (λ b. b.items ≡ plan_text p.now.given (option_copied plan.entry)) }
    ensures reads_back { IfOk result (λ b. plan_of p.now.given b.items ≡ Ok (option_copied plan.entry)) }
{
    let value = plan_value(alloc, p, plan)?;
    Ok(print(alloc, &value)?)
}
