//! The fields of one action.

ghost use Rattle.std.specs.Prelude.{IfOk, codes};
ghost use Rattle.plan_json.specs.Prelude.{action_from, Field, field_by, Gives, IsListed, kind_from, listed_element, listed_place, Nowhere, optional_by, path_of, plan_fault_of};
ghost use Rattle.serde_json.specs.View.{view};

use crate::fault::PlanFault;
use catalogue::limits::MAX_HORIZON;
use cluster::names::is_name_text;
use cluster::{Cluster, Element, Instant, Kind, Place};
use json_walk::{FaultKind, PathRef};
use serde_json::Value;
use std::alloc::Global;

/// An action as it is written: which element takes it, its kind, where, and from when on.
#[derive(Clone, Copy, Debug, PartialEq, Eq)]
pub(crate) struct Action {
    pub element: Element,
    pub kind: Kind,
    pub place: Place,
    pub start: Instant,
}

/// The greatest start.
const LAST_INSTANT: u64 = MAX_HORIZON as u64;

/// The keys of an action.
pub(crate) const ACTION_KEYS: [&str; 4] = ["element", "kind", "place", "start"];

/// The listed element that has the name.
#[tactic(auto, unfolding(crate::specs::Actions::listed_element))]
fn element(
    alloc: Global,
    cluster: &Cluster,
    value: &Value,
    path: &PathRef,
) -> Result<Element, PlanFault>
    ensures gives { Gives plan_fault_of (λ e. e) result
        (listed_element cluster.now.given (view value.now) (path_of path.now)) }
    ensures listed { IfOk result (IsListed cluster.now.given) }
{
    let name = json_walk::text_at(alloc, value, path)?;
    if !is_name_text(name.as_bytes()) {
        return Err(json_walk::fault_at(alloc, path, FaultKind::OutOfRange).into());
    }
    match cluster.find(name.as_bytes()) {
        Some(element) => Ok(element),
        None => Err(PlanFault::NoSuch(path.to_text(alloc)?)),
    }
}

/// The listed node that has the name.
#[tactic(auto, unfolding(crate::specs::Actions::listed_place))]
fn place(
    alloc: Global,
    cluster: &Cluster,
    value: &Value,
    path: &PathRef,
) -> Result<Place, PlanFault>
    ensures { Gives plan_fault_of (λ place. place) result
        (listed_place cluster.now.given (view value.now) (path_of path.now)) }
{
    match element(alloc, cluster, value, path)? {
        Element::Node(n) => Ok(Place::At(n)),
        Element::Vm(_) => Err(PlanFault::NoSuch(path.to_text(alloc)?)),
    }
}

/// The kind that has the word.
#[tactic(auto, unfolding(crate::specs::Actions::kind_from))]
fn kind(alloc: Global, value: &Value, path: &PathRef) -> Result<Kind, PlanFault>
    ensures { Gives plan_fault_of (λ kind. kind) result (kind_from (view value.now) (path_of path.now)) }
{
    let word = json_walk::text_at(alloc, value, path)?;
    match Kind::of_word(word) {
        Some(kind) => Ok(kind),
        None => Err(json_walk::fault_at(alloc, path, FaultKind::Unknown).into()),
    }
}

// ---- members

fn element_field(
    alloc: Global,
    cluster: &Cluster,
    value: &Value,
    path: &PathRef,
) -> Result<Element, PlanFault>
    ensures gives { Gives plan_fault_of (λ e. e) result
        (field_by Field (listed_element cluster.now.given) (view value.now) (path_of path.now) (codes "element")) }
    ensures listed { IfOk result (IsListed cluster.now.given) }
{
    let found = json_walk::field_at(alloc, value, path, "element")?;
    element(alloc, cluster, found, &path.key("element"))
}

fn kind_field(alloc: Global, value: &Value, path: &PathRef) -> Result<Kind, PlanFault>
    ensures { Gives plan_fault_of (λ kind. kind) result
        (field_by Field kind_from (view value.now) (path_of path.now) (codes "kind")) }
{
    let found = json_walk::field_at(alloc, value, path, "kind")?;
    kind(alloc, found, &path.key("kind"))
}

/// Where the action is, which may be nowhere.
#[tactic(auto, unfolding(json_walk::specs::Walk::optional))]
fn place_field(
    alloc: Global,
    cluster: &Cluster,
    value: &Value,
    path: &PathRef,
) -> Result<Place, PlanFault>
    ensures { Gives plan_fault_of (λ place. place) result
        (optional_by Nowhere (listed_place cluster.now.given) (view value.now) (path_of path.now) (codes "place")) }
{
    match value.get("place") {
        None => Ok(Place::Nowhere),
        Some(found) => place(alloc, cluster, found, &path.key("place")),
    }
}

/// One action.
#[tactic(auto, unfolding(crate::specs::Actions::action_from))]
pub(crate) fn one_action(
    alloc: Global,
    cluster: &Cluster,
    value: &Value,
    path: &PathRef,
) -> Result<Action, PlanFault>
    ensures gives { Gives plan_fault_of (λ action. action) result
        (action_from cluster.now.given (view value.now) (path_of path.now)) }
    ensures listed { IfOk result (λ action. IsListed cluster.now.given action.element) }
{
    let element = element_field(alloc, cluster, value, path)?;
    let kind = kind_field(alloc, value, path)?;
    let place = place_field(alloc, cluster, value, path)?;
    let start = json_walk::number_field(alloc, value, path, "start", 0, LAST_INSTANT)?;
    json_walk::only_at(alloc, value, path, &ACTION_KEYS)?;
    Ok(Action {
        element,
        kind,
        place,
        start: start as u32,
    })
}
