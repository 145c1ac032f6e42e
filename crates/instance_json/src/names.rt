//! Names, and what they name.

ghost use Rattle.std.specs.Prelude.{◌≡◌, ◌<◌, ◌≤◌, ◌+◌, [], length, map, true, false, IfOk, OnOk};
ghost use Rattle.std.specs.List.{list_any, position};
ghost use Rattle.std.specs.Str.{bytes_eq};
ghost use Rattle.instance_json.specs.Prelude.{are_distinct, each, Gives, instance_fault_of, is_name, is_taken, listed_machine, listed_node, listed_resource, max_resources, name_from, new_name_from, path_of, resource_step, resources_from};
ghost use Rattle.serde_json.specs.View.{view};

use crate::fault::InstanceFault;
use base::Memory;
use cluster::limits::MAX_RESOURCES;
use cluster::names::{NameFault, is_name_text};
use cluster::{Cluster, Element, Name, NodeId, VmId};
use json_walk::{FaultKind, PathRef};
use serde_json::Value;
use std::alloc::Global;

/// The text of a well-formed name.
#[tactic(auto, unfolding(crate::specs::Names::name_from))]
fn name_text<'a>(alloc: Global, value: &'a Value, path: &PathRef) -> Result<&'a str, InstanceFault>
    ensures gives { Gives instance_fault_of (λ s. s.now) result (name_from (view value.now) (path_of path.now)) }
    ensures well_formed { IfOk result (λ s. is_name s.now ≡ true) }
{
    let text = json_walk::text_at(alloc, value, path)?;
    if !is_name_text(text.as_bytes()) {
        return Err(json_walk::fault_at(alloc, path, FaultKind::OutOfRange).into());
    }
    Ok(text)
}

/// The name of a well-formed text.
fn name_of(alloc: Global, text: &str) -> Result<Name, Memory>
    requires { is_name text.now ≡ true }
    ensures { IfOk result (λ n. n ≡ text.now) }
{
    match Name::new(alloc, text.as_bytes()) {
        Ok(name) => Ok(name),
        Err(NameFault::Memory) => Err(Memory),
        Err(NameFault::BadName) => unreachable!(),
    }
}

// ---- names that are given

/// The name of one more element.
#[tactic(auto, unfolding(crate::specs::Names::new_name_from))]
pub(crate) fn new_name(
    alloc: Global,
    cluster: &Cluster,
    value: &Value,
    path: &PathRef,
) -> Result<Name, InstanceFault>
    ensures gives { Gives instance_fault_of (λ n. n) result
        (new_name_from cluster.now.given (view value.now) (path_of path.now)) }
    ensures free { IfOk result (λ n. is_taken cluster.now.given n ≡ false) }
{
    let text = name_text(alloc, value, path)?;
    if cluster.find(text.as_bytes()).is_some() {
        return Err(InstanceFault::Twice(path.to_text(alloc)?));
    }
    Ok(name_of(alloc, text)?)
}

/// Whether a text is one of the names.
pub(crate) fn is_among(name: &str, names: &[Name]) -> bool
    ensures { result ≡ list_any (bytes_eq name.now) names.now }
{
    names.iter().any(|other| name == other.as_text())
}

/// One more resource.
#[tactic(auto, using(crate::proofs::NameLemmas::distinct_more), unfolding(crate::specs::Names::resource_step))]
fn push_resource(
    alloc: Global,
    path: &PathRef,
    place: u64,
    resources: &mut Vec<Name>,
    value: &Value,
) -> Result<(), InstanceFault>
    ensures gives { Gives instance_fault_of (λ _. resources.new.items) result
        (resource_step (path_of path.now) place resources.old.items (view value.now)) }
    ensures differ { OnOk result (are_distinct resources.old.items ≡ true → are_distinct resources.new.items ≡ true) }
    ensures longer { OnOk result (length resources.new.items ≡ length resources.old.items + 1) }
{
    let text = name_text(alloc, value, &path.item(place))?;
    if is_among(text, resources) {
        return Err(InstanceFault::Twice(path.item(place).to_text(alloc)?));
    }
    let name = name_of(alloc, text)?;
    resources.push(name)?;
    Ok(())
}

#[tactic(auto, using(json_walk::proofs::Public::loop_rules))]
fn resources_in(alloc: Global, values: &[Value], path: &PathRef) -> Result<Vec<Name>, InstanceFault>
    ensures gives { Gives instance_fault_of (λ v. v.items) result
        (each (resource_step (path_of path.now)) 0 [] (map view values.now)) }
    ensures differ { IfOk result (λ v. are_distinct v.items ≡ true) }
    ensures as_many { IfOk result (λ v. length v.items ≡ length values.now) }
{
    let mut resources = Vec::new(alloc);
    for (i, value) in values.iter().enumerate() {
        push_resource(alloc, path, i as u64, &mut resources, value)?;
    }
    Ok(resources)
}

/// The names of the resources, not too many.
#[tactic(auto, unfolding(crate::specs::Names::resources_from))]
pub(crate) fn resources(
    alloc: Global,
    value: &Value,
    path: &PathRef,
) -> Result<Vec<Name>, InstanceFault>
    ensures gives { Gives instance_fault_of (λ v. v.items) result (resources_from (view value.now) (path_of path.now)) }
    ensures differ { IfOk result (λ v. are_distinct v.items ≡ true) }
    ensures few { IfOk result (λ v. length v.items ≤ max_resources) }
{
    let values = json_walk::list_at(alloc, value, path)?;
    if values.len() > MAX_RESOURCES {
        return Err(InstanceFault::Limit(path.to_text(alloc)?));
    }
    resources_in(alloc, values, path)
}

// ---- names that are used

/// The listed machine that has the name.
#[tactic(auto, unfolding(crate::specs::Names::listed_machine))]
pub(crate) fn machine(
    alloc: Global,
    cluster: &Cluster,
    value: &Value,
    path: &PathRef,
) -> Result<VmId, InstanceFault>
    ensures gives { Gives instance_fault_of (λ v. v) result
        (listed_machine cluster.now.given (view value.now) (path_of path.now)) }
    ensures listed { IfOk result (λ v. v.0 < length cluster.now.given.machines) }
{
    let text = name_text(alloc, value, path)?;
    match cluster.find(text.as_bytes()) {
        Some(Element::Vm(v)) => Ok(v),
        Some(Element::Node(_)) | None => Err(InstanceFault::NoSuch(path.to_text(alloc)?)),
    }
}

/// The listed node that has the name.
#[tactic(auto, unfolding(crate::specs::Names::listed_node))]
pub(crate) fn node(
    alloc: Global,
    cluster: &Cluster,
    value: &Value,
    path: &PathRef,
) -> Result<NodeId, InstanceFault>
    ensures gives { Gives instance_fault_of (λ n. n) result
        (listed_node cluster.now.given (view value.now) (path_of path.now)) }
    ensures listed { IfOk result (λ n. n.0 < length cluster.now.given.nodes) }
{
    let text = name_text(alloc, value, path)?;
    match cluster.find(text.as_bytes()) {
        Some(Element::Node(n)) => Ok(n),
        Some(Element::Vm(_)) | None => Err(InstanceFault::NoSuch(path.to_text(alloc)?)),
    }
}

fn place_of(name: &str, names: &[Name]) -> Option<usize>
    ensures { result ≡ position (bytes_eq name.now) names.now }
{
    names.iter().position(|other| name == other.as_text())
}

/// The place of the listed resource that has the name.
#[tactic(auto, using(crate::proofs::NameLemmas::place_below), unfolding(crate::specs::Names::listed_resource))]
pub(crate) fn resource(
    alloc: Global,
    resources: &[Name],
    value: &Value,
    path: &PathRef,
) -> Result<u8, InstanceFault>
    requires { length resources.now ≤ max_resources }
    ensures gives { Gives instance_fault_of (λ r. r) result
        (listed_resource resources.now (view value.now) (path_of path.now)) }
    ensures listed { IfOk result (λ r. r < length resources.now) }
{
    let text = name_text(alloc, value, path)?;
    match place_of(text, resources) {
        Some(place) => Ok(place as u8),
        None => Err(InstanceFault::NoSuch(path.to_text(alloc)?)),
    }
}
