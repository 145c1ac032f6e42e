//! From bytes to groups of nodes.

ghost use Rattle.std.specs.Prelude.{◌≡◌, ◌<◌, ◌+◌, [], IfOk, OnOk, codes, length, map, true};
ghost use Rattle.std.specs.List.{list_any};
ghost use Rattle.std.specs.Option.{ok_or};
ghost use Rattle.catalogue.specs.Prelude.{has_node, inventory_of, no_nodes};
ghost use Rattle.json_walk.specs.Prelude.{each, field_by, Gives, json_of, path_of, root};
ghost use Rattle.parts.specs.Groups.{AreGroups};
ghost use Rattle.partition.specs.GroupsText.{AreApart, group_step, groups_from, groups_of, IsNew, listed_node, node_step, walk};
ghost use Rattle.partition.specs.GroupsWalk.{groups_fault_of};
ghost use Rattle.partition.specs.declared.groups_fault.GroupsFault.TheVariants.{Field, NotJson};
ghost use Rattle.serde_json.specs.View.{view};

use crate::groups_fault::GroupsFault;
use catalogue::Problem;
use catalogue::limits::MAX_GROUPS;
use cluster::names::is_name_text;
use cluster::{Cluster, Element, NodeId, NodeSet};
use json_walk::{FaultKind, JsonFault, MAX_TEXT_BYTES, PathRef, read_value};
use serde_json::Value;
use std::alloc::Global;

/// The keys of groups.
pub(crate) const GROUPS_KEYS: [&str; 1] = ["groups"];

/// The listed node that has the name.
#[tactic(auto, unfolding(crate::specs::GroupsText::listed_node))]
fn node(
    alloc: Global,
    cluster: &Cluster,
    value: &Value,
    path: &PathRef,
) -> Result<NodeId, GroupsFault>
    ensures gives { Gives groups_fault_of (λ n. n) result
        (listed_node cluster.now.given (view value.now) (path_of path.now)) }
    ensures listed { IfOk result (λ n. n.0 < length cluster.now.given.nodes) }
{
    let name = json_walk::text_at(alloc, value, path)?;
    if !is_name_text(name.as_bytes()) {
        return Err(json_walk::fault_at(alloc, path, FaultKind::OutOfRange).into());
    }
    match cluster.find(name.as_bytes()) {
        Some(Element::Node(n)) => Ok(n),
        Some(Element::Vm(_)) | None => Err(GroupsFault::NoSuch(path.to_text(alloc)?)),
    }
}

/// Whether a node is in one of the groups.
fn is_in_any(groups: &[NodeSet], n: NodeId) -> bool
    ensures { result ≡ list_any (λ group. has_node group n.0) groups.now }
{
    groups.iter().any(|group| group.has(n))
}

/// One more node, which stood in no group before.
#[tactic(auto, using(crate::proofs::ApartLemmas::new_with), unfolding(crate::specs::GroupsText::node_step))]
fn push_node(
    alloc: Global,
    cluster: &Cluster,
    groups: &[NodeSet],
    path: &PathRef,
    place: u64,
    group: &mut NodeSet,
    value: &Value,
) -> Result<(), GroupsFault>
    ensures gives { Gives groups_fault_of (λ _. group.new) result
        (node_step cluster.now.given groups.now (path_of path.now) place group.old (view value.now)) }
    ensures apart { OnOk result (IsNew (length cluster.now.given.nodes) groups.now group.old → IsNew (length cluster.now.given.nodes) groups.now group.new) }
{
    let n = node(alloc, cluster, value, &path.item(place))?;
    if group.has(n) || is_in_any(groups, n) {
        return Err(GroupsFault::Twice(path.item(place).to_text(alloc)?));
    }
    group.insert(n);
    Ok(())
}

/// The nodes of one more group.
#[tactic(auto, using(json_walk::proofs::Public::loop_rules, crate::proofs::ApartLemmas::new_none))]
fn nodes_in(
    alloc: Global,
    cluster: &Cluster,
    groups: &[NodeSet],
    values: &[Value],
    path: &PathRef,
) -> Result<NodeSet, GroupsFault>
    ensures gives { Gives groups_fault_of (λ group. group) result
        (each (node_step cluster.now.given groups.now (path_of path.now)) 0 no_nodes (map view values.now)) }
    ensures apart { IfOk result (IsNew (length cluster.now.given.nodes) groups.now) }
{
    let mut group = NodeSet::new();
    for (i, value) in values.iter().enumerate() {
        push_node(alloc, cluster, groups, path, i as u64, &mut group, value)?;
    }
    Ok(group)
}

/// One more group.
#[tactic(auto, using(crate::proofs::ApartLemmas::apart_more), unfolding(crate::specs::GroupsText::group_step))]
fn push_group(
    alloc: Global,
    cluster: &Cluster,
    path: &PathRef,
    place: u64,
    groups: &mut Vec<NodeSet>,
    value: &Value,
) -> Result<(), GroupsFault>
    ensures gives { Gives groups_fault_of (λ _. groups.new.items) result
        (group_step cluster.now.given (path_of path.now) place groups.old.items (view value.now)) }
    ensures apart { OnOk result (AreApart (length cluster.now.given.nodes) groups.old.items → AreApart (length cluster.now.given.nodes) groups.new.items) }
    ensures longer { OnOk result (length groups.new.items ≡ length groups.old.items + 1) }
{
    let path = path.item(place);
    let values = json_walk::list_at(alloc, value, &path)?;
    let group = nodes_in(alloc, cluster, groups, values, &path)?;
    groups.push(group)?;
    Ok(())
}

#[tactic(auto, using(json_walk::proofs::Public::loop_rules, crate::proofs::ApartLemmas::apart_none))]
fn groups_in(
    alloc: Global,
    cluster: &Cluster,
    values: &[Value],
    path: &PathRef,
) -> Result<Vec<NodeSet>, GroupsFault>
    ensures gives { Gives groups_fault_of (λ groups. groups.items) result
        (each (group_step cluster.now.given (path_of path.now)) 0 [] (map view values.now)) }
    ensures apart { IfOk result (λ groups. AreApart (length cluster.now.given.nodes) groups.items) }
    ensures as_many { IfOk result (λ groups. length groups.items ≡ length values.now) }
{
    let mut groups = Vec::new(alloc);
    for (i, value) in values.iter().enumerate() {
        push_group(alloc, cluster, path, i as u64, &mut groups, value)?;
    }
    Ok(groups)
}

/// The groups of a list, at least one and not too many.
#[tactic(auto, unfolding(crate::specs::GroupsText::groups_from))]
fn groups(
    alloc: Global,
    cluster: &Cluster,
    value: &Value,
    path: &PathRef,
) -> Result<Vec<NodeSet>, GroupsFault>
    ensures gives { Gives groups_fault_of (λ groups. groups.items) result
        (groups_from cluster.now.given (view value.now) (path_of path.now)) }
    ensures some { IfOk result (λ groups. 0 < length groups.items) }
    ensures apart { IfOk result (λ groups. AreApart (length cluster.now.given.nodes) groups.items) }
{
    let values = json_walk::list_at(alloc, value, path)?;
    if values.is_empty() {
        return Err(json_walk::fault_at(alloc, path, FaultKind::OutOfRange).into());
    }
    if values.len() > MAX_GROUPS {
        return Err(GroupsFault::Limit(path.to_text(alloc)?));
    }
    groups_in(alloc, cluster, values, path)
}

/// The member `groups`.
fn groups_field(
    alloc: Global,
    cluster: &Cluster,
    value: &Value,
) -> Result<Vec<NodeSet>, GroupsFault>
    ensures gives { Gives groups_fault_of (λ groups. groups.items) result
        (field_by Field (groups_from cluster.now.given) (view value.now) root (codes "groups")) }
    ensures some { IfOk result (λ groups. 0 < length groups.items) }
    ensures apart { IfOk result (λ groups. AreApart (length cluster.now.given.nodes) groups.items) }
{
    let list = json_walk::field_at(alloc, value, &PathRef::Root, "groups")?;
    groups(alloc, cluster, list, &PathRef::Root.key("groups"))
}

/// The groups of an object.
#[tactic(auto, unfolding(crate::specs::GroupsText::walk))]
fn walk(alloc: Global, cluster: &Cluster, value: &Value) -> Result<Vec<NodeSet>, GroupsFault>
    ensures gives { Gives groups_fault_of (λ groups. groups.items) result (walk cluster.now.given (view value.now)) }
    ensures some { IfOk result (λ groups. 0 < length groups.items) }
    ensures apart { IfOk result (λ groups. AreApart (length cluster.now.given.nodes) groups.items) }
{
    let groups = groups_field(alloc, cluster, value)?;
    json_walk::only_at(alloc, value, &PathRef::Root, &GROUPS_KEYS)?;
    Ok(groups)
}

/// The value that the bytes have.
fn value(alloc: Global, bytes: &[u8]) -> Result<Value, GroupsFault>
    ensures { Gives groups_fault_of view result (ok_or (json_of bytes.now) NotJson) }
{
    match read_value(alloc, bytes) {
        Ok(value) => Ok(value),
        Err(JsonFault::NotJson) => Err(GroupsFault::NotJson),
        Err(JsonFault::Memory) => Err(GroupsFault::Memory),
    }
}

/// The groups of nodes that bytes have for a problem.
///
/// The text is `{"groups":[[NAME, ..], ..]}`, with at least one group. The first fault is the answer: more than
/// `json_walk::MAX_TEXT_BYTES` bytes; no JSON; then, in the order of the text, the first value that is missing, of the
/// wrong kind, out of range or no listed node, a list that is too long, or a node that stood before in any group; at the
/// end another key.
#[tactic(auto, using(crate::proofs::ApartLemmas::are_groups), unfolding(crate::specs::GroupsText::groups_of))]
pub fn read_groups(alloc: Global, p: &Problem, bytes: &[u8]) -> Result<Vec<NodeSet>, GroupsFault>
    ensures gives { Gives groups_fault_of (λ groups. groups.items) result (groups_of (inventory_of p.now.given) bytes.now) }
    ensures groups { IfOk result (λ groups. AreGroups p.now.given groups.items) }
{
    if bytes.len() > MAX_TEXT_BYTES {
        return Err(GroupsFault::TooLong);
    }
    let value = value(alloc, bytes)?;
    walk(alloc, p.cluster(), &value)
}
