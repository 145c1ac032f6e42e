//! Lists of machines and of nodes, and lists of such lists.

ghost use Rattle.std.specs.Prelude.{◌≡◌, ◌<◌, ◌+◌, [], IfOk, OnOk, codes, length, map, nat_lt, nat_le, true};
ghost use Rattle.std.specs.List.{list_all};
ghost use Rattle.instance_json.specs.Prelude.{all_of, are_machines, are_nodes, differ, each, Field, field_by, Gives, group_step, groups_from, instance_fault_of, machine_item, machine_list, machines_after, max_groups, max_parts, no_nodes, node_item, node_set, part_step, parts_from, path_of};
ghost use Rattle.serde_json.specs.View.{view};

use crate::fault::InstanceFault;
use crate::listing::Listing;
use crate::names;
use catalogue::Vms;
use catalogue::limits::{MAX_GROUPS, MAX_PARTS};
use catalogue::lists::{Groups, Parts};
use cluster::{Cluster, NodeSet};
use json_walk::{FaultKind, PathRef};
use serde_json::Value;
use std::alloc::Global;

// ---- machines

#[tactic(auto, using(crate::proofs::ListLemmas::list_all_more), unfolding(crate::specs::Lists::machine_item))]
fn push_machine(
    alloc: Global,
    cluster: &Cluster,
    path: &PathRef,
    place: u64,
    listing: &mut Listing,
    value: &Value,
) -> Result<(), InstanceFault>
    ensures gives { Gives instance_fault_of (λ _. listing.new.current) result
        (machine_item cluster.now.given (all_of listing.old.before) (path_of path.now) place listing.old.current (view value.now)) }
    ensures before { OnOk result (listing.new.before ≡ listing.old.before) }
    ensures listed { OnOk result (are_machines cluster.now.given listing.old.current ≡ true → are_machines cluster.now.given listing.new.current ≡ true) }
{
    let v = names::machine(alloc, cluster, value, &path.item(place))?;
    if listing.has(v) {
        return Err(InstanceFault::Twice(path.item(place).to_text(alloc)?));
    }
    listing.push(v)?;
    Ok(())
}

#[tactic(auto, using(json_walk::proofs::Public::loop_rules))]
fn machines_from(
    alloc: Global,
    cluster: &Cluster,
    listing: &mut Listing,
    values: &[Value],
    path: &PathRef,
) -> Result<(), InstanceFault>
    requires { listing.old.current ≡ [] }
    ensures gives { Gives instance_fault_of (λ _. listing.new.current) result
        (each (machine_item cluster.now.given (all_of listing.old.before) (path_of path.now)) 0 [] (map view values.now)) }
    ensures before { OnOk result (listing.new.before ≡ listing.old.before) }
    ensures listed { OnOk result (are_machines cluster.now.given listing.new.current ≡ true) }
{
    for (i, value) in values.iter().enumerate() {
        push_machine(alloc, cluster, path, i as u64, listing, value)?;
    }
    Ok(())
}

/// A list of machines that differ, also from those of the lists before.
#[tactic(auto, unfolding(crate::specs::Lists::machines_after))]
fn read_list(
    alloc: Global,
    cluster: &Cluster,
    listing: &mut Listing,
    value: &Value,
    path: &PathRef,
) -> Result<(), InstanceFault>
    requires { listing.old.current ≡ [] }
    ensures gives { Gives instance_fault_of (λ _. listing.new.current) result
        (machines_after cluster.now.given (all_of listing.old.before) (view value.now) (path_of path.now)) }
    ensures before { OnOk result (listing.new.before ≡ listing.old.before) }
    ensures listed { OnOk result (are_machines cluster.now.given listing.new.current ≡ true) }
{
    let values = json_walk::list_at(alloc, value, path)?;
    machines_from(alloc, cluster, listing, values, path)
}

/// The member `machines`, a list of machines that differ.
pub(crate) fn machines_at(
    alloc: Global,
    cluster: &Cluster,
    value: &Value,
    path: &PathRef,
) -> Result<Vms, InstanceFault>
    ensures gives { Gives instance_fault_of (λ vs. vs) result
        (field_by Field (machine_list cluster.now.given) (view value.now) (path_of path.now) (codes "machines")) }
    ensures listed { IfOk result (λ vs. are_machines cluster.now.given vs ≡ true) }
    ensures apart { IfOk result (λ vs. differ vs ≡ true) }
{
    let found = json_walk::field_at(alloc, value, path, "machines")?;
    let mut listing = Listing::new(alloc);
    read_list(alloc, cluster, &mut listing, found, &path.key("machines"))?;
    Ok(listing.into_list())
}

#[tactic(auto, using(crate::proofs::ListLemmas::part_rules), unfolding(crate::specs::Lists::part_step))]
fn push_part(
    alloc: Global,
    cluster: &Cluster,
    path: &PathRef,
    place: u64,
    listing: &mut Listing,
    value: &Value,
) -> Result<(), InstanceFault>
    requires { listing.old.current ≡ [] }
    ensures gives { Gives instance_fault_of (λ _. listing.new.before) result
        (part_step cluster.now.given (path_of path.now) place listing.old.before (view value.now)) }
    ensures ended { OnOk result (listing.new.current ≡ []) }
    ensures listed { OnOk result (are_machines cluster.now.given (all_of listing.old.before) ≡ true → are_machines cluster.now.given (all_of listing.new.before) ≡ true) }
    ensures longer { OnOk result (length listing.new.before ≡ length listing.old.before + 1) }
{
    read_list(alloc, cluster, listing, value, &path.item(place))?;
    listing.close()?;
    Ok(())
}

#[tactic(auto, using(json_walk::proofs::Public::loop_rules))]
fn parts_from(
    alloc: Global,
    cluster: &Cluster,
    values: &[Value],
    path: &PathRef,
) -> Result<Listing, InstanceFault>
    ensures gives { Gives instance_fault_of (λ l. l.before) result
        (each (part_step cluster.now.given (path_of path.now)) 0 [] (map view values.now)) }
    ensures ended { IfOk result (λ l. l.current ≡ []) }
    ensures listed { IfOk result (λ l. are_machines cluster.now.given (all_of l.before) ≡ true) }
    ensures as_many { IfOk result (λ l. length l.before ≡ length values.now) }
{
    let mut listing = Listing::new(alloc);
    for (i, value) in values.iter().enumerate() {
        push_part(alloc, cluster, path, i as u64, &mut listing, value)?;
    }
    Ok(listing)
}

#[tactic(auto, unfolding(crate::specs::Lists::parts_from))]
fn parts(
    alloc: Global,
    cluster: &Cluster,
    value: &Value,
    path: &PathRef,
) -> Result<Parts, InstanceFault>
    ensures gives { Gives instance_fault_of (λ ps. ps) result
        (parts_from cluster.now.given (view value.now) (path_of path.now)) }
    ensures listed { IfOk result (λ ps. are_machines cluster.now.given (all_of ps) ≡ true) }
    ensures apart { IfOk result (λ ps. differ (all_of ps) ≡ true) }
    ensures few { IfOk result (λ ps. nat_le (length ps) max_parts ≡ true) }
{
    let values = json_walk::list_at(alloc, value, path)?;
    if values.len() > MAX_PARTS {
        return Err(InstanceFault::Limit(path.to_text(alloc)?));
    }
    let listing = parts_from(alloc, cluster, values, path)?;
    Ok(listing.into_parts())
}

/// The member `parts`, lists of machines that differ over all lists.
pub(crate) fn parts_at(
    alloc: Global,
    cluster: &Cluster,
    value: &Value,
    path: &PathRef,
) -> Result<Parts, InstanceFault>
    ensures gives { Gives instance_fault_of (λ ps. ps) result
        (field_by Field (parts_from cluster.now.given) (view value.now) (path_of path.now) (codes "parts")) }
    ensures listed { IfOk result (λ ps. are_machines cluster.now.given (all_of ps) ≡ true) }
    ensures apart { IfOk result (λ ps. differ (all_of ps) ≡ true) }
    ensures few { IfOk result (λ ps. nat_le (length ps) max_parts ≡ true) }
{
    let found = json_walk::field_at(alloc, value, path, "parts")?;
    parts(alloc, cluster, found, &path.key("parts"))
}

// ---- nodes

#[tactic(auto, using(crate::proofs::ListLemmas::set_rules), unfolding(crate::specs::Lists::node_item))]
fn push_node(
    alloc: Global,
    cluster: &Cluster,
    path: &PathRef,
    place: u64,
    set: &mut NodeSet,
    value: &Value,
) -> Result<(), InstanceFault>
    ensures gives { Gives instance_fault_of (λ _. set.new) result
        (node_item cluster.now.given (path_of path.now) place set.old (view value.now)) }
    ensures listed { OnOk result (are_nodes cluster.now.given set.old ≡ true → are_nodes cluster.now.given set.new ≡ true) }
{
    let n = names::node(alloc, cluster, value, &path.item(place))?;
    if set.has(n) {
        return Err(InstanceFault::Twice(path.item(place).to_text(alloc)?));
    }
    set.insert(n);
    Ok(())
}

#[tactic(auto, using(json_walk::proofs::Public::loop_rules, crate::proofs::ListLemmas::set_rules))]
fn nodes_from(
    alloc: Global,
    cluster: &Cluster,
    values: &[Value],
    path: &PathRef,
) -> Result<NodeSet, InstanceFault>
    ensures gives { Gives instance_fault_of (λ s. s) result
        (each (node_item cluster.now.given (path_of path.now)) 0 no_nodes (map view values.now)) }
    ensures listed { IfOk result (λ s. are_nodes cluster.now.given s ≡ true) }
{
    let mut set = NodeSet::new();
    for (i, value) in values.iter().enumerate() {
        push_node(alloc, cluster, path, i as u64, &mut set, value)?;
    }
    Ok(set)
}

/// A list of nodes that differ.
#[tactic(auto, unfolding(crate::specs::Lists::node_set))]
fn nodes(
    alloc: Global,
    cluster: &Cluster,
    value: &Value,
    path: &PathRef,
) -> Result<NodeSet, InstanceFault>
    ensures gives { Gives instance_fault_of (λ s. s) result
        (node_set cluster.now.given (view value.now) (path_of path.now)) }
    ensures listed { IfOk result (λ s. are_nodes cluster.now.given s ≡ true) }
{
    let values = json_walk::list_at(alloc, value, path)?;
    let set = nodes_from(alloc, cluster, values, path)?;
    Ok(set)
}

/// The member `nodes`, a list of nodes that differ.
pub(crate) fn nodes_at(
    alloc: Global,
    cluster: &Cluster,
    value: &Value,
    path: &PathRef,
) -> Result<NodeSet, InstanceFault>
    ensures gives { Gives instance_fault_of (λ s. s) result
        (field_by Field (node_set cluster.now.given) (view value.now) (path_of path.now) (codes "nodes")) }
    ensures listed { IfOk result (λ s. are_nodes cluster.now.given s ≡ true) }
{
    let found = json_walk::field_at(alloc, value, path, "nodes")?;
    nodes(alloc, cluster, found, &path.key("nodes"))
}

#[tactic(auto, using(crate::proofs::ListLemmas::list_all_more), unfolding(crate::specs::Lists::group_step))]
fn push_group(
    alloc: Global,
    cluster: &Cluster,
    path: &PathRef,
    place: u64,
    groups: &mut Vec<NodeSet>,
    value: &Value,
) -> Result<(), InstanceFault>
    ensures gives { Gives instance_fault_of (λ _. groups.new.items) result
        (group_step cluster.now.given (path_of path.now) place groups.old.items (view value.now)) }
    ensures listed { OnOk result (list_all (are_nodes cluster.now.given) groups.old.items ≡ true → list_all (are_nodes cluster.now.given) groups.new.items ≡ true) }
    ensures longer { OnOk result (length groups.new.items ≡ length groups.old.items + 1) }
{
    let group = nodes(alloc, cluster, value, &path.item(place))?;
    groups.push(group)?;
    Ok(())
}

#[tactic(auto, using(json_walk::proofs::Public::loop_rules))]
fn groups_from(
    alloc: Global,
    cluster: &Cluster,
    values: &[Value],
    path: &PathRef,
) -> Result<Vec<NodeSet>, InstanceFault>
    ensures gives { Gives instance_fault_of (λ gs. gs.items) result
        (each (group_step cluster.now.given (path_of path.now)) 0 [] (map view values.now)) }
    ensures listed { IfOk result (λ gs. list_all (are_nodes cluster.now.given) gs.items ≡ true) }
    ensures as_many { IfOk result (λ gs. length gs.items ≡ length values.now) }
{
    let mut groups = Vec::new(alloc);
    for (i, value) in values.iter().enumerate() {
        push_group(alloc, cluster, path, i as u64, &mut groups, value)?;
    }
    Ok(groups)
}

#[tactic(auto, unfolding(crate::specs::Lists::groups_from))]
fn groups(
    alloc: Global,
    cluster: &Cluster,
    value: &Value,
    path: &PathRef,
) -> Result<Groups, InstanceFault>
    ensures gives { Gives instance_fault_of (λ gs. gs) result
        (groups_from cluster.now.given (view value.now) (path_of path.now)) }
    ensures listed { IfOk result (λ gs. list_all (are_nodes cluster.now.given) gs ≡ true) }
    ensures some { IfOk result (λ gs. nat_lt 0 (length gs) ≡ true) }
    ensures few { IfOk result (λ gs. nat_le (length gs) max_groups ≡ true) }
{
    let values = json_walk::list_at(alloc, value, path)?;
    if values.is_empty() {
        return Err(json_walk::fault_at(alloc, path, FaultKind::OutOfRange).into());
    }
    if values.len() > MAX_GROUPS {
        return Err(InstanceFault::Limit(path.to_text(alloc)?));
    }
    let groups = groups_from(alloc, cluster, values, path)?;
    Ok(Groups::new(groups))
}

/// The member `groups`, lists of nodes.
pub(crate) fn groups_at(
    alloc: Global,
    cluster: &Cluster,
    value: &Value,
    path: &PathRef,
) -> Result<Groups, InstanceFault>
    ensures gives { Gives instance_fault_of (λ gs. gs) result
        (field_by Field (groups_from cluster.now.given) (view value.now) (path_of path.now) (codes "groups")) }
    ensures listed { IfOk result (λ gs. list_all (are_nodes cluster.now.given) gs ≡ true) }
    ensures some { IfOk result (λ gs. nat_lt 0 (length gs) ≡ true) }
    ensures few { IfOk result (λ gs. nat_le (length gs) max_groups ≡ true) }
{
    let found = json_walk::field_at(alloc, value, path, "groups")?;
    groups(alloc, cluster, found, &path.key("groups"))
}
