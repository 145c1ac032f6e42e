//! The fields of constraints.

ghost use Rattle.std.specs.Prelude.{◌≡◌, ◌<◌, IfOk, codes, length, nat_le, true};
ghost use Rattle.instance_json.specs.Prelude.{among_from, are_machines, are_nodes, both_fields, differ, Field, field_by, flagged_machines_fields, Gives, instance_fault_of, is_resource, is_rule, listed_machine, listed_resource, machines_fields, max_amount, node_count_fields, nodes_fields, overbook_from, path_of, precedence_from, preserve_from, resource_capacity_from, split_from};
ghost use Rattle.serde_json.specs.View.{view};

use crate::fault::InstanceFault;
use crate::keys::{
    AMONG_KEYS, BOTH_KEYS, FLAGGED_MACHINES_KEYS, MACHINES_KEYS, NODE_COUNT_KEYS, NODES_KEYS,
    OVERBOOK_KEYS, PRECEDENCE_KEYS, PRESERVE_KEYS, RESOURCE_CAPACITY_KEYS, SPLIT_KEYS,
};
use crate::lists::{groups_at, machines_at, nodes_at, parts_at};
use crate::names;
use catalogue::limits::MAX_SCALE;
use catalogue::{Constraint, Vms};
use cluster::limits::MAX_AMOUNT;
use cluster::{Cluster, NodeSet, VmId};
use json_walk::PathRef;
use serde_json::Value;
use std::alloc::Global;

/// The member `resource`, which must be there.
fn resource_at(
    alloc: Global,
    cluster: &Cluster,
    value: &Value,
    path: &PathRef,
) -> Result<u8, InstanceFault>
    ensures gives { Gives instance_fault_of (λ r. r) result
        (field_by Field (listed_resource cluster.now.given.resources) (view value.now) (path_of path.now) (codes "resource")) }
    ensures listed { IfOk result (λ r. is_resource cluster.now.given r ≡ true) }
{
    let found = json_walk::field_at(alloc, value, path, "resource")?;
    names::resource(alloc, cluster.resources(), found, &path.key("resource"))
}

/// A member that is one machine, which must be there.
fn machine_at(
    alloc: Global,
    cluster: &Cluster,
    value: &Value,
    path: &PathRef,
    key: &str,
) -> Result<VmId, InstanceFault>
    ensures gives { Gives instance_fault_of (λ v. v) result
        (field_by Field (listed_machine cluster.now.given) (view value.now) (path_of path.now) key.now) }
    ensures listed { IfOk result (λ v. v.0 < length cluster.now.given.machines) }
{
    let found = json_walk::field_at(alloc, value, path, key)?;
    names::machine(alloc, cluster, found, &path.key(key))
}

/// The fields of a constraint on machines alone.
#[tactic(auto, unfolding(crate::specs::Rules::machines_fields))]
pub(crate) fn machines_fields(
    alloc: Global,
    cluster: &Cluster,
    value: &Value,
    path: &PathRef,
) -> Result<Vms, InstanceFault>
    ensures gives { Gives instance_fault_of (λ vs. vs) result
        (machines_fields cluster.now.given (view value.now) (path_of path.now)) }
    ensures listed { IfOk result (λ vs. are_machines cluster.now.given vs ≡ true) }
    ensures apart { IfOk result (λ vs. differ vs ≡ true) }
{
    let machines = machines_at(alloc, cluster, value, path)?;
    json_walk::only_at(alloc, value, path, &MACHINES_KEYS)?;
    Ok(machines)
}

/// The fields of a constraint on machines that may be continuous.
#[tactic(auto, unfolding(crate::specs::Rules::flagged_machines_fields))]
pub(crate) fn flagged_machines_fields(
    alloc: Global,
    cluster: &Cluster,
    value: &Value,
    path: &PathRef,
) -> Result<(Vms, bool), InstanceFault>
    ensures gives { Gives instance_fault_of (λ x. (x.0, x.1)) result
        (flagged_machines_fields cluster.now.given (view value.now) (path_of path.now)) }
    ensures listed { IfOk result (λ x. are_machines cluster.now.given x.0 ≡ true) }
    ensures apart { IfOk result (λ x. differ x.0 ≡ true) }
{
    let machines = machines_at(alloc, cluster, value, path)?;
    let continuous = json_walk::optional_flag(alloc, value, path, "continuous", false)?;
    json_walk::only_at(alloc, value, path, &FLAGGED_MACHINES_KEYS)?;
    Ok((machines, continuous))
}

/// The fields of a constraint on machines and nodes.
#[tactic(auto, unfolding(crate::specs::Rules::both_fields))]
pub(crate) fn both_fields(
    alloc: Global,
    cluster: &Cluster,
    value: &Value,
    path: &PathRef,
) -> Result<(Vms, NodeSet, bool), InstanceFault>
    ensures gives { Gives instance_fault_of (λ x. (x.0, x.1, x.2)) result
        (both_fields cluster.now.given (view value.now) (path_of path.now)) }
    ensures machines { IfOk result (λ x. are_machines cluster.now.given x.0 ≡ true) }
    ensures nodes { IfOk result (λ x. are_nodes cluster.now.given x.1 ≡ true) }
    ensures apart { IfOk result (λ x. differ x.0 ≡ true) }
{
    let machines = machines_at(alloc, cluster, value, path)?;
    let nodes = nodes_at(alloc, cluster, value, path)?;
    let continuous = json_walk::optional_flag(alloc, value, path, "continuous", false)?;
    json_walk::only_at(alloc, value, path, &BOTH_KEYS)?;
    Ok((machines, nodes, continuous))
}

/// A constraint `among`.
#[tactic(auto, unfolding(crate::specs::Rules::among_from))]
pub(crate) fn among(
    alloc: Global,
    cluster: &Cluster,
    value: &Value,
    path: &PathRef,
) -> Result<Constraint, InstanceFault>
    ensures gives { Gives instance_fault_of (λ c. c) result
        (among_from cluster.now.given (view value.now) (path_of path.now)) }
    ensures rule { IfOk result (λ c. is_rule cluster.now.given c ≡ true) }
{
    let machines = machines_at(alloc, cluster, value, path)?;
    let groups = groups_at(alloc, cluster, value, path)?;
    let continuous = json_walk::optional_flag(alloc, value, path, "continuous", false)?;
    json_walk::only_at(alloc, value, path, &AMONG_KEYS)?;
    Ok(Constraint::Among {
        machines,
        groups,
        continuous,
    })
}

/// A constraint `split`.
#[tactic(auto, unfolding(crate::specs::Rules::split_from))]
pub(crate) fn split(
    alloc: Global,
    cluster: &Cluster,
    value: &Value,
    path: &PathRef,
) -> Result<Constraint, InstanceFault>
    ensures gives { Gives instance_fault_of (λ c. c) result
        (split_from cluster.now.given (view value.now) (path_of path.now)) }
    ensures rule { IfOk result (λ c. is_rule cluster.now.given c ≡ true) }
{
    let parts = parts_at(alloc, cluster, value, path)?;
    let continuous = json_walk::optional_flag(alloc, value, path, "continuous", false)?;
    json_walk::only_at(alloc, value, path, &SPLIT_KEYS)?;
    Ok(Constraint::Split { parts, continuous })
}

/// A constraint `precedence`.
#[tactic(auto, unfolding(crate::specs::Rules::precedence_from))]
pub(crate) fn precedence(
    alloc: Global,
    cluster: &Cluster,
    value: &Value,
    path: &PathRef,
) -> Result<Constraint, InstanceFault>
    ensures gives { Gives instance_fault_of (λ c. c) result
        (precedence_from cluster.now.given (view value.now) (path_of path.now)) }
    ensures rule { IfOk result (λ c. is_rule cluster.now.given c ≡ true) }
{
    let before = machine_at(alloc, cluster, value, path, "before")?;
    let after = machine_at(alloc, cluster, value, path, "after")?;
    if before.0 == after.0 {
        return Err(InstanceFault::Twice(path.key("after").to_text(alloc)?));
    }
    json_walk::only_at(alloc, value, path, &PRECEDENCE_KEYS)?;
    Ok(Constraint::Precedence { before, after })
}

/// A constraint `preserve`.
#[tactic(auto, unfolding(crate::specs::Rules::preserve_from))]
pub(crate) fn preserve(
    alloc: Global,
    cluster: &Cluster,
    value: &Value,
    path: &PathRef,
) -> Result<Constraint, InstanceFault>
    ensures gives { Gives instance_fault_of (λ c. c) result
        (preserve_from cluster.now.given (view value.now) (path_of path.now)) }
    ensures rule { IfOk result (λ c. is_rule cluster.now.given c ≡ true) }
{
    let machines = machines_at(alloc, cluster, value, path)?;
    let resource = resource_at(alloc, cluster, value, path)?;
    let amount = json_walk::number_field(alloc, value, path, "amount", 0, MAX_AMOUNT)?;
    json_walk::only_at(alloc, value, path, &PRESERVE_KEYS)?;
    Ok(Constraint::Preserve {
        machines,
        resource,
        amount,
    })
}

/// A constraint `resourceCapacity`.
#[tactic(auto, unfolding(crate::specs::Rules::resource_capacity_from))]
pub(crate) fn resource_capacity(
    alloc: Global,
    cluster: &Cluster,
    value: &Value,
    path: &PathRef,
) -> Result<Constraint, InstanceFault>
    ensures gives { Gives instance_fault_of (λ c. c) result
        (resource_capacity_from cluster.now.given (view value.now) (path_of path.now)) }
    ensures rule { IfOk result (λ c. is_rule cluster.now.given c ≡ true) }
{
    let nodes = nodes_at(alloc, cluster, value, path)?;
    let resource = resource_at(alloc, cluster, value, path)?;
    let amount = json_walk::number_field(alloc, value, path, "amount", 0, MAX_AMOUNT)?;
    let continuous = json_walk::optional_flag(alloc, value, path, "continuous", false)?;
    json_walk::only_at(alloc, value, path, &RESOURCE_CAPACITY_KEYS)?;
    Ok(Constraint::ResourceCapacity {
        nodes,
        resource,
        amount,
        continuous,
    })
}

/// The fields of a constraint that counts on nodes.
#[tactic(auto, unfolding(crate::specs::Rules::node_count_fields))]
pub(crate) fn node_count_fields(
    alloc: Global,
    cluster: &Cluster,
    value: &Value,
    path: &PathRef,
) -> Result<(NodeSet, u64, bool), InstanceFault>
    ensures gives { Gives instance_fault_of (λ x. (x.0, x.1, x.2)) result
        (node_count_fields cluster.now.given (view value.now) (path_of path.now)) }
    ensures nodes { IfOk result (λ x. are_nodes cluster.now.given x.0 ≡ true) }
    ensures most { IfOk result (λ x. nat_le x.1 max_amount ≡ true) }
{
    let nodes = nodes_at(alloc, cluster, value, path)?;
    let amount = json_walk::number_field(alloc, value, path, "amount", 0, MAX_AMOUNT)?;
    let continuous = json_walk::optional_flag(alloc, value, path, "continuous", false)?;
    json_walk::only_at(alloc, value, path, &NODE_COUNT_KEYS)?;
    Ok((nodes, amount, continuous))
}

/// A constraint `overbook`.
#[tactic(auto, unfolding(crate::specs::Rules::overbook_from))]
pub(crate) fn overbook(
    alloc: Global,
    cluster: &Cluster,
    value: &Value,
    path: &PathRef,
) -> Result<Constraint, InstanceFault>
    ensures gives { Gives instance_fault_of (λ c. c) result
        (overbook_from cluster.now.given (view value.now) (path_of path.now)) }
    ensures rule { IfOk result (λ c. is_rule cluster.now.given c ≡ true) }
{
    let nodes = nodes_at(alloc, cluster, value, path)?;
    let resource = resource_at(alloc, cluster, value, path)?;
    let num = json_walk::number_field(alloc, value, path, "num", 0, MAX_SCALE)?;
    let den = json_walk::number_field(alloc, value, path, "den", 1, MAX_SCALE)?;
    json_walk::only_at(alloc, value, path, &OVERBOOK_KEYS)?;
    Ok(Constraint::Overbook {
        nodes,
        resource,
        num,
        den,
    })
}

/// The fields of a constraint on nodes alone.
#[tactic(auto, unfolding(crate::specs::Rules::nodes_fields))]
pub(crate) fn nodes_fields(
    alloc: Global,
    cluster: &Cluster,
    value: &Value,
    path: &PathRef,
) -> Result<NodeSet, InstanceFault>
    ensures gives { Gives instance_fault_of (λ s. s) result
        (nodes_fields cluster.now.given (view value.now) (path_of path.now)) }
    ensures listed { IfOk result (λ s. are_nodes cluster.now.given s ≡ true) }
{
    let nodes = nodes_at(alloc, cluster, value, path)?;
    json_walk::only_at(alloc, value, path, &NODES_KEYS)?;
    Ok(nodes)
}
