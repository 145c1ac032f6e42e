//! Constraints as objects: one function for each set of fields, by the word of the kind.

ghost use Rattle.std.specs.Prelude.{◌≡◌, IfOk};
ghost use Rattle.instance_make.specs.Rules.{machines_object, flagged_machines_object, both_object, among_object, split_object, precedence_object, preserve_object, resource_capacity_object, node_count_object, overbook_object, nodes_object, object_by, constraint_data};
ghost use Rattle.serde_json.specs.View.{view};

use crate::lists::{groups_list, machines_list, nodes_list, parts_list};
use crate::names::{machine_name, resource_name};
use base::Memory;
use catalogue::lists::{Groups, Parts};
use catalogue::{Constraint, Vms};
use cluster::{Cluster, NodeSet, VmId};
use json_text::{ObjectOut, flag, number, word as text};
use serde_json::Value;
use std::alloc::Global;

#[tactic(auto, unfolding(crate::specs::Rules::machines_object))]
fn machines_object(
    alloc: Global,
    cluster: &Cluster,
    word: &str,
    machines: &Vms,
) -> Result<Value, Memory>
    ensures { let object = machines_object cluster.now.given word.now machines.now in
        IfOk result (λ d. view d ≡ object) }
{
    let mut object = ObjectOut::new(alloc);
    object.put("kind", text(alloc, word)?)?;
    object.put("machines", machines_list(alloc, cluster, machines.items())?)?;
    Ok(object.finish())
}

#[tactic(auto, unfolding(crate::specs::Rules::flagged_machines_object))]
fn flagged_machines_object(
    alloc: Global,
    cluster: &Cluster,
    word: &str,
    machines: &Vms,
    continuous: bool,
) -> Result<Value, Memory>
    ensures { let object = flagged_machines_object cluster.now.given word.now machines.now continuous in
        IfOk result (λ d. view d ≡ object) }
{
    let mut object = ObjectOut::new(alloc);
    object.put("kind", text(alloc, word)?)?;
    object.put("machines", machines_list(alloc, cluster, machines.items())?)?;
    object.put("continuous", flag(continuous))?;
    Ok(object.finish())
}

#[tactic(auto, unfolding(crate::specs::Rules::both_object))]
fn both_object(
    alloc: Global,
    cluster: &Cluster,
    word: &str,
    machines: &Vms,
    nodes: &NodeSet,
    continuous: bool,
) -> Result<Value, Memory>
    ensures { let object = both_object cluster.now.given word.now machines.now nodes.now continuous in
        IfOk result (λ d. view d ≡ object) }
{
    let mut object = ObjectOut::new(alloc);
    object.put("kind", text(alloc, word)?)?;
    object.put("machines", machines_list(alloc, cluster, machines.items())?)?;
    object.put("nodes", nodes_list(alloc, cluster, nodes)?)?;
    object.put("continuous", flag(continuous))?;
    Ok(object.finish())
}

#[tactic(auto, unfolding(crate::specs::Rules::among_object))]
fn among_object(
    alloc: Global,
    cluster: &Cluster,
    word: &str,
    machines: &Vms,
    groups: &Groups,
    continuous: bool,
) -> Result<Value, Memory>
    ensures { let object = among_object cluster.now.given word.now machines.now groups.now continuous in
        IfOk result (λ d. view d ≡ object) }
{
    let mut object = ObjectOut::new(alloc);
    object.put("kind", text(alloc, word)?)?;
    object.put("machines", machines_list(alloc, cluster, machines.items())?)?;
    object.put("groups", groups_list(alloc, cluster, groups.items())?)?;
    object.put("continuous", flag(continuous))?;
    Ok(object.finish())
}

#[tactic(auto, unfolding(crate::specs::Rules::split_object))]
fn split_object(
    alloc: Global,
    cluster: &Cluster,
    word: &str,
    parts: &Parts,
    continuous: bool,
) -> Result<Value, Memory>
    ensures { let object = split_object cluster.now.given word.now parts.now continuous in
        IfOk result (λ d. view d ≡ object) }
{
    let mut object = ObjectOut::new(alloc);
    object.put("kind", text(alloc, word)?)?;
    object.put("parts", parts_list(alloc, cluster, parts.items())?)?;
    object.put("continuous", flag(continuous))?;
    Ok(object.finish())
}

#[tactic(auto, unfolding(crate::specs::Rules::precedence_object))]
fn precedence_object(
    alloc: Global,
    cluster: &Cluster,
    word: &str,
    before: VmId,
    after: VmId,
) -> Result<Value, Memory>
    ensures { let object = precedence_object cluster.now.given word.now before after in
        IfOk result (λ d. view d ≡ object) }
{
    let mut object = ObjectOut::new(alloc);
    object.put("kind", text(alloc, word)?)?;
    object.put("before", machine_name(alloc, cluster, before)?)?;
    object.put("after", machine_name(alloc, cluster, after)?)?;
    Ok(object.finish())
}

#[tactic(auto, unfolding(crate::specs::Rules::preserve_object))]
fn preserve_object(
    alloc: Global,
    cluster: &Cluster,
    word: &str,
    machines: &Vms,
    resource: u8,
    amount: u64,
) -> Result<Value, Memory>
    ensures { let object = preserve_object cluster.now.given word.now machines.now resource amount in
        IfOk result (λ d. view d ≡ object) }
{
    let mut object = ObjectOut::new(alloc);
    object.put("kind", text(alloc, word)?)?;
    object.put("machines", machines_list(alloc, cluster, machines.items())?)?;
    object.put(
        "resource",
        resource_name(alloc, cluster.resources(), resource)?,
    )?;
    object.put("amount", number(amount))?;
    Ok(object.finish())
}

#[tactic(auto, unfolding(crate::specs::Rules::resource_capacity_object))]
fn resource_capacity_object(
    alloc: Global,
    cluster: &Cluster,
    word: &str,
    nodes: &NodeSet,
    resource: u8,
    amount: u64,
    continuous: bool,
) -> Result<Value, Memory>
    ensures { let k = cluster.now.given in
        let object = resource_capacity_object k word.now nodes.now resource amount continuous in
        IfOk result (λ d. view d ≡ object) }
{
    let mut object = ObjectOut::new(alloc);
    object.put("kind", text(alloc, word)?)?;
    object.put("nodes", nodes_list(alloc, cluster, nodes)?)?;
    object.put(
        "resource",
        resource_name(alloc, cluster.resources(), resource)?,
    )?;
    object.put("amount", number(amount))?;
    object.put("continuous", flag(continuous))?;
    Ok(object.finish())
}

#[tactic(auto, unfolding(crate::specs::Rules::node_count_object))]
fn node_count_object(
    alloc: Global,
    cluster: &Cluster,
    word: &str,
    nodes: &NodeSet,
    amount: u64,
    continuous: bool,
) -> Result<Value, Memory>
    ensures { let object = node_count_object cluster.now.given word.now nodes.now amount continuous in
        IfOk result (λ d. view d ≡ object) }
{
    let mut object = ObjectOut::new(alloc);
    object.put("kind", text(alloc, word)?)?;
    object.put("nodes", nodes_list(alloc, cluster, nodes)?)?;
    object.put("amount", number(amount))?;
    object.put("continuous", flag(continuous))?;
    Ok(object.finish())
}

#[tactic(auto, unfolding(crate::specs::Rules::overbook_object))]
fn overbook_object(
    alloc: Global,
    cluster: &Cluster,
    word: &str,
    nodes: &NodeSet,
    resource: u8,
    num: u64,
    den: u64,
) -> Result<Value, Memory>
    ensures { let object = overbook_object cluster.now.given word.now nodes.now resource num den in
        IfOk result (λ d. view d ≡ object) }
{
    let mut object = ObjectOut::new(alloc);
    object.put("kind", text(alloc, word)?)?;
    object.put("nodes", nodes_list(alloc, cluster, nodes)?)?;
    object.put(
        "resource",
        resource_name(alloc, cluster.resources(), resource)?,
    )?;
    object.put("num", number(num))?;
    object.put("den", number(den))?;
    Ok(object.finish())
}

#[tactic(auto, unfolding(crate::specs::Rules::nodes_object))]
fn nodes_object(
    alloc: Global,
    cluster: &Cluster,
    word: &str,
    nodes: &NodeSet,
) -> Result<Value, Memory>
    ensures { let object = nodes_object cluster.now.given word.now nodes.now in
        IfOk result (λ d. view d ≡ object) }
{
    let mut object = ObjectOut::new(alloc);
    object.put("kind", text(alloc, word)?)?;
    object.put("nodes", nodes_list(alloc, cluster, nodes)?)?;
    Ok(object.finish())
}

fn object_by(
    alloc: Global,
    cluster: &Cluster,
    word: &str,
    constraint: &Constraint,
) -> Result<Value, Memory>
    ensures { IfOk result (λ d. view d ≡ object_by cluster.now.given word.now constraint.now) }
{
    match constraint {
        Constraint::Spread {
            machines,
            continuous,
        }
        | Constraint::Gather {
            machines,
            continuous,
        }
        | Constraint::Lonely {
            machines,
            continuous,
        } => flagged_machines_object(alloc, cluster, word, machines, *continuous),
        Constraint::Ban {
            machines,
            nodes,
            continuous,
        }
        | Constraint::Fence {
            machines,
            nodes,
            continuous,
        } => both_object(alloc, cluster, word, machines, nodes, *continuous),
        Constraint::Among {
            machines,
            groups,
            continuous,
        } => among_object(alloc, cluster, word, machines, groups, *continuous),
        Constraint::Split { parts, continuous } => {
            split_object(alloc, cluster, word, parts, *continuous)
        }
        Constraint::Precedence { before, after } => {
            precedence_object(alloc, cluster, word, *before, *after)
        }
        Constraint::Preserve {
            machines,
            resource,
            amount,
        } => preserve_object(alloc, cluster, word, machines, *resource, *amount),
        Constraint::ResourceCapacity {
            nodes,
            resource,
            amount,
            continuous,
        } => resource_capacity_object(alloc, cluster, word, nodes, *resource, *amount, *continuous),
        Constraint::RunningCapacity {
            nodes,
            amount,
            continuous,
        }
        | Constraint::MaxOnline {
            nodes,
            amount,
            continuous,
        } => node_count_object(alloc, cluster, word, nodes, *amount, *continuous),
        Constraint::Overbook {
            nodes,
            resource,
            num,
            den,
        } => overbook_object(alloc, cluster, word, nodes, *resource, *num, *den),
        Constraint::Online { nodes } | Constraint::Offline { nodes } => {
            nodes_object(alloc, cluster, word, nodes)
        }
        Constraint::Root { machines }
        | Constraint::Serialize { machines }
        | Constraint::Running { machines }
        | Constraint::Sleeping { machines }
        | Constraint::Ready { machines }
        | Constraint::Killed { machines } => machines_object(alloc, cluster, word, machines),
    }
}

/// A constraint.
#[tactic(auto, unfolding(crate::specs::Rules::constraint_data))]
pub(crate) fn constraint_value(
    alloc: Global,
    cluster: &Cluster,
    constraint: &Constraint,
) -> Result<Value, Memory>
    ensures { IfOk result (λ d. view d ≡ constraint_data cluster.now.given constraint.now) }
{
    object_by(alloc, cluster, constraint.word(), constraint)
}
