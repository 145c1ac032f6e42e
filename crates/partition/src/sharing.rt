//! A constraint that speaks of each machine and node by itself, cut down to all parts in one pass over its lists.
ghost use Rattle.std.specs.Prelude.{◌≡◌, ◌<◌, ◌++◌, ◌==◌, ◌∷◌, [], ℕ, false, IfOk, OnOk, length, slice_index_or, if◌then◌else◌};
ghost use Rattle.catalogue.specs.Prelude.{no_nodes};
ghost use Rattle.slices.specs.Forms.{form_of};
ghost use Rattle.parts.specs.Splits.{is_joint};
ghost use Rattle.partition.specs.Cutting.{cut_by, cut_node, list_at, listed_machines as the_listed_machines, listed_nodes as the_listed_nodes, machines_by, nodes_by, with_lists};

use crate::cutting::{number_at, numbered, with_one};
use crate::dealing::put;
use crate::faults::Division;
use crate::numbering::Numbers;
use crate::reach::{at, has_at};
use base::Memory;
use catalogue::{Constraint, Vms};
use cluster::{NodeSet, VmId};
use std::alloc::Global;

/// The machines that a constraint lists, where it lists them by themselves.
fn listed_machines(constraint: &Constraint) -> &[VmId]
    ensures { result.now ≡ the_listed_machines constraint.now }
{
    match constraint {
        Constraint::Ban { machines, .. }
        | Constraint::Fence { machines, .. }
        | Constraint::Root { machines }
        | Constraint::Preserve { machines, .. }
        | Constraint::Running { machines }
        | Constraint::Sleeping { machines }
        | Constraint::Ready { machines }
        | Constraint::Killed { machines } => machines.items(),
        Constraint::Spread { .. }
        | Constraint::Gather { .. }
        | Constraint::Lonely { .. }
        | Constraint::Among { .. }
        | Constraint::Split { .. }
        | Constraint::Precedence { .. }
        | Constraint::Serialize { .. }
        | Constraint::ResourceCapacity { .. }
        | Constraint::RunningCapacity { .. }
        | Constraint::MaxOnline { .. }
        | Constraint::Overbook { .. }
        | Constraint::Online { .. }
        | Constraint::Offline { .. } => &[],
    }
}

/// The nodes that a constraint lists, where it lists them by themselves.
fn listed_nodes(constraint: &Constraint) -> NodeSet
    ensures { result ≡ the_listed_nodes constraint.now }
{
    match constraint {
        Constraint::Ban { nodes, .. }
        | Constraint::Fence { nodes, .. }
        | Constraint::Overbook { nodes, .. }
        | Constraint::Online { nodes }
        | Constraint::Offline { nodes } => *nodes,
        Constraint::Spread { .. }
        | Constraint::Gather { .. }
        | Constraint::Lonely { .. }
        | Constraint::Among { .. }
        | Constraint::Split { .. }
        | Constraint::Root { .. }
        | Constraint::Precedence { .. }
        | Constraint::Serialize { .. }
        | Constraint::Preserve { .. }
        | Constraint::ResourceCapacity { .. }
        | Constraint::RunningCapacity { .. }
        | Constraint::MaxOnline { .. }
        | Constraint::Running { .. }
        | Constraint::Sleeping { .. }
        | Constraint::Ready { .. }
        | Constraint::Killed { .. } => NodeSet::new(),
    }
}

/// The constraint of the same kind with this list and this set; it is one that speaks of each machine and node by itself.
fn renewed(constraint: &Constraint, machines: Vms, nodes: NodeSet) -> Constraint
    requires { is_joint (form_of constraint.now) ≡ false }
    ensures { result ≡ with_lists (λ _. machines) (λ _. nodes) (λ v. v) constraint.now }
{
    match constraint {
        Constraint::Ban { continuous, .. } => Constraint::Ban {
            machines,
            nodes,
            continuous: *continuous,
        },
        Constraint::Fence { continuous, .. } => Constraint::Fence {
            machines,
            nodes,
            continuous: *continuous,
        },
        Constraint::Root { .. } => Constraint::Root { machines },
        Constraint::Preserve {
            resource,
            amount,
            ..
        } => Constraint::Preserve {
            machines,
            resource: *resource,
            amount: *amount,
        },
        Constraint::Overbook {
            resource,
            num,
            den,
            ..
        } => Constraint::Overbook {
            nodes,
            resource: *resource,
            num: *num,
            den: *den,
        },
        Constraint::Online { .. } => Constraint::Online { nodes },
        Constraint::Offline { .. } => Constraint::Offline { nodes },
        Constraint::Running { .. } => Constraint::Running { machines },
        Constraint::Sleeping { .. } => Constraint::Sleeping { machines },
        Constraint::Ready { .. } => Constraint::Ready { machines },
        Constraint::Killed { .. } => Constraint::Killed { machines },
        Constraint::Spread { .. }
        | Constraint::Gather { .. }
        | Constraint::Lonely { .. }
        | Constraint::Among { .. }
        | Constraint::Split { .. }
        | Constraint::Precedence { .. }
        | Constraint::Serialize { .. }
        | Constraint::ResourceCapacity { .. }
        | Constraint::RunningCapacity { .. }
        | Constraint::MaxOnline { .. } => unreachable!(),
    }
}

/// Puts a machine at the end of the list of a number, if there is one.
fn put_machine(lists: &mut [Vec<VmId>], i: usize, v: VmId) -> Result<(), Memory>
    ensures each { OnOk result ((j : ℕ) → j < length lists.old → list_at lists.new j ≡ list_at lists.old j ++ (if i == j then v ∷ [] else [])) }
{
    if i < lists.len() {
        lists[i].push(v)?;
    }
    Ok(())
}

/// Deals the machines of a list to the lists of their groups, with their numbers there.
fn deal_machines(
    groups: &[usize],
    numbers: &[u32],
    list: &[VmId],
    lists: &mut [Vec<VmId>],
) -> Result<(), Memory>
    ensures each { OnOk result ((j : ℕ) → j < length lists.old → list_at lists.new j ≡ list_at lists.old j ++ machines_by groups.now numbers.now j list.now) }
{
    for v in list {
        put_machine(lists, at(groups, v.0 as usize), numbered(numbers, *v))?;
    }
    Ok(())
}

/// So many empty lists.
#[tactic(auto, using(crate::proofs::DealLemmas::empty_more))]
fn empty_lists(alloc: Global, count: usize) -> Result<Vec<Vec<VmId>>, Memory>
    ensures each { IfOk result (λ lists. length lists.items ≡ count) }
    ensures empty { IfOk result (λ lists. (j : ℕ) → list_at lists.items j ≡ []) }
{
    let mut lists = Vec::new(alloc);
    for i in 0..count {
        lists.push(Vec::new(alloc))?;
    }
    Ok(lists)
}

/// The machines of a list in each of so many groups.
fn machine_shares(
    alloc: Global,
    groups: &[usize],
    numbers: &[u32],
    count: usize,
    list: &[VmId],
) -> Result<Vec<Vec<VmId>>, Memory>
    ensures each { IfOk result (λ lists. length lists.items ≡ count) }
    ensures dealt { IfOk result (λ lists. (j : ℕ) → j < count → list_at lists.items j ≡ machines_by groups.now numbers.now j list.now) }
{
    let mut lists = empty_lists(alloc, count)?;
    deal_machines(groups, numbers, list, &mut lists)?;
    Ok(lists)
}

/// Puts the number of a node into the set of its group, if the node is in the set that is dealt.
fn put_node(groups: &[usize], numbers: &[u32], set: &NodeSet, n: usize, sets: &mut [NodeSet])
    ensures { (j : ℕ) → j < length sets.old → slice_index_or sets.new j no_nodes ≡ cut_node groups.now numbers.now j set.now (slice_index_or sets.old j no_nodes) n }
{
    let group = at(groups, n);
    if !has_at(set, n) || group >= sets.len() {
        return;
    }
    sets[group] = with_one(sets[group], number_at(numbers, n));
}

/// Deals the nodes of a set to the sets of their groups, with their numbers there.
fn deal_nodes(groups: &[usize], numbers: &[u32], set: &NodeSet, sets: &mut [NodeSet])
    requires none { (j : ℕ) → j < length sets.old → slice_index_or sets.old j no_nodes ≡ no_nodes }
    ensures { (j : ℕ) → j < length sets.old → slice_index_or sets.new j no_nodes ≡ nodes_by groups.now numbers.now j set.now }
{
    for n in 0..groups.len() {
        put_node(groups, numbers, set, n, sets);
    }
}

/// The nodes of a set in each of so many groups.
#[tactic(auto, using(base::proofs::Lists::copies_at))]
fn node_shares(
    alloc: Global,
    groups: &[usize],
    numbers: &[u32],
    count: usize,
    set: &NodeSet,
) -> Result<Vec<NodeSet>, Memory>
    ensures each { IfOk result (λ sets. length sets.items ≡ count) }
    ensures dealt { IfOk result (λ sets. (j : ℕ) → j < count → slice_index_or sets.items j no_nodes ≡ nodes_by groups.now numbers.now j set.now) }
{
    let mut sets = Vec::new(alloc);
    sets.resize(count, NodeSet::new())?;
    deal_nodes(groups, numbers, set, &mut sets);
    Ok(sets)
}

/// An equal list.
fn copy_list(list: &Vec<VmId>) -> Result<Vms, Memory>
    ensures { IfOk result (λ copy. copy ≡ list.now.items) }
{
    let ids = list.clone()?;
    Ok(Vms::new(ids))
}

/// A constraint with the list and the set of a number.
fn share_at(
    constraint: &Constraint,
    machines: &[Vec<VmId>],
    sets: &[NodeSet],
    i: usize,
) -> Result<Constraint, Memory>
    requires alone { is_joint (form_of constraint.now) ≡ false }
    requires machines { i < length machines.now }
    requires sets { i < length sets.now }
    ensures { IfOk result (λ share. share ≡ with_lists (λ _. list_at machines.now i) (λ _. slice_index_or sets.now i no_nodes) (λ v. v) constraint.now) }
{
    let list = copy_list(&machines[i])?;
    Ok(renewed(constraint, list, sets[i]))
}

/// Puts a constraint into each list, with the machines and nodes of the part of the list.
fn put_with(
    constraint: &Constraint,
    machines: &[Vec<VmId>],
    sets: &[NodeSet],
    lists: &mut [Vec<Constraint>],
) -> Result<(), Memory>
    requires alone { is_joint (form_of constraint.now) ≡ false }
    requires machines { length machines.now ≡ length lists.old }
    requires sets { length sets.now ≡ length lists.old }
    ensures each { OnOk result ((j : ℕ) → j < length lists.old → list_at lists.new j ≡ list_at lists.old j ++ with_lists (λ _. list_at machines.now j) (λ _. slice_index_or sets.now j no_nodes) (λ v. v) constraint.now ∷ []) }
{
    for i in 0..lists.len() {
        let share = share_at(constraint, machines, sets, i)?;
        put(lists, i, share)?;
    }
    Ok(())
}

/// Puts a constraint into each list, cut down to the part of the list; it is one that speaks of each machine and node by
/// itself.
pub(crate) fn put_all(
    alloc: Global,
    d: &Division,
    numbers: &Numbers,
    constraint: &Constraint,
    lists: &mut [Vec<Constraint>],
) -> Result<(), Memory>
    requires { is_joint (form_of constraint.now) ≡ false }
    ensures each { OnOk result ((j : ℕ) → j < length lists.old → list_at lists.new j ≡ list_at lists.old j ++ cut_by d.now numbers.now j constraint.now ∷ []) }
{
    let listed = listed_machines(constraint);
    let machines = machine_shares(alloc, &d.machines, &numbers.machines, lists.len(), listed)?;
    let nodes = listed_nodes(constraint);
    let sets = node_shares(alloc, &d.nodes, &numbers.nodes, lists.len(), &nodes)?;
    put_with(constraint, &machines, &sets, lists)?;
    Ok(())
}
