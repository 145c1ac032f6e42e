//! Lists, sets and constraints, cut down to a part, by the tables of groups and of numbers.
ghost use Rattle.std.specs.Prelude.{◌≡◌, IfOk, fold, length, map};
ghost use Rattle.std.specs.List.{range_with_len};
ghost use Rattle.partition.specs.Cutting.{cut_by, cut_node as the_cut_node, machines_by, nodes_by, numbered as the_numbered, with_one as the_with_one};
ghost use Rattle.partition.specs.Reach.{at as the_at};

use crate::faults::Division;
use crate::numbering::Numbers;
use crate::reach::{at, has_at};
use base::Memory;
use catalogue::lists::{Groups, Parts};
use catalogue::{Constraint, Vms};
use cluster::limits::MAX_NODES;
use cluster::{NodeId, NodeSet, VmId};
use std::alloc::Global;

/// What a table says of a number; past its end, 0.
pub(crate) fn number_at(numbers: &[u32], x: usize) -> u32
    ensures { result ≡ the_at numbers.now x }
{
    match numbers.get(x) {
        Some(number) => *number,
        None => 0,
    }
}

/// A machine with its number in its part.
pub(crate) fn numbered(numbers: &[u32], v: VmId) -> VmId
    ensures { result ≡ the_numbered numbers.now v }
{
    VmId(number_at(numbers, v.0 as usize))
}

/// The machines of a list that are in a group, with their numbers there.
fn cut_list(
    alloc: Global,
    groups: &[usize],
    numbers: &[u32],
    i: usize,
    list: &[VmId],
) -> Result<Vec<VmId>, Memory>
    ensures { IfOk result (λ cut. cut.items ≡ machines_by groups.now numbers.now i list.now) }
{
    let cut = list
        .iter()
        .filter(|v| at(groups, v.0 as usize) == i)
        .map(|v| numbered(numbers, *v))
        .collect(alloc)?;
    Ok(cut)
}

/// A set with one more node, where it has room for it.
pub(crate) fn with_one(set: NodeSet, n: u32) -> NodeSet
    ensures { result ≡ the_with_one set n }
{
    let mut more = set;
    if (n as usize) < MAX_NODES {
        more.insert(NodeId(n));
    }
    more
}

/// With the number of a node, if the node is in the set and in the group.
fn cut_node(
    groups: &[usize],
    numbers: &[u32],
    i: usize,
    set: &NodeSet,
    cut: NodeSet,
    n: usize,
) -> NodeSet
    ensures { result ≡ the_cut_node groups.now numbers.now i set.now cut n }
{
    if has_at(set, n) && at(groups, n) == i {
        with_one(cut, number_at(numbers, n))
    } else {
        cut
    }
}

/// A set with the nodes of another one that are in a group, with their numbers there.
fn cut_onto(groups: &[usize], numbers: &[u32], i: usize, set: &NodeSet, cut: NodeSet) -> NodeSet
    ensures { result ≡ fold (the_cut_node groups.now numbers.now i set.now) cut (range_with_len 0 (length groups.now)) }
{
    (0..groups.len()).fold(cut, |cut, n| cut_node(groups, numbers, i, set, cut, n))
}

/// The nodes of a set that are in a group, with their numbers there.
fn cut_set(groups: &[usize], numbers: &[u32], i: usize, set: &NodeSet) -> NodeSet
    ensures { result ≡ nodes_by groups.now numbers.now i set.now }
{
    cut_onto(groups, numbers, i, set, NodeSet::new())
}

/// The machines of a list that are in the part.
fn cut_machines(
    alloc: Global,
    d: &Division,
    numbers: &Numbers,
    i: usize,
    list: &Vms,
) -> Result<Vms, Memory>
    ensures { IfOk result (λ cut. cut ≡ machines_by d.now.machines.items numbers.now.machines.items i list.now) }
{
    let cut = cut_list(alloc, &d.machines, &numbers.machines, i, list.items())?;
    Ok(Vms::new(cut))
}

/// The machines of each list that are in the part.
fn cut_lists(
    alloc: Global,
    d: &Division,
    numbers: &Numbers,
    i: usize,
    parts: &Parts,
) -> Result<Parts, Memory>
    ensures { IfOk result (λ cut. cut ≡ map (machines_by d.now.machines.items numbers.now.machines.items i) parts.now) }
{
    let mut cut = Vec::new(alloc);
    for list in parts.items() {
        cut.push(cut_machines(alloc, d, numbers, i, list)?)?;
    }
    Ok(Parts::new(cut))
}

/// The nodes of a set that are in the part.
fn cut_nodes(d: &Division, numbers: &Numbers, i: usize, set: &NodeSet) -> NodeSet
    ensures { result ≡ nodes_by d.now.nodes.items numbers.now.nodes.items i set.now }
{
    cut_set(&d.nodes, &numbers.nodes, i, set)
}

/// The nodes of each set that are in the part.
fn cut_sets(
    alloc: Global,
    d: &Division,
    numbers: &Numbers,
    i: usize,
    groups: &Groups,
) -> Result<Groups, Memory>
    ensures { IfOk result (λ cut. cut ≡ map (nodes_by d.now.nodes.items numbers.now.nodes.items i) groups.now) }
{
    let mut cut = Vec::new(alloc);
    for set in groups.items() {
        cut.push(cut_nodes(d, numbers, i, set))?;
    }
    Ok(Groups::new(cut))
}

/// A machine of the part.
fn cut_machine(numbers: &Numbers, v: &VmId) -> VmId
    ensures { result ≡ the_numbered numbers.now.machines.items v.now }
{
    numbered(&numbers.machines, *v)
}

/// The constraint of the same kind: for each kind its lists, its sets and its single machines, which are cut down, and
/// then its plain fields.
macro_rules! cut_down {
    ($constraint:expr; $alloc:expr, $d:expr, $numbers:expr, $i:expr; $($kind:ident { $($list:ident $by:ident),*; $($set:ident),*; $($one:ident),*; $($plain:ident),* })*) => {
        match $constraint {
            $(Constraint::$kind { $($list,)* $($set,)* $($one,)* $($plain,)* } => Constraint::$kind {
                $($list: $by($alloc, $d, $numbers, $i, $list)?,)*
                $($set: cut_nodes($d, $numbers, $i, $set),)*
                $($one: cut_machine($numbers, $one),)*
                $($plain: *$plain,)*
            },)*
        }
    };
}

/// A constraint, cut down to the part of a number.
pub(crate) fn cut(
    alloc: Global,
    d: &Division,
    numbers: &Numbers,
    i: usize,
    constraint: &Constraint,
) -> Result<Constraint, Memory>
    ensures { IfOk result (λ c. c ≡ cut_by d.now numbers.now i constraint.now) }
{
    Ok(cut_down! { constraint; alloc, d, numbers, i;
        Spread { machines cut_machines; ; ; continuous }
        Ban { machines cut_machines; nodes; ; continuous }
        Fence { machines cut_machines; nodes; ; continuous }
        Gather { machines cut_machines; ; ; continuous }
        Lonely { machines cut_machines; ; ; continuous }
        Among { machines cut_machines, groups cut_sets; ; ; continuous }
        Split { parts cut_lists; ; ; continuous }
        Root { machines cut_machines; ; ; }
        Precedence { ; ; before, after; }
        Serialize { machines cut_machines; ; ; }
        Preserve { machines cut_machines; ; ; resource, amount }
        ResourceCapacity { ; nodes; ; resource, amount, continuous }
        RunningCapacity { ; nodes; ; amount, continuous }
        MaxOnline { ; nodes; ; amount, continuous }
        Overbook { ; nodes; ; resource, num, den }
        Online { ; nodes; ; }
        Offline { ; nodes; ; }
        Running { machines cut_machines; ; ; }
        Sleeping { machines cut_machines; ; ; }
        Ready { machines cut_machines; ; ; }
        Killed { machines cut_machines; ; ; }
    })
}
