//! The problem of a part: its nodes and machines, with their numbers there, and its constraints.
ghost use Rattle.std.specs.Prelude.{◌≡◌, ◌<◌, ◌++◌, ◌==◌, ◌∷◌, [], ℕ, IfOk, OnOk, filter, filter_map, length, map, option_map, slice_get, if◌then◌else◌};
ghost use Rattle.std.specs.List.{range_with_len};
ghost use Rattle.catalogue.specs.Prelude.{IsInstance};
ghost use Rattle.parts.specs.Cuts.{renumbered_state as the_renumbered_state};
ghost use Rattle.partition.specs.Cutting.{list_at, machine_by, part_by, part_machines, part_nodes};
ghost use Rattle.partition.specs.Reach.{at as the_at};

use crate::cutting::number_at;
use crate::faults::Division;
use crate::numbering::Numbers;
use crate::reach::at;
use base::Memory;
use catalogue::{Constraint, Problem};
use cluster::{Machine, Node, NodeId, State};
use remake::{cluster_with, copy_machine, copy_node, problem_with};
use std::alloc::Global;

/// Puts a copy of a node at the end, if the node is in the group.
fn push_node(
    kept: &mut Vec<Node>,
    groups: &[usize],
    i: usize,
    n: usize,
    node: &Node,
) -> Result<(), Memory>
    ensures { OnOk result (kept.new.items ≡ kept.old.items ++ (if the_at groups.now n == i then node.now ∷ [] else [])) }
{
    if at(groups, n) != i {
        return Ok(());
    }
    let copy = copy_node(node)?;
    kept.push(copy)?;
    Ok(())
}

/// Copies of the nodes that are in a group.
fn some_nodes(
    alloc: Global,
    groups: &[usize],
    i: usize,
    nodes: &[Node],
) -> Result<Vec<Node>, Memory>
    ensures { IfOk result (λ kept. kept.items ≡ filter_map (slice_get nodes.now) (filter (λ n. the_at groups.now n == i) (range_with_len 0 (length nodes.now)))) }
{
    let mut kept = Vec::new(alloc);
    for n in 0..nodes.len() {
        push_node(&mut kept, groups, i, n, &nodes[n])?;
    }
    Ok(kept)
}

/// The nodes of a part.
fn nodes_of(alloc: Global, p: &Problem, d: &Division, i: usize) -> Result<Vec<Node>, Memory>
    ensures { IfOk result (λ nodes. nodes.items ≡ part_nodes d.now i p.now.given.nodes) }
{
    some_nodes(alloc, &d.nodes, i, p.cluster().nodes())
}

/// A state with the number of its host in the part.
fn renumbered_state(numbers: &[u32], state: State) -> State
    ensures { result ≡ the_renumbered_state (the_at numbers.now) state }
{
    match state {
        State::Running(host) => State::Running(NodeId(number_at(numbers, host.0 as usize))),
        State::Sleeping(host) => State::Sleeping(NodeId(number_at(numbers, host.0 as usize))),
        State::Init | State::Ready | State::Gone => state,
    }
}

/// A machine with the number of its host in the part.
fn renumbered(numbers: &[u32], machine: &Machine) -> Result<Machine, Memory>
    ensures { IfOk result (λ m. m ≡ machine_by numbers.now machine.now) }
{
    let mut copy = copy_machine(machine)?;
    copy.state = renumbered_state(numbers, machine.state);
    Ok(copy)
}

/// Puts a machine at the end, with the number of its host, if the machine is in the group.
fn push_machine(
    kept: &mut Vec<Machine>,
    groups: &[usize],
    numbers: &[u32],
    i: usize,
    v: usize,
    machine: &Machine,
) -> Result<(), Memory>
    ensures { OnOk result (kept.new.items ≡ kept.old.items ++ (if the_at groups.now v == i then machine_by numbers.now machine.now ∷ [] else [])) }
{
    if at(groups, v) != i {
        return Ok(());
    }
    let copy = renumbered(numbers, machine)?;
    kept.push(copy)?;
    Ok(())
}

/// The machines that are in a group, with the numbers of their hosts.
fn some_machines(
    alloc: Global,
    groups: &[usize],
    numbers: &[u32],
    i: usize,
    machines: &[Machine],
) -> Result<Vec<Machine>, Memory>
    ensures { IfOk result (λ kept. kept.items ≡ filter_map (λ v. option_map (machine_by numbers.now) (slice_get machines.now v)) (filter (λ v. the_at groups.now v == i) (range_with_len 0 (length machines.now)))) }
{
    let mut kept = Vec::new(alloc);
    for v in 0..machines.len() {
        push_machine(&mut kept, groups, numbers, i, v, &machines[v])?;
    }
    Ok(kept)
}

/// The machines of a part.
fn machines_of(
    alloc: Global,
    p: &Problem,
    d: &Division,
    numbers: &Numbers,
    i: usize,
) -> Result<Vec<Machine>, Memory>
    ensures { IfOk result (λ machines. machines.items ≡ part_machines d.now numbers.now i p.now.given.machines) }
{
    some_machines(
        alloc,
        &d.machines,
        &numbers.nodes,
        i,
        p.cluster().machines(),
    )
}

/// The problem of a part that has these constraints, where that is sound.
fn part(
    alloc: Global,
    p: &Problem,
    d: &Division,
    numbers: &Numbers,
    i: usize,
    constraints: Vec<Constraint>,
) -> Result<Problem, Memory>
    requires { IsInstance (part_by p.now.given d.now numbers.now i constraints.items) }
    ensures { IfOk result (λ q. q.given ≡ part_by p.now.given d.now numbers.now i constraints.items) }
{
    let nodes = nodes_of(alloc, p, d, i)?;
    let machines = machines_of(alloc, p, d, numbers, i)?;
    let cluster = cluster_with(alloc, p.cluster(), nodes, machines)?;
    problem_with(alloc, cluster, p.horizon(), constraints)
}

/// The problem of each part, by the constraints of each.
pub(crate) fn parts_with(
    alloc: Global,
    p: &Problem,
    d: &Division,
    numbers: &Numbers,
    lists: Vec<Vec<Constraint>>,
) -> Result<Vec<Problem>, Memory>
    requires { (i : ℕ) → i < length lists.items → IsInstance (part_by p.now.given d.now numbers.now i (list_at lists.items i)) }
    ensures { IfOk result (λ parts. map (λ q. q.given) parts.items ≡ map (λ i. part_by p.now.given d.now numbers.now i (list_at lists.items i)) (range_with_len 0 (length lists.items))) }
{
    let mut parts = Vec::new(alloc);
    for list in lists {
        let part = part(alloc, p, d, numbers, parts.len(), list)?;
        parts.push(part)?;
    }
    Ok(parts)
}
