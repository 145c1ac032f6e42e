//! The problem that is generated from a seed: its cluster, and what is wanted of it.

ghost use Rattle.std.specs.Prelude.{◌≡◌, ◌==◌, ◌∷◌, ◌<◌, ◌≤◌, ◌+◌, [], None, IfOk, OnOk, map, not, true, false};
ghost use Rattle.std.specs.List.{fold, filter};
ghost use Rattle.instance_make.specs.Prelude.{emptied, from, generated, HasRoom, IsInfeasible, machine_total, node_total, others, set_of, spread_of, vms, with_more, with_node};
ghost use Rattle.catalogue.specs.declared.constraint.Constraint.TheVariants as constraint;

use crate::generated_cluster::{NODES, cluster};
use base::Memory;
use catalogue::{Constraint, Problem, Vms};
use cluster::{NodeId, NodeSet, VmId};
use remake::add_rule;
use std::alloc::Global;

/// The last instant.
const HORIZON: u32 = 60;

/// Machines in a row, by the first and their count.
fn machines(alloc: Global, first: u32, count: u32) -> Result<Vms, Memory>
    requires { first + count ≤ machine_total }
    ensures { IfOk result (λ list. list ≡ vms (from first count)) }
{
    let mut ids = Vec::new(alloc);
    for i in 0..count {
        ids.push(VmId(first + i))?;
    }
    Ok(Vms::new(ids))
}

/// Nodes in a row, by the first and their count.
fn nodes(first: u32, count: u32) -> NodeSet
    requires { first + count ≤ node_total }
    ensures { result ≡ set_of (from first count) }
{
    let mut set = NodeSet::new();
    for n in 0..count {
        set.insert(NodeId(first + n));
    }
    set
}

fn insert_other(set: &mut NodeSet, k: u32, n: u32)
    requires { n < node_total }
    ensures { set.new ≡ fold with_node set.old (filter (λ n. not (n == k)) (n ∷ [])) }
{
    if n != k {
        set.insert(NodeId(n));
    }
}

/// All nodes but one.
fn others(k: u32) -> NodeSet
    ensures { result ≡ set_of (others k) }
{
    let mut set = NodeSet::new();
    for n in 0..NODES {
        insert_other(&mut set, k, n);
    }
    set
}

/// The node is wanted offline, and all others online.
fn add_goals(problem: &mut Problem, k: u32) -> Result<(), Memory>
    requires node { k < node_total }
    requires room { HasRoom problem.old.given 2 }
    ensures { let offline = constraint.Offline (set_of (k ∷ [])) in
        let online = constraint.Online (set_of (others k)) in
        OnOk result (problem.new.given ≡ with_more problem.old.given (offline ∷ online ∷ [])) }
{
    let mut emptied = NodeSet::new();
    emptied.insert(NodeId(k));
    add_rule(problem, Constraint::Offline { nodes: emptied })?;
    add_rule(problem, Constraint::Online { nodes: others(k) })
}

/// Four machines are to stay apart.
fn add_spread(alloc: Global, problem: &mut Problem, g: u32) -> Result<(), Memory>
    requires group { g < 10 }
    requires room { HasRoom problem.old.given 1 }
    ensures { OnOk result (problem.new.given ≡ with_more problem.old.given (spread_of g ∷ [])) }
{
    let machines = machines(alloc, 4 * g, 4)?;
    add_rule(
        problem,
        Constraint::Spread {
            machines,
            continuous: true,
        },
    )
}

/// Ten groups of four machines are to stay apart.
fn add_spreads(alloc: Global, problem: &mut Problem) -> Result<(), Memory>
    requires { HasRoom problem.old.given 10 }
    ensures { let spreads = map spread_of (from 0 10) in
        OnOk result (problem.new.given ≡ with_more problem.old.given spreads) }
{
    for g in 0..10 {
        add_spread(alloc, problem, g)?;
    }
    Ok(())
}

/// Ten machines may not end on the last node, and ten nodes bear at most 60 machines.
fn add_limits(alloc: Global, problem: &mut Problem) -> Result<(), Memory>
    requires { HasRoom problem.old.given 2 }
    ensures { let ban = constraint.Ban (vms (from 40 10)) (set_of (39 ∷ [])) false in
        let capacity = constraint.RunningCapacity (set_of (from 10 10)) 60 true in
        OnOk result (problem.new.given ≡ with_more problem.old.given (ban ∷ capacity ∷ [])) }
{
    let machines = machines(alloc, 40, 10)?;
    let mut last = NodeSet::new();
    last.insert(NodeId(39));
    add_rule(
        problem,
        Constraint::Ban {
            machines,
            nodes: last,
            continuous: false,
        },
    )?;
    add_rule(
        problem,
        Constraint::RunningCapacity {
            nodes: nodes(10, 10),
            amount: 60,
            continuous: true,
        },
    )
}

/// The node that is to be emptied.
fn emptied(seed: u64) -> u32
    ensures node { result ≡ emptied seed }
    ensures listed { result < node_total }
{
    (seed % u64::from(NODES)) as u32
}

/// The problem of a seed: 40 nodes with five machines each, of which one node is to be emptied and
/// shut down by instant 60. It depends on the seed modulo 40 alone, and has a valid plan.
pub fn generate(alloc: Global, seed: u64) -> Result<Problem, Memory>
    ensures problem { IfOk result (λ p. p.given ≡ generated seed) }
    ensures feasible { IfOk result (λ p. ¬ IsInfeasible p.given) }
{
    let mut problem = Problem::new(alloc, cluster(alloc, seed)?, HORIZON);
    add_goals(&mut problem, emptied(seed))?;
    add_spreads(alloc, &mut problem)?;
    add_limits(alloc, &mut problem)?;
    Ok(problem)
}
