//! Adds that are not refused: want of memory is their only error.
ghost use Rattle.std.specs.Prelude.{◌≡◌, ◌++◌, ◌∷◌, [], None, IfOk, OnOk};
ghost use Rattle.remake.specs.Prelude.{base_fault, machine_fault, node_fault, rule_fault, with_more};

use base::Memory;
use catalogue::constraint::RuleFault;
use catalogue::{Constraint, Problem};
use cluster::inventory::AddFault;
use cluster::kinds::KIND_COUNT;
use cluster::{Cluster, Duration, Machine, Name, Node};
use std::alloc::Global;

/// A cluster without nodes and machines, of resources and durations that are not refused.
pub fn new_cluster(
    alloc: Global,
    resources: Vec<Name>,
    durations: [Duration; KIND_COUNT],
) -> Result<Cluster, Memory>
    requires { base_fault resources.items durations ≡ None }
    ensures { IfOk result (λ k. k.given ≡ record { resources = resources.items; durations = durations; nodes = []; machines = [] }) }
{
    match Cluster::new(alloc, resources, durations) {
        Ok(cluster) => Ok(cluster),
        Err(AddFault::Memory) => Err(Memory),
        Err(_) => unreachable!(),
    }
}

/// Adds a node that is not refused.
pub fn add_node(cluster: &mut Cluster, node: Node) -> Result<(), Memory>
    requires { node_fault cluster.old.given node ≡ None }
    ensures { let nodes = cluster.old.given.nodes ++ node ∷ [] in
        OnOk result (cluster.new.given ≡ record cluster.old.given { nodes = nodes }) }
{
    match cluster.add_node(node) {
        Ok(_) => Ok(()),
        Err(AddFault::Memory) => Err(Memory),
        Err(_) => unreachable!(),
    }
}

/// Adds a machine that is not refused.
pub fn add_machine(cluster: &mut Cluster, machine: Machine) -> Result<(), Memory>
    requires { machine_fault cluster.old.given machine ≡ None }
    ensures { let machines = cluster.old.given.machines ++ machine ∷ [] in
        OnOk result (cluster.new.given ≡ record cluster.old.given { machines = machines }) }
{
    match cluster.add_machine(machine) {
        Ok(_) => Ok(()),
        Err(AddFault::Memory) => Err(Memory),
        Err(_) => unreachable!(),
    }
}

/// Adds a constraint that is not refused.
pub fn add_rule(problem: &mut Problem, constraint: Constraint) -> Result<(), Memory>
    requires { rule_fault problem.old.given constraint ≡ None }
    ensures { OnOk result (problem.new.given ≡ with_more problem.old.given (constraint ∷ [])) }
{
    match problem.add(constraint) {
        Ok(()) => Ok(()),
        Err(RuleFault::Memory) => Err(Memory),
        Err(_) => unreachable!(),
    }
}
