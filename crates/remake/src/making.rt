//! Clusters and problems, made of their parts.
ghost use Rattle.std.specs.Prelude.{◌≡◌, [], IfOk};
ghost use Rattle.remake.specs.Prelude.{instance_with, IsInstance, IsInventory};

use crate::adding::{add_machine, add_node, add_rule, new_cluster};
use crate::copying::copy_names;
use base::Memory;
use catalogue::{Constraint, Problem};
use cluster::{Cluster, Instant, Machine, Node};
use std::alloc::Global;

/// A cluster with the resources and durations of another one, and without nodes and machines.
pub fn bare(alloc: Global, of: &Cluster) -> Result<Cluster, Memory>
    ensures { IfOk result (λ k. k.given ≡ record of.now.given { nodes = []; machines = [] }) }
{
    new_cluster(alloc, copy_names(alloc, of.resources())?, *of.durations())
}

/// A cluster with the resources and durations of another one, and with these nodes and machines, where that is sound.
pub fn cluster_with(
    alloc: Global,
    of: &Cluster,
    nodes: Vec<Node>,
    machines: Vec<Machine>,
) -> Result<Cluster, Memory>
    requires { IsInventory (record of.now.given { nodes = nodes.items; machines = machines.items }) }
    ensures { IfOk result (λ k. k.given ≡ record of.now.given { nodes = nodes.items; machines = machines.items }) }
{
    let mut cluster = bare(alloc, of)?;
    for node in nodes {
        add_node(&mut cluster, node)?;
    }
    for machine in machines {
        add_machine(&mut cluster, machine)?;
    }
    Ok(cluster)
}

/// A problem of a cluster, a last instant and these constraints, where that is sound.
pub fn problem_with(
    alloc: Global,
    cluster: Cluster,
    horizon: Instant,
    constraints: Vec<Constraint>,
) -> Result<Problem, Memory>
    requires { IsInstance (instance_with cluster.given horizon constraints.items) }
    ensures { IfOk result (λ p. p.given ≡ instance_with cluster.given horizon constraints.items) }
{
    let mut problem = Problem::new(alloc, cluster, horizon);
    for constraint in constraints {
        add_rule(&mut problem, constraint)?;
    }
    Ok(problem)
}
