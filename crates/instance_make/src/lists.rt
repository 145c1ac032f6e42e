//! Lists of names, and lists of such lists.

ghost use Rattle.std.specs.Prelude.{◌≡◌, ◌<◌, ◌++◌, ◌∷◌, [], IfOk, OnOk, map};
ghost use Rattle.std.specs.List.{filter};
ghost use Rattle.instance_make.specs.Prelude.{groups_list, has_node, items, machines_list, max_nodes, node_name_at, nodes_list, parts_list};
ghost use Rattle.serde_json.specs.View.{view};

use crate::names::{machine_name, node_name};
use base::Memory;
use catalogue::Vms;
use cluster::{Cluster, NodeId, NodeSet, VmId};
use json_text::ListOut;
use serde_json::Value;
use std::alloc::Global;

/// Machines by their names.
#[tactic(auto, unfolding(crate::specs::Rules::machines_list))]
pub(crate) fn machines_list(
    alloc: Global,
    cluster: &Cluster,
    machines: &[VmId],
) -> Result<Value, Memory>
    ensures { IfOk result (λ d. view d ≡ machines_list cluster.now.given machines.now) }
{
    let mut list = ListOut::new(alloc);
    for v in machines {
        list.push(machine_name(alloc, cluster, *v)?)?;
    }
    Ok(list.finish())
}

/// Lists of machines.
#[tactic(auto, unfolding(crate::specs::Rules::parts_list))]
pub(crate) fn parts_list(alloc: Global, cluster: &Cluster, parts: &[Vms]) -> Result<Value, Memory>
    ensures { IfOk result (λ d. view d ≡ parts_list cluster.now.given parts.now) }
{
    let mut list = ListOut::new(alloc);
    for part in parts {
        list.push(machines_list(alloc, cluster, part.items())?)?;
    }
    Ok(list.finish())
}

/// Adds the name of a node, if it is in the set.
fn push_node(
    alloc: Global,
    cluster: &Cluster,
    nodes: &NodeSet,
    n: usize,
    list: &mut ListOut,
) -> Result<(), Memory>
    requires { n < max_nodes }
    ensures { let names = map (node_name_at cluster.now.given) (filter (has_node nodes.now) (n ∷ [])) in
        OnOk result (items list.new ≡ items list.old ++ names) }
{
    let node = NodeId(n as u32);
    if nodes.has(node) {
        list.push(node_name(alloc, cluster, node)?)
    } else {
        Ok(())
    }
}

/// The nodes of a set by their names, in the order of the nodes.
#[tactic(auto, using(crate::proofs::Putting::named_more), unfolding(crate::specs::Rules::nodes_list, crate::specs::Rules::nodes_in))]
pub(crate) fn nodes_list(alloc: Global, cluster: &Cluster, nodes: &NodeSet) -> Result<Value, Memory>
    ensures { IfOk result (λ d. view d ≡ nodes_list cluster.now.given nodes.now) }
{
    let mut list = ListOut::new(alloc);
    for n in 0..cluster.nodes().len() {
        push_node(alloc, cluster, nodes, n, &mut list)?;
    }
    Ok(list.finish())
}

/// Lists of nodes.
#[tactic(auto, unfolding(crate::specs::Rules::groups_list))]
pub(crate) fn groups_list(
    alloc: Global,
    cluster: &Cluster,
    groups: &[NodeSet],
) -> Result<Value, Memory>
    ensures { IfOk result (λ d. view d ≡ groups_list cluster.now.given groups.now) }
{
    let mut list = ListOut::new(alloc);
    for group in groups {
        list.push(nodes_list(alloc, cluster, group)?)?;
    }
    Ok(list.finish())
}
