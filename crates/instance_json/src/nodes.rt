//! Nodes.

ghost use Rattle.std.specs.Prelude.{◌≡◌, ◌<◌, ◌≤◌, ◌+◌, ◌++◌, ◌∷◌, [], IfOk, OnOk, codes, length, map, true, false};
ghost use Rattle.instance_json.specs.Prelude.{each, Field, field_by, Gives, instance_fault_of, is_taken, max_nodes, new_name_from, node_fits, node_from, node_step, nodes_from, path_of};
ghost use Rattle.serde_json.specs.View.{view};

use crate::amounts::amounts_at;
use crate::durations::{Owner, own_durations};
use crate::fault::InstanceFault;
use crate::keys::NODE_KEYS;
use crate::names;
use base::Memory;
use cluster::inventory::AddFault;
use cluster::limits::MAX_NODES;
use cluster::{Cluster, Name, Node};
use json_walk::PathRef;
use serde_json::Value;
use std::alloc::Global;

/// The name of one more element.
pub(crate) fn element_name(
    alloc: Global,
    cluster: &Cluster,
    value: &Value,
    path: &PathRef,
) -> Result<Name, InstanceFault>
    ensures gives { Gives instance_fault_of (λ n. n) result
        (field_by Field (new_name_from cluster.now.given) (view value.now) (path_of path.now) (codes "name")) }
    ensures free { IfOk result (λ n. is_taken cluster.now.given n ≡ false) }
{
    let found = json_walk::field_at(alloc, value, path, "name")?;
    names::new_name(alloc, cluster, found, &path.key("name"))
}

#[tactic(auto, unfolding(crate::specs::Elements::node_from))]
fn node(
    alloc: Global,
    cluster: &Cluster,
    value: &Value,
    path: &PathRef,
) -> Result<Node, InstanceFault>
    ensures gives { Gives instance_fault_of (λ n. n) result
        (node_from cluster.now.given (view value.now) (path_of path.now)) }
    ensures free { IfOk result (λ n. is_taken cluster.now.given n.name ≡ false) }
    ensures fits { IfOk result (λ n. node_fits (length cluster.now.given.resources) n ≡ true) }
{
    let name = element_name(alloc, cluster, value, path)?;
    let online = json_walk::optional_flag(alloc, value, path, "online", true)?;
    let capacity = amounts_at(alloc, cluster.resources(), value, path, "capacity")?;
    let own = own_durations(alloc, cluster.resources(), Owner::Node, value, path)?;
    json_walk::only_at(alloc, value, path, &NODE_KEYS)?;
    Ok(Node {
        name,
        online,
        capacity,
        own,
    })
}

/// Adds a node that has no fault.
fn add_node(cluster: &mut Cluster, node: Node) -> Result<(), Memory>
    requires room { length cluster.old.given.nodes < max_nodes }
    requires free { is_taken cluster.old.given node.name ≡ false }
    requires fits { node_fits (length cluster.old.given.resources) node ≡ true }
    ensures { OnOk result (cluster.new.given ≡ record cluster.old.given { nodes = cluster.old.given.nodes ++ node ∷ [] }) }
{
    match cluster.add_node(node) {
        Ok(_) => Ok(()),
        Err(AddFault::Memory) => Err(Memory),
        Err(_) => unreachable!(),
    }
}

#[tactic(auto, unfolding(crate::specs::Elements::node_step))]
fn push_node(
    alloc: Global,
    path: &PathRef,
    place: u64,
    cluster: &mut Cluster,
    value: &Value,
) -> Result<(), InstanceFault>
    requires { length cluster.old.given.nodes < max_nodes }
    ensures gives { Gives instance_fault_of (λ _. cluster.new.given) result
        (node_step (path_of path.now) place cluster.old.given (view value.now)) }
    ensures longer { OnOk result (length cluster.new.given.nodes ≡ length cluster.old.given.nodes + 1) }
    ensures machines { OnOk result (cluster.new.given.machines ≡ cluster.old.given.machines) }
{
    let node = node(alloc, cluster, value, &path.item(place))?;
    add_node(cluster, node)?;
    Ok(())
}

#[tactic(auto, using(json_walk::proofs::Public::loop_rules))]
fn nodes_in(
    alloc: Global,
    cluster: &mut Cluster,
    values: &[Value],
    path: &PathRef,
) -> Result<(), InstanceFault>
    requires empty { cluster.old.given.nodes ≡ [] }
    requires few { length values.now ≤ max_nodes }
    ensures gives { Gives instance_fault_of (λ _. cluster.new.given) result
        (each (node_step (path_of path.now)) 0 cluster.old.given (map view values.now)) }
    ensures machines { OnOk result (cluster.new.given.machines ≡ cluster.old.given.machines) }
{
    for (i, value) in values.iter().enumerate() {
        push_node(alloc, path, i as u64, cluster, value)?;
    }
    Ok(())
}

/// Adds the listed nodes.
#[tactic(auto, unfolding(crate::specs::Elements::nodes_from))]
pub(crate) fn add_nodes(
    alloc: Global,
    cluster: &mut Cluster,
    value: &Value,
    path: &PathRef,
) -> Result<(), InstanceFault>
    requires { cluster.old.given.nodes ≡ [] }
    ensures gives { Gives instance_fault_of (λ _. cluster.new.given) result
        (nodes_from cluster.old.given (view value.now) (path_of path.now)) }
    ensures machines { OnOk result (cluster.new.given.machines ≡ cluster.old.given.machines) }
{
    let values = json_walk::list_at(alloc, value, path)?;
    if values.len() > MAX_NODES {
        return Err(InstanceFault::Limit(path.to_text(alloc)?));
    }
    nodes_in(alloc, cluster, values, path)
}
