//! Names of machines, nodes and resources. The name of one that is not listed is empty.

ghost use Rattle.std.specs.Prelude.{◌≡◌, [], IfOk, slice_index_or};
ghost use Rattle.instance_make.specs.Prelude.{machine_name, name_of, Node as NodeElement, node_name, resource_name, Vm};
ghost use Rattle.serde_json.specs.View.{view};

use base::Memory;
use cluster::{Cluster, Name, NodeId, VmId};
use json_text::word;
use serde_json::Value;
use std::alloc::Global;

#[tactic(auto, using(crate::proofs::NameLemmas::name_rules))]
fn text_of_machine(cluster: &Cluster, v: VmId) -> &str
    ensures { result.now ≡ name_of cluster.now.given (Vm v) }
{
    match cluster.machines().get(v.0 as usize) {
        Some(machine) => machine.name.as_text(),
        None => "",
    }
}

#[tactic(auto, using(crate::proofs::NameLemmas::name_rules))]
fn text_of_node(cluster: &Cluster, n: NodeId) -> &str
    ensures { result.now ≡ name_of cluster.now.given (NodeElement n) }
{
    match cluster.nodes().get(n.0 as usize) {
        Some(node) => node.name.as_text(),
        None => "",
    }
}

#[tactic(auto, using(crate::proofs::NameLemmas::name_rules))]
fn text_of_resource(resources: &[Name], r: u8) -> &str
    ensures { result.now ≡ slice_index_or resources.now r [] }
{
    match resources.get(r as usize) {
        Some(name) => name.as_text(),
        None => "",
    }
}

/// The name of a machine as a value.
pub(crate) fn machine_name(alloc: Global, cluster: &Cluster, v: VmId) -> Result<Value, Memory>
    ensures { IfOk result (λ d. view d ≡ machine_name cluster.now.given v) }
{
    word(alloc, text_of_machine(cluster, v))
}

/// The name of a node as a value.
pub(crate) fn node_name(alloc: Global, cluster: &Cluster, n: NodeId) -> Result<Value, Memory>
    ensures { IfOk result (λ d. view d ≡ node_name cluster.now.given n) }
{
    word(alloc, text_of_node(cluster, n))
}

/// The name of a resource as a value.
pub(crate) fn resource_name(alloc: Global, resources: &[Name], r: u8) -> Result<Value, Memory>
    ensures { IfOk result (λ d. view d ≡ resource_name resources.now r) }
{
    word(alloc, text_of_resource(resources, r))
}
