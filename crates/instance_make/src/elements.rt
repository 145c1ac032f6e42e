//! Nodes and machines as objects.

ghost use Rattle.std.specs.Prelude.{◌≡◌, None, IfOk, OnOk, codes};
ghost use Rattle.instance_make.specs.Prelude.{host_data, machine_data, members, node_data, put_if};
ghost use Rattle.serde_json.specs.View.{view};
ghost use Rattle.serde_json.specs.Find.{get_member};

use crate::amounts::{amounts_value, put_own};
use crate::names::node_name;
use base::Memory;
use cluster::{Cluster, Machine, Node, State};
use json_text::{ObjectOut, flag, word};
use serde_json::Value;
use std::alloc::Global;

/// A node.
#[tactic(auto, unfolding(crate::specs::Elements::node_data))]
pub(crate) fn node_value(alloc: Global, cluster: &Cluster, node: &Node) -> Result<Value, Memory>
    ensures { IfOk result (λ d. view d ≡ node_data cluster.now.given node.now) }
{
    let mut object = ObjectOut::new(alloc);
    object.put("name", word(alloc, node.name.as_text())?)?;
    object.put("online", flag(node.online))?;
    object.put("capacity", amounts_value(alloc, cluster, &node.capacity)?)?;
    put_own(alloc, cluster.resources(), &node.own, &mut object)?;
    Ok(object.finish())
}

/// Adds the host of a state, if it has one.
fn put_host(
    alloc: Global,
    cluster: &Cluster,
    state: State,
    object: &mut ObjectOut,
) -> Result<(), Memory>
    requires { get_member (codes "node") (members object.old) ≡ None }
    ensures { let host = host_data cluster.now.given state in
        OnOk result (members object.new ≡ put_if (codes "node") host (members object.old)) }
{
    match state {
        State::Running(host) | State::Sleeping(host) => {
            object.put("node", node_name(alloc, cluster, host)?)
        }
        State::Init | State::Ready | State::Gone => Ok(()),
    }
}

/// A machine.
#[tactic(auto, using(crate::proofs::Putting::free_rules), unfolding(crate::specs::Elements::machine_data))]
pub(crate) fn machine_value(
    alloc: Global,
    cluster: &Cluster,
    machine: &Machine,
) -> Result<Value, Memory>
    ensures { IfOk result (λ d. view d ≡ machine_data cluster.now.given machine.now) }
{
    let mut object = ObjectOut::new(alloc);
    object.put("name", word(alloc, machine.name.as_text())?)?;
    object.put("state", word(alloc, machine.state.word())?)?;
    object.put("use", amounts_value(alloc, cluster, &machine.usage)?)?;
    put_host(alloc, cluster, machine.state, &mut object)?;
    put_own(alloc, cluster.resources(), &machine.own, &mut object)?;
    Ok(object.finish())
}
