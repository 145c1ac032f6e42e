//! From a problem to its text.

ghost use Rattle.std.specs.Prelude.{◌≡◌, ◌≤◌, Ok, IfOk, length, map};
ghost use Rattle.instance_make.specs.Prelude.{constraint_data, instance_data, instance_of, instance_text, list_data, machine_data, max_text_bytes, node_data};
ghost use Rattle.serde_json.specs.Data.{string};
ghost use Rattle.serde_json.specs.View.{view};

use crate::amounts::base_durations_value;
use crate::elements::{machine_value, node_value};
use crate::rules::constraint_value;
use base::Memory;
use catalogue::{Constraint, Problem};
use cluster::{Cluster, Machine, Name, Node};
use json_text::{ListOut, ObjectOut, number, print, word};
use serde_json::Value;
use std::alloc::Global;

fn resources_list(alloc: Global, resources: &[Name]) -> Result<Value, Memory>
    ensures { IfOk result (λ d. view d ≡ list_data (map string resources.now)) }
{
    let mut list = ListOut::new(alloc);
    for name in resources {
        list.push(word(alloc, name.as_text())?)?;
    }
    Ok(list.finish())
}

fn nodes_list(alloc: Global, cluster: &Cluster, nodes: &[Node]) -> Result<Value, Memory>
    ensures { IfOk result (λ d. view d ≡ list_data (map (node_data cluster.now.given) nodes.now)) }
{
    let mut list = ListOut::new(alloc);
    for node in nodes {
        list.push(node_value(alloc, cluster, node)?)?;
    }
    Ok(list.finish())
}

fn machines_list(alloc: Global, cluster: &Cluster, machines: &[Machine]) -> Result<Value, Memory>
    ensures { let object = list_data (map (machine_data cluster.now.given) machines.now) in
        IfOk result (λ d. view d ≡ object) }
{
    let mut list = ListOut::new(alloc);
    for machine in machines {
        list.push(machine_value(alloc, cluster, machine)?)?;
    }
    Ok(list.finish())
}

fn constraints_list(
    alloc: Global,
    cluster: &Cluster,
    constraints: &[Constraint],
) -> Result<Value, Memory>
    ensures { let object = list_data (map (constraint_data cluster.now.given) constraints.now) in
        IfOk result (λ d. view d ≡ object) }
{
    let mut list = ListOut::new(alloc);
    for constraint in constraints {
        list.push(constraint_value(alloc, cluster, constraint)?)?;
    }
    Ok(list.finish())
}

/// The whole problem as an object.
#[tactic(auto, unfolding(crate::specs::Text::instance_data))]
fn instance_value(alloc: Global, p: &Problem) -> Result<Value, Memory>
    ensures { IfOk result (λ d. view d ≡ instance_data p.now.given) }
{
    let cluster = p.cluster();
    let mut object = ObjectOut::new(alloc);
    object.put("horizon", number(u64::from(p.horizon())))?;
    object.put("resources", resources_list(alloc, cluster.resources())?)?;
    object.put("durations", base_durations_value(alloc, cluster)?)?;
    object.put("nodes", nodes_list(alloc, cluster, cluster.nodes())?)?;
    object.put(
        "machines",
        machines_list(alloc, cluster, cluster.machines())?,
    )?;
    object.put(
        "constraints",
        constraints_list(alloc, cluster, p.constraints())?,
    )?;
    Ok(object.finish())
}

/// The text of a problem: compact JSON and a newline, the keys of each object in ascending order.
///
/// Where it has at most 67,108,864 bytes, it reads back to the problem.
#[tactic(auto, using(crate::proofs::Printed::plain_instance), unfolding(crate::specs::Text::instance_text))]
pub fn print_instance(alloc: Global, p: &Problem) -> Result<Vec<u8>, Memory>
    ensures text { IfOk result (λ b. b.items ≡ instance_text p.now.given) }
    ensures reads_back { IfOk result (λ b. length b.items ≤ max_text_bytes
        → instance_of b.items ≡ Ok p.now.given) }
{
    let value = instance_value(alloc, p)?;
    Ok(print(alloc, &value)?)
}
