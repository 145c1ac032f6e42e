//! The whole instance.

ghost use Rattle.std.specs.Prelude.{◌≡◌, ◌≤◌, [], IfOk, codes, length, true};
ghost use Rattle.std.specs.List.{list_all};
ghost use Rattle.std.specs.Option.{ok_or};
ghost use Rattle.instance_json.specs.Prelude.{are_distinct, base_from, constraints_from, duration_fits, Field, field_by, Gives, instance_fault_of, instance_of, inventory_from, json_of, max_resources, NotJson, path_of, problem_from, walk};
ghost use Rattle.serde_json.specs.View.{view};

use crate::durations::base_durations;
use crate::fault::InstanceFault;
use crate::keys::ROOT_KEYS;
use crate::machines::add_machines;
use crate::names;
use crate::nodes::add_nodes;
use crate::rules::add_constraints;
use base::Memory;
use catalogue::Problem;
use catalogue::limits::MAX_HORIZON;
use cluster::inventory::AddFault;
use cluster::kinds::KIND_COUNT;
use cluster::{Cluster, Duration, Name};
use json_walk::{JsonFault, MAX_TEXT_BYTES, PathRef};
use serde_json::Value;
use std::alloc::Global;

/// The greatest horizon.
const LAST_INSTANT: u64 = MAX_HORIZON as u64;

/// A cluster without nodes and machines.
fn empty_cluster(
    alloc: Global,
    resources: Vec<Name>,
    durations: [Duration; KIND_COUNT],
) -> Result<Cluster, Memory>
    requires few { length resources.items ≤ max_resources }
    requires differ { are_distinct resources.items ≡ true }
    requires fit { list_all (duration_fits (length resources.items)) durations ≡ true }
    ensures { IfOk result (λ k. k.given ≡ record { resources = resources.items; durations = durations; nodes = []; machines = [] }) }
{
    match Cluster::new(alloc, resources, durations) {
        Ok(cluster) => Ok(cluster),
        Err(AddFault::Memory) => Err(Memory),
        Err(_) => unreachable!(),
    }
}

/// The members `resources` and `durations`.
#[tactic(auto, unfolding(crate::specs::Instance::base_from))]
fn base(alloc: Global, value: &Value, path: &PathRef) -> Result<Cluster, InstanceFault>
    ensures gives { Gives instance_fault_of (λ k. k.given) result (base_from (view value.now) (path_of path.now)) }
    ensures nodes { IfOk result (λ k. k.given.nodes ≡ []) }
    ensures machines { IfOk result (λ k. k.given.machines ≡ []) }
{
    let found = json_walk::field_at(alloc, value, path, "resources")?;
    let resources = names::resources(alloc, found, &path.key("resources"))?;
    let durations = base_durations(alloc, &resources, value, path)?;
    Ok(empty_cluster(alloc, resources, durations)?)
}

/// The members `resources`, `durations`, `nodes` and `machines`.
#[tactic(auto, unfolding(crate::specs::Instance::inventory_from))]
fn cluster(alloc: Global, value: &Value, path: &PathRef) -> Result<Cluster, InstanceFault>
    ensures { Gives instance_fault_of (λ k. k.given) result
        (inventory_from (view value.now) (path_of path.now)) }
{
    let mut cluster = base(alloc, value, path)?;
    let nodes = json_walk::field_at(alloc, value, path, "nodes")?;
    add_nodes(alloc, &mut cluster, nodes, &path.key("nodes"))?;
    let machines = json_walk::field_at(alloc, value, path, "machines")?;
    add_machines(alloc, &mut cluster, machines, &path.key("machines"))?;
    Ok(cluster)
}

/// Adds the member `constraints`.
fn constraints(
    alloc: Global,
    problem: &mut Problem,
    value: &Value,
    path: &PathRef,
) -> Result<(), InstanceFault>
    requires { problem.old.given.constraints ≡ [] }
    ensures { Gives instance_fault_of (λ _. problem.new.given) result
        (field_by Field (constraints_from problem.old.given) (view value.now) (path_of path.now) (codes "constraints")) }
{
    let found = json_walk::field_at(alloc, value, path, "constraints")?;
    add_constraints(alloc, problem, found, &path.key("constraints"))
}

/// All members.
#[tactic(auto, unfolding(crate::specs::Instance::problem_from))]
fn problem(alloc: Global, value: &Value, path: &PathRef) -> Result<Problem, InstanceFault>
    ensures { Gives instance_fault_of (λ p. p.given) result (problem_from (view value.now) (path_of path.now)) }
{
    let horizon = json_walk::number_field(alloc, value, path, "horizon", 0, LAST_INSTANT)?;
    let cluster = cluster(alloc, value, path)?;
    let mut problem = Problem::new(alloc, cluster, horizon as u32);
    constraints(alloc, &mut problem, value, path)?;
    Ok(problem)
}

/// All members, and no other key.
#[tactic(auto, unfolding(crate::specs::Instance::walk))]
fn walk(alloc: Global, value: &Value) -> Result<Problem, InstanceFault>
    ensures { Gives instance_fault_of (λ p. p.given) result (walk (view value.now)) }
{
    let problem = problem(alloc, value, &PathRef::Root)?;
    json_walk::only_at(alloc, value, &PathRef::Root, &ROOT_KEYS)?;
    Ok(problem)
}

/// The value that the bytes have.
fn value_of(alloc: Global, bytes: &[u8]) -> Result<Value, InstanceFault>
    ensures { Gives instance_fault_of view result (ok_or (json_of bytes.now) NotJson) }
{
    match json_walk::read_value(alloc, bytes) {
        Ok(value) => Ok(value),
        Err(JsonFault::NotJson) => Err(InstanceFault::NotJson),
        Err(JsonFault::Memory) => Err(InstanceFault::Memory),
    }
}

/// The problem that the bytes have, or their first fault.
///
/// The bytes are one JSON object: the horizon, the names of the resources, durations, nodes,
/// machines and constraints. More than `json_walk::MAX_TEXT_BYTES` bytes are too long, and bytes without a value that
/// `serde_json` reads are no JSON. Of all other faults the first one is answered in the order of the
/// walk that `specs/Instance.antt` writes out, with its path. Want of memory may stand in the place
/// of any answer.
#[tactic(auto, unfolding(crate::specs::Instance::instance_of))]
pub fn read_instance(alloc: Global, bytes: &[u8]) -> Result<Problem, InstanceFault>
    ensures { Gives instance_fault_of (λ p. p.given) result (instance_of bytes.now) }
{
    if bytes.len() > MAX_TEXT_BYTES {
        return Err(InstanceFault::TooLong);
    }
    let value = value_of(alloc, bytes)?;
    walk(alloc, &value)
}
