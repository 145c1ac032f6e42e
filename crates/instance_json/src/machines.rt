//! Machines.

ghost use Rattle.std.specs.Prelude.{◌≡◌, ◌<◌, ◌≤◌, ◌+◌, ◌++◌, ◌∷◌, [], IfOk, OnOk, codes, length, map, true, false};
ghost use Rattle.instance_json.specs.Prelude.{each, Field, field_by, Gives, host_from, host_is_online, instance_fault_of, is_online, is_taken, machine_fits, machine_from, machine_keys, machine_step, machines_from, max_machines, only_keys, path_of, state_by, state_from, state_words, word_field};
ghost use Rattle.serde_json.specs.View.{view};

use crate::amounts::amounts_at;
use crate::durations::{Owner, own_durations};
use crate::fault::InstanceFault;
use crate::keys::{HOSTED_KEYS, MACHINE_KEYS};
use crate::names;
use crate::nodes::element_name;
use crate::states::{STATES, StateWord};
use base::Memory;
use cluster::inventory::AddFault;
use cluster::limits::MAX_MACHINES;
use cluster::states::STATE_WORDS;
use cluster::{Cluster, Machine, NodeId, State};
use json_walk::PathRef;
use serde_json::Value;
use std::alloc::Global;

/// A listed node that is online.
#[tactic(auto, unfolding(crate::specs::Elements::host_from))]
fn host(
    alloc: Global,
    cluster: &Cluster,
    value: &Value,
    path: &PathRef,
) -> Result<NodeId, InstanceFault>
    ensures gives { Gives instance_fault_of (λ n. n) result
        (host_from cluster.now.given (view value.now) (path_of path.now)) }
    ensures online { IfOk result (λ n. is_online cluster.now.given.nodes n.0 ≡ true) }
{
    let n = names::node(alloc, cluster, value, path)?;
    if !cluster.nodes()[n.0 as usize].online {
        return Err(InstanceFault::BadHost(path.to_text(alloc)?));
    }
    Ok(n)
}

/// The member `node`, which must be there.
fn host_at(
    alloc: Global,
    cluster: &Cluster,
    value: &Value,
    path: &PathRef,
) -> Result<NodeId, InstanceFault>
    ensures gives { Gives instance_fault_of (λ n. n) result
        (field_by Field (host_from cluster.now.given) (view value.now) (path_of path.now) (codes "node")) }
    ensures online { IfOk result (λ n. is_online cluster.now.given.nodes n.0 ≡ true) }
{
    let found = json_walk::field_at(alloc, value, path, "node")?;
    host(alloc, cluster, found, &path.key("node"))
}

/// The word of a machine's state.
#[tactic(auto, unfolding(json_walk::specs::Members::word_field, cluster::specs::States::state_words))]
fn state_word(alloc: Global, value: &Value, path: &PathRef) -> Result<StateWord, InstanceFault>
    ensures { Gives instance_fault_of (λ w. w) result
        (word_field Field state_words STATES (view value.now) (path_of path.now) (codes "state")) }
{
    let place = json_walk::word_field(alloc, value, path, "state", &STATE_WORDS)?;
    Ok(STATES[place])
}

/// The state of that word.
#[tactic(auto, unfolding(crate::specs::Elements::state_by))]
fn state_by(
    alloc: Global,
    cluster: &Cluster,
    word: StateWord,
    value: &Value,
    path: &PathRef,
) -> Result<State, InstanceFault>
    ensures gives { Gives instance_fault_of (λ s. s) result
        (state_by cluster.now.given word (view value.now) (path_of path.now)) }
    ensures online { IfOk result (λ s. host_is_online cluster.now.given.nodes s ≡ true) }
{
    match word {
        StateWord::Init => Ok(State::Init),
        StateWord::Ready => Ok(State::Ready),
        StateWord::Running => Ok(State::Running(host_at(alloc, cluster, value, path)?)),
        StateWord::Sleeping => Ok(State::Sleeping(host_at(alloc, cluster, value, path)?)),
        StateWord::Gone => Ok(State::Gone),
    }
}

#[tactic(auto, unfolding(crate::specs::Elements::state_from))]
fn state(
    alloc: Global,
    cluster: &Cluster,
    value: &Value,
    path: &PathRef,
) -> Result<State, InstanceFault>
    ensures gives { Gives instance_fault_of (λ s. s) result
        (state_from cluster.now.given (view value.now) (path_of path.now)) }
    ensures online { IfOk result (λ s. host_is_online cluster.now.given.nodes s ≡ true) }
{
    let word = state_word(alloc, value, path)?;
    state_by(alloc, cluster, word, value, path)
}

/// An object without keys beside those of a machine in that state.
fn only_machine(
    alloc: Global,
    state: State,
    value: &Value,
    path: &PathRef,
) -> Result<(), InstanceFault>
    ensures { Gives instance_fault_of (λ _. tt) result
        (only_keys Field (machine_keys state) (view value.now) (path_of path.now)) }
{
    match state {
        State::Running(_) | State::Sleeping(_) => {
            json_walk::only_at(alloc, value, path, &HOSTED_KEYS)?
        }
        State::Init | State::Ready | State::Gone => {
            json_walk::only_at(alloc, value, path, &MACHINE_KEYS)?
        }
    }
    Ok(())
}

#[tactic(auto, unfolding(crate::specs::Elements::machine_from))]
fn machine(
    alloc: Global,
    cluster: &Cluster,
    value: &Value,
    path: &PathRef,
) -> Result<Machine, InstanceFault>
    ensures gives { Gives instance_fault_of (λ m. m) result
        (machine_from cluster.now.given (view value.now) (path_of path.now)) }
    ensures free { IfOk result (λ m. is_taken cluster.now.given m.name ≡ false) }
    ensures online { IfOk result (λ m. host_is_online cluster.now.given.nodes m.state ≡ true) }
    ensures fits { IfOk result (λ m. machine_fits (length cluster.now.given.resources) m ≡ true) }
{
    let name = element_name(alloc, cluster, value, path)?;
    let state = state(alloc, cluster, value, path)?;
    let usage = amounts_at(alloc, cluster.resources(), value, path, "use")?;
    let own = own_durations(alloc, cluster.resources(), Owner::Machine, value, path)?;
    only_machine(alloc, state, value, path)?;
    Ok(Machine {
        name,
        state,
        usage,
        own,
    })
}

/// Adds a machine that has no fault.
fn add_machine(cluster: &mut Cluster, machine: Machine) -> Result<(), Memory>
    requires room { length cluster.old.given.machines < max_machines }
    requires free { is_taken cluster.old.given machine.name ≡ false }
    requires online { host_is_online cluster.old.given.nodes machine.state ≡ true }
    requires fits { machine_fits (length cluster.old.given.resources) machine ≡ true }
    ensures { OnOk result (cluster.new.given ≡ record cluster.old.given { machines = cluster.old.given.machines ++ machine ∷ [] }) }
{
    match cluster.add_machine(machine) {
        Ok(_) => Ok(()),
        Err(AddFault::Memory) => Err(Memory),
        Err(_) => unreachable!(),
    }
}

#[tactic(auto, unfolding(crate::specs::Elements::machine_step))]
fn push_machine(
    alloc: Global,
    path: &PathRef,
    place: u64,
    cluster: &mut Cluster,
    value: &Value,
) -> Result<(), InstanceFault>
    requires { length cluster.old.given.machines < max_machines }
    ensures gives { Gives instance_fault_of (λ _. cluster.new.given) result
        (machine_step (path_of path.now) place cluster.old.given (view value.now)) }
    ensures longer { OnOk result (length cluster.new.given.machines ≡ length cluster.old.given.machines + 1) }
{
    let machine = machine(alloc, cluster, value, &path.item(place))?;
    add_machine(cluster, machine)?;
    Ok(())
}

#[tactic(auto, using(json_walk::proofs::Public::loop_rules))]
fn machines_in(
    alloc: Global,
    cluster: &mut Cluster,
    values: &[Value],
    path: &PathRef,
) -> Result<(), InstanceFault>
    requires empty { cluster.old.given.machines ≡ [] }
    requires few { length values.now ≤ max_machines }
    ensures { Gives instance_fault_of (λ _. cluster.new.given) result
        (each (machine_step (path_of path.now)) 0 cluster.old.given (map view values.now)) }
{
    for (i, value) in values.iter().enumerate() {
        push_machine(alloc, path, i as u64, cluster, value)?;
    }
    Ok(())
}

/// Adds the listed machines.
#[tactic(auto, unfolding(crate::specs::Elements::machines_from))]
pub(crate) fn add_machines(
    alloc: Global,
    cluster: &mut Cluster,
    value: &Value,
    path: &PathRef,
) -> Result<(), InstanceFault>
    requires { cluster.old.given.machines ≡ [] }
    ensures { Gives instance_fault_of (λ _. cluster.new.given) result
        (machines_from cluster.old.given (view value.now) (path_of path.now)) }
{
    let values = json_walk::list_at(alloc, value, path)?;
    if values.len() > MAX_MACHINES {
        return Err(InstanceFault::Limit(path.to_text(alloc)?));
    }
    machines_in(alloc, cluster, values, path)
}
