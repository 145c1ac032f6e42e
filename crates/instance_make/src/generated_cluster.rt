//! The cluster of a generated problem: 40 nodes with five machines each.

ghost use Rattle.std.specs.Prelude.{◌≡◌, ◌+◌, ◌∷◌, ◌++◌, ◌<◌, [], None, IfOk, OnOk, map, true};
ghost use Rattle.std.specs.Fmt.{decimal};
ghost use Rattle.instance_make.specs.Prelude.{amounts, cpu_of, generated_duration, generated_machine, generated_node, generated_resources, is_name, kinds, machine_total, machines_to, mem_of, node_total, nodes_to};

use base::Memory;
use cluster::kinds::KIND_COUNT;
use cluster::limits::MAX_RESOURCES;
use cluster::names::NameFault;
use cluster::{Cluster, Duration, Kind, Machine, Name, Node, NodeId, State};
use remake::{add_machine, add_node, new_cluster};
use std::alloc::Global;

/// How many nodes there are.
pub(crate) const NODES: u32 = 40;

/// How many machines there are.
const MACHINES: u32 = 200;

fn name(alloc: Global, text: &str) -> Result<Name, Memory>
    requires { is_name text.now ≡ true }
    ensures { IfOk result (λ n. n ≡ text.now) }
{
    match Name::new(alloc, text.as_bytes()) {
        Ok(name) => Ok(name),
        Err(NameFault::Memory) => Err(Memory),
        Err(NameFault::BadName) => unreachable!(),
    }
}

fn numbered(alloc: Global, letter: &str, number: u32) -> Result<Name, Memory>
    requires { is_name (letter.now ++ decimal number) ≡ true }
    ensures { IfOk result (λ n. n ≡ letter.now ++ decimal number) }
{
    let text = format!(in alloc; "{letter}{number}")?;
    name(alloc, text.as_str())
}

#[tactic(auto, unfolding(cluster::specs::Names::is_name))]
fn resources(alloc: Global) -> Result<Vec<Name>, Memory>
    ensures { IfOk result (λ names. names.items ≡ generated_resources) }
{
    let mut names = Vec::new(alloc);
    names.push(name(alloc, "cpu")?)?;
    names.push(name(alloc, "mem")?)?;
    Ok(names)
}

/// How long actions of each kind last.
#[tactic(auto, unfolding(cluster::specs::Kinds::kinds))]
fn durations() -> [Duration; KIND_COUNT]
    ensures { result ≡ map generated_duration kinds }
{
    let one = Duration {
        base: 1,
        per: 0,
        resource: None,
    };
    let mut durations = [one; KIND_COUNT];
    durations[Kind::Migrate.number()] = Duration {
        base: 2,
        per: 1,
        resource: Some(1),
    };
    durations[Kind::NodeBoot.number()] = Duration { base: 4, ..one };
    durations[Kind::NodeShutdown.number()] = Duration { base: 2, ..one };
    durations
}

/// Amounts of cpu and mem.
fn amounts(cpu: u64, mem: u64) -> [u64; MAX_RESOURCES]
    ensures { result ≡ amounts cpu mem }
{
    let mut amounts = [0; MAX_RESOURCES];
    amounts[0] = cpu;
    amounts[1] = mem;
    amounts
}

#[tactic(auto, using(crate::proofs::Faultless::node_name_rules), unfolding(crate::specs::Generated::generated_node))]
fn node(alloc: Global, n: u32) -> Result<Node, Memory>
    requires { n < node_total }
    ensures { IfOk result (λ node. node ≡ generated_node n) }
{
    Ok(Node {
        name: numbered(alloc, "n", n)?,
        online: true,
        capacity: amounts(32, 64),
        own: [None; KIND_COUNT],
    })
}

#[tactic(auto, using(crate::proofs::Faultless::machine_name_rules), unfolding(crate::specs::Generated::generated_machine, crate::specs::Generated::cpu_of, crate::specs::Generated::mem_of))]
fn machine(alloc: Global, seed: u64, i: u32) -> Result<Machine, Memory>
    requires { i < machine_total }
    ensures { IfOk result (λ machine. machine ≡ generated_machine seed i) }
{
    let number = u64::from(i);
    let cpu = 1 + (seed % 4 + number) % 4;
    let mem = 1 + (seed % 8 + number + number / 40) % 8;
    Ok(Machine {
        name: numbered(alloc, "v", i)?,
        state: State::Running(NodeId(i % NODES)),
        usage: amounts(cpu, mem),
        own: [None; KIND_COUNT],
    })
}

/// Adds the node of a number, where those before it are there.
#[tactic(auto, using(crate::proofs::Faultless::node_rules))]
fn push_node(alloc: Global, cluster: &mut Cluster, n: u32) -> Result<(), Memory>
    requires number { n < node_total }
    requires before { cluster.old.given ≡ nodes_to n }
    ensures { OnOk result (cluster.new.given ≡ nodes_to (n + 1)) }
{
    add_node(cluster, node(alloc, n)?)
}

/// Adds the machine of a number, where those before it are there.
#[tactic(auto, using(crate::proofs::Faultless::machine_rules))]
fn push_machine(alloc: Global, cluster: &mut Cluster, seed: u64, i: u32) -> Result<(), Memory>
    requires number { i < machine_total }
    requires before { cluster.old.given ≡ machines_to seed i }
    ensures { OnOk result (cluster.new.given ≡ machines_to seed (i + 1)) }
{
    add_machine(cluster, machine(alloc, seed, i)?)
}

/// A cluster without nodes and machines.
#[tactic(auto, unfolding(crate::specs::Building::nodes_to, cluster::specs::Kinds::kinds))]
fn bare_cluster(alloc: Global) -> Result<Cluster, Memory>
    ensures { IfOk result (λ k. k.given ≡ nodes_to 0) }
{
    new_cluster(alloc, resources(alloc)?, durations())
}

/// The whole cluster.
#[tactic(auto, using(crate::proofs::Faultless::start_rules))]
pub(crate) fn cluster(alloc: Global, seed: u64) -> Result<Cluster, Memory>
    ensures { IfOk result (λ k. k.given ≡ machines_to seed machine_total) }
{
    let mut cluster = bare_cluster(alloc)?;
    for n in 0..NODES {
        push_node(alloc, &mut cluster, n)?;
    }
    for i in 0..MACHINES {
        push_machine(alloc, &mut cluster, seed, i)?;
    }
    Ok(cluster)
}
