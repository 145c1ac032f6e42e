//! Clusters: what was added to them, each refusal, and how names find elements.
ghost use Rattle.std.proofs.Props.{props};
ghost use Rattle.std.specs.Prelude.{◌≡◌, ◌++◌, ◌∷◌, [], ◌<◌, ◌≤◌, ℕ, List, length, IfOk, IfErr, OnOk, OnErr, unwrap_or, IsTrue, IsNone, IsOk, IfSome, Some, true, if◌then◌else◌};
ghost use Rattle.std.specs.HashMap.{IsUnchanged};
ghost use Rattle.std.specs.List.{position, list_any, All};
ghost use Rattle.std.specs.Str.{bytes_eq};
ghost use Rattle.cluster.specs.Names.{is_name};
ghost use Rattle.cluster.specs.Inventory.{IsInventory, IsListed, element_named, name_of, resource_named, are_distinct, base_fault, node_fault, machine_fault, host_is_online, has_places};
ghost use Rattle.cluster.specs.Elements.{element_at, element_count, element_number};
ghost use Rattle.cluster.specs.ByName.{at_name};

use crate::durations::Duration;
use crate::fits::{are_durations, is_fitting_machine, is_fitting_node};
use crate::ids::{Element, NodeId, VmId};
use crate::kinds::KIND_COUNT;
use crate::limits::{MAX_MACHINES, MAX_NODES, MAX_RESOURCES};
use crate::machines::Machine;
use crate::names::Name;
use crate::nodes::Node;
use crate::states::State;
use base::Memory;
use std::alloc::{AllocError, Global};
use std::collections::HashMap;
use std::marker::Model;
use thiserror::Error;

/// Why a cluster, a node or a machine was refused. Where several hold, the first in this order is the answer.
#[derive(Clone, Copy, Debug, PartialEq, Eq, Error)]
pub enum AddFault {
    /// There would be more than `MAX_RESOURCES`, `MAX_NODES` or `MAX_MACHINES`.
    #[error("too many")]
    TooMany,
    /// The name is there: among the resources, or among the nodes and machines together.
    #[error("the name is there")]
    Twice,
    /// The machine's host is not an online node of the cluster.
    #[error("the host is not online")]
    BadHost,
    /// An amount is above `MAX_AMOUNT`, or above 0 at a place past the listed resources;
    /// or a duration has a `base` that is 0 or above `MAX_DURATION`, a `per` above that, a `per` above 0 without a resource,
    /// a resource that is not listed, or is of a kind of the other sort of element.
    #[error("too great")]
    TooGreat,
    /// An allocation was refused.
    #[error("out of memory")]
    Memory,
}

impl From<AllocError> for AddFault {
    ghost use Rattle.cluster.specs.declared.inventory.AddFault.TheVariants.{Memory as NoMemory};

    ghost from_gives = { λ _ e. e ≡ NoMemory };

    fn from(_error: AllocError) -> AddFault {
        AddFault::Memory
    }
}

impl From<Memory> for AddFault {
    ghost use Rattle.cluster.specs.declared.inventory.AddFault.TheVariants.{Memory as NoMemory};

    ghost from_gives = { λ _ e. e ≡ NoMemory };

    fn from(_error: Memory) -> AddFault {
        AddFault::Memory
    }
}

/// Resources, durations, nodes and machines, each numbered in the order in which it came.
///
/// Nothing stands in a cluster that `Name::new`, `new`, `add_node` or `add_machine` refuses, and every `&Cluster` says so.
/// A name finds its element in constant time.
#[derive(Drop)]
pub struct Cluster {
    resources: Vec<Name>,
    durations: [Duration; KIND_COUNT],
    nodes: Vec<Node>,
    machines: Vec<Machine>,
    by_name: HashMap<Vec<u8>, Element>,
    ghost sound: { IsInventory (record { resources = resources.items; durations = durations; nodes = nodes.items; machines = machines.items }) } by { Prim.hlevel props },
}

impl Model for Cluster {
    ghost use Rattle.cluster.specs.Inventory.{SoundInventory};

    ghost Value = { SoundInventory };

    ghost use Rattle.cluster.specs.Tables.{inventory_of, IsIndexed};

    ghost view = { λ a. record { given = inventory_of a; sound = a.sound } };

    ghost invariant = { IsIndexed };
}

impl Cluster {
    /// A cluster without nodes and machines, with the durations of the ten kinds in their order.
    /// Its faults are `TooMany`, `Twice`, `TooGreat` and `Memory`, the first that holds.
    pub fn new(
        alloc: Global,
        resources: Vec<Name>,
        durations: [Duration; KIND_COUNT],
    ) -> Result<Cluster, AddFault>
        ensures fault { IfErr result (λ e. e ≡ unwrap_or (base_fault resources.items durations) AddFault.Memory) }
        ensures good { OnOk result (base_fault resources.items durations ≡ None) }
        ensures made { base_fault resources.items durations ≡ None → IsOk result }
        ensures cluster { IfOk result (λ k. k.given ≡ record { resources = resources.items; durations = durations; nodes = []; machines = [] }) }
    {
        if let Some(fault) = fault_of_base(&resources, &durations) {
            return Err(fault);
        }
        Ok(Cluster {
            resources,
            durations,
            nodes: Vec::new(alloc),
            machines: Vec::new(alloc),
            by_name: HashMap::new(alloc),
        })
    }

    /// The resources in their order.
    pub fn resources(&self) -> &[Name]
        ensures resources { result.now ≡ self.now.given.resources }
    {
        &self.resources
    }

    /// The durations of the ten kinds, for elements without one of their own.
    pub fn durations(&self) -> &[Duration; KIND_COUNT]
        ensures durations { result.now ≡ self.now.given.durations }
    {
        &self.durations
    }

    /// The resource of that name, by its place; `None` exactly where there is none.
    pub fn resource(&self, name: &[u8]) -> Option<u8>
        ensures resource { result ≡ resource_named self.now.given name.now }
        ensures listed { IfSome result (λ r. r < length self.now.given.resources) }
    {
        match place_of(&self.resources, name) {
            Some(place) => Some(place as u8),
            None => None,
        }
    }

    /// The nodes in their order.
    pub fn nodes(&self) -> &[Node]
        ensures nodes { result.now ≡ self.now.given.nodes }
    {
        &self.nodes
    }

    /// The machines in their order.
    pub fn machines(&self) -> &[Machine]
        ensures machines { result.now ≡ self.now.given.machines }
    {
        &self.machines
    }

    /// The element of that name; `None` exactly where there is none.
    pub fn find(&self, name: &[u8]) -> Option<Element>
        ensures element { result ≡ element_named self.now.given name.now }
        ensures listed { IfSome result (IsListed self.now.given) }
    {
        self.by_name.get(name).copied()
    }

    /// How many elements there are: machines and nodes.
    pub fn element_count(&self) -> usize
        ensures count { result ≡ element_count self.now.given }
    {
        self.machines.len() + self.nodes.len()
    }

    /// The element of a number: the machines come first, and then the nodes.
    pub fn element(&self, x: usize) -> Element
        requires { x < element_count self.now.given }
        ensures element { result ≡ element_at self.now.given x }
        ensures listed { IsListed self.now.given result }
        ensures number { element_number self.now.given result ≡ x }
    {
        let machines = self.machines.len();
        if x < machines {
            Element::Vm(VmId(x as u32))
        } else {
            Element::Node(NodeId((x - machines) as u32))
        }
    }

    /// The number of an element.
    pub fn number(&self, e: Element) -> usize
        requires { IsListed self.now.given e }
        ensures number { result ≡ element_number self.now.given e }
        ensures within { result < element_count self.now.given }
    {
        match e {
            Element::Vm(v) => v.0 as usize,
            Element::Node(n) => self.machines.len() + n.0 as usize,
        }
    }

    /// The name of an element.
    pub fn name(&self, e: Element) -> &str
        requires { IsListed self.now.given e }
        ensures name { result.now ≡ name_of self.now.given e }
    {
        match e {
            Element::Vm(v) => self.machines[v.0 as usize].name.as_text(),
            Element::Node(n) => self.nodes[n.0 as usize].name.as_text(),
        }
    }

    // what is wrong with one more node
    fn fault_of_node(&self, node: &Node) -> Option<AddFault>
        ensures fault { result ≡ node_fault self.now.given node.now }
        ensures named { IsTrue (is_name node.now.name) }
        ensures places { IsTrue (has_places node.now.capacity node.now.own) }
    {
        let name = node.name.as_text();
        if self.nodes.len() >= MAX_NODES {
            return Some(AddFault::TooMany);
        }
        if self.find(name.as_bytes()).is_some() {
            return Some(AddFault::Twice);
        }
        if !is_fitting_node(self.resources.len(), node) {
            return Some(AddFault::TooGreat);
        }
        None
    }

    // what is wrong with one more machine
    fn fault_of_machine(&self, machine: &Machine) -> Option<AddFault>
        ensures fault { result ≡ machine_fault self.now.given machine.now }
        ensures named { IsTrue (is_name machine.now.name) }
        ensures places { IsTrue (has_places machine.now.usage machine.now.own) }
    {
        let name = machine.name.as_text();
        if self.machines.len() >= MAX_MACHINES {
            return Some(AddFault::TooMany);
        }
        if self.find(name.as_bytes()).is_some() {
            return Some(AddFault::Twice);
        }
        if !is_host_online(&self.nodes, machine.state) {
            return Some(AddFault::BadHost);
        }
        if !is_fitting_machine(self.resources.len(), machine) {
            return Some(AddFault::TooGreat);
        }
        None
    }

    /// Adds a node at the end of the list. After a fault the cluster is as it was.
    pub fn add_node(&mut self, node: Node) -> Result<NodeId, AddFault>
        ensures fault { IfErr result (λ e. e ≡ unwrap_or (node_fault self.old.given node) AddFault.Memory) }
        ensures good { OnOk result (node_fault self.old.given node ≡ None) }
        ensures id { IfOk result (λ n. n.0 ≡ length self.old.given.nodes) }
        ensures added { OnOk result (self.new.given ≡ record self.old.given { nodes = self.old.given.nodes ++ node ∷ [] }) }
        ensures kept { OnErr result (self.new.given ≡ self.old.given) }
    {
        if let Some(fault) = self.fault_of_node(&node) {
            return Err(fault);
        }
        let id = NodeId(self.nodes.len() as u32);
        self.nodes.reserve(1)?;
        add_name(&mut self.by_name, &node.name, Element::Node(id))?;
        self.nodes.push(node).unwrap();
        Ok(id)
    }

    /// Adds a machine at the end of the list. After a fault the cluster is as it was.
    pub fn add_machine(&mut self, machine: Machine) -> Result<VmId, AddFault>
        ensures fault { IfErr result (λ e. e ≡ unwrap_or (machine_fault self.old.given machine) AddFault.Memory) }
        ensures good { OnOk result (machine_fault self.old.given machine ≡ None) }
        ensures id { IfOk result (λ v. v.0 ≡ length self.old.given.machines) }
        ensures added { OnOk result (self.new.given ≡ record self.old.given { machines = self.old.given.machines ++ machine ∷ [] }) }
        ensures kept { OnErr result (self.new.given ≡ self.old.given) }
    {
        if let Some(fault) = self.fault_of_machine(&machine) {
            return Err(fault);
        }
        let id = VmId(self.machines.len() as u32);
        self.machines.reserve(1)?;
        add_name(&mut self.by_name, &machine.name, Element::Vm(id))?;
        self.machines.push(machine).unwrap();
        Ok(id)
    }
}

// the place of a name in a list
fn place_of(names: &[Name], name: &[u8]) -> Option<usize>
    ensures { result ≡ position (bytes_eq name.now) names.now }
{
    names.iter().position(|x| name == x.as_text().as_bytes())
}

// whether the list has the name
fn has_name(names: &[Name], name: &Name) -> bool
    ensures any { result ≡ list_any (bytes_eq name.now) names.now }
    ensures named { IsTrue (is_name name.now) }
{
    let name = name.as_text().as_bytes();
    names.iter().any(|x| name == x.as_text().as_bytes())
}

// whether no name stands twice in the list
fn are_all_distinct(names: &[Name]) -> bool
    ensures distinct { result ≡ are_distinct names.now }
    ensures named { IsTrue result → All (λ name. is_name name ≡ true) names.now }
{
    match names {
        [] => true,
        [first, rest @ ..] => !has_name(rest, first) && are_all_distinct(rest),
    }
}

// what is wrong with the resources and the durations
fn fault_of_base(resources: &[Name], durations: &[Duration]) -> Option<AddFault>
    ensures fault { result ≡ base_fault resources.now durations.now }
    ensures named { IsNone result → All (λ name. is_name name ≡ true) resources.now }
{
    if resources.len() > MAX_RESOURCES {
        return Some(AddFault::TooMany);
    }
    if !are_all_distinct(resources) {
        return Some(AddFault::Twice);
    }
    if !are_durations(resources.len(), durations) {
        return Some(AddFault::TooGreat);
    }
    None
}

// whether the host of a state, if it has one, is an online node of the list
fn is_host_online(nodes: &[Node], state: State) -> bool
    ensures { result ≡ host_is_online nodes.now state }
{
    match state {
        State::Running(h) | State::Sleeping(h) => match nodes.get(h.0 as usize) {
            Some(node) => node.online,
            None => false,
        },
        State::Init | State::Ready | State::Gone => true,
    }
}

// puts an element under its name
fn add_name(
    by_name: &mut HashMap<Vec<u8>, Element>,
    name: &Name,
    element: Element,
) -> Result<(), Memory>
    ensures added { OnOk result ((other : List ℕ) → at_name by_name.new other ≡ (if bytes_eq name.now other then Some element else at_name by_name.old other)) }
    ensures kept { OnErr result (IsUnchanged by_name.old by_name.new) }
{
    let key = name.to_bytes()?;
    let _ = by_name.insert(key, element)?;
    Ok(())
}
