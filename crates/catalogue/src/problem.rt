//! Problems.
ghost use Rattle.std.specs.Prelude.{◌≡◌, ◌++◌, ◌∷◌, [], ◌<◌, ◌≤◌, length, IfErr, OnOk, OnErr, unwrap_or};
ghost use Rattle.std.proofs.Props.{props};
ghost use Rattle.cluster.specs.Limits.{max_amount};
ghost use Rattle.catalogue.specs.Limits.{max_capacity, max_horizon};
ghost use Rattle.catalogue.specs.Instance.{IsElement, IsInstance, inventory_of, rule_fault};
ghost use Rattle.catalogue.specs.Values.{demand_of, capacity_of, wanted_of, applies_at};

use crate::constraint::{Constraint, RuleFault};
use crate::demands::preserved_at;
use crate::faults::fault_of;
use crate::limits::MAX_CONSTRAINTS;
use crate::overbooking::{limit_at, written};
use crate::tables::Tables;
use crate::targets::Wish;
use crate::wishes::wish_at;
use cluster::{Cluster, Element, Instant, NodeId, VmId};
use std::alloc::Global;
use std::marker::Model;

/// A cluster, the last instant of a plan, and the constraints, numbered from 0 in the order in
/// which they came: BtrPlace's model with its satisfaction constraints.
///
/// Contracts see it as plain data, `given`, with the fact that it is sound, `sound`. Demands,
/// capacities and wishes are kept ready, so each is answered at once.
#[derive(Drop)]
pub struct Problem {
    cluster: Cluster,
    horizon: Instant,
    constraints: Vec<Constraint>,
    tables: Tables,
    ghost sound: { IsInstance (record { resources = cluster.given.resources; durations = cluster.given.durations; nodes = cluster.given.nodes; machines = cluster.given.machines; horizon = horizon; constraints = constraints.items }) } by { Prim.hlevel props },
}

impl Model for Problem {
    ghost use Rattle.catalogue.specs.Instance.{SoundInstance};

    ghost Value = { SoundInstance };

    ghost use Rattle.catalogue.specs.Tables.{instance_of, IsKept};

    ghost view = { λ a. record { given = instance_of a; sound = a.sound } };

    ghost invariant = { IsKept };
}

impl Problem {
    /// A problem without constraints, made without memory.
    pub fn new(alloc: Global, cluster: Cluster, horizon: Instant) -> Problem
        requires { horizon ≤ max_horizon }
        ensures { result.given ≡ record { resources = cluster.given.resources; durations = cluster.given.durations; nodes = cluster.given.nodes; machines = cluster.given.machines; horizon = horizon; constraints = [] } }
    {
        Problem {
            cluster,
            horizon,
            constraints: Vec::new(alloc),
            tables: Tables::new(alloc),
        }
    }

    /// The cluster.
    pub fn cluster(&self) -> &Cluster
        ensures cluster { result.now.given ≡ inventory_of self.now.given }
    {
        &self.cluster
    }

    /// The last instant.
    pub fn horizon(&self) -> Instant
        ensures horizon { result ≡ self.now.given.horizon }
    {
        self.horizon
    }

    /// The constraints in their order.
    pub fn constraints(&self) -> &[Constraint]
        ensures constraints { result.now ≡ self.now.given.constraints }
    {
        &self.constraints
    }

    /// The demand of a machine for a resource: the greatest of its present use and all amounts
    /// that are to be preserved for it, in the unit of the resource.
    #[tactic(auto, unfolding(crate::specs::Values::demand_of))]
    pub fn demand(&self, v: VmId, r: u8) -> u64
        requires machine { v.0 < length self.now.given.machines }
        requires resource { r < length self.now.given.resources }
        ensures demand { result ≡ demand_of self.now.given v.0 r }
        ensures small { result ≤ max_amount }
    {
        let used = self.cluster.machines()[v.0 as usize].usage[r as usize];
        used.max(preserved_at(&self.tables.preserved, v, r))
    }

    /// The capacity of a node for a resource, in the unit of the resource: the written one, or,
    /// where constraints overbook it, the least of what they make of the written one.
    #[tactic(auto, unfolding(crate::specs::Values::capacity_of))]
    pub fn capacity(&self, n: NodeId, r: u8) -> u64
        requires node { n.0 < length self.now.given.nodes }
        requires resource { r < length self.now.given.resources }
        ensures capacity { result ≡ capacity_of self.now.given n.0 r }
        ensures small { result ≤ max_capacity }
    {
        limit_at(&self.tables.limits, n, r).unwrap_or(written(&self.cluster, n, r))
    }

    /// What is wanted of an element.
    pub fn wanted(&self, e: Element) -> Wish
        requires element { IsElement self.now.given e }
        ensures wanted { result ≡ wanted_of self.now.given e }
    {
        match e {
            Element::Vm(v) => wish_at(&self.tables.machine_wishes, v.0),
            Element::Node(n) => wish_at(&self.tables.node_wishes, n.0),
        }
    }

    /// Whether the constraint of that number is to hold at an instant: a continuous one at each,
    /// another one at the horizon. `Preserve` and the six wishes count among the others.
    pub fn applies(&self, c: u32, t: Instant) -> bool
        requires constraint { c < length self.now.given.constraints }
        ensures applies { result ≡ applies_at self.now.given c t }
    {
        self.constraints[c as usize].is_continuous() || t == self.horizon
    }

    /// What is wrong with one more constraint, want of memory apart.
    #[tactic(auto, unfolding(crate::specs::Instance::rule_fault))]
    fn fault_of_rule(&self, constraint: &Constraint) -> Option<RuleFault>
        ensures { result ≡ rule_fault self.now.given constraint.now }
    {
        if self.constraints.len() >= MAX_CONSTRAINTS {
            return Some(RuleFault::TooMany);
        }
        fault_of(&self.cluster, constraint)
    }

    /// Adds a constraint at the end. It is refused with its first fault, in the order of the
    /// variants of `RuleFault`; the problem is then as it was.
    pub fn add(&mut self, constraint: Constraint) -> Result<(), RuleFault>
        // With no fault, `Err` is want of memory.
        ensures fault { IfErr result (λ e. e ≡ unwrap_or (rule_fault self.old.given constraint) RuleFault.Memory) }
        ensures good { OnOk result (rule_fault self.old.given constraint ≡ None) }

        ensures added { OnOk result (self.new.given ≡ record self.old.given { constraints = self.old.given.constraints ++ constraint ∷ [] }) }
        ensures kept { OnErr result (self.new.given ≡ self.old.given) }
    {
        match self.fault_of_rule(&constraint) {
            Some(fault) => return Err(fault),
            None => {}
        }
        self.constraints.reserve(1)?;
        self.tables.note(&self.cluster, &constraint)?;
        self.constraints.push(constraint).unwrap();
        Ok(())
    }
}
