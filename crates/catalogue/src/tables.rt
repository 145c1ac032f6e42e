//! What the constraints say of each element, kept ready.
ghost use Rattle.std.specs.Prelude.{◌≡◌, ◌<◌, ℕ, [], length, true, OnOk, OnErr};
ghost use Rattle.catalogue.specs.Prelude.{are_machines, has_node, HaveRows, is_member, is_rule, Notes, SameRows, wish_cell, wish_where};

use crate::constraint::Constraint;
use crate::demands::note_preserve;
use crate::lists::Vms;
use crate::overbooking::note_overbook;
use crate::targets::{Target, Wish};
use crate::wishes::{note_machines, note_nodes};
use base::Memory;
use cluster::limits::MAX_RESOURCES;
use cluster::{Cluster, NodeSet};
use std::alloc::Global;

/// Four tables, by the numbers of the elements. A table takes memory with the first constraint
/// that has something to say in it.
#[derive(Drop)]
pub struct Tables {
    pub preserved: Vec<[u64; MAX_RESOURCES]>,
    pub limits: Vec<[Option<u64>; MAX_RESOURCES]>,
    pub machine_wishes: Vec<Wish>,
    pub node_wishes: Vec<Wish>,
}

impl Tables {
    /// Tables without rows.
    pub fn new(alloc: Global) -> Tables
        ensures preserved { result.preserved.items ≡ [] }
        ensures limits { result.limits.items ≡ [] }
        ensures machine_wishes { result.machine_wishes.items ≡ [] }
        ensures node_wishes { result.node_wishes.items ≡ [] }
    {
        Tables {
            preserved: Vec::new(alloc),
            limits: Vec::new(alloc),
            machine_wishes: Vec::new(alloc),
            node_wishes: Vec::new(alloc),
        }
    }

    /// Notes what one more constraint says; each has something to say in at most one table.
    pub fn note(&mut self, cluster: &Cluster, constraint: &Constraint) -> Result<(), Memory>
        requires rows { HaveRows cluster.now.given self.old }
        requires sound { is_rule cluster.now.given constraint.now ≡ true }
        ensures rows { HaveRows cluster.now.given self.new }
        ensures noted { OnOk result (Notes cluster.now.given self.old self.new constraint.now) }
        ensures kept { OnErr result (SameRows self.old self.new) }
    {
        let count = cluster.machines().len();
        match constraint {
            Constraint::Preserve {
                machines,
                resource,
                amount,
            } => note_preserve(
                &mut self.preserved,
                count,
                machines.items(),
                *resource,
                *amount,
            ),
            Constraint::Overbook {
                nodes,
                resource,
                num,
                den,
            } => note_overbook(cluster, &mut self.limits, nodes, *resource, *num, *den),
            Constraint::Online { nodes } => self.want_nodes(cluster, nodes, Target::Online),
            Constraint::Offline { nodes } => self.want_nodes(cluster, nodes, Target::Offline),
            Constraint::Running { machines } => self.want_vms(cluster, machines, Target::Running),
            Constraint::Sleeping { machines } => self.want_vms(cluster, machines, Target::Sleeping),
            Constraint::Ready { machines } => self.want_vms(cluster, machines, Target::Ready),
            Constraint::Killed { machines } => self.want_vms(cluster, machines, Target::Killed),
            Constraint::Spread { .. }
            | Constraint::Ban { .. }
            | Constraint::Fence { .. }
            | Constraint::Gather { .. }
            | Constraint::Lonely { .. }
            | Constraint::Among { .. }
            | Constraint::Split { .. }
            | Constraint::Root { .. }
            | Constraint::Precedence { .. }
            | Constraint::Serialize { .. }
            | Constraint::ResourceCapacity { .. }
            | Constraint::RunningCapacity { .. }
            | Constraint::MaxOnline { .. } => Ok(()),
        }
    }

    /// Notes that machines are wanted in a state.
    fn want_vms(&mut self, cluster: &Cluster, vms: &Vms, target: Target) -> Result<(), Memory>
        requires rows { HaveRows cluster.now.given self.old }
        requires machines { are_machines cluster.now.given vms.now ≡ true }
        ensures rows { HaveRows cluster.now.given self.new }
        ensures noted { OnOk result ((v : ℕ) → v < length cluster.now.given.machines →
            wish_cell self.new.machine_wishes.items v ≡ wish_where (is_member vms.now v) (wish_cell self.old.machine_wishes.items v) target) }
        ensures preserved { self.new.preserved.items ≡ self.old.preserved.items }
        ensures limits { self.new.limits.items ≡ self.old.limits.items }
        ensures node_wishes { self.new.node_wishes.items ≡ self.old.node_wishes.items }
        ensures kept { OnErr result (SameRows self.old self.new) }
    {
        let count = cluster.machines().len();
        note_machines(&mut self.machine_wishes, count, vms.items(), target)
    }

    /// Notes that nodes are wanted in a state.
    fn want_nodes(
        &mut self,
        cluster: &Cluster,
        nodes: &NodeSet,
        target: Target,
    ) -> Result<(), Memory>
        requires rows { HaveRows cluster.now.given self.old }
        ensures rows { HaveRows cluster.now.given self.new }
        ensures noted { OnOk result ((n : ℕ) → n < length cluster.now.given.nodes →
            wish_cell self.new.node_wishes.items n ≡ wish_where (has_node nodes.now n) (wish_cell self.old.node_wishes.items n) target) }
        ensures preserved { self.new.preserved.items ≡ self.old.preserved.items }
        ensures limits { self.new.limits.items ≡ self.old.limits.items }
        ensures machine_wishes { self.new.machine_wishes.items ≡ self.old.machine_wishes.items }
        ensures kept { OnErr result (SameRows self.old self.new) }
    {
        let count = cluster.nodes().len();
        note_nodes(&mut self.node_wishes, count, nodes, target)
    }
}
