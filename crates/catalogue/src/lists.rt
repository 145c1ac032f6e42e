//! The lists of constraints: machines, sets of nodes, and parts of machines.
ghost use Rattle.std.specs.Prelude.{◌≡◌, IfOk};

use base::Memory;
use cluster::{NodeSet, VmId};
use std::alloc::Global;
use std::marker::Model;

/// A list of machines, which contracts see as that list.
#[derive(Drop)]
pub struct Vms {
    ids: Vec<VmId>,
}

impl Model for Vms {
    ghost use Rattle.std.specs.Prelude.{List};
    ghost use Rattle.cluster.specs.declared.ids.VmId.{VmId};

    ghost Value = { List VmId };

    ghost view = { λ a. a.ids.items };
}

impl Vms {
    ghost use Rattle.catalogue.specs.Faults.{is_member};

    /// The list of these machines, made without memory.
    pub fn new(ids: Vec<VmId>) -> Vms
        ensures { result ≡ ids.items }
    {
        Vms { ids }
    }

    /// The machines in their order.
    pub fn items(&self) -> &[VmId]
        ensures { result.now ≡ self.now }
    {
        &self.ids
    }

    /// Whether a machine is in the list.
    pub fn has(&self, v: VmId) -> bool
        ensures { result ≡ is_member self.now v.0 }
    {
        self.ids.iter().any(|x| x.0 == v.0)
    }

    /// An equal list, made with the allocator of this one; the only error is want of memory.
    pub fn copy(&self) -> Result<Vms, Memory>
        ensures { IfOk result (λ v. v ≡ self.now) }
    {
        let ids = self.ids.clone()?;
        Ok(Vms { ids })
    }
}

/// Groups of nodes, each a set, which contracts see as a list of sets.
#[derive(Drop)]
pub struct Groups {
    sets: Vec<NodeSet>,
}

impl Model for Groups {
    ghost use Rattle.std.specs.Prelude.{List};
    ghost use Rattle.cluster.specs.declared.sets.NodeSet.{NodeSet};

    ghost Value = { List NodeSet };

    ghost view = { λ a. a.sets.items };
}

impl Groups {
    /// The list of these sets, made without memory.
    pub fn new(sets: Vec<NodeSet>) -> Groups
        ensures { result ≡ sets.items }
    {
        Groups { sets }
    }

    /// The sets in their order.
    pub fn items(&self) -> &[NodeSet]
        ensures { result.now ≡ self.now }
    {
        &self.sets
    }

    /// An equal list, made with the allocator of this one; the only error is want of memory.
    pub fn copy(&self) -> Result<Groups, Memory>
        ensures { IfOk result (λ v. v ≡ self.now) }
    {
        let sets = self.sets.clone()?;
        Ok(Groups { sets })
    }
}

/// The parts of a split, each a list of machines, which contracts see as a list of lists.
#[derive(Drop)]
pub struct Parts {
    lists: Vec<Vms>,
}

impl Model for Parts {
    ghost use Rattle.std.specs.Prelude.{List};
    ghost use Rattle.cluster.specs.declared.ids.VmId.{VmId};

    ghost Value = { List (List VmId) };

    ghost view = { λ a. a.lists.items };
}

impl Parts {
    /// The list of these parts, made without memory.
    pub fn new(lists: Vec<Vms>) -> Parts
        ensures { result ≡ lists.items }
    {
        Parts { lists }
    }

    /// The parts in their order.
    pub fn items(&self) -> &[Vms]
        ensures { result.now ≡ self.now }
    {
        &self.lists
    }

    /// An equal list, made with the allocator of this one; the only error is want of memory.
    pub fn copy(&self) -> Result<Parts, Memory>
        ensures { IfOk result (λ v. v ≡ self.now) }
    {
        let lists = copy_all(*self.lists.allocator(), &self.lists)?;
        Ok(Parts { lists })
    }
}

/// Equal lists.
fn copy_all(alloc: Global, lists: &[Vms]) -> Result<Vec<Vms>, Memory>
    ensures { IfOk result (λ copies. copies.items ≡ lists.now) }
{
    let mut copies = Vec::new(alloc);
    for list in lists {
        let copy = list.copy()?;
        copies.push(copy)?;
    }
    Ok(copies)
}
