//! For each node the machines near it.
ghost use Rattle.std.specs.Prelude.{◌≡◌, ◌↔◌, ℕ, ◌+◌, ◌<◌, [], IfOk, IsTrue, OnOk, replicate};
ghost use Rattle.std.specs.List.{Contains};
ghost use Rattle.slices.specs.Elements.{machine_count, node_count};
ghost use Rattle.profiles.specs.Near.{AreNear, IsNear, IsPut, list_at};

use crate::number_lists::NumberLists;
use base::Memory;
use catalogue::Problem;
use cluster::{NodeId, VmId};
use standings::host::host_of;
use std::alloc::Global;
use std::marker::Model;

/// For each node a list of machines, each of them once: those that it hosts at present, and those that were put there.
#[derive(Drop)]
pub struct Near {
    lists: NumberLists,
}

impl Model for Near {
    ghost use Rattle.std.specs.Prelude.{ℕ, List};

    ghost Value = { List (List ℕ) };

    ghost view = { λ m. m.lists };
}

/// Whether a machine is in a list.
pub fn is_listed(list: &[u32], v: VmId) -> bool
    ensures { IsTrue result ↔ Contains list.now v.0 }
{
    list.contains(&v.0)
}

impl Near {
    /// Of no node. It takes no memory.
    pub fn none(alloc: Global) -> Near
        ensures { result ≡ [] }
    {
        Near {
            lists: NumberLists::none(alloc),
        }
    }

    /// Of the nodes of a problem, with the machines that each hosts. The only error is want of memory.
    pub fn of(alloc: Global, p: &Problem) -> Result<Near, Memory>
        ensures { IfOk result (IsNear p.now.given) }
    {
        let mut near = Near {
            lists: NumberLists::new(alloc, p.cluster().nodes().len())?,
        };
        near.put_hosted(p)?;
        Ok(near)
    }

    /// Puts a machine near a node, where it is not yet; where there is no such node, it is left out. The only
    /// error is want of memory.
    #[tactic(auto, using(crate::proofs::NearLemmas::put_past, crate::proofs::NearLemmas::put_there, crate::proofs::NearLemmas::put_new))]
    pub fn put(&mut self, n: NodeId, v: VmId) -> Result<(), Memory>
        ensures { OnOk result (IsPut n.0 v.0 self.old self.new) }
    {
        let i = n.0 as usize;
        if i >= self.lists.count() {
            return Ok(());
        }
        if is_listed(self.lists.get(i), v) {
            return Ok(());
        }
        self.lists.push(i, v.0)
    }

    // puts a machine near its host, if it has one
    #[tactic(auto, using(crate::proofs::NearLemmas::next_near, crate::proofs::NearLemmas::next_none))]
    fn put_at_host(&mut self, p: &Problem, v: VmId) -> Result<(), Memory>
        requires near { AreNear p.now.given v.0 self.old }
        requires machine { v.0 < machine_count p.now.given }
        ensures { OnOk result (AreNear p.now.given (v.0 + 1) self.new) }
    {
        if let Some(h) = host_of(p, v) {
            self.put(h, v)?;
        }
        Ok(())
    }

    // puts each machine near its host
    #[tactic(auto, using(crate::proofs::NearLemmas::none_near))]
    fn put_hosted(&mut self, p: &Problem) -> Result<(), Memory>
        requires { self.old ≡ replicate (node_count p.now.given) [] }
        ensures { OnOk result (IsNear p.now.given self.new) }
    {
        for i in 0..p.cluster().machines().len() {
            self.put_at_host(p, VmId(i as u32))?;
        }
        Ok(())
    }

    /// The machines near a node.
    pub fn at(&self, _p: &Problem, n: NodeId) -> &[u32]
        requires near { IsNear _p.now.given self.now }
        requires node { n.0 < node_count _p.now.given }
        ensures { result.now ≡ list_at self.now n.0 }
    {
        self.lists.get(n.0 as usize)
    }
}
