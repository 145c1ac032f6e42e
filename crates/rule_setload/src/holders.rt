//! The machines that have something on the nodes of a constraint at present: no change of a region changes it.
ghost use Rattle.std.specs.Prelude.{◌≡◌, ◌<◌, ◌∷◌, ◌++◌, [], IfOk, IsTrue, OnOk, length, slice_index_or, true};
ghost use Rattle.rule_setload.specs.Prelude.{AreAllHolders, AreHolders, AreKept, bound_of as the_bound_of, form_of, has_node, inventory_of, is_rule, IsKept, IsWeight, machine_count, node_count};

use crate::bounds::{Bound, bound_of};
use rule_constraint::host;
use rule_frame::{Constraint, Memory, NodeId, NodeSet, Problem, VmId};
use standings::uses::base;
use std::alloc::Global;
use std::marker::Model;

// so many holders are listed of all constraints together
const MOST_HOLDERS: usize = 1_048_576;

/// A machine, and what it has while it keeps its host.
#[derive(Clone, Copy)]
pub struct Holder {
    pub machine: VmId,
    pub amount: u64,
}

/// Whether a node is one of the problem and of a set.
pub(crate) fn is_among(p: &Problem, n: NodeId, nodes: &NodeSet) -> bool
    ensures { IsTrue result → (n.0 < node_count p.now.given) × (has_node nodes.now n.0 ≡ true) }
{
    (n.0 as usize) < p.cluster().nodes().len() && nodes.has(n)
}

/// What a machine has on its host, where that is a node of a bound.
#[tactic(auto, using(crate::proofs::HolderLemmas::host_kept, crate::proofs::HolderLemmas::none_kept))]
pub(crate) fn kept_amount(p: &Problem, v: VmId, bound: &Bound) -> u64
    requires machine { v.0 < machine_count p.now.given }
    requires weight { IsWeight p.now.given bound.now.weight }
    ensures { IsKept p.now.given bound.now.weight (has_node bound.now.nodes) v.0 result }
{
    match host(p, v) {
        None => 0,
        Some(h) => if is_among(p, h, &bound.nodes) {
            base(p, v, bound.weight)
        } else {
            0
        },
    }
}

// puts a machine into a list, where it has something and fewer than so many are there
fn put(
    _p: &Problem,
    _bound: &Bound,
    machine: VmId,
    amount: u64,
    most: usize,
    list: &mut Vec<Holder>,
) -> Result<(), Memory>
    requires before { AreKept _p.now.given _bound.now list.old.items }
    requires kept { IsKept _p.now.given _bound.now.weight (has_node _bound.now.nodes) machine.0 amount }
    ensures { OnOk result (AreKept _p.now.given _bound.now list.new.items) }
{
    if amount > 0 && list.len() < most {
        list.push(Holder { machine, amount })?;
    }
    Ok(())
}

// those of what a constraint bounds, in the order of their numbers, up to so many
#[tactic(auto, using(crate::proofs::HolderLemmas::none_listed))]
fn holders_in(alloc: Global, p: &Problem, bound: &Bound, most: usize) -> Result<Vec<Holder>, Memory>
    requires weight { IsWeight p.now.given bound.now.weight }
    ensures { IfOk result (λ xs. AreKept p.now.given bound.now xs.items) }
{
    let mut list = Vec::new(alloc);
    for i in 0..p.cluster().machines().len() {
        let v = VmId(i as u32);
        put(p, bound, v, kept_amount(p, v, bound), most, &mut list)?;
    }
    Ok(list)
}

// those of a constraint, if it bounds something, up to so many
fn holders_of(
    alloc: Global,
    p: &Problem,
    constraint: &Constraint,
    most: usize,
) -> Result<Vec<Holder>, Memory>
    requires rule { is_rule (inventory_of p.now.given) constraint.now ≡ true }
    ensures { IfOk result (λ xs. AreHolders p.now.given (the_bound_of (form_of constraint.now)) xs.items) }
{
    match bound_of(p, constraint) {
        None => Ok(Vec::new(alloc)),
        Some(bound) => holders_in(alloc, p, &bound, most),
    }
}

// how many are listed of each constraint
fn most_each(p: &Problem) -> usize {
    MOST_HOLDERS / p.constraints().len().max(1)
}

/// For each constraint machines that have something on its nodes at present: all of them, where there are few constraints.
#[derive(Drop)]
pub struct Holders {
    lists: Vec<Vec<Holder>>,
}

impl Model for Holders {
    ghost use Rattle.std.specs.Prelude.{List, Vec, map};
    ghost use Rattle.std.specs.declared.alloc.Global.{Global};
    ghost use Rattle.rule_setload.specs.declared.holders.Holder.{Holder};

    ghost Value = { List (List Holder) };

    ghost view = { λ l. map (λ (v : Vec Holder Global). v.items) l.lists.items };
}

impl Holders {
    /// Of no constraint.
    pub fn none(alloc: Global) -> Holders
        ensures { result ≡ [] }
    {
        Holders {
            lists: Vec::new(alloc),
        }
    }

    // with those of one constraint more
    fn push(&mut self, list: Vec<Holder>) -> Result<(), Memory>
        ensures { OnOk result (self.new ≡ self.old ++ list.items ∷ []) }
    {
        self.lists.push(list)?;
        Ok(())
    }

    /// Of each constraint of a problem.
    #[tactic(auto, using(crate::proofs::HolderLemmas::no_holders))]
    pub fn of(alloc: Global, p: &Problem) -> Result<Holders, Memory>
        ensures { IfOk result (AreAllHolders p.now.given (length p.now.given.constraints)) }
    {
        let most = most_each(p);
        let mut all = Holders::none(alloc);
        for c in 0..p.constraints().len() {
            let list = holders_of(alloc, p, &p.constraints()[c], most)?;
            all.push(list)?;
        }
        Ok(all)
    }

    /// Those of the constraint of a number.
    pub fn get(&self, c: usize) -> &[Holder]
        requires { c < length self.now }
        ensures { result.now ≡ slice_index_or self.now c [] }
    {
        &self.lists[c]
    }
}
