//! An index of constraints by what they look at, kept beside rules of constraints.
ghost use Rattle.std.specs.Prelude.{◌≡◌, ◌<◌, ◌≤◌, ℕ, IfOk, IsTrue, OnOk, [], length, slice_index_or};
ghost use Rattle.std.specs.List.{Contains};
ghost use Rattle.rule_frame.specs.Prelude.{has_node, IsInPart, IsMember, machine_count, max_nodes};
ghost use Rattle.rule_constraint.specs.Indexes.{IsAdded, IsIndexOf, IsPut};

use crate::kinds::reason_kind;
use profiles::number_lists::NumberLists;
use rule_frame::{
    Before, Change, Constraint, DirtySet, Domain, Form, Keeper, Memory, NodeId, NodeSet, Problem,
    ReasonKind, Region, Separation, VmId, Vms, form_of,
};
use std::alloc::Global;
use std::default::MadeWith;
use std::marker::Model;

/// By machine and by node the numbers of constraints.
#[derive(Drop)]
pub struct Lists {
    machines: NumberLists,
    nodes: NumberLists,
    everywhere: Vec<u32>,
}

impl Model for Lists {
    ghost use Rattle.rule_constraint.specs.Indexes.{Lists as ListsView};

    ghost Value = { ListsView };

    ghost view = { λ l. record { machines = l.machines; nodes = l.nodes; everywhere = l.everywhere.items } };
}

#[tactic(auto, using(crate::proofs::IndexLemmas::put_at, crate::proofs::IndexLemmas::put_past))]
// puts a constraint's number into a list, if there is one of that number
fn put(lists: &mut NumberLists, i: u32, c: u32) -> Result<(), Memory>
    ensures { OnOk result (IsPut (λ k. k ≡ i) c lists.old lists.new) }
{
    if (i as usize) < lists.count() {
        lists.push(i as usize, c)?;
    }
    Ok(())
}

// into those of machines
fn put_machines(lists: &mut NumberLists, machines: &[VmId], c: u32) -> Result<(), Memory>
    ensures { OnOk result (IsPut (IsMember machines.now) c lists.old lists.new) }
{
    for v in machines {
        put(lists, v.0, c)?;
    }
    Ok(())
}

// into those of machines of parts
fn put_parts(lists: &mut NumberLists, parts: &[Vms], c: u32) -> Result<(), Memory>
    ensures { OnOk result (IsPut (λ v. (i : ℕ) × IsInPart parts.now i v) c lists.old lists.new) }
{
    for i in 0..parts.len() {
        put_machines(lists, parts[i].items(), c)?;
    }
    Ok(())
}

// into those of the nodes of a set
fn put_nodes(lists: &mut NumberLists, nodes: &NodeSet, c: u32) -> Result<(), Memory>
    requires { length lists.old ≤ max_nodes }
    ensures { OnOk result (IsPut (λ n. IsTrue (has_node nodes.now n)) c lists.old lists.new) }
{
    for n in 0..lists.count() {
        if nodes.has(NodeId(n as u32)) {
            put(lists, n as u32, c)?;
        }
    }
    Ok(())
}

impl Lists {
    /// The constraints that name a machine.
    pub(crate) fn of_machine(&self, v: VmId) -> &[u32]
        requires { v.0 < length self.now.machines }
        ensures { result.now ≡ slice_index_or self.now.machines v.0 [] }
    {
        self.machines.get(v.0 as usize)
    }

    /// Those that name a node.
    pub(crate) fn of_node(&self, n: NodeId) -> &[u32]
        requires { n.0 < length self.now.nodes }
        ensures { result.now ≡ slice_index_or self.now.nodes n.0 [] }
    {
        self.nodes.get(n.0 as usize)
    }

    /// Those that look at every machine.
    pub(crate) fn everywhere(&self) -> &[u32]
        ensures { result.now ≡ self.now.everywhere }
    {
        &self.everywhere
    }

    /// Puts a constraint's number into the lists of all that it looks at.
    fn add(&mut self, constraint: &Constraint, c: u32) -> Result<(), Memory>
        requires { length self.old.nodes ≤ max_nodes }
        ensures { OnOk result (IsAdded constraint.now c self.old self.new) }
    {
        match form_of(constraint) {
            Form::Apart(Separation::Each(machines)) => {
                put_machines(&mut self.machines, machines.items(), c)?
            }
            Form::Allowed(machines, _) | Form::Together(machines, _) | Form::InTurn(machines) => {
                put_machines(&mut self.machines, machines.items(), c)?
            }
            Form::Apart(Separation::Between(parts)) => {
                put_parts(&mut self.machines, parts.items(), c)?
            }
            Form::Ordered(before, after) => {
                put(&mut self.machines, before.0, c)?;
                put(&mut self.machines, after.0, c)?;
            }
            Form::Apart(Separation::FromOthers(_)) | Form::Bounded(..) => self.everywhere.push(c)?,
            Form::Powered(nodes, _) => put_nodes(&mut self.nodes, nodes, c)?,
            Form::Settled => {}
        }
        Ok(())
    }
}

// the index of all constraints of a problem
fn lists_of(alloc: Global, p: &Problem) -> Result<Lists, Memory>
    ensures { IfOk result (IsIndexOf p.now.given (length p.now.given.constraints)) }
{
    let mut lists = Lists {
        machines: NumberLists::new(alloc, p.cluster().machines().len())?,
        nodes: NumberLists::new(alloc, p.cluster().nodes().len())?,
        everywhere: Vec::new(alloc),
    };
    for c in 0..p.constraints().len() {
        lists.add(&p.constraints()[c], c as u32)?;
    }
    Ok(lists)
}

/// The constraints of a problem by what they look at: of each machine and each node those that name it, and
/// those that look at every machine.
///
/// It is made when it is posted, and no change of a region changes it. It takes as much memory as the
/// constraints have members.
#[derive(Drop)]
pub struct ConstraintIndex {
    pub(crate) lists: Lists,
    level: u64,
}

impl ConstraintIndex {
    /// An index of no problem.
    pub fn new(alloc: Global) -> ConstraintIndex
        ensures { result.level ≡ 0 }
    {
        ConstraintIndex {
            lists: Lists {
                machines: NumberLists::none(alloc),
                nodes: NumberLists::none(alloc),
                everywhere: Vec::new(alloc),
            },
            level: 0,
        }
    }
}

// whether a constraint is not dirty and gives reasons of a kind
fn is_clean_of(p: &Problem, kind: ReasonKind, c: u32, dirty: &DirtySet) -> bool
    requires constraint { c < length p.now.given.constraints }
    requires count { length p.now.given.constraints ≤ length dirty.now.top }
{
    !dirty.is_dirty(c as usize) && reason_kind(&p.constraints()[c as usize]) == Some(kind)
}

// whether one of the constraints of these numbers is so
fn is_one_clean(p: &Problem, kind: ReasonKind, numbers: &[u32], dirty: &DirtySet) -> bool
    requires numbers { (i : ℕ) → Contains numbers.now i → i < length p.now.given.constraints }
    requires count { length p.now.given.constraints ≤ length dirty.now.top }
{
    for k in 0..numbers.len() {
        if is_clean_of(p, kind, numbers[k], dirty) {
            return true;
        }
    }
    false
}

impl ConstraintIndex {
    /// Whether a constraint that looks at a machine is not dirty and gives reasons of a kind: only where there is one has
    /// anything to be asked when the machine has lost choices.
    pub fn has_clean(&self, p: &Problem, kind: ReasonKind, v: VmId, dirty: &DirtySet) -> bool
        requires right { IsIndexOf p.now.given (length p.now.given.constraints) self.now.lists }
        requires machine { v.0 < machine_count p.now.given }
        requires count { length p.now.given.constraints ≤ length dirty.now.top }
    {
        is_one_clean(p, kind, self.lists.of_machine(v), dirty)
            || is_one_clean(p, kind, self.lists.everywhere(), dirty)
    }
}

impl MadeWith<Global> for ConstraintIndex {
    fn made_with(alloc: Global) -> ConstraintIndex {
        ConstraintIndex::new(alloc)
    }
}

impl Keeper for ConstraintIndex {
    ghost use Rattle.std.specs.Prelude.{length};
    ghost use Rattle.rule_constraint.specs.Indexes.{IsIndexOf};

    ghost cache = { λ c. record { right = λ p k s. IsIndexOf p (length p.constraints) c.lists; level = c.level } };

    fn post(&mut self, p: &Problem, _g: &Region) -> Result<(), Memory> {
        let alloc = *self.lists.everywhere.allocator();
        self.lists = lists_of(alloc, p)?;
        self.level = 0;
        Ok(())
    }

    fn told(
        &mut self,
        _p: &Problem,
        _g: &Region,
        _change: Change,
        _before: Before,
        _kept: &Domain,
    ) -> Result<(), Memory> {
        Ok(())
    }

    fn mark(&mut self) -> Result<(), Memory> {
        self.level = self.level.saturating_add(1);
        Ok(())
    }

    fn back(&mut self) {
        self.level = self.level.saturating_sub(1);
    }
}
