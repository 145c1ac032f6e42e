//! Actions of elements that differ.

ghost use Rattle.std.specs.Prelude.{◌≡◌, ◌||◌, ◌∷◌, ◌++◌, ℕ, [], None, OnOk, is_some};
ghost use Rattle.cluster.specs.Sets.{has_machine, has_node};
ghost use Rattle.plan_json.specs.Plans.{action_for, is_same};
ghost use Rattle.plan_json.specs.Marks.{IsWithinLimits};

use crate::fields::Action;
use base::Memory;
use cluster::{Element, MachineSet, NodeSet};
use std::alloc::Global;
use std::marker::Model;

/// The actions so far. Two sets mark their elements.
#[derive(Drop)]
pub(crate) struct Actions {
    list: Vec<Action>,
    machines: MachineSet,
    nodes: NodeSet,
}

impl Model for Actions {
    ghost use Rattle.std.specs.Prelude.{List};
    ghost use Rattle.plan_json.specs.declared.fields.Action.{Action};
    ghost use Rattle.plan_json.specs.Marks.{AreMarked};

    ghost Value = { List Action };

    ghost view = { λ a. a.list.items };

    ghost invariant = { λ a. AreMarked a.machines a.nodes a.list.items };
}

impl Actions {
    /// No action.
    pub(crate) fn new(alloc: Global) -> Actions
        ensures { result ≡ [] }
    {
        Actions {
            list: Vec::new(alloc),
            machines: MachineSet::new(),
            nodes: NodeSet::new(),
        }
    }

    /// The actions in the order in which they came.
    pub(crate) fn items(&self) -> &[Action]
        ensures { result.now ≡ self.now }
    {
        &self.list
    }

    /// Whether an action is of the element.
    pub(crate) fn has(&self, e: Element) -> bool
        ensures { result ≡ is_some (action_for self.now e) }
    {
        match e {
            Element::Vm(v) => self.machines.has(v),
            Element::Node(n) => self.nodes.has(n),
        }
    }

    /// Adds an action of an element that has none.
    pub(crate) fn push(&mut self, action: Action) -> Result<(), Memory>
        requires place { IsWithinLimits action.element }
        requires new { action_for self.old action.element ≡ None }
        ensures { OnOk result (self.new ≡ self.old ++ action ∷ []) }
    {
        self.list.reserve(1)?;
        mark(&mut self.machines, &mut self.nodes, action.element);
        self.list.push(action).unwrap();
        Ok(())
    }
}

/// Puts an element in.
fn mark(machines: &mut MachineSet, nodes: &mut NodeSet, e: Element)
    requires { IsWithinLimits e }
    ensures machines { (v : ℕ) → has_machine machines.new v
        ≡ (is_same (Element.Vm (record { 0 = v })) e || has_machine machines.old v) }
    ensures nodes { (n : ℕ) → has_node nodes.new n
        ≡ (is_same (Element.Node (record { 0 = n })) e || has_node nodes.old n) }
{
    match e {
        Element::Vm(v) => machines.insert(v),
        Element::Node(n) => nodes.insert(n),
    }
}
