//! Lists of elements.
ghost use Rattle.std.specs.Prelude.{◌≡◌, ◌++◌, ◌∷◌, [], not, true, List, IfOk, length};
ghost use Rattle.std.specs.List.{filter, list_all};
ghost use Rattle.rule_script.specs.Marks.{in_list, is_same};
ghost use Rattle.rule_script.specs.Small.{is_small};

use base::Memory;
use catalogue::Vms;
use cluster::{Element, NodeSet, VmId};
use std::alloc::Global;
use std::marker::Model;

/// Whether two elements are the same.
#[inline(always)]
fn is_same(a: Element, b: Element) -> bool
    ensures { result ≡ is_same a b }
{
    match (a, b) {
        (Element::Vm(v), Element::Vm(w)) => v.0 == w.0,
        (Element::Node(n), Element::Node(m)) => n.0 == m.0,
        _ => false,
    }
}

/// Whether the element is in the list.
#[inline(always)]
#[tactic(auto, unfolding(crate::specs::Marks::in_list))]
fn is_listed(list: &[Element], e: Element) -> bool
    ensures { result ≡ in_list list.now e }
{
    list.iter().any(|x| is_same(e, *x))
}

/// Elements in an order. Contracts see them as their list.
#[derive(Drop)]
pub struct Elements {
    list: Vec<Element>,
}

impl Model for Elements {
    ghost use Rattle.std.specs.Prelude.{◌≡◌, List, true};
    ghost use Rattle.std.specs.List.{list_all};
    ghost use Rattle.cluster.specs.declared.ids.Element.{Element};
    ghost use Rattle.rule_script.specs.Small.{is_small};

    ghost Value = { List Element };

    ghost view = { λ a. a.list.items };

    ghost invariant = { λ a. list_all is_small a.list.items ≡ true };
}

impl Elements {
    ghost use Rattle.rule_script.specs.Elements.{machine_alone, machines_of, nodes_of};

    /// These elements.
    pub(crate) fn new(list: Vec<Element>) -> Elements
        requires { list_all is_small list.items ≡ true }
        ensures { result ≡ list.items }
    {
        Elements { list }
    }

    /// No element.
    pub(crate) fn none(alloc: Global) -> Elements
        ensures { result ≡ [] }
    {
        Elements {
            list: Vec::new(alloc),
        }
    }

    /// No element, with room for so many.
    pub(crate) fn with_room(alloc: Global, count: usize) -> Result<Elements, Memory>
        ensures { IfOk result (λ x. x ≡ []) }
    {
        Ok(Elements {
            list: Vec::with_capacity(alloc, count)?,
        })
    }

    /// One element alone.
    pub(crate) fn one(alloc: Global, e: Element) -> Result<Elements, Memory>
        requires { is_small e ≡ true }
        ensures { IfOk result (λ x. x ≡ e ∷ []) }
    {
        let mut one = Elements::with_room(alloc, 1)?;
        one.push(e)?;
        Ok(one)
    }

    /// Puts one more at the end.
    #[inline(always)]
    pub(crate) fn push(&mut self, e: Element) -> Result<(), Memory>
        requires { is_small e ≡ true }
        ensures { IfOk result (λ _. self.new ≡ self.old ++ e ∷ []) }
    {
        if self.list.len() < self.list.capacity() {
            self.list.push_reserved(e);
        } else {
            self.list.push(e)?;
        }
        Ok(())
    }

    /// The elements in their order.
    pub fn items(&self) -> &[Element]
        ensures list { result.now ≡ self.now }
        ensures small { list_all is_small self.now ≡ true }
    {
        &self.list
    }

    /// The elements in their order, as a list of one's own.
    pub(crate) fn into_list(self) -> Vec<Element>
        ensures list { result.items ≡ self }
        ensures small { list_all is_small self ≡ true }
    {
        let Elements { list } = self;
        list
    }

    /// What its memory is from.
    pub(crate) fn allocator(&self) -> Global {
        *self.list.allocator()
    }

    /// How many there are.
    pub(crate) fn len(&self) -> usize
        ensures { result ≡ length self.now }
    {
        self.list.len()
    }

    /// An equal list. Its one error is want of memory.
    pub(crate) fn copy(&self) -> Result<Elements, Memory>
        ensures { IfOk result (λ e. e ≡ self.now) }
    {
        Ok(Elements {
            list: Vec::from_slice(*self.list.allocator(), &self.list)?,
        })
    }

    /// Whether the element is in the list. It goes through the list.
    #[inline(always)]
    pub(crate) fn has(&self, e: Element) -> bool
        ensures { result ≡ in_list self.now e }
    {
        is_listed(&self.list, e)
    }

    /// What is not in the other list. It compares each pair.
    pub(crate) fn besides(self, others: &Elements) -> Elements
        ensures { result ≡ filter (λ e. not (in_list others.now e)) self }
    {
        let Elements { list } = self;
        let mut list = list;
        list.retain(|e| !others.has(*e));
        Elements { list }
    }

    /// This list and then the other. Its one error is want of memory.
    pub(crate) fn then(self, others: Elements) -> Result<Elements, Memory>
        ensures { IfOk result (λ e. e ≡ self ++ others) }
    {
        let Elements { list } = self;
        let mut list = list;
        list.extend_from_slice(others.items())?;
        Ok(Elements { list })
    }

    /// The machines, where there is no node; else `None`. Its one error is want of memory.
    #[tactic(auto, using(crate::proofs::ElementLemmas::machine_rules))]
    pub(crate) fn machines(&self) -> Result<Option<Vms>, Memory>
        ensures { IfOk result (λ found. found ≡ machines_of self.now) }
    {
        let list = &self.list;
        let mut found = Vec::new(*list.allocator());
        for e in list {
            match e {
                Element::Vm(v) => found.push(*v)?,
                Element::Node(_) => return Ok(None),
            }
        }
        Ok(Some(Vms::new(found)))
    }

    /// The nodes, where there is no machine; else `None`.
    #[tactic(auto, using(crate::proofs::ElementLemmas::node_rules))]
    pub(crate) fn nodes(&self) -> Option<NodeSet>
        ensures { result ≡ nodes_of self.now }
    {
        let list = &self.list;
        let mut found = NodeSet::new();
        for e in list {
            match e {
                Element::Vm(_) => return None,
                Element::Node(n) => found.insert(*n),
            }
        }
        Some(found)
    }

    /// The machine, where it is the one element; else `None`.
    #[tactic(auto, unfolding(crate::specs::Elements::machine_alone))]
    pub(crate) fn machine(&self) -> Option<VmId>
        ensures { result ≡ machine_alone self.now }
    {
        match self.items() {
            [Element::Vm(v)] => Some(*v),
            _ => None,
        }
    }
}
