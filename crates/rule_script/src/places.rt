//! A number for each machine and node that a cluster takes.
ghost use Rattle.std.specs.Prelude.{◌≡◌, IfOk, replicate, true, vec_len, if◌then◌else◌};
ghost use Rattle.std.specs.List.{list_all};
ghost use Rattle.cluster.specs.Prelude.{max_machines, max_nodes};
ghost use Rattle.cluster.specs.declared.ids.Element.{Element};
ghost use Rattle.rule_script.specs.Marks.{in_list, is_same, number_at};
ghost use Rattle.rule_script.specs.Small.{is_small};

use base::Memory;
use cluster::Element;
use cluster::limits::{MAX_MACHINES, MAX_NODES};
use std::alloc::Global;

/// The number at a place; 0 past the end.
fn number_at(numbers: &[usize], place: u32) -> usize
    ensures { result ≡ number_at numbers.now place }
{
    match numbers.get(place as usize) {
        Some(number) => *number,
        None => 0,
    }
}

/// A number for each machine and node that a cluster takes: from which entry of a list on it
/// counts, where entries are numbered from 1. It is 0 for what is not in the list.
#[derive(Drop)]
pub struct Places {
    machines: Vec<usize>,
    nodes: Vec<usize>,
    ghost machine_places: { vec_len machines ≡ max_machines },
    ghost node_places: { vec_len nodes ≡ max_nodes },
}

impl Places {
    ghost use Rattle.rule_script.specs.Elements.{entry_of};

    /// Nothing is in the list.
    fn new(alloc: Global) -> Result<Places, Memory>
        ensures machines { IfOk result (λ s. s.machines.items ≡ replicate max_machines 0) }
        ensures nodes { IfOk result (λ s. s.nodes.items ≡ replicate max_nodes 0) }
    {
        Ok(Places {
            machines: Vec::from_slice(alloc, &[0; MAX_MACHINES])?,
            nodes: Vec::from_slice(alloc, &[0; MAX_NODES])?,
        })
    }

    /// Gives an element that number.
    fn set(&mut self, e: Element, number: usize)
        requires { is_small e ≡ true }
        ensures { (x : Element) → entry_of self.new x ≡ (if is_same x e then number else entry_of self.old x) }
    {
        match e {
            Element::Vm(v) => self.machines[v.0 as usize] = number,
            Element::Node(n) => self.nodes[n.0 as usize] = number,
        }
    }

    /// Gives the elements of a list that number.
    #[tactic(auto, using(crate::proofs::ElementLemmas::entry_rules))]
    pub fn set_all(&mut self, list: &[Element], number: usize)
        requires { list_all is_small list.now ≡ true }
        ensures { (x : Element) → entry_of self.new x ≡ (if in_list list.now x then number else entry_of self.old x) }
    {
        for e in list {
            self.set(*e, number);
        }
    }

    /// The number of an element.
    pub fn entry(&self, e: Element) -> usize
        ensures { result ≡ entry_of self.now e }
    {
        match e {
            Element::Vm(v) => number_at(&self.machines, v.0),
            Element::Node(n) => number_at(&self.nodes, n.0),
        }
    }

    /// The numbers of a list whose entries all count.
    pub fn of(alloc: Global, list: &[Element]) -> Result<Places, Memory>
        requires { list_all is_small list.now ≡ true }
        ensures { IfOk result (λ s. (x : Element) → entry_of s x ≡ (if in_list list.now x then 1 else 0)) }
    {
        let mut places = Places::new(alloc)?;
        places.set_all(list, 1);
        Ok(places)
    }
}
