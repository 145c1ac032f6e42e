//! Regions: one domain for each element, narrowed in place.
ghost use Rattle.std.specs.Prelude.{◌≡◌, ◌≤◌, ◌^◌, [], length, IsTrue, ◌↔◌, IfOk, IfSome, IfNone, filter};
ghost use Rattle.cluster.specs.declared.ids.Element.{Element as AnyElement};
ghost use Rattle.domains.specs.Choices.{Climbs};
ghost use Rattle.domains.specs.Parts.{in_part, out_of_part, on_side};
ghost use Rattle.domains.specs.Sets.{HasElement, domain_at, sets, with_domain, keeping, IsFixed, IsFirstUnfixed};
ghost use Rattle.domains.specs.Undo.{restored, CanRestore};

use crate::domain::Domain;
use crate::listing::Listing;
use crate::parts::{Change, Part, Side};
use crate::undo::Lost;
use base::Memory;
use cluster::{Element, NodeId, VmId};
use std::marker::Model;

/// One domain for each machine and each node.
///
/// An element that is handed in is one of the region's. A region knows which elements have not exactly one
/// choice, so that the first of them is found without a pass over all.
#[derive(Drop)]
pub struct Region {
    machines: Listing,
    nodes: Listing,
}

impl Model for Region {
    ghost use Rattle.domains.specs.Sets.{RegionView};

    ghost Value = { RegionView };

    ghost view = { λ g. record { machines = g.machines; nodes = g.nodes } };
}

impl Region {
    /// A region of these domains, of which there are no more than ids name. It takes no memory.
    pub fn new(machines: Vec<Domain>, nodes: Vec<Domain>) -> Region
        requires machines { length machines.items ≤ 2 ^ 32 }
        requires nodes { length nodes.items ≤ 2 ^ 32 }
        ensures { result ≡ record { machines = machines.items; nodes = nodes.items } }
    {
        Region {
            machines: Listing::new(machines),
            nodes: Listing::new(nodes),
        }
    }

    /// How many machines it has a domain for.
    pub fn machine_count(&self) -> usize
        ensures { result ≡ length self.now.machines }
    {
        self.machines.len()
    }

    /// How many nodes it has a domain for.
    pub fn node_count(&self) -> usize
        ensures { result ≡ length self.now.nodes }
    {
        self.nodes.len()
    }

    /// The domain of an element.
    pub fn domain(&self, e: Element) -> &Domain
        requires { HasElement self.now e }
        ensures domain { result.now ≡ domain_at self.now e }
        ensures climbs { Climbs 0 result.now.rows }
    {
        match e {
            Element::Vm(v) => self.machines.get(v.0 as usize),
            Element::Node(n) => self.nodes.get(n.0 as usize),
        }
    }

    /// Changes one domain, and hands back the old one.
    pub fn set(&mut self, e: Element, domain: Domain) -> Domain
        requires { HasElement self.old e }
        ensures old { result ≡ domain_at self.old e }
        ensures new { self.new ≡ with_domain self.old e domain }
    {
        match e {
            Element::Vm(v) => self.machines.set(v.0 as usize, domain),
            Element::Node(n) => self.nodes.set(n.0 as usize, domain),
        }
    }

    /// An equal region.
    pub fn copy(&self) -> Result<Region, Memory>
        ensures { IfOk result (λ g. g ≡ self.now) }
    {
        let machines = self.machines.copy()?;
        let nodes = self.nodes.copy()?;
        Ok(Region { machines, nodes })
    }

    /// Narrows one element to one side of a part. It takes no memory.
    pub fn narrow(&mut self, change: Change)
        requires { HasElement self.old change.element }
        ensures machines { length self.new.machines ≡ length self.old.machines }
        ensures nodes { length self.new.nodes ≡ length self.old.nodes }
        ensures sets { (e : AnyElement) → sets self.new e ≡ keeping change.element (on_side change.side change.part) (sets self.old) e }
    {
        match change.side {
            Side::Inside => drop(self.keep(change.element, change.part)),
            Side::Outside => {
                let _ = self.cut(change.element, change.part);
            }
        }
    }

    /// Keeps of an element the choices that are in a part, and hands back its domain as it was before.
    ///
    /// `set` with that domain gives the region again.
    pub fn keep(&mut self, e: Element, part: Part) -> Domain
        requires { HasElement self.old e }
        ensures machines { length self.new.machines ≡ length self.old.machines }
        ensures nodes { length self.new.nodes ≡ length self.old.nodes }
        ensures sets { (x : AnyElement) → sets self.new x ≡ keeping e (in_part part) (sets self.old) x }
        ensures old { result ≡ domain_at self.old e }
        ensures undone { with_domain self.new e result ≡ self.old }
    {
        let inside = self.domain(e).inside(part);
        self.set(e, inside)
    }

    /// Takes from an element the choices that are in a part, and says what it has lost.
    ///
    /// `restore` with that gives the region again.
    pub fn cut(&mut self, e: Element, part: Part) -> Lost
        requires { HasElement self.old e }
        ensures machines { length self.new.machines ≡ length self.old.machines }
        ensures nodes { length self.new.nodes ≡ length self.old.nodes }
        ensures sets { (x : AnyElement) → sets self.new x ≡ keeping e (out_of_part part) (sets self.old) x }
        ensures lost { restored result (domain_at self.new e) ≡ domain_at self.old e }
        ensures undone { with_domain self.new e (restored result (domain_at self.new e)) ≡ self.old }
        ensures can { CanRestore result (domain_at self.new e) }
    {
        match e {
            Element::Vm(v) => self.machines.cut(v.0 as usize, part),
            Element::Node(n) => self.nodes.cut(n.0 as usize, part),
        }
    }

    /// Puts back what an element has lost. It takes no memory.
    pub fn restore(&mut self, e: Element, lost: Lost)
        requires element { HasElement self.old e }
        requires can { CanRestore lost (domain_at self.old e) }
        ensures { self.new ≡ with_domain self.old e (restored lost (domain_at self.old e)) }
    {
        match e {
            Element::Vm(v) => self.machines.restore(v.0 as usize, lost),
            Element::Node(n) => self.nodes.restore(n.0 as usize, lost),
        }
    }

    /// Whether a change would leave its element no choice.
    pub fn leaves_none(&self, change: Change) -> bool
        requires { HasElement self.now change.element }
        ensures { IsTrue result ↔ (filter (on_side change.side change.part) (sets self.now change.element) ≡ []) }
    {
        self.domain(change.element)
            .leaves_none(change.part, change.side)
    }

    /// Whether each element has exactly one choice.
    pub fn is_fixed(&self) -> bool
        ensures { IsTrue result ↔ IsFixed self.now }
    {
        match self.first_unfixed() {
            None => true,
            Some(_) => false,
        }
    }

    /// The first element that has not exactly one choice: the machines come first, and then the nodes.
    pub fn first_unfixed(&self) -> Option<Element>
        ensures some { IfSome result (IsFirstUnfixed self.now) }
        ensures none { IfNone result (IsFixed self.now) }
    {
        match self.machines.first_unfixed() {
            Some(v) => Some(Element::Vm(VmId(v))),
            None => match self.nodes.first_unfixed() {
                Some(n) => Some(Element::Node(NodeId(n))),
                None => None,
            },
        }
    }
}
