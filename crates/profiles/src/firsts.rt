//! No later than when each machine first starts at each node, kept with levels.
ghost use Rattle.std.specs.Prelude.{◌≡◌, ℕ, ◌+◌, ◌*◌, ◌<◌, [], IsTrue, length, OnErr, OnOk};
ghost use Rattle.relax.specs.Prelude.{choices, IsElement, IsSized, machine_count, node_count, sets};
ghost use Rattle.standings.specs.Levels.{IsBack, marked};
ghost use Rattle.profiles.specs.{Firsts.AreFirstAt, Firsts.AreFirsts, Firsts.IsNoLater, Firsts.slot_of as the_slot_of, Firsts.start_count};

use base::Memory;
use catalogue::Problem;
use cluster::{Choice, Element, Instant, NodeId, Place, VmId};
use domains::measure::{Measure, lowest};
use domains::{Change, Domain, Part, Region, Side};
use standings::levels::Levelled;
use std::alloc::Global;
use std::marker::Model;

/// For each node and each machine an instant, before which no choice of the machine starts there; the last one that there
/// is where it is known that none does. As a region narrows each stays right, so not all need be told of. They take four
/// bytes for each node and each machine.
#[derive(Drop)]
pub struct Firsts {
    starts: Levelled<Instant>,
    // whether machines that may only stay are written too: that pays where little is spare
    is_crowded: bool,
    alloc: Global,
}

impl Model for Firsts {
    ghost use Rattle.std.specs.Prelude.{ℕ};
    ghost use Rattle.standings.specs.Levels.{Levels};

    ghost Value = { Levels ℕ };

    ghost view = { λ m. m.starts };
}

/// When an action starts, 0 for Idle.
#[derive(Drop)]
pub struct Start;

impl Measure for Start {
    ghost use Rattle.std.proofs.Common.{arith};

    ghost ready = { λ _. Unit {0} };

    ghost value_of = { λ _. start_count };

    ghost floor_of = { λ _. 0 };

    ghost least_at_ends = { λ m place lo s hi l u. Prim.omega arith };

    ghost above_floor = { λ m c. Prim.omega arith };

    fn value(&self, c: Choice) -> u64 {
        match c {
            Choice::Idle => 0,
            Choice::Act { place: _, start } => u64::from(start),
        }
    }

    fn floor(&self) -> u64 {
        0
    }
}

// whether a domain has no row, and so no start at any node; this reads none
#[tactic(auto, using(crate::proofs::FirstLemmas::never_first))]
fn never_starts(domain: &Domain) -> bool
    ensures { IsTrue result → (n first : ℕ) → IsNoLater (choices domain.now) n first }
{
    match domain.rows() {
        [] => true,
        [_, ..] => false,
    }
}

// the first start at a node, the last instant where there is none
#[tactic(auto, using(crate::proofs::FirstLemmas::none_first, crate::proofs::FirstLemmas::some_first))]
fn first_at(domain: &Domain, n: NodeId) -> Instant
    ensures { IsNoLater (choices domain.now) n.0 result }
{
    if never_starts(domain) {
        return Instant::MAX;
    }
    let there = domain.inside(Part::From(Place::At(n), 0));
    match lowest(&there, None, &Start) {
        None => Instant::MAX,
        Some(start) => start.min(u64::from(Instant::MAX)) as Instant,
    }
}

// where a machine at a node stands in the list
#[tactic(auto, using(crate::proofs::FirstLemmas::slot_low))]
fn slot_of(p: &Problem, n: NodeId, v: VmId) -> u32
    requires node { n.0 < node_count p.now.given }
    requires machine { v.0 < machine_count p.now.given }
    ensures slot { result ≡ the_slot_of (machine_count p.now.given) n.0 v.0 }
    ensures low { result < node_count p.now.given * machine_count p.now.given }
{
    n.0 * p.cluster().machines().len() as u32 + v.0
}

// what machines demand of a resource, all together
fn demand_of_all(p: &Problem, r: u8) -> u64
    requires { r < length p.now.given.resources }
{
    let mut sum: u64 = 0;
    for i in 0..p.cluster().machines().len() {
        sum = sum.saturating_add(p.demand(VmId(i as u32), r));
    }
    sum
}

// what nodes have room for, all together
fn capacity_of_all(p: &Problem, r: u8) -> u64
    requires { r < length p.now.given.resources }
{
    let mut sum: u64 = 0;
    for i in 0..p.cluster().nodes().len() {
        sum = sum.saturating_add(p.capacity(NodeId(i as u32), r));
    }
    sum
}

// whether machines demand more than four fifths of a resource
fn is_crowded(p: &Problem) -> bool {
    for r in 0..p.cluster().resources().len() {
        if demand_of_all(p, r as u8).saturating_mul(5)
            > capacity_of_all(p, r as u8).saturating_mul(4)
        {
            return true;
        }
    }
    false
}

impl Firsts {
    /// Of no machine, with one level. It takes no memory.
    pub fn new(alloc: Global) -> Firsts
        ensures { result ≡ record { older = []; top = [] } }
    {
        Firsts {
            starts: Levelled::new(alloc),
            is_crowded: false,
            alloc,
        }
    }

    /// How many marks stand.
    pub fn level(&self) -> u64
        ensures { result ≡ length self.now.older }
    {
        self.starts.level()
    }

    /// Starts anew for a region, with no mark: with 0 for all, since what matters is told of sooner or later. The only
    /// error is want of memory.
    #[tactic(auto, using(crate::proofs::FirstLemmas::all_nought))]
    pub fn post(&mut self, p: &Problem, _g: &Region) -> Result<(), Memory>
        requires { IsSized p.now.given _g.now }
        ensures older { OnOk result (self.new.older ≡ []) }
        ensures top { OnOk result (AreFirsts p.now.given (sets _g.now) self.new.top) }
    {
        let mut starts = Vec::new(self.alloc);
        starts.resize(p.cluster().nodes().len() * p.cluster().machines().len(), 0)?;
        self.starts.reset(starts);
        self.is_crowded = is_crowded(p);
        Ok(())
    }

    // writes that of a machine at a node
    #[tactic(auto, using(crate::proofs::FirstLemmas::firsts_put))]
    fn put(&mut self, p: &Problem, g: &Region, n: NodeId, v: VmId) -> Result<(), Memory>
        requires region { IsSized p.now.given g.now }
        requires node { n.0 < node_count p.now.given }
        requires machine { v.0 < machine_count p.now.given }
        requires right { AreFirsts p.now.given (sets g.now) self.old.top }
        ensures older { self.new.older ≡ self.old.older }
        ensures top { OnOk result (AreFirsts p.now.given (sets g.now) self.new.top) }
    {
        let first = first_at(g.domain(Element::Vm(v)), n);
        self.starts.set(slot_of(p, n, v), first)?;
        Ok(())
    }

    // of the machine and the node of a change at one place
    fn put_at(&mut self, p: &Problem, g: &Region, e: Element, place: Place) -> Result<(), Memory>
        requires region { IsSized p.now.given g.now }
        requires element { IsElement p.now.given e }
        requires right { AreFirsts p.now.given (sets g.now) self.old.top }
        ensures older { self.new.older ≡ self.old.older }
        ensures top { OnOk result (AreFirsts p.now.given (sets g.now) self.new.top) }
    {
        let Element::Vm(v) = e else {
            return Ok(());
        };
        let Place::At(n) = place else {
            return Ok(());
        };
        if n.0 as usize >= p.cluster().nodes().len() {
            return Ok(());
        }
        self.put(p, g, n, v)
    }

    // of a machine that may do nothing but stay as it is: at each node
    fn put_everywhere(&mut self, p: &Problem, g: &Region, e: Element) -> Result<(), Memory>
        requires region { IsSized p.now.given g.now }
        requires element { IsElement p.now.given e }
        requires right { AreFirsts p.now.given (sets g.now) self.old.top }
        ensures older { self.new.older ≡ self.old.older }
        ensures top { OnOk result (AreFirsts p.now.given (sets g.now) self.new.top) }
    {
        let Element::Vm(v) = e else {
            return Ok(());
        };
        for i in 0..p.cluster().nodes().len() {
            self.put(p, g, NodeId(i as u32), v)?;
        }
        Ok(())
    }

    // of a machine that may do nothing but stay as it is, where that pays: each node has to be written, and to be put back
    fn put_stayer(&mut self, p: &Problem, g: &Region, e: Element) -> Result<(), Memory>
        requires region { IsSized p.now.given g.now }
        requires element { IsElement p.now.given e }
        requires right { AreFirsts p.now.given (sets g.now) self.old.top }
        ensures older { self.new.older ≡ self.old.older }
        ensures top { OnOk result (AreFirsts p.now.given (sets g.now) self.new.top) }
    {
        if self.is_crowded {
            self.put_everywhere(p, g, e)
        } else {
            Ok(())
        }
    }

    /// Is told of a change that has led to a region, for which these are right already: that of its machine and its
    /// node is written anew, where it is of one node, and those of all nodes where the machine stays as it is now and
    /// nodes are crowded. The only error is want of memory.
    pub fn told(&mut self, p: &Problem, g: &Region, change: Change) -> Result<(), Memory>
        requires region { IsSized p.now.given g.now }
        requires element { IsElement p.now.given change.element }
        requires right { AreFirsts p.now.given (sets g.now) self.old.top }
        ensures older { self.new.older ≡ self.old.older }
        ensures top { OnOk result (AreFirsts p.now.given (sets g.now) self.new.top) }
    {
        match change.part {
            Part::Idle => match change.side {
                Side::Inside => self.put_stayer(p, g, change.element),
                Side::Outside => Ok(()),
            },
            Part::Upto(place, _) | Part::From(place, _) => self.put_at(p, g, change.element, place),
        }
    }

    /// Makes a mark, to which `back` returns. After want of memory all is as it was.
    pub fn mark(&mut self) -> Result<(), Memory>
        ensures ok { OnOk result (self.new ≡ marked self.old) }
        ensures err { OnErr result (self.new ≡ self.old) }
    {
        self.starts.mark()
    }

    /// Goes back to the last mark, and drops it.
    pub fn back(&mut self)
        requires { 0 < length self.old.older }
        ensures { IsBack self.old self.new }
    {
        self.starts.back()
    }

    /// By machine, at one node.
    #[tactic(auto, using(crate::proofs::FirstLemmas::firsts_at))]
    pub fn at(&self, p: &Problem, _g: &Region, n: NodeId) -> &[Instant]
        requires right { AreFirsts p.now.given (sets _g.now) self.now.top }
        requires node { n.0 < node_count p.now.given }
        ensures { AreFirstAt p.now.given (sets _g.now) n.0 result.now }
    {
        let machines = p.cluster().machines().len();
        let from = n.0 as usize * machines;
        &self.starts.items()[from..from + machines]
    }
}
