//! The element of which most failures were reported.
ghost use Rattle.std.specs.Prelude.{◌≡◌, IfOk, IfSome, IfNone, length, slice_index_or};
ghost use Rattle.relax.specs.Prelude.{AreLegal, domain_at, HasElement, HaveChoices, IsFixed, IsSized, machine_count, node_count, sets};
ghost use Rattle.branching.specs.Better.{IsBetter};
ghost use Rattle.branching.specs.Elements.{HasMostFailures, IsUnfixed};
ghost use Rattle.branching.specs.Failures.{failures_of, raised as raised_at, with_failure};
ghost use Rattle.branching.specs.Parts.{IsLeastStart};
ghost use Rattle.cluster.specs.declared.ids.Element.{Element as AnyElement};
ghost use Rattle.trees.specs.Proving.{IsSplit};

use crate::brancher::Brancher;
use crate::open::first_open;
use crate::split::by_least_start;
use base::Memory;
use catalogue::Problem;
use cluster::Element;
use domains::{Part, Region};
use reasons::Reason;
use slices::Plan;
use std::alloc::Global;
use std::marker::Model;

/// Splits the element that is not fixed and of which most failures were reported, the first of several, as
/// `LeastStart` splits it.
///
/// Each report that names an element counts, whatever its reason; one that names none counts nowhere. Counters
/// stand still at 2^32 - 1. An element without a counter has no failures, so that any problem may be asked about.
#[derive(Drop)]
pub struct MostFailures {
    machines: Vec<u32>,
    nodes: Vec<u32>,
}

impl Model for MostFailures {
    ghost use Rattle.branching.specs.Failures.{Failures};

    ghost Value = { Failures };

    ghost view = { λ m. record { machines = m.machines.items; nodes = m.nodes.items } };
}

impl MostFailures {
    /// Counters for each element of a problem, without a failure yet. The only error is want of memory.
    pub fn new(alloc: Global, p: &Problem) -> Result<MostFailures, Memory>
        ensures machines { IfOk result (λ m. length m.machines ≡ machine_count p.now.given) }
        ensures nodes { IfOk result (λ m. length m.nodes ≡ node_count p.now.given) }
        ensures none { IfOk result (λ m. (e : AnyElement) → failures_of m e ≡ 0) }
    {
        Ok(MostFailures {
            machines: vec![in alloc; 0; p.cluster().machines().len()]?,
            nodes: vec![in alloc; 0; p.cluster().nodes().len()]?,
        })
    }

    /// How many failures were reported of an element.
    pub fn failures(&self, e: Element) -> u32
        ensures { result ≡ failures_of self.now e }
    {
        match e {
            Element::Vm(v) => count_at(&self.machines, v.0 as usize),
            Element::Node(n) => count_at(&self.nodes, n.0 as usize),
        }
    }

    /// What `choose` answers.
    pub fn most_failures(&self, p: &Problem, g: &Region) -> (Element, Part)
        requires sized { IsSized p.now.given g.now }
        requires inhabited { HaveChoices p.now.given (sets g.now) }
        requires free { ¬ IsFixed g.now }
        ensures element { HasMostFailures (failures_of self.now) g.now result.0 }
        ensures part { IsLeastStart (domain_at g.now result.0) result.1 }
        ensures split { IsSplit p.now.given (sets g.now) result.0 result.1 }
    {
        let x = self.most_failed(p, g);
        (x, by_least_start(g.domain(x)))
    }

    fn most_failed(&self, p: &Problem, g: &Region) -> Element
        requires sized { IsSized p.now.given g.now }
        requires free { ¬ IsFixed g.now }
        ensures { HasMostFailures (failures_of self.now) g.now result }
    {
        let mut best = first_open(g);
        for x in 0..p.cluster().element_count() {
            best = self.better(g, best, p.cluster().element(x));
        }
        best
    }

    // the other element, where it is not fixed and has more failures than the best so far
    fn better(&self, g: &Region, best: Element, e: Element) -> Element
        requires { HasElement g.now e }
        ensures { IsBetter (failures_of self.now) g.now best e result }
    {
        if self.failures(e) > self.failures(best) && !g.domain(e).is_one() {
            e
        } else {
            best
        }
    }
}

impl Brancher for MostFailures {
    fn choose(&mut self, p: &Problem, g: &Region) -> (Element, Part)
        requires sized { IsSized p.now.given g.now }
        requires inhabited { HaveChoices p.now.given (sets g.now) }
        requires free { ¬ IsFixed g.now }
        ensures element { HasMostFailures (failures_of self.old) g.now result.0 }
        ensures part { IsLeastStart (domain_at g.now result.0) result.1 }
        ensures kept { self.new ≡ self.old }
        ensures split { IsSplit p.now.given (sets g.now) result.0 result.1 }
    {
        self.most_failures(p, g)
    }

    fn met_plan(&mut self, _p: &Problem, _plan: &Plan)
        ensures { self.new ≡ self.old }
    {}

    fn failed(&mut self, _p: &Problem, element: Option<Element>, _reason: &Reason)
        ensures some { IfSome element (λ e. self.new ≡ with_failure self.old e) }
        ensures none { IfNone element (self.new ≡ self.old) }
    {
        match element {
            None => (),
            Some(Element::Vm(v)) => raise(&mut self.machines, v.0 as usize),
            Some(Element::Node(n)) => raise(&mut self.nodes, n.0 as usize),
        }
    }
}

fn count_at(counts: &[u32], i: usize) -> u32
    ensures { result ≡ slice_index_or counts.now i 0 }
{
    if i < counts.len() { counts[i] } else { 0 }
}

fn raise(counts: &mut Vec<u32>, i: usize)
    ensures { counts.new.items ≡ raised_at counts.old.items i }
{
    if i < counts.len() {
        counts[i] = counts[i].saturating_add(1);
    }
}
