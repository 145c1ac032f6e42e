//! The machines that may not stay, in a list that grows, with levels.
ghost use Rattle.std.specs.Prelude.{◌≡◌, ℕ, ◌+◌, ◌<◌, ◌≤◌, ◌↔◌, [], ◌∷◌, ◌++◌, IfOk, IsTrue, OnErr, OnOk, length, slice_index_or, vec_len};
ghost use Rattle.std.specs.List.{Contains};
ghost use Rattle.relax.specs.Prelude.{IsElement, IsSized, machine_count, sets, vm};
ghost use Rattle.cluster.specs.declared.choices.Choice.TheVariants.{Idle};
ghost use Rattle.standings.specs.Levels.{IsBack, marked};
ghost use Rattle.profiles.specs.Movers.{AreMovers, IsGrown, IsListedOrStays, IsToldOf};

use base::Memory;
use catalogue::Problem;
use cluster::{Element, VmId};
use domains::Region;
use std::alloc::Global;
use std::marker::Model;

/// A list of machines, each of them once, in which are all that may not stay as they are, at the top and at each mark.
///
/// Where a machine stands in the list, if it is there, is kept beside it, and may be anything for others. A mark is how
/// many machines there were, so going back takes away what was put in since.
#[derive(Drop)]
pub struct Movers {
    list: Vec<u32>,
    ranks: Vec<usize>,
    marks: Vec<usize>,
}

impl Model for Movers {
    ghost use Rattle.std.specs.Prelude.{ℕ, map, take};
    ghost use Rattle.standings.specs.Levels.{Levels};
    ghost use Rattle.profiles.specs.Ranks.{IsRanked};

    ghost Value = { Levels ℕ };

    ghost view = { λ m. record { older = map (λ k. take k m.list.items) m.marks.items; top = m.list.items } };

    ghost invariant = { λ m. IsRanked m.list.items m.ranks.items m.marks.items };
}

// makes room for the ranks of the first numbers; all that were there are as they were
#[tactic(auto, using(crate::proofs::RankLemmas::nought_push))]
fn widen(ranks: &mut Vec<usize>, count: usize) -> Result<(), Memory>
    ensures same { (v : ℕ) → slice_index_or ranks.new.items v 0 ≡ slice_index_or ranks.old.items v 0 }
    ensures more { vec_len ranks.old ≤ vec_len ranks.new }
    ensures room { OnOk result (count ≤ vec_len ranks.new) }
{
    for _ in ranks.len()..count {
        ranks.push(0)?;
    }
    Ok(())
}

// whether a machine may stay as it is
#[tactic(auto, using(crate::proofs::MoverLemmas::idle_in))]
fn may_stay(g: &Region, v: VmId) -> bool
    requires { v.0 < length g.now.machines }
    ensures { IsTrue result → Contains (sets g.now (vm v.0)) Idle }
{
    g.domain(Element::Vm(v)).idle()
}

impl Movers {
    /// Of no machine, with one level. It takes no memory.
    pub fn none(alloc: Global) -> Movers
        ensures { result ≡ record { older = []; top = [] } }
    {
        Movers {
            list: Vec::new(alloc),
            ranks: Vec::new(alloc),
            marks: Vec::new(alloc),
        }
    }

    /// Of the machines of a problem that may not stay in a region, with one level. The only error is want of memory.
    pub fn of(alloc: Global, p: &Problem, g: &Region) -> Result<Movers, Memory>
        requires { IsSized p.now.given g.now }
        ensures older { IfOk result (λ m. m.older ≡ []) }
        ensures top { IfOk result (λ m. AreMovers p.now.given (sets g.now) m.top) }
    {
        let mut movers = Movers::none(alloc);
        movers.put_all(p, g)?;
        Ok(movers)
    }

    /// How many marks stand.
    pub fn level(&self) -> u64
        ensures { result ≡ length self.now.older }
    {
        self.marks.len() as u64
    }

    /// Whether a machine is in the list.
    pub fn has(&self, v: VmId) -> bool
        ensures { IsTrue result ↔ Contains self.now.top v.0 }
    {
        let i = v.0 as usize;
        if i >= self.ranks.len() {
            return false;
        }
        let rank = self.ranks[i];
        if rank >= self.list.len() {
            return false;
        }
        self.list[rank] == v.0
    }

    // puts a machine at the end of the list
    #[tactic(auto, using(crate::proofs::RankLemmas::ranked_push, crate::proofs::RankLemmas::ranked_wider, crate::proofs::RankLemmas::older_push))]
    fn append(&mut self, v: VmId) -> Result<(), Memory>
        requires { ¬ Contains self.old.top v.0 }
        ensures { OnOk result (self.new ≡ record { older = self.old.older; top = self.old.top ++ v.0 ∷ [] }) }
    {
        let i = v.0 as usize;
        widen(&mut self.ranks, i + 1)?;
        let rank = self.list.len();
        self.list.push(v.0)?;
        self.ranks[i] = rank;
        Ok(())
    }

    // puts a machine in the list, unless it may stay or is there
    #[tactic(auto, using(crate::proofs::MoverLemmas::grown_not, crate::proofs::MoverLemmas::grown_push, crate::proofs::MoverLemmas::stays, crate::proofs::MoverLemmas::there, crate::proofs::MoverLemmas::pushed))]
    fn watch(&mut self, _p: &Problem, g: &Region, v: VmId) -> Result<(), Memory>
        requires machine { v.0 < machine_count _p.now.given }
        requires region { v.0 < length g.now.machines }
        ensures older { OnOk result (self.new.older ≡ self.old.older) }
        ensures grown { OnOk result (IsGrown (machine_count _p.now.given) self.old.top self.new.top) }
        ensures told { OnOk result (IsListedOrStays (sets g.now) v.0 self.new.top) }
    {
        if may_stay(g, v) || self.has(v) {
            return Ok(());
        }
        self.append(v)
    }

    // puts each machine in the list that may not stay
    #[tactic(auto, using(crate::proofs::MoverLemmas::none_once, crate::proofs::MoverLemmas::next_told))]
    fn put_all(&mut self, p: &Problem, g: &Region) -> Result<(), Memory>
        requires region { IsSized p.now.given g.now }
        requires none { self.old.top ≡ [] }
        ensures older { OnOk result (self.new.older ≡ self.old.older) }
        ensures top { OnOk result (AreMovers p.now.given (sets g.now) self.new.top) }
    {
        for i in 0..p.cluster().machines().len() {
            self.watch(p, g, VmId(i as u32))?;
        }
        Ok(())
    }

    /// Told of a change of an element: a machine that may not stay now is put in the list, where it is not yet. The
    /// only error is want of memory.
    pub fn told(&mut self, p: &Problem, g: &Region, e: Element) -> Result<(), Memory>
        requires region { IsSized p.now.given g.now }
        requires element { IsElement p.now.given e }
        ensures older { OnOk result (self.new.older ≡ self.old.older) }
        ensures grown { OnOk result (IsGrown (machine_count p.now.given) self.old.top self.new.top) }
        ensures told { OnOk result (IsToldOf (sets g.now) e self.new.top) }
    {
        match e {
            Element::Vm(v) => self.watch(p, g, v),
            Element::Node(_) => Ok(()),
        }
    }

    /// Makes a mark, to which `back` returns. After want of memory all is as it was.
    #[tactic(auto, using(crate::proofs::RankLemmas::ranked_mark, crate::proofs::RankLemmas::older_mark))]
    pub fn mark(&mut self) -> Result<(), Memory>
        ensures ok { OnOk result (self.new ≡ marked self.old) }
        ensures err { OnErr result (self.new ≡ self.old) }
    {
        self.marks.push(self.list.len())?;
        Ok(())
    }

    /// Goes back to the last mark, and drops it.
    #[tactic(auto, using(crate::proofs::RankLemmas::ranked_back, crate::proofs::RankLemmas::older_back))]
    pub fn back(&mut self)
        requires { 0 < length self.old.older }
        ensures { IsBack self.old self.new }
    {
        if let Some(many) = self.marks.pop() {
            self.list.truncate(many);
        }
    }

    /// The machines that may not stay, and no machine twice.
    pub fn machines(&self) -> &[u32]
        ensures { result.now ≡ self.now.top }
    {
        &self.list
    }
}
