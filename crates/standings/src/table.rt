//! The numbers of all machines, with levels.
ghost use Rattle.std.specs.Prelude.{◌≡◌, ◌<◌, [], length, OnOk, OnErr, IfOk, slice_index_or, slice_set};
ghost use Rattle.relax.specs.Prelude.{AreFewer, choices, domain_at, domain_before, IsElement, IsSized, sets};
ghost use Rattle.{standings.specs.Levels.IsBack, standings.specs.Levels.marked, standings.specs.Tables.AreStanding, standings.specs.Tables.no_standing, domains.specs.SetsBefore.sets_before};

use crate::levels::Levelled;
use crate::numbers::{Standing, is_same, standing_after, standing_of};
use base::Memory;
use catalogue::Problem;
use cluster::{Element, VmId};
use domains::{Before, Change, Domain, Region};
use std::alloc::Global;
use std::marker::Model;

/// Where each machine of a problem surely stands in a region, at the top and at each mark.
#[derive(Drop)]
pub struct Table {
    levels: Levelled<Standing>,
    alloc: Global,
}

impl Model for Table {
    ghost use Rattle.standings.specs.Tables.{Tables};

    ghost Value = { Tables };

    ghost view = { λ m. m.levels };
}

impl Table {
    /// A table of no machine.
    pub fn new(alloc: Global) -> Table
        ensures { result ≡ record { older = []; top = [] } }
    {
        Table {
            levels: Levelled::new(alloc),
            alloc,
        }
    }

    /// How many marks stand.
    pub fn level(&self) -> u64
        ensures { result ≡ length self.now.older }
    {
        self.levels.level()
    }

    /// The numbers of each machine.
    pub fn standings(&self) -> &[Standing]
        ensures { result.now ≡ self.now.top }
    {
        self.levels.items()
    }

    /// The numbers of a machine.
    pub fn get(&self, v: VmId) -> Standing
        requires { v.0 < length self.now.top }
        ensures { result ≡ slice_index_or self.now.top v.0 no_standing }
    {
        self.levels.items()[v.0 as usize]
    }

    /// Starts anew with the numbers of a region, and no mark. After want of memory all is as it was.
    pub fn post(&mut self, p: &Problem, g: &Region) -> Result<(), Memory>
        requires { IsSized p.now.given g.now }
        ensures older { OnOk result (self.new.older ≡ []) }
        ensures top { OnOk result (AreStanding p.now.given (sets g.now) self.new.top) }
        ensures err { OnErr result (self.new ≡ self.old) }
    {
        let top = standings_of(self.alloc, p, g)?;
        self.levels.reset(top);
        Ok(())
    }

    // the numbers of one machine; nothing is kept where they are the same, as after most changes
    #[tactic(auto, using(crate::proofs::TableLemmas::set_same))]
    fn put(&mut self, v: VmId, k: Standing) -> Result<(), Memory>
        requires { v.0 < length self.old.top }
        ensures ok { OnOk result (self.new ≡ record { older = self.old.older; top = slice_set self.old.top v.0 k }) }
        ensures err { OnErr result (self.new ≡ self.old) }
    {
        if is_same(self.get(v), k) {
            return Ok(());
        }
        self.levels.set(v.0, k)?;
        Ok(())
    }

    /// Is told that an element has fewer choices in the region now, and what its domain was. After want of memory
    /// all is as it was.
    pub fn told(
        &mut self,
        p: &Problem,
        g: &Region,
        change: Change,
        before: Before,
        kept: &Domain,
    ) -> Result<(), Memory>
        requires region { IsSized p.now.given g.now }
        requires element { IsElement p.now.given change.element }
        requires fewer { AreFewer (sets g.now change.element) (choices (domain_before before kept.now (domain_at g.now change.element))) }
        requires right { AreStanding p.now.given (sets_before g.now change.element before kept.now) self.old.top }
        ensures older { self.new.older ≡ self.old.older }
        ensures top { OnOk result (AreStanding p.now.given (sets g.now) self.new.top) }
        ensures err { OnErr result (self.new ≡ self.old) }
    {
        match change.element {
            Element::Node(_) => Ok(()),
            Element::Vm(v) => self.told_machine(p, g, v, before, kept),
        }
    }

    // is told that a machine has fewer choices
    #[tactic(auto, using(crate::proofs::TableLemmas::standing_put))]
    fn told_machine(
        &mut self,
        p: &Problem,
        g: &Region,
        v: VmId,
        before: Before,
        kept: &Domain,
    ) -> Result<(), Memory>
        requires region { IsSized p.now.given g.now }
        requires machine { IsElement p.now.given (Element.Vm v) }
        requires fewer { AreFewer (sets g.now (Element.Vm v)) (choices (domain_before before kept.now (domain_at g.now (Element.Vm v)))) }
        requires right { AreStanding p.now.given (sets_before g.now (Element.Vm v) before kept.now) self.old.top }
        ensures older { self.new.older ≡ self.old.older }
        ensures top { OnOk result (AreStanding p.now.given (sets g.now) self.new.top) }
        ensures err { OnErr result (self.new ≡ self.old) }
    {
        let domain = g.domain(Element::Vm(v));
        let old = self.get(v);
        let k = standing_after(p, v, domain, before, kept, old);
        self.put(v, k)?;
        Ok(())
    }

    /// Makes a mark, to which `back` returns. After want of memory all is as it was.
    pub fn mark(&mut self) -> Result<(), Memory>
        ensures ok { OnOk result (self.new ≡ marked self.old) }
        ensures err { OnErr result (self.new ≡ self.old) }
    {
        self.levels.mark()
    }

    /// Goes back to the last mark, and drops it.
    pub fn back(&mut self)
        requires { 0 < length self.old.older }
        ensures { IsBack self.old self.new }
    {
        self.levels.back()
    }
}

// the numbers of all machines in a region
fn standings_of(alloc: Global, p: &Problem, g: &Region) -> Result<Vec<Standing>, Memory>
    requires { IsSized p.now.given g.now }
    ensures { IfOk result (λ ks. AreStanding p.now.given (sets g.now) ks.items) }
{
    let count = p.cluster().machines().len();
    let mut standings = Vec::with_capacity(alloc, count)?;
    for i in 0..count {
        let v = VmId(i as u32);
        standings.push(standing_of(p, v, g.domain(Element::Vm(v))))?;
    }
    Ok(standings)
}
