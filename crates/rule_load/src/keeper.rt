//! Where machines surely stand, kept beside the rule.
ghost use Rattle.std.specs.Prelude.{◌≡◌, ℕ, ◌<◌, IfSome, OnErr, OnOk, [], length, slice_index_or};
ghost use Rattle.standings.specs.Levels.{marked};
ghost use Rattle.profiles.specs.Prelude.{AreMovers, AreStanding, IsElement, IsFixed, IsNear, IsStanding, machine_count, no_standing, node_count, sets};
ghost use Rattle.rule_frame.specs.Caches.{IsCacheFor};
ghost use Rattle.load_bounds.specs.{HoldOn.StayersHoldOn, KeptAt.AreKeptAt, NodeRooms.AreRooms};
ghost use Rattle.rule_load.specs.Kept.{Grows, IsListedBy, IsListedFor};

use crate::{Fixed, Kept, Standing};
use load_bounds::hold_on::stayers_hold_on;
use load_bounds::node_rooms::NodeRooms;
use profiles::firsts::Firsts;
use profiles::movers::Movers;
use profiles::near::Near;
use rule_frame::{Before, Change, Domain, Element, Keeper, Memory, NodeId, Problem, Region, VmId};
use standings::table::Table;
use std::alloc::Global;

/// Keeps for each machine until when it surely stands on its host, and where it surely comes to; for each node the
/// machines near it, of which none is taken away, and before when each machine does not start there; the machines
/// that may not stay, and whether all others never have less than at present; and the nodes that may not be usable at
/// all times.
#[derive(Drop)]
pub struct LoadKeeper {
    table: Table,
    fixed: Fixed,
    near: Near,
    firsts: Firsts,
    movers: Movers,
    rooms: NodeRooms,
    hold_on: bool,
    alloc: Global,
}

impl LoadKeeper {
    ghost use Rattle.rule_load.specs.Kept.{cache_of};

    /// Of no machine, with one level. It takes no memory.
    pub fn new(alloc: Global) -> LoadKeeper {
        LoadKeeper {
            table: Table::new(alloc),
            fixed: Fixed::none(alloc),
            near: Near::none(alloc),
            firsts: Firsts::new(alloc),
            movers: Movers::none(alloc),
            rooms: NodeRooms::none(alloc),
            hold_on: false,
            alloc,
        }
    }

    /// Where a machine surely stands in the region of which this was told last.
    pub fn of(&self, p: &Problem, _g: &Region, v: VmId) -> Standing
        requires right { IsCacheFor (cache_of self.now.table self.now.fixed self.now.near self.now.firsts self.now.movers self.now.rooms self.now.hold_on) p.now.given (sets _g.now) }
        requires machine { IsElement p.now.given (Element.Vm v) }
        ensures { IsStanding p.now.given v.0 (sets _g.now (Element.Vm v)) result }
    {
        self.table.get(v)
    }

    /// What no change of a region changes.
    pub fn fixed(&self, p: &Problem, _g: &Region) -> &Fixed
        requires { IsCacheFor (cache_of self.now.table self.now.fixed self.now.near self.now.firsts self.now.movers self.now.rooms self.now.hold_on) p.now.given (sets _g.now) }
        ensures { IsFixed p.now.given result.now }
    {
        &self.fixed
    }

    // puts a machine near the node that all its choices go to, if there is one
    #[tactic(auto, using(crate::proofs::KeptLemmas::none_listed, crate::proofs::KeptLemmas::put_listed, crate::proofs::KeptLemmas::grows_put, crate::proofs::KeptLemmas::grows_not))]
    fn put_near(&mut self, _p: &Problem, v: VmId) -> Result<(), Memory>
        requires near { IsNear _p.now.given self.old.near }
        requires machine { v.0 < machine_count _p.now.given }
        requires number { v.0 < length self.old.table.top }
        ensures table { self.new.table ≡ self.old.table }
        ensures fixed { self.new.fixed ≡ self.old.fixed }
        ensures firsts { self.new.firsts ≡ self.old.firsts }
        ensures movers { self.new.movers ≡ self.old.movers }
        ensures rooms { self.new.rooms ≡ self.old.rooms }
        ensures hold_on { self.new.hold_on ≡ self.old.hold_on }
        ensures near { OnOk result (IsNear _p.now.given self.new.near) }
        ensures grows { OnOk result (Grows (machine_count _p.now.given) self.old.near self.new.near) }
        ensures there { OnOk result (IsListedBy _p.now.given v.0 (slice_index_or self.old.table.top v.0 no_standing) self.new.near) }
    {
        if let Some(a) = self.table.get(v).come {
            self.near.put(a.node, v)?;
        }
        Ok(())
    }

    // puts each machine near the node that all its choices go to
    fn put_all(&mut self, p: &Problem) -> Result<(), Memory>
        requires near { IsNear p.now.given self.old.near }
        requires count { length self.old.table.top ≡ machine_count p.now.given }
        ensures table { self.new.table ≡ self.old.table }
        ensures fixed { self.new.fixed ≡ self.old.fixed }
        ensures firsts { self.new.firsts ≡ self.old.firsts }
        ensures movers { self.new.movers ≡ self.old.movers }
        ensures rooms { self.new.rooms ≡ self.old.rooms }
        ensures hold_on { self.new.hold_on ≡ self.old.hold_on }
        ensures near { OnOk result (IsNear p.now.given self.new.near) }
        ensures there { OnOk result ((v : ℕ) → v < machine_count p.now.given → IsListedBy p.now.given v (slice_index_or self.old.table.top v no_standing) self.new.near) }
    {
        for i in 0..p.cluster().machines().len() {
            self.put_near(p, VmId(i as u32))?;
        }
        Ok(())
    }

    // puts an element near the node that all its choices go to, if it is a machine and there is one
    fn put_changed(&mut self, p: &Problem, e: Element) -> Result<(), Memory>
        requires near { IsNear p.now.given self.old.near }
        requires element { IsElement p.now.given e }
        requires count { length self.old.table.top ≡ machine_count p.now.given }
        ensures table { self.new.table ≡ self.old.table }
        ensures fixed { self.new.fixed ≡ self.old.fixed }
        ensures firsts { self.new.firsts ≡ self.old.firsts }
        ensures movers { self.new.movers ≡ self.old.movers }
        ensures rooms { self.new.rooms ≡ self.old.rooms }
        ensures hold_on { self.new.hold_on ≡ self.old.hold_on }
        ensures near { OnOk result (IsNear p.now.given self.new.near) }
        ensures grows { OnOk result (Grows (machine_count p.now.given) self.old.near self.new.near) }
        ensures there { OnOk result (IsListedFor p.now.given e self.old.table.top self.new.near) }
    {
        match e {
            Element::Vm(v) => self.put_near(p, v),
            Element::Node(_) => Ok(()),
        }
    }

    // makes a mark in what is kept beside the table
    fn mark_lists(&mut self) -> Result<(), Memory>
        ensures table { self.new.table ≡ self.old.table }
        ensures fixed { self.new.fixed ≡ self.old.fixed }
        ensures near { self.new.near ≡ self.old.near }
        ensures rooms { self.new.rooms ≡ self.old.rooms }
        ensures hold_on { self.new.hold_on ≡ self.old.hold_on }
        ensures firsts { OnOk result (self.new.firsts ≡ marked self.old.firsts) }
        ensures movers { OnOk result (self.new.movers ≡ marked self.old.movers) }
        ensures same_firsts { OnErr result (self.new.firsts ≡ self.old.firsts) }
        ensures same_movers { OnErr result (self.new.movers ≡ self.old.movers) }
    {
        self.firsts.mark()?;
        match self.movers.mark() {
            Ok(()) => Ok(()),
            Err(e) => {
                self.firsts.back();
                Err(e)
            }
        }
    }

    /// What is kept, as far as a node needs it.
    #[tactic(auto, using(crate::proofs::KeptLemmas::kept_at, crate::proofs::KeptLemmas::kept_firsts))]
    pub(crate) fn at(&self, p: &Problem, g: &Region, n: NodeId) -> Kept<'_>
        requires right { IsCacheFor (cache_of self.now.table self.now.fixed self.now.near self.now.firsts self.now.movers self.now.rooms self.now.hold_on) p.now.given (sets g.now) }
        requires node { n.0 < node_count p.now.given }
        ensures { AreKeptAt p.now.given (sets g.now) n.0 result.fixed.now result.standings.now result.near.now result.firsts.now }
    {
        Kept {
            fixed: &self.fixed,
            standings: self.table.standings(),
            near: self.near.at(p, n),
            firsts: self.firsts.at(p, g, n),
        }
    }

    /// Where each machine surely stands in the region of which this was told last.
    pub fn all(&self, p: &Problem, _g: &Region) -> &[Standing]
        requires { IsCacheFor (cache_of self.now.table self.now.fixed self.now.near self.now.firsts self.now.movers self.now.rooms self.now.hold_on) p.now.given (sets _g.now) }
        ensures { AreStanding p.now.given (sets _g.now) result.now }
    {
        self.table.standings()
    }

    /// The machines that may not stay in the region of which this was told last, and no machine twice.
    #[tactic(auto, using(crate::proofs::KeptLemmas::kept_movers))]
    pub fn movers(&self, p: &Problem, _g: &Region) -> &[u32]
        requires { IsCacheFor (cache_of self.now.table self.now.fixed self.now.near self.now.firsts self.now.movers self.now.rooms self.now.hold_on) p.now.given (sets _g.now) }
        ensures { AreMovers p.now.given (sets _g.now) result.now }
    {
        self.movers.machines()
    }

    /// The same as they are kept, where it is known that all others never have less than at present.
    #[tactic(auto, using(crate::proofs::KeptLemmas::kept_movers))]
    pub(crate) fn holders(&self, _p: &Problem, _g: &Region) -> Option<&Movers>
        requires { IsCacheFor (cache_of self.now.table self.now.fixed self.now.near self.now.firsts self.now.movers self.now.rooms self.now.hold_on) _p.now.given (sets _g.now) }
        ensures movers { IfSome result (λ m. AreMovers _p.now.given (sets _g.now) m.now.top) }
        ensures hold { IfSome result (λ m. StayersHoldOn _p.now.given (sets _g.now)) }
    {
        if self.hold_on {
            Some(&self.movers)
        } else {
            None
        }
    }

    /// What all nodes have, and the nodes that may not be usable at all times.
    pub(crate) fn rooms(&self, p: &Problem, _g: &Region) -> &NodeRooms
        requires { IsCacheFor (cache_of self.now.table self.now.fixed self.now.near self.now.firsts self.now.movers self.now.rooms self.now.hold_on) p.now.given (sets _g.now) }
        ensures { AreRooms p.now.given (sets _g.now) result.now }
    {
        &self.rooms
    }
}

impl Keeper for LoadKeeper {
    ghost use Rattle.rule_load.specs.Kept.{cache_of};

    ghost cache = { λ k. cache_of k.table k.fixed k.near k.firsts k.movers k.rooms k.hold_on };

    fn post(&mut self, p: &Problem, g: &Region) -> Result<(), Memory> {
        self.fixed = Fixed::of(self.alloc, p)?;
        self.near = Near::of(self.alloc, p)?;
        self.movers = Movers::of(self.alloc, p, g)?;
        self.rooms = NodeRooms::of(self.alloc, p, g)?;
        self.hold_on = stayers_hold_on(p, g);
        self.table.post(p, g)?;
        self.firsts.post(p, g)?;
        self.put_all(p)
    }

    fn told(
        &mut self,
        p: &Problem,
        g: &Region,
        change: Change,
        before: Before,
        kept: &Domain,
    ) -> Result<(), Memory> {
        self.table.told(p, g, change, before, kept)?;
        self.firsts.told(p, g, change)?;
        self.movers.told(p, g, change.element)?;
        self.rooms.told(p, g, change.element)?;
        self.put_changed(p, change.element)?;
        Ok(())
    }

    fn mark(&mut self) -> Result<(), Memory> {
        self.table.mark()?;
        match self.mark_lists() {
            Ok(()) => Ok(()),
            Err(e) => {
                self.table.back();
                Err(e)
            }
        }
    }

    fn back(&mut self) {
        if self.table.level() > 0 {
            self.table.back();
        }
        if self.firsts.level() > 0 {
            self.firsts.back();
        }
        if self.movers.level() > 0 {
            self.movers.back();
        }
    }
}
