//! The watches of constraints on amounts, looked at with the help of what all machines hold while they stay.
ghost use Rattle.std.specs.Prelude.{◌≡◌, ◌<◌, IsTrue, Some, length, slice_get, true};
ghost use Rattle.rule_constraint.specs.Prelude.{FailHolds, in_part, IsCacheFor, IsClean, IsElement, IsSized, kinds_are_quiet, MayAnswer, sets, watch_at, watch_count, watches_are_local};
ghost use Rattle.rule_frame.specs.Prelude.{keeping};
ghost use Rattle.rule_setload.specs.Prelude.{AreStanding, bound_in, has_node, inventory_of, is_rule, IsWeight, set_kinds, StaysIn, StaysWhenDue};

use crate::bounds::{Bound, bound_of};
use crate::holders::Holders;
use crate::movers_hold::stays_within;
use crate::propose::propose_amount;
use crate::refuting::exceeds;
use crate::rule::Sets;
use crate::stayers::{Stayers, all_stayers};
use crate::walk::stays_when_due;
use power_bounds::power::{power_of, power_when_due};
use profiles::movers::Movers;
use rule_constraint::{ConstraintIndex, ConstraintWatcher};
use rule_frame::{
    Before, Change, Constraint, DirtySet, Domain, Element, Form, Instant, Keeper, Lens, Look,
    Memory, Part, Problem, Reason, ReasonKind, Region, Suggestion, View, Watcher, form_of,
};
use standings::numbers::Standing;
use standings::table::Table;
use std::alloc::Global;
use std::default::MadeWith;

/// Keeps the index of the constraints, the machines that may not stay as they are, and for each constraint what all
/// machines hold while they stay.
#[derive(Drop)]
pub struct AmountKeeper {
    index: ConstraintIndex,
    // whether a constraint bounds what machines hold: else no machine is kept
    bounded: bool,
    movers: Movers,
    stayers: Vec<Stayers>,
    holders: Holders,
    table: Table,
    alloc: Global,
}

// whether a constraint bounds what machines hold
fn has_bounds(p: &Problem) -> bool {
    for c in 0..p.constraints().len() {
        if matches!(form_of(&p.constraints()[c]), Form::Bounded(..)) {
            return true;
        }
    }
    false
}

// whether it is seen that no more nodes are powered than the constraint of a number lets be
fn has_power(p: &Problem, g: &Region, _c: usize, constraint: &Constraint) -> bool
    requires region { IsSized p.now.given g.now }
    requires there { slice_get p.now.given.constraints _c ≡ Some constraint.now }
    ensures { IsTrue result → IsClean (watch_at set_kinds p.now.given _c) p.now.given (sets g.now) }
{
    match power_of(constraint) {
        None => false,
        Some(bound) => power_when_due(p, g, &bound, constraint.is_continuous()),
    }
}

impl AmountKeeper {
    ghost use Rattle.rule_setload.specs.Amounts.{cache_of};

    /// Of no problem. It takes no memory.
    pub fn new(alloc: Global) -> AmountKeeper {
        AmountKeeper {
            index: ConstraintIndex::new(alloc),
            bounded: false,
            movers: Movers::none(alloc),
            stayers: Vec::new(alloc),
            holders: Holders::none(alloc),
            table: Table::new(alloc),
            alloc,
        }
    }

    // whether it is seen that what the constraint of a number bounds stays within its amount
    fn is_clean(&self, p: &Problem, g: &Region, c: usize) -> bool
        requires region { IsSized p.now.given g.now }
        requires right { IsCacheFor (cache_of self.now.bounded self.now.index.lists self.now.table self.now.movers self.now.stayers.items self.now.holders) p.now.given (sets g.now) }
        requires constraint { c < length p.now.given.constraints }
        ensures { IsTrue result → IsClean (watch_at set_kinds p.now.given c) p.now.given (sets g.now) }
    {
        self.is_clean_as(p, g, c, &p.constraints()[c])
    }

    // the same, with the constraint at hand
    fn is_clean_as(&self, p: &Problem, g: &Region, c: usize, constraint: &Constraint) -> bool
        requires region { IsSized p.now.given g.now }
        requires right { IsCacheFor (cache_of self.now.bounded self.now.index.lists self.now.table self.now.movers self.now.stayers.items self.now.holders) p.now.given (sets g.now) }
        requires constraint { c < length p.now.given.constraints }
        requires there { slice_get p.now.given.constraints c ≡ Some constraint.now }
        requires rule { is_rule (inventory_of p.now.given) constraint.now ≡ true }
        ensures { IsTrue result → IsClean (watch_at set_kinds p.now.given c) p.now.given (sets g.now) }
    {
        match bound_of(p, constraint) {
            None => has_power(p, g, c, constraint),
            Some(bound) => self.stays(p, g, &bound, c, constraint.is_continuous()),
        }
    }

    // whether what machines hold stays within the bound of the constraint of a number, whenever it has to
    #[tactic(auto, using(crate::proofs::FitLemmas::due_always))]
    fn stays(&self, p: &Problem, g: &Region, bound: &Bound, c: usize, always: bool) -> bool
        requires region { IsSized p.now.given g.now }
        requires right { IsCacheFor (cache_of self.now.bounded self.now.index.lists self.now.table self.now.movers self.now.stayers.items self.now.holders) p.now.given (sets g.now) }
        requires constraint { c < length p.now.given.constraints }
        requires bound { bound_in (slice_get p.now.given.constraints c) ≡ Some bound.now }
        requires weight { IsWeight p.now.given bound.now.weight }
        ensures { IsTrue result → StaysWhenDue p.now.given (sets g.now) bound.now.weight (has_node bound.now.nodes) bound.now.amount always }
    {
        if !self.bounded {
            return false;
        }
        if self.is_ample(p, g, bound, c) {
            return true;
        }
        let ks = self.standings(p, g);
        stays_when_due(p, g, ks, bound, self.stayers[c], always)
    }

    // whether there is ample room
    #[tactic(auto, using(crate::proofs::KeptLemmas::kept_movers))]
    fn is_ample(&self, p: &Problem, g: &Region, bound: &Bound, c: usize) -> bool
        requires region { IsSized p.now.given g.now }
        requires on { self.now.bounded ≡ true }
        requires right { IsCacheFor (cache_of self.now.bounded self.now.index.lists self.now.table self.now.movers self.now.stayers.items self.now.holders) p.now.given (sets g.now) }
        requires constraint { c < length p.now.given.constraints }
        requires bound { bound_in (slice_get p.now.given.constraints c) ≡ Some bound.now }
        requires weight { IsWeight p.now.given bound.now.weight }
        ensures { IsTrue result → StaysIn p.now.given (sets g.now) bound.now.weight (has_node bound.now.nodes) bound.now.amount }
    {
        stays_within(p, g, bound, self.stayers[c], self.movers.machines())
    }

    // puts into a list what may be cut for the constraint of a number
    fn propose(
        &self,
        p: &Problem,
        g: &Region,
        c: usize,
        them: &mut Vec<Suggestion>,
    ) -> Result<(), Memory>
        requires region { IsSized p.now.given g.now }
        requires right { IsCacheFor (cache_of self.now.bounded self.now.index.lists self.now.table self.now.movers self.now.stayers.items self.now.holders) p.now.given (sets g.now) }
        requires constraint { c < length p.now.given.constraints }
    {
        self.propose_as(p, g, c, &p.constraints()[c], them)
    }

    // the same, with the constraint at hand
    fn propose_as(
        &self,
        p: &Problem,
        g: &Region,
        c: usize,
        constraint: &Constraint,
        them: &mut Vec<Suggestion>,
    ) -> Result<(), Memory>
        requires region { IsSized p.now.given g.now }
        requires right { IsCacheFor (cache_of self.now.bounded self.now.index.lists self.now.table self.now.movers self.now.stayers.items self.now.holders) p.now.given (sets g.now) }
        requires constraint { c < length p.now.given.constraints }
        requires there { slice_get p.now.given.constraints c ≡ Some constraint.now }
        requires rule { is_rule (inventory_of p.now.given) constraint.now ≡ true }
    {
        let Some(bound) = bound_of(p, constraint) else {
            return Ok(());
        };
        if !self.bounded {
            return Ok(());
        }
        if self.is_ample(p, g, &bound, c) {
            return Ok(());
        }
        let ks = self.standings(p, g);
        let always = constraint.is_continuous();
        propose_amount(p, g, ks, &bound, self.stayers[c], c as u32, always, them)
    }

    // whether a reason is seen to refute what is inside a part of an element's choices
    fn refutes(&self, p: &Problem, g: &Region, e: Element, part: Part, reason: &Reason) -> bool
        requires region { IsSized p.now.given g.now }
        requires right { IsCacheFor (cache_of self.now.bounded self.now.index.lists self.now.table self.now.movers self.now.stayers.items self.now.holders) p.now.given (sets g.now) }
        requires element { IsElement p.now.given e }
        requires may { MayAnswer reason.now }
        ensures { IsTrue result → FailHolds p.now.given (keeping e (in_part part) (sets g.now)) reason.now }
    {
        if !self.bounded {
            return false;
        }
        let view = View {
            region: g,
            lens: Lens::Inside(e, part),
        };
        match reason {
            Reason::SetLoad(c, t) => {
                let ks = self.standings(p, g);
                exceeds(p, &view, &self.holders, ks, *c, *t)
            }
            Reason::Empty(_)
            | Reason::Bound
            | Reason::Load(..)
            | Reason::Pair(..)
            | Reason::Place(..)
            | Reason::Group(..)
            | Reason::Power(..)
            | Reason::Usable(..)
            | Reason::Hall(..) => false,
        }
    }

    /// Where each machine surely stands in the region of which this was told last.
    #[tactic(auto, using(crate::proofs::KeptLemmas::kept_standings))]
    pub(crate) fn standings(&self, p: &Problem, _g: &Region) -> &[Standing]
        requires on { self.now.bounded ≡ true }
        requires right { IsCacheFor (cache_of self.now.bounded self.now.index.lists self.now.table self.now.movers self.now.stayers.items self.now.holders) p.now.given (sets _g.now) }
        ensures { AreStanding p.now.given (sets _g.now) result.now }
    {
        self.table.standings()
    }
}

impl MadeWith<Global> for AmountKeeper {
    fn made_with(alloc: Global) -> AmountKeeper {
        AmountKeeper::new(alloc)
    }
}

impl Keeper for AmountKeeper {
    ghost use Rattle.rule_setload.specs.Amounts.{cache_of};

    ghost cache = { λ k. cache_of k.bounded k.index.lists k.table k.movers k.stayers.items k.holders };

    fn post(&mut self, p: &Problem, g: &Region) -> Result<(), Memory> {
        self.index.post(p, g)?;
        self.bounded = has_bounds(p);
        self.movers = Movers::of(self.alloc, p, g)?;
        self.stayers = all_stayers(self.alloc, p)?;
        self.holders = Holders::of(self.alloc, p)?;
        self.table.post(p, g)
    }

    // the index and what all hold while they stay are of the problem alone
    fn told(
        &mut self,
        p: &Problem,
        g: &Region,
        change: Change,
        before: Before,
        kept: &Domain,
    ) -> Result<(), Memory> {
        if !self.bounded {
            return Ok(());
        }
        self.table.told(p, g, change, before, kept)?;
        self.movers.told(p, g, change.element)?;
        Ok(())
    }

    fn mark(&mut self) -> Result<(), Memory> {
        self.table.mark()?;
        match self.movers.mark() {
            Ok(()) => Ok(()),
            Err(e) => {
                self.table.back();
                Err(e)
            }
        }
    }

    fn back(&mut self) {
        if self.table.level() > 0 {
            self.table.back();
        }
        if self.movers.level() > 0 {
            self.movers.back();
        }
    }
}

/// The watches of the constraints on amounts, by their numbers.
#[derive(Default, Drop)]
pub struct AmountWatcher {
    watches: ConstraintWatcher<Sets>,
}

impl Watcher<AmountKeeper> for AmountWatcher {
    ghost use Rattle.std.specs.Prelude.{refl};

    ghost watch = { λ w. watch_at set_kinds };

    ghost count_of = { λ w. watch_count };

    ghost kinds = { λ w. set_kinds };

    fn count(&self, p: &Problem) -> usize {
        self.watches.count(p)
    }

    fn covers(&self, kind: ReasonKind) -> bool {
        self.watches.covers(kind)
    }

    fn disturb(
        &self,
        k: &AmountKeeper,
        p: &Problem,
        g: &Region,
        change: Change,
        before: Before,
        kept: &Domain,
        dirty: &mut DirtySet,
    ) {
        self.watches
            .disturb(&k.index, p, g, change, before, kept, dirty);
    }

    fn is_clean(&self, k: &AmountKeeper, p: &Problem, g: &Region, i: usize) -> bool {
        k.is_clean(p, g, i)
    }

    fn propose(
        &self,
        k: &AmountKeeper,
        p: &Problem,
        g: &Region,
        i: usize,
        them: &mut Vec<Suggestion>,
    ) -> Result<(), Memory> {
        k.propose(p, g, i, them)
    }

    fn look(&self, k: &AmountKeeper, p: &Problem, g: &Region, i: usize) -> Look {
        self.watches.look(&k.index, p, g, i)
    }

    fn reason(&self, k: &AmountKeeper, p: &Problem, view: &View, i: usize, t: Instant) -> Reason {
        self.watches.reason(&k.index, p, view, i, t)
    }

    fn refutes(
        &self,
        k: &AmountKeeper,
        p: &Problem,
        g: &Region,
        e: Element,
        part: Part,
        reason: &Reason,
    ) -> bool {
        k.refutes(p, g, e, part, reason) || self.watches.refutes(&k.index, p, g, e, part, reason)
    }

    ghost local = { λ w. watches_are_local set_kinds };

    ghost quiet = { λ w. kinds_are_quiet set_kinds refl refl };
}
