//! The watches of constraints that give reasons of some kinds.
ghost use Rattle.std.specs.Prelude.{◌≡◌, ◌<◌, length, slice_get, IsTrue};
ghost use Rattle.rule_frame.specs.Prelude.{IsClean, IsLook, IsSized, sets};
ghost use Rattle.rule_constraint.specs.Watches.{kept_watch, watch_at, watch_count};
ghost use Rattle.rule_constraint.specs.Quiet.{kinds_are_quiet, watches_are_local};

use crate::ConstraintIndex;
use crate::disturb::set_looking_dirty;
use crate::kinds::reason_kind;
use closing::watch::look_at_constraint;
use relax::refutes::refutes_inside;
use rule_frame::{
    Before, Change, DirtySet, Domain, Element, Instant, Look, Memory, Part, Problem, Reason,
    ReasonKind, Region, Suggestion, View, VmId, Watcher,
};

/// The kinds of reasons that a rule covers, of those that constraints give, and how it looks at a constraint.
pub trait Kinds: Drop {
    ghost use Rattle.std.specs.Prelude.{◌≡◌, ◌<◌, ◌≤◌, Bool, IfSome, IsTrue, None, false, length, slice_get};
    ghost use Rattle.rule_frame.specs.Prelude.{broken_at, constraint_watch, in_part, IsClean, IsElement, IsLook, IsSized, keeping, machine_count, seen, sets, sure, Vm};
    ghost use Rattle.reasons.specs.declared.reason.ReasonKind.{ReasonKind as AnyKind};
    ghost use Rattle.reasons.specs.declared.reason.ReasonKind.TheVariants.{Load, Usable};
    ghost use Rattle.prop_core.specs.Propagators.{FailHolds, MayAnswer};
    ghost use Rattle.rule_constraint.specs.Watches.{IsHarmless, kept_watch};

    ghost kinds: { Self → AnyKind → Bool };

    /// Whether it covers a kind.
    fn covers(&self, kind: ReasonKind) -> bool
        ensures { result ≡ kinds self.now kind };

    /// A look at a constraint at all instants, whatever reasons it gives.
    fn look(&self, p: &Problem, g: &Region, c: u32) -> Look
        requires region { IsSized p.now.given g.now }
        requires constraint { c < length p.now.given.constraints }
        ensures { IsLook (constraint_watch p.now.given c) p.now.given (sets g.now) result }
    {
        look_at_constraint(p, g, c)
    }

    /// The reason why a constraint of these kinds is broken at an instant, in what is seen of a region.
    fn reason(&self, p: &Problem, view: &View, c: u32, t: Instant) -> Reason
        requires region { IsSized p.now.given view.now.region.now }
        requires constraint { c < length p.now.given.constraints }
        requires within { t ≤ p.now.given.horizon }
        requires broken { broken_at (kept_watch (kinds self.now) p.now.given (slice_get p.now.given.constraints c)) p.now.given t (sure p.now.given (seen view.now.region.now view.now.lens) t) }
        ensures { FailHolds p.now.given (seen view.now.region.now view.now.lens) result };

    /// A reason that refutes the region, where one is seen before a look at a constraint. None need be seen.
    fn refuted(&self, _p: &Problem, g: &Region, c: u32) -> Option<Reason>
        requires region { IsSized _p.now.given g.now }
        requires constraint { c < length _p.now.given.constraints }
        ensures { IfSome result (FailHolds _p.now.given (sets g.now)) }
    {
        None
    }

    /// Whether it is seen at once that a constraint is clean. It need not be seen, and then cuts are proposed, and it is looked at.
    fn is_clean(&self, p: &Problem, g: &Region, c: u32) -> bool
        requires region { IsSized p.now.given g.now }
        requires constraint { c < length p.now.given.constraints }
        ensures { IsTrue result → IsClean (constraint_watch p.now.given c) p.now.given (sets g.now) }
    {
        false
    }

    /// Whether it is seen that a constraint, where it was clean before a machine lost choices, is clean with those that it has
    /// now. It need not be seen, and then it is looked at again.
    fn spares(&self, p: &Problem, g: &Region, c: u32, v: VmId) -> bool
        requires region { IsSized p.now.given g.now }
        requires constraint { c < length p.now.given.constraints }
        requires machine { v.0 < machine_count p.now.given }
        ensures { IsTrue result → IsHarmless (constraint_watch p.now.given c) p.now.given (sets g.now) (Vm v) }
    {
        false
    }

    /// Puts cuts into a list that are worth a try before a look at a constraint. Nothing is promised of them.
    fn propose(
        &self,
        p: &Problem,
        g: &Region,
        c: u32,
        _them: &mut Vec<Suggestion>,
    ) -> Result<(), Memory>
        requires region { IsSized p.now.given g.now }
        requires constraint { c < length p.now.given.constraints }
    {
        Ok(())
    }

    /// Whether it is seen that a reason refutes the region with what is inside a part of an element's choices.
    fn refutes(&self, p: &Problem, g: &Region, e: Element, part: Part, reason: &Reason) -> bool
        requires region { IsSized p.now.given g.now }
        requires element { IsElement p.now.given e }
        requires may { MayAnswer reason.now }
        ensures { IsTrue result → FailHolds p.now.given (keeping e (in_part part) (sets g.now)) reason.now }
    {
        refutes_inside(p, None, g, e, part, reason)
    }

    /// Puts cuts into a list that are worth a try after one was found by a look at a constraint. Nothing is promised
    /// of them.
    fn suggest(
        &self,
        p: &Problem,
        g: &Region,
        c: u32,
        _found: &Suggestion,
        _them: &mut Vec<Suggestion>,
    ) -> Result<(), Memory>
        requires region { IsSized p.now.given g.now }
        requires constraint { c < length p.now.given.constraints }
    {
        Ok(())
    }

    ghost no_loads: { (k : Self) → kinds k Load ≡ false };

    ghost no_nodes: { (k : Self) → kinds k Usable ≡ false };
}

// a look at the constraint of a number, where it gives reasons of one of the kinds
fn look_at<S: Kinds>(kinds: &S, p: &Problem, g: &Region, c: usize) -> Look
    requires region { IsSized p.now.given g.now }
    requires constraint { c < length p.now.given.constraints }
    ensures { IsLook (kept_watch (S.kinds kinds.now) p.now.given (slice_get p.now.given.constraints c)) p.now.given (sets g.now) result }
{
    match reason_kind(&p.constraints()[c]) {
        None => Look::Clean,
        Some(kind) => {
            if kinds.covers(kind) {
                kinds.look(p, g, c as u32)
            } else {
                Look::Clean
            }
        }
    }
}

// whether it is seen at once that the watch of the constraint of a number is clean
fn is_clean_of<S: Kinds>(kinds: &S, p: &Problem, g: &Region, c: usize) -> bool
    requires region { IsSized p.now.given g.now }
    requires constraint { c < length p.now.given.constraints }
    ensures { IsTrue result → IsClean (kept_watch (S.kinds kinds.now) p.now.given (slice_get p.now.given.constraints c)) p.now.given (sets g.now) }
{
    match reason_kind(&p.constraints()[c]) {
        None => true,
        Some(kind) => !kinds.covers(kind) || kinds.is_clean(p, g, c as u32),
    }
}

/// The watches of the constraints that give reasons of some kinds, by their numbers.
#[derive(Default, Drop)]
pub struct ConstraintWatcher<S> {
    kinds: S,
}

impl<S: Kinds> Watcher<ConstraintIndex> for ConstraintWatcher<S> {
    ghost watch = { λ w. watch_at (S.kinds w.kinds) };

    ghost count_of = { λ w. watch_count };

    ghost kinds = { λ w. S.kinds w.kinds };

    fn count(&self, p: &Problem) -> usize {
        p.constraints().len()
    }

    fn covers(&self, kind: ReasonKind) -> bool {
        self.kinds.covers(kind)
    }

    fn disturb(
        &self,
        k: &ConstraintIndex,
        p: &Problem,
        g: &Region,
        change: Change,
        _before: Before,
        _kept: &Domain,
        dirty: &mut DirtySet,
    ) {
        set_looking_dirty(&self.kinds, k, p, g, change.element, dirty);
    }

    fn refuted(&self, _k: &ConstraintIndex, p: &Problem, g: &Region, i: usize) -> Option<Reason> {
        self.kinds.refuted(p, g, i as u32)
    }

    fn is_clean(&self, _k: &ConstraintIndex, p: &Problem, g: &Region, i: usize) -> bool {
        is_clean_of(&self.kinds, p, g, i)
    }

    fn propose(
        &self,
        _k: &ConstraintIndex,
        p: &Problem,
        g: &Region,
        i: usize,
        them: &mut Vec<Suggestion>,
    ) -> Result<(), Memory> {
        self.kinds.propose(p, g, i as u32, them)
    }

    fn look(&self, _k: &ConstraintIndex, p: &Problem, g: &Region, i: usize) -> Look {
        look_at(&self.kinds, p, g, i)
    }

    fn reason(
        &self,
        _k: &ConstraintIndex,
        p: &Problem,
        view: &View,
        i: usize,
        t: Instant,
    ) -> Reason {
        self.kinds.reason(p, view, i as u32, t)
    }

    fn refutes(
        &self,
        _k: &ConstraintIndex,
        p: &Problem,
        g: &Region,
        e: Element,
        part: Part,
        reason: &Reason,
    ) -> bool {
        self.kinds.refutes(p, g, e, part, reason)
    }

    fn suggest(
        &self,
        _k: &ConstraintIndex,
        p: &Problem,
        g: &Region,
        i: usize,
        found: &Suggestion,
        them: &mut Vec<Suggestion>,
    ) -> Result<(), Memory> {
        self.kinds.suggest(p, g, i as u32, found, them)
    }

    ghost local = { λ w. watches_are_local (S.kinds w.kinds) };

    ghost quiet = { λ w. kinds_are_quiet (S.kinds w.kinds) (S.no_loads w.kinds) (S.no_nodes w.kinds) };
}
