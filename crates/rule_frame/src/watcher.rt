//! Watches of a rule, which are looked at again where a change weighs on them.
ghost use Rattle.std.specs.Prelude.{◌≡◌, ◌<◌, ◌≤◌, IfNone, IfOk, IfSome, IsTrue, None, length};
ghost use Rattle.closing.specs.Prelude.{broken_at, choices, domain_at, domain_before, in_part, IsClean, IsElement, IsLook, keeping, seen, sets, sure};
ghost use Rattle.domains.specs.SetsBefore.{sets_before};
ghost use Rattle.prop_core.specs.Propagators.{FailHolds, MayAnswer, IsNarrowed, IsRegionOf};
ghost use Rattle.rule_frame.specs.Asked.{IsAskedOf};
ghost use Rattle.rule_frame.specs.Caches.{IsCacheFor};
ghost use Rattle.rule_frame.specs.Changes.{AreClean, IsDisturbed, IsKept};

use crate::suggestion::take_one;
use crate::{
    Before, Change, Choice, DirtySet, Domain, Element, Instant, Keeper, Look, Memory, Part,
    Problem, Reason, ReasonKind, Region, Suggestion, View,
};

/// What asking the watches finds.
#[derive(Clone, Copy)]
pub enum Asked {
    /// Each watch is clean.
    Quiet,
    /// The watch of the number is broken in the region at the instant.
    Failed(usize, Instant),
    /// It is broken at the instant with the element set to that end of its choices.
    Cuts(usize, Element, Choice, Instant),
    /// The reason refutes the region.
    Refuted(Reason),
    /// The cut that was proposed before a look holds.
    Proposed(Suggestion),
}

/// The watches of a rule, by their numbers, looked at with the help of what is kept beside them.
pub trait Watcher<K: Keeper> {
    ghost use Rattle.std.specs.Prelude.{◌≡◌, ℕ, Bool, true};
    ghost use Rattle.closing.specs.Prelude.{Instance, IsLocal, IsQuietKind, Sets, Watch};
    ghost use Rattle.reasons.specs.declared.reason.ReasonKind.{ReasonKind as AnyKind};
    ghost use Rattle.rule_frame.specs.Asked.{AllClean};

    ghost watch: { Self → Instance → ℕ → Watch };

    ghost count_of: { Self → Instance → ℕ };

    ghost kinds: { Self → AnyKind → Bool };

    /// How many watches there are.
    fn count(&self, p: &Problem) -> usize
        ensures { result ≡ count_of self.now p.now.given };

    /// Whether the watches are those of a kind of reasons.
    fn covers(&self, kind: ReasonKind) -> bool
        ensures { result ≡ kinds self.now kind };

    /// Sets dirty each watch on which a change weighs. What is kept has been told of the change.
    fn disturb(
        &self,
        k: &K,
        p: &Problem,
        g: &Region,
        change: Change,
        before: Before,
        kept: &Domain,
        dirty: &mut DirtySet,
    )
        requires region { IsRegionOf p.now.given g.now }
        requires right { IsCacheFor (K.cache k.now) p.now.given (sets g.now) }
        requires narrowed { IsNarrowed p.now.given g.now change before kept.now }
        requires count { length dirty.old.top ≡ count_of self.now p.now.given }
        ensures { IsDisturbed (watch self.now p.now.given) p.now.given (sets g.now) change.element (choices (domain_before before kept.now (domain_at g.now change.element))) dirty.old dirty.new };

    /// A reason that refutes the region, where one is seen before a look at a watch: one that takes many
    /// elements together, say, of which each alone may still be where it is. None need be seen.
    fn refuted(&self, k: &K, p: &Problem, g: &Region, i: usize) -> Option<Reason>
        requires region { IsRegionOf p.now.given g.now }
        requires right { IsCacheFor (K.cache k.now) p.now.given (sets g.now) }
        requires watch { i < count_of self.now p.now.given }
        ensures { IfSome result (FailHolds p.now.given (sets g.now)) }
    {
        None
    }

    /// Whether it is seen at once that a watch is clean. It need not be seen, and then cuts are proposed, and it is looked at.
    fn is_clean(&self, k: &K, p: &Problem, g: &Region, i: usize) -> bool
        requires region { IsRegionOf p.now.given g.now }
        requires right { IsCacheFor (K.cache k.now) p.now.given (sets g.now) }
        requires watch { i < count_of self.now p.now.given }
        ensures { IsTrue result → IsClean (watch self.now p.now.given i) p.now.given (sets g.now) }
    {
        false
    }

    /// Puts cuts into a list that are worth a try before a look at a watch, which may take far longer: as those that are
    /// suggested they are looked at exactly, and the watch is looked at where none of them holds. None need be put.
    fn propose(
        &self,
        k: &K,
        p: &Problem,
        g: &Region,
        i: usize,
        _them: &mut Vec<Suggestion>,
    ) -> Result<(), Memory>
        requires region { IsRegionOf p.now.given g.now }
        requires right { IsCacheFor (K.cache k.now) p.now.given (sets g.now) }
        requires watch { i < count_of self.now p.now.given }
    {
        Ok(())
    }

    /// Whether what is suggested after a find at a watch names that find too, as wide as may be. Then the find
    /// itself need not be widened first.
    fn names_all(&self, _p: &Problem, _i: usize) -> bool {
        false
    }

    /// A look at one watch at all instants.
    fn look(&self, k: &K, p: &Problem, g: &Region, i: usize) -> Look
        requires region { IsRegionOf p.now.given g.now }
        requires right { IsCacheFor (K.cache k.now) p.now.given (sets g.now) }
        requires watch { i < count_of self.now p.now.given }
        ensures { IsLook (watch self.now p.now.given i) p.now.given (sets g.now) result };

    /// The reason why a watch is broken at an instant, in what is seen of a region.
    fn reason(&self, k: &K, p: &Problem, view: &View, i: usize, t: Instant) -> Reason
        requires region { IsRegionOf p.now.given view.now.region.now }
        requires right { IsCacheFor (K.cache k.now) p.now.given (sets view.now.region.now) }
        requires watch { i < count_of self.now p.now.given }
        requires within { t ≤ p.now.given.horizon }
        requires broken { broken_at (watch self.now p.now.given i) p.now.given t (sure p.now.given (seen view.now.region.now view.now.lens) t) }
        ensures { FailHolds p.now.given (seen view.now.region.now view.now.lens) result };

    /// Whether it is seen that a reason refutes the region with what is inside a part of an element's choices.
    fn refutes(
        &self,
        k: &K,
        p: &Problem,
        g: &Region,
        e: Element,
        part: Part,
        reason: &Reason,
    ) -> bool
        requires region { IsRegionOf p.now.given g.now }
        requires right { IsCacheFor (K.cache k.now) p.now.given (sets g.now) }
        requires element { IsElement p.now.given e }
        requires may { MayAnswer reason.now }
        ensures { IsTrue result → FailHolds p.now.given (keeping e (in_part part) (sets g.now)) reason.now };

    /// Puts cuts into a list that are worth a try after one was found by a look at a watch: what they are looked
    /// at for is left to the caller, who looks at them exactly. None need be put.
    fn suggest(
        &self,
        k: &K,
        p: &Problem,
        g: &Region,
        i: usize,
        _found: &Suggestion,
        _them: &mut Vec<Suggestion>,
    ) -> Result<(), Memory>
        requires region { IsRegionOf p.now.given g.now }
        requires right { IsCacheFor (K.cache k.now) p.now.given (sets g.now) }
        requires watch { i < count_of self.now p.now.given }
    {
        Ok(())
    }

    ghost local: { (w : Self) (p : Instance) (i : ℕ) → IsLocal (watch w p i) };

    ghost quiet: { (w : Self) (p : Instance) (s : Sets) (kind : AnyKind) → kinds w kind ≡ true → AllClean (watch w p) p s (count_of w p) → IsQuietKind p s kind };
}

/// Sets dirty what a change weighs on, of which what is kept has been told.
pub fn tell<K: Keeper, W: Watcher<K>>(
    w: &W,
    k: &K,
    p: &Problem,
    g: &Region,
    change: Change,
    before: Before,
    kept: &Domain,
    dirty: &mut DirtySet,
)
    requires region { IsRegionOf p.now.given g.now }
    requires right { IsCacheFor (K.cache k.now) p.now.given (sets g.now) }
    requires narrowed { IsNarrowed p.now.given g.now change before kept.now }
    requires count { length dirty.old.top ≡ W.count_of w.now p.now.given }
    requires agreed { AreClean (W.watch w.now p.now.given) p.now.given (sets_before g.now change.element before kept.now) dirty.old.top }
    ensures { IsKept (W.watch w.now p.now.given) p.now.given (sets g.now) dirty.old dirty.new }
{
    w.disturb(k, p, g, change, before, kept, dirty);
}

// what asking one watch finds, if anything: first what is seen at once, then by a look
fn ask_one<K: Keeper, W: Watcher<K>>(
    w: &W,
    k: &K,
    p: &Problem,
    g: &Region,
    i: usize,
    proposed: &mut Vec<Suggestion>,
) -> Result<Option<Asked>, Memory>
    requires region { IsRegionOf p.now.given g.now }
    requires right { IsCacheFor (K.cache k.now) p.now.given (sets g.now) }
    requires watch { i < W.count_of w.now p.now.given }
    ensures clean { IfOk result (λ r. IfNone r (IsClean (W.watch w.now p.now.given i) p.now.given (sets g.now))) }
    ensures answer { IfOk result (λ r. IfSome r (IsAskedOf (W.watch w.now p.now.given) p.now.given (sets g.now) (W.count_of w.now p.now.given))) }
{
    if let Some(reason) = w.refuted(k, p, g, i) {
        return Ok(Some(Asked::Refuted(reason)));
    }
    if w.is_clean(k, p, g, i) {
        return Ok(None);
    }
    w.propose(k, p, g, i, proposed)?;
    if let Some(it) = take_one(proposed, w, k, p, g) {
        return Ok(Some(Asked::Proposed(it)));
    }
    Ok(match w.look(k, p, g, i) {
        Look::Clean => None,
        Look::Fail(t) => Some(Asked::Failed(i, t)),
        Look::Cut(e, c, t) => Some(Asked::Cuts(i, e, c, t)),
    })
}

/// Asks each dirty watch, until something is found. What is clean is not dirty afterwards. What was proposed and not
/// tried is left in the list.
pub fn ask<K: Keeper, W: Watcher<K>>(
    w: &W,
    k: &K,
    p: &Problem,
    g: &Region,
    dirty: &mut DirtySet,
    proposed: &mut Vec<Suggestion>,
) -> Result<Asked, Memory>
    requires region { IsRegionOf p.now.given g.now }
    requires right { IsCacheFor (K.cache k.now) p.now.given (sets g.now) }
    requires count { length dirty.old.top ≡ W.count_of w.now p.now.given }
    requires agreed { AreClean (W.watch w.now p.now.given) p.now.given (sets g.now) dirty.old.top }
    ensures kept { IsKept (W.watch w.now p.now.given) p.now.given (sets g.now) dirty.old dirty.new }
    ensures answer { IfOk result (IsAskedOf (W.watch w.now p.now.given) p.now.given (sets g.now) (W.count_of w.now p.now.given)) }
{
    for i in dirty.first()..dirty.count() {
        if dirty.is_dirty(i) {
            dirty.pass(i);
            match ask_one(w, k, p, g, i, proposed)? {
                Some(found) => return Ok(found),
                None => dirty.set_dirty(i, false),
            }
        }
    }
    dirty.pass(dirty.count());
    Ok(Asked::Quiet)
}
