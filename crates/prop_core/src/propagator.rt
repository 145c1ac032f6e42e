//! The trait of propagators.
ghost use Rattle.std.specs.Prelude.{◌≡◌, ◌<◌, OnOk, OnErr, IfOk, MatchResult};
ghost use Rattle.domains.specs.Sets.{sets};
ghost use Rattle.domains.specs.SetsBefore.{sets_before};
ghost use Rattle.prop_core.specs.Propagators.{IsAsked, IsBack, IsMarked, IsNarrowed, IsPosted, IsRegionOf, IsRight, IsTold, IsUnchanged, Meaning, SameRule, TopAgrees, counted, most};

use base::Memory;
use catalogue::Problem;
use cluster::Element;
use domains::{Before, Change, Domain, Part, Region};
use reasons::{Reason, ReasonKind};

/// What a propagator answers of a region.
#[derive(Clone, Copy)]
pub enum Answer {
    /// No standard reason of a kind that it covers refutes the region with any one element set to an end
    /// of its choices.
    Quiet,
    /// The element has a choice in the part, and the reason refutes the region inside the part.
    Cut(Element, Part, Reason),
    /// The reason refutes the region.
    Fail(Reason),
}

/// A propagator looks at a region for reasons of the kinds that it covers.
///
/// It may keep what it knows of the region, in levels from 0 to `level`, the top one for the region now. A
/// propagator that keeps nothing agrees with every region at every level.
pub trait Propagator: Drop {
    ghost meaning: { Self → Meaning };

    /// Whether it covers a kind of reasons, which never changes.
    fn covers(&self, kind: ReasonKind) -> bool
        ensures { result ≡ (meaning self.now).covers kind };

    /// The number of its top level.
    fn level(&self) -> u64
        ensures { result ≡ (meaning self.now).level };

    /// How many cuts and fails it has answered, up to 2^64 - 1.
    fn given(&self) -> u64
        ensures { result ≡ (meaning self.now).given };

    /// Starts anew, for a problem and a region. After `Memory`, for want of memory, only `post` may follow.
    fn post(&mut self, p: &Problem, g: &Region) -> Result<(), Memory>
        requires region { IsRegionOf p.now.given g.now }
        ensures same { SameRule (meaning self.old) (meaning self.new) }
        ensures posted { OnOk result (IsPosted p.now.given (sets g.now) (meaning self.new)) };

    /// Is told that a change has narrowed its element to what it has in the region now, and what its domain was:
    /// `kept`, or the one now with what it has lost. After `Memory`, for want of memory, only `post` may follow.
    fn told(
        &mut self,
        p: &Problem,
        g: &Region,
        change: Change,
        before: Before,
        kept: &Domain,
    ) -> Result<(), Memory>
        requires region { IsRegionOf p.now.given g.now }
        requires narrowed { IsNarrowed p.now.given g.now change before kept.now }
        requires agreed { TopAgrees (meaning self.old) p.now.given (sets_before g.now change.element before kept.now) }
        ensures same { SameRule (meaning self.old) (meaning self.new) }
        ensures level { (meaning self.new).level ≡ (meaning self.old).level }
        ensures told { OnOk result (IsTold p.now.given (sets g.now) (meaning self.old) (meaning self.new)) };

    /// Adds a level. After `Memory`, for want of memory, all levels are as they were.
    fn mark(&mut self) -> Result<(), Memory>
        requires { (meaning self.old).level < most }
        ensures same { SameRule (meaning self.old) (meaning self.new) }
        ensures marked { OnOk result (IsMarked (meaning self.old) (meaning self.new)) }
        ensures refused { OnErr result (IsUnchanged (meaning self.old) (meaning self.new)) };

    /// Drops the top level.
    fn back(&mut self)
        requires { 0 < (meaning self.old).level }
        ensures same { SameRule (meaning self.old) (meaning self.new) }
        ensures dropped { IsBack (meaning self.old) (meaning self.new) };

    /// Answers of the region. All levels stay, after `Memory`, for want of memory, too.
    fn propagate(&mut self, p: &Problem, g: &Region) -> Result<Answer, Memory>
        requires region { IsRegionOf p.now.given g.now }
        requires agreed { TopAgrees (meaning self.old) p.now.given (sets g.now) }
        ensures asked { IsAsked p.now.given (sets g.now) (meaning self.old) (meaning self.new) }
        ensures answer { IfOk result (IsRight p.now.given (sets g.now) (meaning self.old)) }
        ensures given { MatchResult result
            (λ a. (meaning self.new).given ≡ counted (meaning self.old).given a)
            (λ _. (meaning self.new).given ≡ (meaning self.old).given) };
}
