//! What is kept beside a rule, with levels.
ghost use Rattle.std.specs.Prelude.{◌≡◌, ◌<◌, OnErr, OnOk};
ghost use Rattle.prop_core.specs.Prelude.{IsNarrowed, IsRegionOf, most, sets};
ghost use Rattle.domains.specs.SetsBefore.{sets_before};
ghost use Rattle.rule_frame.specs.Caches.{Cache, IsCacheBack, IsCacheFor, IsCacheMarked, IsCachePosted, IsCacheSame, IsCacheTold};

use crate::{Before, Change, Domain, Memory, Problem, Region};

/// Keeps what a rule's looks need of the region, in levels from 0 on.
pub trait Keeper: Drop {
    ghost cache: { Self → Cache };

    /// Starts anew, for a problem and a region. After `Memory`, for want of memory, only `post` may follow.
    fn post(&mut self, p: &Problem, g: &Region) -> Result<(), Memory>
        requires region { IsRegionOf p.now.given g.now }
        ensures { OnOk result (IsCachePosted p.now.given (sets g.now) (cache self.new)) };

    /// Is told that a change has narrowed its element, and what its domain was. After `Memory`, for want of
    /// memory, only `post` may follow.
    fn told(
        &mut self,
        p: &Problem,
        g: &Region,
        change: Change,
        before: Before,
        kept: &Domain,
    ) -> Result<(), Memory>
        requires region { IsRegionOf p.now.given g.now }
        requires narrowed { IsNarrowed p.now.given g.now change before kept.now }
        requires right { IsCacheFor (cache self.old) p.now.given (sets_before g.now change.element before kept.now) }
        ensures level { (cache self.new).level ≡ (cache self.old).level }
        ensures told { OnOk result (IsCacheTold p.now.given (sets g.now) (cache self.old) (cache self.new)) };

    /// Adds a level. After `Memory`, for want of memory, all levels are as they were.
    fn mark(&mut self) -> Result<(), Memory>
        ensures marked { OnOk result ((cache self.old).level < most → IsCacheMarked (cache self.old) (cache self.new)) }
        ensures refused { OnErr result (IsCacheSame (cache self.old) (cache self.new)) };

    /// Drops the top level, where one stands below it.
    fn back(&mut self)
        ensures { 0 < (cache self.old).level → IsCacheBack (cache self.old) (cache self.new) };
}
