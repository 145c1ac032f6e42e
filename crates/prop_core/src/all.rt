//! Calls on all propagators of a list, one after the other.
ghost use Rattle.std.specs.Prelude.{◌<◌, OnOk, All};
ghost use Rattle.domains.specs.Sets.{sets};
ghost use Rattle.prop_core.specs.Lists.{BackSame, MarkedSame, Pairs, PostedSame, ToldSame, TopsAgree};
ghost use Rattle.domains.specs.SetsBefore.{sets_before};
ghost use Rattle.prop_core.specs.Propagators.{IsNarrowed, IsRegionOf, SameRule, most};

use crate::propagator::Propagator;
use base::Memory;
use catalogue::Problem;
use domains::{Before, Change, Domain, Region};

/// Posts each anew. After `Memory`, for want of memory, only `post_all` may follow.
pub fn post_all(p: &Problem, g: &Region, rules: &mut Vec<Box<dyn Propagator>>) -> Result<(), Memory>
    requires region { IsRegionOf p.now.given g.now }
    ensures same { Pairs (λ b. meaning b) SameRule rules.old.items rules.new.items }
    ensures posted { OnOk result (Pairs (λ b. meaning b) (PostedSame p.now.given (sets g.now)) rules.old.items rules.new.items) }
{
    for i in 0..rules.len() {
        rules[i].post(p, g)?;
    }
    Ok(())
}

/// Tells each of a change. After `Memory`, for want of memory, only `post_all` may follow.
pub fn tell_all(
    p: &Problem,
    g: &Region,
    rules: &mut Vec<Box<dyn Propagator>>,
    change: Change,
    before: Before,
    kept: &Domain,
) -> Result<(), Memory>
    requires region { IsRegionOf p.now.given g.now }
    requires narrowed { IsNarrowed p.now.given g.now change before kept.now }
    requires agreed { TopsAgree (λ b. meaning b) p.now.given (sets_before g.now change.element before kept.now) rules.old.items }
    ensures same { Pairs (λ b. meaning b) SameRule rules.old.items rules.new.items }
    ensures told { OnOk result (Pairs (λ b. meaning b) (ToldSame p.now.given (sets g.now)) rules.old.items rules.new.items) }
{
    for i in 0..rules.len() {
        rules[i].told(p, g, change, before, kept)?;
    }
    Ok(())
}

/// Marks each. After `Memory`, for want of memory, some are marked, and only `post_all` may follow.
pub fn mark_all(rules: &mut Vec<Box<dyn Propagator>>) -> Result<(), Memory>
    requires { All (λ b. (meaning b).level < most) rules.old.items }
    ensures same { Pairs (λ b. meaning b) SameRule rules.old.items rules.new.items }
    ensures marked { OnOk result (Pairs (λ b. meaning b) MarkedSame rules.old.items rules.new.items) }
{
    for i in 0..rules.len() {
        rules[i].mark()?;
    }
    Ok(())
}

/// Takes each back to its last mark.
pub fn back_all(rules: &mut Vec<Box<dyn Propagator>>)
    requires { All (λ b. 0 < (meaning b).level) rules.old.items }
    ensures { Pairs (λ b. meaning b) BackSame rules.old.items rules.new.items }
{
    for i in 0..rules.len() {
        rules[i].back();
    }
}
