//! Which constraints that keep machines apart are dirty after a change.
ghost use Rattle.std.specs.Prelude.{◌<◌, ◌≤◌, length};
ghost use Rattle.rule_constraint.specs.Prelude.{IsIndexOf};
ghost use Rattle.rule_pair.specs.Prelude.{AreFewer, choices, domain_at, domain_before, IsDisturbed, IsElement, IsSized, machine_count, pair_kinds, sets, watch_at};
ghost use Rattle.cluster.specs.declared.ids.Element.TheVariants.{Vm};

use crate::rule::Pairs;
use crate::unmoved::is_unmoved_in;
use rule_constraint::ConstraintIndex;
use rule_constraint::disturb::set_looking_dirty;
use rule_frame::{Before, DirtySet, Domain, Element, Problem, ReasonKind, Region, VmId};

// after a machine has lost choices: none, where it surely is nowhere where it was not before
#[tactic(auto, using(crate::proofs::UnmovedLemmas::unmoved_disturbs_none))]
fn set_machine_dirty(
    k: &ConstraintIndex,
    p: &Problem,
    g: &Region,
    v: VmId,
    before: Before,
    kept: &Domain,
    dirty: &mut DirtySet,
)
    requires region { IsSized p.now.given g.now }
    requires right { IsIndexOf p.now.given (length p.now.given.constraints) k.now.lists }
    requires machine { v.0 < machine_count p.now.given }
    requires count { length p.now.given.constraints ≤ length dirty.old.top }
    requires fewer { AreFewer (sets g.now (Vm v)) (choices (domain_before before kept.now (domain_at g.now (Vm v)))) }
    ensures { IsDisturbed (watch_at pair_kinds p.now.given) p.now.given (sets g.now) (Vm v) (choices (domain_before before kept.now (domain_at g.now (Vm v)))) dirty.old dirty.new }
{
    if k.has_clean(p, ReasonKind::Pair, v, dirty) && is_unmoved_in(p, g, v, before, kept) {
        return;
    }
    set_looking_dirty(&Pairs, k, p, g, Element::Vm(v), dirty);
}

/// Sets dirty each constraint that may be broken by what an element has become that has lost choices. A machine that
/// surely is nowhere where it was not before breaks none: no end of what it has left is worse than one that it had.
pub(crate) fn set_moved_dirty(
    k: &ConstraintIndex,
    p: &Problem,
    g: &Region,
    x: Element,
    before: Before,
    kept: &Domain,
    dirty: &mut DirtySet,
)
    requires region { IsSized p.now.given g.now }
    requires right { IsIndexOf p.now.given (length p.now.given.constraints) k.now.lists }
    requires element { IsElement p.now.given x }
    requires count { length p.now.given.constraints ≤ length dirty.old.top }
    requires fewer { AreFewer (sets g.now x) (choices (domain_before before kept.now (domain_at g.now x))) }
    ensures { IsDisturbed (watch_at pair_kinds p.now.given) p.now.given (sets g.now) x (choices (domain_before before kept.now (domain_at g.now x))) dirty.old dirty.new }
{
    match x {
        Element::Vm(v) => set_machine_dirty(k, p, g, v, before, kept, dirty),
        Element::Node(_) => set_looking_dirty(&Pairs, k, p, g, x, dirty),
    }
}
