//! The amounts on which a machine does not weigh that has lost choices.
ghost use Rattle.std.specs.Prelude.{◌≡◌, ◌<◌, IsTrue, length};
ghost use Rattle.rule_setload.specs.Prelude.{constraint_watch, has_node, IsAside, IsHarmless, IsSized, IsWeight, machine_count, sets, Vm};

use crate::bounds::{Bound, bound_of};
use crate::movers_hold::extra;
use crate::stayers::stay;
use rule_frame::{Problem, Region, VmId};

/// Whether a machine has nothing on the nodes of a bound at present, and need not bring anything there.
#[tactic(auto, using(crate::proofs::AsideLemmas::none_aside))]
pub(crate) fn is_away(p: &Problem, g: &Region, v: VmId, bound: &Bound) -> bool
    requires region { IsSized p.now.given g.now }
    requires machine { v.0 < machine_count p.now.given }
    requires weight { IsWeight p.now.given bound.now.weight }
    ensures { IsTrue result → IsAside p.now.given (sets g.now) bound.now.weight (has_node bound.now.nodes) v.0 }
{
    stay(p, v, bound) == 0 && extra(p, g, v, bound) == 0
}

/// Whether a machine is seen not to weigh on the amount that a constraint bounds: it has nothing there at present, and need
/// not come. Later starts bring no more than the first one, so the loss of choices changes nothing.
#[tactic(auto, using(crate::proofs::SparedLemmas::away_harmless))]
pub(crate) fn is_spared(p: &Problem, g: &Region, c: u32, v: VmId) -> bool
    requires region { IsSized p.now.given g.now }
    requires constraint { c < length p.now.given.constraints }
    requires machine { v.0 < machine_count p.now.given }
    ensures { IsTrue result → IsHarmless (constraint_watch p.now.given c) p.now.given (sets g.now) (Vm v) }
{
    match bound_of(p, &p.constraints()[c as usize]) {
        None => false,
        Some(bound) => is_away(p, g, v, &bound),
    }
}
