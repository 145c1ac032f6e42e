//! Whether a reason is seen to refute a region with what is inside a part of an element's choices.
ghost use Rattle.std.specs.Prelude.{◌≡◌, ◌<◌, ℕ, IfSome, IsTrue, None, Option as AnyOption, true};
ghost use Rattle.rule_pair.specs.Prelude.{AreRight, in_part, IsSized, keeping, kept_use as the_kept_use, machine_count, one, Presence, Refutes, sets, StandsIn, sure, vm};

use quick_checks::coming::comes_on;
use quick_checks::members::keeps_apart;
use relax::named::is_named;
use relax::refutes::refutes_inside;
use rule_frame::{Element, Instant, Lens, NodeId, Part, Problem, Reason, Region, View, VmId};
use slices::Weight;
use standings::numbers::{Standing, standing_of};
use standings::stays::surely_at;
use standings::uses::kept_use;

// where a machine surely stands that keeps the choices in a part, if it has one there
#[tactic(auto, using(crate::proofs::KeptLemmas::stands_inside))]
fn standing_inside(p: &Problem, g: &Region, v: VmId, part: Part) -> Option<Standing>
    requires region { IsSized p.now.given g.now }
    requires machine { v.0 < machine_count p.now.given }
    ensures { IfSome result (StandsIn p.now.given (keeping (vm v.0) (in_part part) (sets g.now)) v.0) }
{
    let inside = g.domain(Element::Vm(v)).inside(part);
    if inside.is_empty() {
        None
    } else {
        Some(standing_of(p, v, &inside))
    }
}

// where a machine surely stands, if that is kept and it has a choice
#[tactic(auto, using(crate::proofs::KeptLemmas::stands_kept))]
fn standing_kept(p: &Problem, g: &Region, kept: &[Standing], v: VmId) -> Option<Standing>
    requires region { IsSized p.now.given g.now }
    requires kept { AreRight p.now.given (sets g.now) kept.now }
    requires machine { v.0 < machine_count p.now.given }
    ensures { IfSome result (StandsIn p.now.given (sets g.now) v.0) }
{
    let i = v.0 as usize;
    if i >= kept.len() || g.domain(Element::Vm(v)).is_empty() {
        None
    } else {
        Some(kept[i])
    }
}

// where a machine surely stands that keeps the choices in a part if it is the element, if that is known
#[tactic(auto, using(crate::proofs::KeptLemmas::stands_itself, crate::proofs::KeptLemmas::stands_beside, crate::proofs::KeptLemmas::stands_apart))]
fn standing_seen(
    p: &Problem,
    g: &Region,
    kept: &[Standing],
    e: Element,
    part: Part,
    v: VmId,
) -> Option<Standing>
    requires region { IsSized p.now.given g.now }
    requires kept { AreRight p.now.given (sets g.now) kept.now }
    requires machine { v.0 < machine_count p.now.given }
    ensures { IfSome result (StandsIn p.now.given (keeping e (in_part part) (sets g.now)) v.0) }
{
    match e {
        Element::Vm(x) => {
            if x.0 == v.0 {
                standing_inside(p, g, v, part)
            } else {
                standing_kept(p, g, kept, v)
            }
        }
        Element::Node(_) => standing_kept(p, g, kept, v),
    }
}

// whether a machine with these numbers surely is on a node
fn is_there(p: &Problem, v: VmId, n: NodeId, t: Instant, k: Standing) -> bool
    requires machine { v.0 < machine_count p.now.given }
    ensures { IsTrue result → 0 < the_kept_use p.now.given v.0 Presence n.0 t k }
{
    kept_use(p, v, Weight::Presence, n, t, k) > 0
}

// whether a machine is on a node under each of its choices, where an element keeps those in a part: what all start there by the
// instant is told by the part, without a look at the choices
#[tactic(auto, using(crate::proofs::KeptLemmas::present_kept))]
fn is_at(
    p: &Problem,
    g: &Region,
    kept: &[Standing],
    e: Element,
    part: Part,
    v: VmId,
    n: NodeId,
    t: Instant,
) -> bool
    requires region { IsSized p.now.given g.now }
    requires kept { AreRight p.now.given (sets g.now) kept.now }
    requires machine { v.0 < machine_count p.now.given }
    ensures { IsTrue result → (sure p.now.given (keeping e (in_part part) (sets g.now)) t).present v.0 (one n.0) ≡ true }
{
    let view = View {
        region: g,
        lens: Lens::Inside(e, part),
    };
    if comes_on(p, &view, v, n, t) {
        return true;
    }
    match standing_seen(p, g, kept, e, part, v) {
        Some(k) => is_there(p, v, n, t, k),
        None => surely_at(p, &view, v, n, t),
    }
}

// whether a pair is seen to refute what is seen of a region. Its machines are sought in lists as in those that are in order
fn is_seen(
    p: &Problem,
    g: &Region,
    kept: &[Standing],
    e: Element,
    part: Part,
    c: u32,
    t: Instant,
    v: VmId,
    w: VmId,
    n: NodeId,
) -> bool
    requires region { IsSized p.now.given g.now }
    requires kept { AreRight p.now.given (sets g.now) kept.now }
    ensures { IsTrue result → (bound : AnyOption ℕ) → Refutes p.now.given bound (keeping e (in_part part) (sets g.now)) (Reason.Pair c t v w n) }
{
    if !is_named(p, &Reason::Pair(c, t, v, w, n)) || !p.applies(c, t) {
        return false;
    }
    v.0 != w.0
        && keeps_apart(&p.constraints()[c as usize], v, w)
        && is_at(p, g, kept, e, part, v, n, t)
        && is_at(p, g, kept, e, part, w, n, t)
}

/// Whether it is seen that a reason does. Where machines stand that keep all their choices is read from what is kept.
pub(crate) fn refutes_part(
    p: &Problem,
    g: &Region,
    kept: &[Standing],
    e: Element,
    part: Part,
    reason: &Reason,
) -> bool
    requires region { IsSized p.now.given g.now }
    requires kept { AreRight p.now.given (sets g.now) kept.now }
    ensures { IsTrue result → Refutes p.now.given None (keeping e (in_part part) (sets g.now)) reason.now }
{
    match reason {
        Reason::Pair(c, t, v, w, n) => is_seen(p, g, kept, e, part, *c, *t, *v, *w, *n),
        Reason::Empty(_)
        | Reason::Bound
        | Reason::Load(..)
        | Reason::Place(..)
        | Reason::Group(..)
        | Reason::SetLoad(..)
        | Reason::Power(..)
        | Reason::Usable(..)
        | Reason::Hall(..) => refutes_inside(p, None, g, e, part, reason),
    }
}
