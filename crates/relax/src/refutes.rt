//! Whether a reason refutes a region.
ghost use Rattle.std.specs.Prelude.{◌≡◌, ◌<◌, false, length, IfSome, IsTrue};
ghost use Rattle.relax.specs.Prelude.{Applies, has_node, in_part, IsElement, IsGroup, IsHall, IsNamed, IsPair, IsPlace, IsPower, IsSetLoad, IsSized, keeping, least_cost, Refutes, Says, seen, sets, sure};

use crate::amounts::{is_bounded, is_hall, is_overload, is_power, is_set_load};
use crate::elements::{is_pair, is_place, is_unusable};
use crate::groups::is_group;
use crate::named::is_named;
use crate::sure::has_none;
use catalogue::Problem;
use cluster::{Element, Instant, NodeId, NodeSet, VmId};
use domains::{Lens, Part, Region, View};
use reasons::Reason;

/// Whether a reason refutes a region, where a plan of a cost is handed in, or none. It takes no memory.
pub fn refutes(p: &Problem, bound: Option<u64>, g: &Region, reason: &Reason) -> bool
    requires region { IsSized p.now.given g.now }
    ensures yes { IsTrue result → Refutes p.now.given bound (sets g.now) reason.now }
    ensures no { result ≡ false → ¬ Refutes p.now.given bound (sets g.now) reason.now }
{
    let view = View {
        region: g,
        lens: Lens::Whole,
    };
    refutes_seen(p, bound, None, &view, reason)
}

/// Whether a reason refutes a region inside a part of an element. Nothing is copied.
pub fn refutes_inside(
    p: &Problem,
    bound: Option<u64>,
    g: &Region,
    e: Element,
    part: Part,
    reason: &Reason,
) -> bool
    requires region { IsSized p.now.given g.now }
    ensures yes { IsTrue result → Refutes p.now.given bound (keeping e (in_part part) (sets g.now)) reason.now }
    ensures no { result ≡ false → ¬ Refutes p.now.given bound (keeping e (in_part part) (sets g.now)) reason.now }
{
    let view = View {
        region: g,
        lens: Lens::Inside(e, part),
    };
    refutes_seen(p, bound, None, &view, reason)
}

/// Whether a reason refutes what is seen of a region. The sum of the least ends of what is seen is
/// added up where it is not handed in.
pub fn refutes_seen(
    p: &Problem,
    bound: Option<u64>,
    least: Option<u128>,
    view: &View,
    reason: &Reason,
) -> bool
    requires region { IsSized p.now.given view.now.region.now }
    requires least { IfSome least (λ n. n ≡ least_cost p.now.given (seen view.now.region.now view.now.lens)) }
    ensures yes { IsTrue result → Refutes p.now.given bound (seen view.now.region.now view.now.lens) reason.now }
    ensures no { result ≡ false → ¬ Refutes p.now.given bound (seen view.now.region.now view.now.lens) reason.now }
{
    is_named(p, reason) && says(p, bound, least, view, reason)
}

// whether what a reason says of what is seen is so, where all that it names is there
fn says(p: &Problem, bound: Option<u64>, least: Option<u128>, view: &View, reason: &Reason) -> bool
    requires region { IsSized p.now.given view.now.region.now }
    requires least { IfSome least (λ n. n ≡ least_cost p.now.given (seen view.now.region.now view.now.lens)) }
    requires named { IsNamed p.now.given reason.now }
    ensures yes { IsTrue result → Says p.now.given bound (seen view.now.region.now view.now.lens) reason.now }
    ensures no { result ≡ false → ¬ Says p.now.given bound (seen view.now.region.now view.now.lens) reason.now }
{
    match reason {
        Reason::Empty(e) => has_none(p, view, *e),
        Reason::Bound => is_bounded(p, view, bound, least),
        Reason::Load(t, r, set) => is_overload(p, view, *r, set, *t),
        Reason::Pair(c, t, v, w, n) => pair_applies(p, view, *c, *t, *v, *w, *n),
        Reason::Place(c, t, v, n) => place_applies(p, view, *c, *t, *v, *n),
        Reason::Group(c, t) => group_applies(p, view, *c, *t),
        Reason::SetLoad(c, t) => set_load_applies(p, view, *c, *t),
        Reason::Power(c, t) => power_applies(p, view, *c, *t),
        Reason::Usable(t, v, n) => is_unusable(p, view, *v, *n, *t),
        Reason::Hall(c, t, set) => hall_applies(p, view, *c, *t, set),
    }
}

// of a constraint that applies, whether it keeps two machines apart that are on a node
fn pair_applies(p: &Problem, view: &View, c: u32, t: Instant, v: VmId, w: VmId, n: NodeId) -> bool
    requires region { IsSized p.now.given view.now.region.now }
    requires constraint { c < length p.now.given.constraints }
    requires first { IsElement p.now.given (Element.Vm v) }
    requires second { IsElement p.now.given (Element.Vm w) }
    ensures yes { IsTrue result → Applies p.now.given c t (λ k. IsPair p.now.given (sure p.now.given (seen view.now.region.now view.now.lens) t) k v.0 w.0 n.0) }
    ensures no { result ≡ false → ¬ Applies p.now.given c t (λ k. IsPair p.now.given (sure p.now.given (seen view.now.region.now view.now.lens) t) k v.0 w.0 n.0) }
{
    p.applies(c, t) && is_pair(p, view, &p.constraints()[c as usize], v, w, n, t)
}

// whether it lets a machine not be on a node on which it is
fn place_applies(p: &Problem, view: &View, c: u32, t: Instant, v: VmId, n: NodeId) -> bool
    requires region { IsSized p.now.given view.now.region.now }
    requires constraint { c < length p.now.given.constraints }
    requires machine { IsElement p.now.given (Element.Vm v) }
    ensures yes { IsTrue result → Applies p.now.given c t (λ k. IsPlace p.now.given (sure p.now.given (seen view.now.region.now view.now.lens) t) k v.0 n.0) }
    ensures no { result ≡ false → ¬ Applies p.now.given c t (λ k. IsPlace p.now.given (sure p.now.given (seen view.now.region.now view.now.lens) t) k v.0 n.0) }
{
    p.applies(c, t) && is_place(p, view, &p.constraints()[c as usize], v, n, t)
}

// whether its members are not grouped, or their actions overlap
fn group_applies(p: &Problem, view: &View, c: u32, t: Instant) -> bool
    requires region { IsSized p.now.given view.now.region.now }
    requires constraint { c < length p.now.given.constraints }
    ensures yes { IsTrue result → Applies p.now.given c t (IsGroup p.now.given (sure p.now.given (seen view.now.region.now view.now.lens) t)) }
    ensures no { result ≡ false → ¬ Applies p.now.given c t (IsGroup p.now.given (sure p.now.given (seen view.now.region.now view.now.lens) t)) }
{
    p.applies(c, t) && is_group(p, view, &p.constraints()[c as usize], t)
}

// whether there is more on its nodes than its amount
fn set_load_applies(p: &Problem, view: &View, c: u32, t: Instant) -> bool
    requires region { IsSized p.now.given view.now.region.now }
    requires constraint { c < length p.now.given.constraints }
    ensures yes { IsTrue result → Applies p.now.given c t (IsSetLoad p.now.given (sure p.now.given (seen view.now.region.now view.now.lens) t)) }
    ensures no { result ≡ false → ¬ Applies p.now.given c t (IsSetLoad p.now.given (sure p.now.given (seen view.now.region.now view.now.lens) t)) }
{
    p.applies(c, t) && is_set_load(p, view, &p.constraints()[c as usize], t)
}

// whether more of its nodes are powered than its amount
fn power_applies(p: &Problem, view: &View, c: u32, t: Instant) -> bool
    requires region { IsSized p.now.given view.now.region.now }
    requires constraint { c < length p.now.given.constraints }
    ensures yes { IsTrue result → Applies p.now.given c t (IsPower p.now.given (sure p.now.given (seen view.now.region.now view.now.lens) t)) }
    ensures no { result ≡ false → ¬ Applies p.now.given c t (IsPower p.now.given (sure p.now.given (seen view.now.region.now view.now.lens) t)) }
{
    p.applies(c, t) && is_power(p, view, &p.constraints()[c as usize], t)
}

// whether more of its members are on nodes of a set than that has nodes
fn hall_applies(p: &Problem, view: &View, c: u32, t: Instant, set: &NodeSet) -> bool
    requires region { IsSized p.now.given view.now.region.now }
    requires constraint { c < length p.now.given.constraints }
    ensures yes { IsTrue result → Applies p.now.given c t (IsHall p.now.given (sure p.now.given (seen view.now.region.now view.now.lens) t) (has_node set.now)) }
    ensures no { result ≡ false → ¬ Applies p.now.given c t (IsHall p.now.given (sure p.now.given (seen view.now.region.now view.now.lens) t) (has_node set.now)) }
{
    p.applies(c, t) && is_hall(p, view, &p.constraints()[c as usize], set, t)
}
