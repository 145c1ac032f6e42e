//! What is sure in what is seen of a region.
ghost use Rattle.std.specs.Prelude.{◌≡◌, ℕ, ◌≤◌, ◌↔◌, ◌<◌, false, [], nat_lt, length, slice_index_or, IsTrue, Option as AnyOption};
ghost use Rattle.std.specs.List.{Contains};
ghost use Rattle.relax.specs.Prelude.{Choice as AnyChoice, choices, Climbs, end_of, goes_in as the_goes_in, HasElement, held_at, Image as ImageOf, is_above_none, is_nought, IsElement, IsSized, IsWeight, least, lowest as lowest_of, max_held, no_row, nodes_of, seen, sure, vm, Weight as AnyWeight};

use crate::area::Area;
use crate::floors::floor;
use crate::hosts::is_hosted;
use crate::measures::{EndOf, HeldFrom, HeldIn, IsPowered, IsSoFar, IsUnusable, goes_in};
use crate::moves::may_have_left;
use catalogue::Problem;
use cluster::{Choice, Element, Instant, NodeId, VmId};
use domains::measure::Nought;
use domains::view::{Sight, lowest_seen, shown};
use domains::{Domain, Row, View};
use slices::Weight;
use slices::stage::Progress;

// whether a value, if there is one, is above 0
fn is_above(lowest: Option<u64>) -> bool
    ensures { result ≡ is_above_none lowest }
{
    match lowest {
        None => true,
        Some(x) => x > 0,
    }
}

// whether there is a value, and it is 0
fn is_zero(lowest: Option<u64>) -> bool
    ensures { result ≡ is_nought lowest }
{
    match lowest {
        None => false,
        Some(x) => x == 0,
    }
}

// whether a row is at a place that is not in an area
fn has_row_out(p: &Problem, rows: &[Row], area: &Area) -> bool
    ensures { IsTrue result → (k : ℕ) × (k < length rows.now) × (the_goes_in (AnyChoice.Act (slice_index_or rows.now k no_row).place (slice_index_or rows.now k no_row).lo) (nodes_of p.now.given area.now) ≡ false) }
{
    for row in rows {
        if !goes_in(p, first_of(*row), area) {
            return true;
        }
    }
    false
}

// the first choice of a row
fn first_of(row: Row) -> Choice
    ensures { result ≡ AnyChoice.Act row.place row.lo }
{
    Choice::Act {
        place: row.place,
        start: row.lo,
    }
}

// whether Idle, or the first start at some place, is a choice that does not go to an area
fn has_out(p: &Problem, domain: &Domain, area: &Area) -> bool
    requires { Climbs 0 domain.now.rows }
    ensures { IsTrue result → (c : AnyChoice) × Contains (choices domain.now) c × (the_goes_in c (nodes_of p.now.given area.now) ≡ false) }
{
    domain.idle() || has_row_out(p, domain.rows(), area)
}

// whether some choice that is seen of a machine does not go to an area, where all of them are seen
fn may_stay_out(p: &Problem, view: &View, v: VmId, area: &Area) -> bool
    requires region { IsSized p.now.given view.now.region.now }
    requires machine { IsElement p.now.given (Element.Vm v) }
    ensures { IsTrue result → (c : AnyChoice) × Contains (seen view.now.region.now view.now.lens (vm v.0)) c × (the_goes_in c (nodes_of p.now.given area.now) ≡ false) }
{
    match shown(view.lens, Element::Vm(v)) {
        Sight::All => has_out(p, view.region.domain(Element::Vm(v)), area),
        Sight::In(_) | Sight::Out(_) | Sight::Only(_) => false,
    }
}

// whether a machine that is hosted elsewhere may stay out of an area, so that the least that it holds
// there is nothing; of most machines this tells at once
fn is_away(p: &Problem, view: &View, v: VmId, area: &Area) -> bool
    requires region { IsSized p.now.given view.now.region.now }
    requires machine { IsElement p.now.given (Element.Vm v) }
    ensures { IsTrue result → (w : AnyWeight) (t : ℕ) → least (held_at p.now.given v.0 w (nodes_of p.now.given area.now) t) (seen view.now.region.now view.now.lens (vm v.0)) ≡ 0 }
{
    if is_hosted(p, v, area) {
        return false;
    }
    may_stay_out(p, view, v, area)
}

/// The least that a machine holds on the nodes of an area at an instant; 0 where it has no choice.
#[tactic(auto, using(crate::proofs::LeastLemmas::least_held_small), unfolding(reasons::specs::Sure::sure))]
pub fn least_held(p: &Problem, view: &View, v: VmId, weight: Weight, area: &Area, t: Instant) -> u64
    requires region { IsSized p.now.given view.now.region.now }
    requires machine { IsElement p.now.given (Element.Vm v) }
    requires weight { IsWeight p.now.given weight }
    ensures held { result ≡ (sure p.now.given (seen view.now.region.now view.now.lens) t).held v.0 weight (nodes_of p.now.given area.now) }
    ensures small { result ≤ max_held }
{
    if is_away(p, view, v, area) || may_have_left(p, view, v, area, t) {
        return 0;
    }
    let measure = HeldIn {
        problem: p,
        machine: v,
        weight,
        area,
        at: t,
    };
    least_from(view, v, measure, floor(p, view, v, weight, area, t))
}

// the least of what a machine holds, where no choice that is seen is below a number
fn least_from(view: &View, v: VmId, held: HeldIn, floor: u64) -> u64
    requires element { HasElement view.now.region.now (Element.Vm v) }
    requires machine { IsElement held.problem.now.given (vm held.machine.0) }
    requires weight { IsWeight held.problem.now.given held.weight }
    requires floor { (c : AnyChoice) → Contains (seen view.now.region.now view.now.lens (vm v.0)) c → floor ≤ held_at held.problem.now.given held.machine.0 held.weight (nodes_of held.problem.now.given held.area.now) held.at c }
    ensures { result ≡ least (held_at held.entry.problem.now.given held.entry.machine.0 held.entry.weight (nodes_of held.entry.problem.now.given held.entry.area.now) held.entry.at) (seen view.now.region.now view.now.lens (vm v.0)) }
{
    if floor == 0 {
        return lowest_seen(view, Element::Vm(v), &held).unwrap_or(0);
    }
    lowest_seen(view, Element::Vm(v), &HeldFrom { held, floor }).unwrap_or(0)
}

/// Whether a machine is present on a node of an area under each of its choices.
pub fn surely_in(p: &Problem, view: &View, v: VmId, area: &Area, t: Instant) -> bool
    requires region { IsSized p.now.given view.now.region.now }
    requires machine { IsElement p.now.given (Element.Vm v) }
    ensures { result ≡ (sure p.now.given (seen view.now.region.now view.now.lens) t).present v.0 (nodes_of p.now.given area.now) }
{
    let measure = HeldIn {
        problem: p,
        machine: v,
        weight: Weight::Presence,
        area,
        at: t,
    };
    is_above(lowest_seen(view, Element::Vm(v), &measure))
}

/// Whether a machine has its image on a node of an area under each of its choices, of which there is one.
pub fn surely_has_image(p: &Problem, view: &View, v: VmId, area: &Area, t: Instant) -> bool
    requires region { IsSized p.now.given view.now.region.now }
    requires machine { IsElement p.now.given (Element.Vm v) }
    ensures { result ≡ nat_lt 0 ((sure p.now.given (seen view.now.region.now view.now.lens) t).held v.0 ImageOf (nodes_of p.now.given area.now)) }
{
    least_held(p, view, v, Weight::Image, area, t) > 0
}

/// Whether a node is usable under some choice.
pub fn may_be_usable(p: &Problem, view: &View, n: NodeId, t: Instant) -> bool
    requires region { IsSized p.now.given view.now.region.now }
    requires node { IsElement p.now.given (Element.Node n) }
    ensures { result ≡ (sure p.now.given (seen view.now.region.now view.now.lens) t).usable n.0 }
{
    let measure = IsUnusable {
        problem: p,
        node: n,
        at: t,
    };
    is_zero(lowest_seen(view, Element::Node(n), &measure))
}

/// Whether a node is powered under each of its choices.
pub fn surely_powered(p: &Problem, view: &View, n: NodeId, t: Instant) -> bool
    requires region { IsSized p.now.given view.now.region.now }
    requires node { IsElement p.now.given (Element.Node n) }
    ensures { result ≡ (sure p.now.given (seen view.now.region.now view.now.lens) t).powered n.0 }
{
    let measure = IsPowered {
        problem: p,
        node: n,
        at: t,
    };
    is_above(lowest_seen(view, Element::Node(n), &measure))
}

/// Whether a machine's action is so far under each of its choices.
pub fn surely_so_far(p: &Problem, view: &View, v: VmId, far: Progress, t: Instant) -> bool
    requires region { IsSized p.now.given view.now.region.now }
    requires machine { IsElement p.now.given (Element.Vm v) }
    ensures { result ≡ (sure p.now.given (seen view.now.region.now view.now.lens) t).action v.0 far }
{
    let progress = IsSoFar {
        problem: p,
        machine: v,
        far,
        at: t,
    };
    is_above(lowest_seen(view, Element::Vm(v), &progress))
}

/// The least instant at which an element's action ends, None where it has no choice.
pub fn least_end(p: &Problem, view: &View, e: Element) -> Option<u64>
    requires region { IsSized p.now.given view.now.region.now }
    requires element { IsElement p.now.given e }
    ensures { result ≡ lowest_of (end_of p.now.given e) (seen view.now.region.now view.now.lens e) }
{
    lowest_seen(
        view,
        e,
        &EndOf {
            problem: p,
            element: e,
        },
    )
}

/// Whether an element has no choice.
#[tactic(auto, using(crate::proofs::LeastLemmas::none_is_empty, crate::proofs::LeastLemmas::some_is_not))]
pub fn has_none(p: &Problem, view: &View, e: Element) -> bool
    requires region { IsSized p.now.given view.now.region.now }
    requires element { IsElement p.now.given e }
    ensures { IsTrue result ↔ (seen view.now.region.now view.now.lens e ≡ []) }
{
    match lowest_seen(view, e, &Nought) {
        None => true,
        Some(_) => false,
    }
}
