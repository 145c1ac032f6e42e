//! The load and the room of one node. Of most machines it is told at once that they surely have nothing there.
ghost use Rattle.std.specs.Prelude.{◌≡◌, ◌≢◌, ℕ, ◌<◌, ◌≤◌, false, length, IfSome, IsTrue};
ghost use Rattle.std.specs.List.{Contains};
ghost use Rattle.relax.specs.Prelude.{Choice as AnyChoice, choices, Climbs, goes_in, has_node, held_at, IsElement, IsSized, least, load as load_of, machine_count, node_count, one, RegionView, room as room_of, seen, sets, sure, vm, Weight as AnyWeight};

use crate::area::{Area, is_node};
use crate::hosts::is_host;
use crate::sure::{least_held, may_be_usable};
use catalogue::Problem;
use cluster::{Element, Instant, NodeId, Place, VmId};
use domains::{Domain, Lens, View};
use slices::Weight;

// ---- one machine

// whether a place is a node
fn is_at(place: Place, n: NodeId) -> bool
    ensures { (start : ℕ) → result ≡ goes_in (AnyChoice.Act place start) (one n.0) }
{
    match place {
        Place::Nowhere => false,
        Place::At(m) => m.0 == n.0,
    }
}

// whether Idle, or else the first choice, keeps a machine away from a node
fn may_stay_out(domain: &Domain, n: NodeId) -> bool
    requires { Climbs 0 domain.now.rows }
    ensures { IsTrue result → (c : AnyChoice) × Contains (choices domain.now) c × (goes_in c (one n.0) ≡ false) }
{
    if domain.idle() {
        return true;
    }
    match domain.rows() {
        [] => false,
        [row, ..] => !is_at(row.place, n),
    }
}

// whether it is told at once that a machine, of which all is seen, surely has nothing on a node: it is hosted
// elsewhere, and one choice keeps it away
fn is_elsewhere(p: &Problem, view: &View, v: VmId, n: NodeId) -> bool
    requires region { IsSized p.now.given view.now.region.now }
    requires machine { IsElement p.now.given (Element.Vm v) }
    ensures { IsTrue result → (w : AnyWeight) (t : ℕ) → least (held_at p.now.given v.0 w (one n.0) t) (sets view.now.region.now (vm v.0)) ≡ 0 }
{
    if is_host(p, v, n) {
        return false;
    }
    may_stay_out(view.region.domain(Element::Vm(v)), n)
}

/// The machine of which a lens may not show all choices.
pub fn narrowed(lens: Lens) -> Option<VmId>
    ensures { (g : RegionView) (v : ℕ) → IfSome result (λ x. v ≢ x.0) → seen g lens (vm v) ≡ sets g (vm v) }
{
    match lens {
        Lens::Whole => None,
        Lens::Inside(x, _) | Lens::Outside(x, _) | Lens::Set(x, _) => match x {
            Element::Vm(v) => Some(v),
            Element::Node(_) => None,
        },
    }
}

// whether a machine is not a certain one, if there is one
fn is_other(v: VmId, x: Option<VmId>) -> bool
    ensures { IsTrue result → IfSome x (λ x. v.0 ≢ x.0) }
{
    match x {
        None => true,
        Some(x) => v.0 != x.0,
    }
}

// the first machine from a number on that may have something on a node, or how many machines there are; `x` is the
// one of which not all may be seen. This calls nothing that reads many rows, and so is quick
fn next_near(p: &Problem, view: &View, x: Option<VmId>, n: NodeId, from: usize) -> usize
    requires region { IsSized p.now.given view.now.region.now }
    requires from { from ≤ machine_count p.now.given }
    requires whole { (v : ℕ) → IfSome x (λ x. v ≢ x.0) → seen view.now.region.now view.now.lens (vm v) ≡ sets view.now.region.now (vm v) }
    ensures later { from ≤ result }
    ensures within { result ≤ machine_count p.now.given }
    ensures between { (v : ℕ) → from ≤ v → v < result → (w : AnyWeight) (t : ℕ) → least (held_at p.now.given v w (one n.0) t) (seen view.now.region.now view.now.lens (vm v)) ≡ 0 }
{
    let count = p.cluster().machines().len();
    for i in from..count {
        let v = VmId(i as u32);
        if !is_other(v, x) || !is_elsewhere(p, view, v, n) {
            return i;
        }
    }
    count
}

// ---- one node

/// The sum of the least uses of a resource on a node.
pub(crate) fn load(p: &Problem, view: &View, r: u8, n: NodeId, t: Instant) -> u64
    requires region { IsSized p.now.given view.now.region.now }
    requires resource { r < length p.now.given.resources }
    ensures { result ≡ load_of p.now.given (sure p.now.given (seen view.now.region.now view.now.lens) t) r (one n.0) }
{
    let count = p.cluster().machines().len();
    let x = narrowed(view.lens);
    let mut total = 0;
    let mut i = next_near(p, view, x, n, 0);
    while i < count {
        let v = VmId(i as u32);
        total += least_held(p, view, v, Weight::Amount(r), &Area::One(n), t);
        i = next_near(p, view, x, n, i + 1);
    }
    total
}

/// The capacity of a node for a resource, 0 where there is no such node or it cannot be usable.
#[tactic(auto, using(crate::proofs::OneNodeLemmas::room_of_one, crate::proofs::OneNodeLemmas::room_of_none))]
pub(crate) fn room(p: &Problem, view: &View, r: u8, n: NodeId, t: Instant) -> u64
    requires region { IsSized p.now.given view.now.region.now }
    requires resource { r < length p.now.given.resources }
    ensures { result ≡ room_of p.now.given (sure p.now.given (seen view.now.region.now view.now.lens) t) r (one n.0) }
{
    if is_node(p, n) && may_be_usable(p, view, n, t) {
        p.capacity(n, r)
    } else {
        0
    }
}
