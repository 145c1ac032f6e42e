//! How little a machine may hold in an area, as far as its state, its wish and its rows tell.
ghost use Rattle.std.specs.Prelude.{◌≡◌, ◌≢◌, ℕ, ◌+◌, ◌-◌, ◌<◌, ◌≤◌, true, List, length, slice_index_or, is_some, IsTrue};
ghost use Rattle.{std.specs.List.Contains, cluster.specs.declared.choices.Place.Place as AnyPlace};
ghost use Rattle.relax.specs.Prelude.{Act, all_nodes, Choice as AnyChoice, choices, Climbs, held_at, IsElement, IsSized, IsWeight, kind_of as the_kind_of, max_nodes, no_row, node_count, NodeId as AnyNode, nodes_of, place_index, Row as AnyRow, seen, sight_of, state_of, Use, vm, wanted_state, Weight as AnyWeight, weight_of};

use crate::area::{Area, has, node_total};
use crate::moves::{is_out_by, is_to_run, move_time};
use catalogue::Problem;
use catalogue::targets::{Target, Wish};
use cluster::{Element, Instant, NodeId, Place, State, VmId};
use domains::view::{Sight, shown};
use domains::{Domain, Row, View};
use slices::Weight;
use slices::actions::kind_of;
use slices::elements::state_of;
use slices::holding::amount;
use slices::slice::What;

// a place's number in the order of places
fn place_number(place: Place) -> u64
    ensures { result ≡ place_index place }
{
    match place {
        Place::Nowhere => 0,
        Place::At(n) => u64::from(n.0) + 1,
    }
}

// whether a machine that runs on a host and is to run acts under each choice but Idle
fn always_acts(p: &Problem, v: VmId, host: NodeId, domain: &Domain) -> bool
    requires machine { IsElement p.now.given (Element.Vm v) }
    requires climbs { Climbs 0 domain.now.rows }
    requires runs { state_of p.now.given v.0 ≡ State.Running host }
    requires to_run { wanted_state p.now.given v.0 ≡ Wish.To Target.Running }
    ensures { IsTrue result → (place : AnyPlace) (s : ℕ) → Contains (choices domain.now) (Act place s) → is_some (the_kind_of p.now.given (vm v.0) place) ≡ true }
{
    let rows = domain.rows();
    if rows.is_empty() {
        return true;
    }
    if !is_between(p, first_place(rows), last_place(rows)) {
        return false;
    }
    if may_act(p, v, Place::At(host)) {
        return true;
    }
    has_no_row(rows, host, node_total(p))
}

// whether no row is at a node, where all are at the first so many nodes: as places climb, the row would
// stand no later than the node's number says, and no earlier than by as many places as nodes have none
fn has_no_row(rows: &[Row], n: NodeId, count: usize) -> bool
    requires climbs { Climbs 0 rows.now }
    requires few { count ≤ max_nodes }
    requires some { 1 ≤ length rows.now }
    requires first { 0 < place_index (slice_index_or rows.now 0 no_row).place }
    requires last { place_index (slice_index_or rows.now (length rows.now - 1) no_row).place ≤ count }
    ensures { IsTrue result → (k : ℕ) (d : AnyRow) → k < length rows.now → place_index (slice_index_or rows.now k d).place ≢ n.0 + 1 }
{
    let number = n.0 as usize;
    for k in rows.len().saturating_add(number).saturating_sub(count)..rows.len() {
        if k > number {
            return true;
        }
        if place_number(rows[k].place) == u64::from(n.0) + 1 {
            return false;
        }
    }
    true
}

fn first_place(rows: &[Row]) -> Place
    requires { 1 ≤ length rows.now }
    ensures { result ≡ (slice_index_or rows.now 0 no_row).place }
{
    rows[0].place
}

fn last_place(rows: &[Row]) -> Place
    requires { 1 ≤ length rows.now }
    ensures { result ≡ (slice_index_or rows.now (length rows.now - 1) no_row).place }
{
    rows[rows.len() - 1].place
}

// whether a machine acts at a place under a legal choice, if it is early enough
fn may_act(p: &Problem, v: VmId, place: Place) -> bool
    requires { IsElement p.now.given (Element.Vm v) }
    ensures { result ≡ is_some (the_kind_of p.now.given (vm v.0) place) }
{
    kind_of(p, Element::Vm(v), place).is_some()
}

// whether one place is a node, and another none past the last
fn is_between(p: &Problem, first: Place, last: Place) -> bool
    ensures first { IsTrue result → 0 < place_index first }
    ensures last { IsTrue result → place_index last ≤ node_count p.now.given }
{
    0 < place_number(first) && place_number(last) <= node_total(p) as u64
}

// whether what is seen of an element is no more than it has
fn is_part(sight: Sight) -> bool
    ensures { IsTrue result → (cs : List AnyChoice) (c : AnyChoice) → Contains (sight_of sight cs) c → Contains cs c }
{
    match sight {
        Sight::All => true,
        Sight::In(_) => true,
        Sight::Out(_) => true,
        Sight::Only(_) => false,
    }
}

// whether a machine that runs on a host is to run, and can only stay or act so
fn runs_on(p: &Problem, view: &View, v: VmId, host: NodeId) -> bool
    requires region { IsSized p.now.given view.now.region.now }
    requires machine { IsElement p.now.given (Element.Vm v) }
    requires runs { state_of p.now.given v.0 ≡ State.Running host }
    ensures { IsTrue result → (w : AnyWeight) (t : ℕ) (c : AnyChoice) → Contains (seen view.now.region.now view.now.lens (vm v.0)) c → weight_of p.now.given v.0 w Use ≤ held_at p.now.given v.0 w (all_nodes p.now.given) t c }
{
    if !is_part(shown(view.lens, Element::Vm(v))) {
        return false;
    }
    if !is_to_run(p, v) {
        return false;
    }
    always_acts(p, v, host, view.region.domain(Element::Vm(v)))
}

// what the present use of a machine weighs
fn use_weight(p: &Problem, v: VmId, weight: Weight) -> u64
    requires machine { IsElement p.now.given (Element.Vm v) }
    requires weight { IsWeight p.now.given weight }
    ensures { result ≡ weight_of p.now.given v.0 weight Use }
{
    match weight {
        Weight::Amount(r) => amount(p, v, What::Use, r),
        Weight::Presence => 1,
        Weight::Image => 0,
    }
}

// whether a machine that runs on a host in an area is to run, and can only stay or act, and cannot have moved
// out of the area by an instant
fn keeps_on(p: &Problem, view: &View, v: VmId, host: NodeId, area: &Area, t: Instant) -> bool
    requires region { IsSized p.now.given view.now.region.now }
    requires machine { IsElement p.now.given (Element.Vm v) }
    requires runs { state_of p.now.given v.0 ≡ State.Running host }
    ensures { IsTrue result → (w : AnyWeight) (c : AnyChoice) → Contains (seen view.now.region.now view.now.lens (vm v.0)) c → weight_of p.now.given v.0 w Use ≤ held_at p.now.given v.0 w (nodes_of p.now.given area.now) t c }
{
    if !has(p, area, host) {
        return false;
    }
    if !is_part(shown(view.lens, Element::Vm(v))) {
        return false;
    }
    if !is_to_run(p, v) {
        return false;
    }
    let domain = view.region.domain(Element::Vm(v));
    if !always_acts(p, v, host, domain) {
        return false;
    }
    !is_out_by(p, domain.rows(), area, move_time(p, v), t)
}

// whether a machine that runs on a host holds at least what it uses at present, as far as this tells
fn keeps_use(p: &Problem, view: &View, v: VmId, host: NodeId, area: &Area, t: Instant) -> bool
    requires region { IsSized p.now.given view.now.region.now }
    requires machine { IsElement p.now.given (Element.Vm v) }
    requires runs { state_of p.now.given v.0 ≡ State.Running host }
    ensures { IsTrue result → (w : AnyWeight) (c : AnyChoice) → Contains (seen view.now.region.now view.now.lens (vm v.0)) c → weight_of p.now.given v.0 w Use ≤ held_at p.now.given v.0 w (nodes_of p.now.given area.now) t c }
{
    match area {
        Area::All => runs_on(p, view, v, host),
        Area::One(_) | Area::In(_) | Area::OutsideOne(_) | Area::Outside(_) => keeps_on(
            p, view, v, host, area, t,
        ),
    }
}

/// A number that no choice that is seen of a machine is below in what it holds in an area: on all
/// nodes, one that runs and is to run holds at least what it uses at present; in an area that it runs in, it
/// does as long as it cannot have moved out.
pub(crate) fn floor(
    p: &Problem,
    view: &View,
    v: VmId,
    weight: Weight,
    area: &Area,
    t: Instant,
) -> u64
    requires region { IsSized p.now.given view.now.region.now }
    requires machine { IsElement p.now.given (Element.Vm v) }
    requires weight { IsWeight p.now.given weight }
    ensures { (c : AnyChoice) → Contains (seen view.now.region.now view.now.lens (vm v.0)) c → result ≤ held_at p.now.given v.0 weight (nodes_of p.now.given area.now) t c }
{
    match state_of(p, v) {
        State::Running(host) => if keeps_use(p, view, v, host, area, t) {
            use_weight(p, v, weight)
        } else {
            0
        },
        State::Init | State::Ready | State::Sleeping(_) | State::Gone => 0,
    }
}
