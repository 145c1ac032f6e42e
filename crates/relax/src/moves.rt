//! Whether a machine that runs in an area, and is to run, may have moved out of it by an instant.
ghost use Rattle.std.specs.Prelude.{◌≡◌, ℕ, ◌+◌, ◌<◌, ◌≤◌, false, length, slice_index_or, IsTrue};
ghost use Rattle.{std.specs.List.Contains, cluster.specs.declared.choices.Place.Place as AnyPlace};
ghost use Rattle.relax.specs.Prelude.{Act, duration_of, goes_in as the_goes_in, held_at, IsElement, IsSized, least, max_action, no_row, NodeId as AnyNode, nodes_of, seen, state_of, vm, wanted_state, Weight as AnyWeight};

use crate::area::{Area, has};
use crate::measures::goes_in;
use catalogue::Problem;
use catalogue::targets::{Target, Wish};
use cluster::{Choice, Element, Instant, Kind, NodeId, State, VmId};
use domains::view::{Sight, shown};
use domains::{Row, View};
use slices::actions::duration;
use slices::elements::state_of;

/// Whether a machine that runs is to run on.
pub(crate) fn is_to_run(p: &Problem, v: VmId) -> bool
    requires { IsElement p.now.given (Element.Vm v) }
    ensures { IsTrue result → (h : AnyNode) → state_of p.now.given v.0 ≡ State.Running h → wanted_state p.now.given v.0 ≡ Wish.To Target.Running }
{
    match p.wanted(Element::Vm(v)) {
        Wish::Keep | Wish::To(Target::Running) => true,
        Wish::To(
            Target::Online | Target::Offline | Target::Sleeping | Target::Ready | Target::Killed,
        )
        | Wish::Clash => false,
    }
}

/// How long a migration of a machine lasts.
pub(crate) fn move_time(p: &Problem, v: VmId) -> u64
    requires { IsElement p.now.given (Element.Vm v) }
    ensures time { result ≡ duration_of p.now.given (vm v.0) Kind.Migrate }
    ensures small { result ≤ max_action }
{
    duration(p, Element::Vm(v), Kind::Migrate)
}

// whether a row is at a place outside an area, and its first start is so long past
fn is_past(p: &Problem, row: Row, area: &Area, lasting: u64, t: Instant) -> bool
    requires { lasting ≤ max_action }
    ensures yes { IsTrue result → (the_goes_in (Act row.place row.lo) (nodes_of p.now.given area.now) ≡ false) × (row.lo + lasting ≤ t) }
    ensures no { result ≡ false → ¬ ((the_goes_in (Act row.place row.lo) (nodes_of p.now.given area.now) ≡ false) × (row.lo + lasting ≤ t)) }
{
    u64::from(row.lo) + lasting <= u64::from(t)
        && !goes_in(
            p,
            Choice::Act {
                place: row.place,
                start: row.lo,
            },
            area,
        )
}

/// Whether one of these rows is at a place outside an area, and its first start is so long past.
pub(crate) fn is_out_by(p: &Problem, rows: &[Row], area: &Area, lasting: u64, t: Instant) -> bool
    requires { lasting ≤ max_action }
    ensures yes { IsTrue result → (k : ℕ) × (k < length rows.now) × (the_goes_in (Act (slice_index_or rows.now k no_row).place (slice_index_or rows.now k no_row).lo) (nodes_of p.now.given area.now) ≡ false) × ((slice_index_or rows.now k no_row).lo + lasting ≤ t) }
    ensures no { result ≡ false → (k : ℕ) → k < length rows.now → ¬ ((the_goes_in (Act (slice_index_or rows.now k no_row).place (slice_index_or rows.now k no_row).lo) (nodes_of p.now.given area.now) ≡ false) × ((slice_index_or rows.now k no_row).lo + lasting ≤ t)) }
{
    if u64::from(t) < lasting {
        return false;
    }
    for row in rows {
        if is_past(p, *row, area, lasting, t) {
            return true;
        }
    }
    false
}

// whether a machine, all of whose choices are seen, may start an action outside an area so early that
// a migration is over by an instant
fn may_be_over(p: &Problem, view: &View, v: VmId, area: &Area, t: Instant) -> bool
    requires region { IsSized p.now.given view.now.region.now }
    requires machine { IsElement p.now.given (Element.Vm v) }
    ensures { IsTrue result → (place : AnyPlace) × (s : ℕ) × Contains (seen view.now.region.now view.now.lens (vm v.0)) (Act place s) × (the_goes_in (Act place s) (nodes_of p.now.given area.now) ≡ false) × (s + duration_of p.now.given (vm v.0) Kind.Migrate ≤ t) }
{
    match shown(view.lens, Element::Vm(v)) {
        Sight::All => is_out_by(
            p,
            view.region.domain(Element::Vm(v)).rows(),
            area,
            move_time(p, v),
            t,
        ),
        Sight::In(_) | Sight::Out(_) | Sight::Only(_) => false,
    }
}

// whether a machine that runs on a host in an area, and is to run, may have moved out of it by an instant
fn may_be_out(p: &Problem, view: &View, v: VmId, host: NodeId, area: &Area, t: Instant) -> bool
    requires region { IsSized p.now.given view.now.region.now }
    requires machine { IsElement p.now.given (Element.Vm v) }
    requires runs { state_of p.now.given v.0 ≡ State.Running host }
    ensures { IsTrue result → (w : AnyWeight) → least (held_at p.now.given v.0 w (nodes_of p.now.given area.now) t) (seen view.now.region.now view.now.lens (vm v.0)) ≡ 0 }
{
    if !has(p, area, host) {
        return false;
    }
    if !is_to_run(p, v) {
        return false;
    }
    may_be_over(p, view, v, area, t)
}

/// Whether a machine that runs in an area may have moved out of it by an instant, so that the least that it
/// holds there is nothing.
pub(crate) fn may_have_left(p: &Problem, view: &View, v: VmId, area: &Area, t: Instant) -> bool
    requires region { IsSized p.now.given view.now.region.now }
    requires machine { IsElement p.now.given (Element.Vm v) }
    ensures { IsTrue result → (w : AnyWeight) → least (held_at p.now.given v.0 w (nodes_of p.now.given area.now) t) (seen view.now.region.now view.now.lens (vm v.0)) ≡ 0 }
{
    if matches!(area, Area::All) {
        return false;
    }
    match state_of(p, v) {
        State::Running(host) => may_be_out(p, view, v, host, area, t),
        State::Init | State::Ready | State::Sleeping(_) | State::Gone => false,
    }
}
