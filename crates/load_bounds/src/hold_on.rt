//! Whether machines that may stay as they are never have less than at present.
ghost use Rattle.std.specs.Prelude.{ℕ, ◌<◌, IsTrue, length, slice_index_or};
ghost use Rattle.std.specs.List.{Contains};
ghost use Rattle.load_bounds.specs.HoldOn.{GoesOn, HoldsOn, StayersHoldOn};
ghost use Rattle.load_bounds.specs.Prelude.{Idle, IsElement, IsSized, no_row, node_count, sets, vm};

use catalogue::Problem;
use cluster::{Element, Kind, NodeId, Place, State, VmId};
use domains::{Region, Row};
use slices::actions::kind_of;
use slices::elements::state_of;

// whether there is a node of that number
fn is_node(p: &Problem, n: NodeId) -> bool
    ensures { IsTrue result → n.0 < node_count p.now.given }
{
    (n.0 as usize) < p.cluster().nodes().len()
}

// whether the action at a place leaves a machine that runs what it has: it moves to another node, or is given more
fn goes_on(p: &Problem, v: VmId, place: Place) -> bool
    requires { IsElement p.now.given (Element.Vm v) }
    ensures { IsTrue result → GoesOn p.now.given v.0 place }
{
    let Place::At(n) = place else {
        return false;
    };
    if !is_node(p, n) {
        return false;
    }
    match kind_of(p, Element::Vm(v), place) {
        Some(Kind::Migrate | Kind::Allocate) => true,
        Some(
            Kind::Forge
            | Kind::Boot
            | Kind::Shutdown
            | Kind::Suspend
            | Kind::Resume
            | Kind::Kill
            | Kind::NodeBoot
            | Kind::NodeShutdown,
        )
        | None => false,
    }
}

// whether the actions of all rows do
fn all_go_on(p: &Problem, v: VmId, rows: &[Row]) -> bool
    requires { IsElement p.now.given (Element.Vm v) }
    ensures { IsTrue result → (k : ℕ) → k < length rows.now → GoesOn p.now.given v.0 (slice_index_or rows.now k no_row).place }
{
    for i in 0..rows.len() {
        if !goes_on(p, v, rows[i].place) {
            return false;
        }
    }
    true
}

// whether a machine has on all nodes together at least what it has at present, under each of its choices
fn holds_on(p: &Problem, g: &Region, v: VmId) -> bool
    requires region { IsSized p.now.given g.now }
    requires machine { IsElement p.now.given (Element.Vm v) }
    ensures { IsTrue result → HoldsOn p.now.given (sets g.now) v.0 }
{
    match state_of(p, v) {
        State::Running(h) => is_node(p, h) && all_go_on(p, v, g.domain(Element::Vm(v)).rows()),
        State::Init => true,
        State::Ready => true,
        State::Sleeping(_) => true,
        State::Gone => true,
    }
}

// whether it does, or may not stay as it is
#[tactic(auto, using(crate::proofs::HoldOnLemmas::no_idle))]
fn holds_or_moves(p: &Problem, g: &Region, v: VmId) -> bool
    requires region { IsSized p.now.given g.now }
    requires machine { IsElement p.now.given (Element.Vm v) }
    ensures { IsTrue result → Contains (sets g.now (vm v.0)) Idle → HoldsOn p.now.given (sets g.now) v.0 }
{
    !g.domain(Element::Vm(v)).idle() || holds_on(p, g, v)
}

/// Whether each machine that may stay as it is has on all nodes together at least what it has at present, at all times
/// and under each of its choices. As a region narrows that stays so. A no may be one too many.
pub fn stayers_hold_on(p: &Problem, g: &Region) -> bool
    requires { IsSized p.now.given g.now }
    ensures { IsTrue result → StayersHoldOn p.now.given (sets g.now) }
{
    for i in 0..p.cluster().machines().len() {
        if !holds_or_moves(p, g, VmId(i as u32)) {
            return false;
        }
    }
    true
}
