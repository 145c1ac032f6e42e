//! Nodes that shut down after what is there has left, told for all instants up to the horizon at once.
ghost use Rattle.std.specs.Prelude.{◌≡◌, ℕ, ◌<◌, ◌≤◌, false, IfSome, IsTrue};
ghost use Rattle.std.specs.List.{Contains};
ghost use Rattle.rule_place.specs.Prelude.{Choice as AnyChoice, has_come, IsClean, IsShutdown, IsSized, leave_of, LetsGo, machine_count, node_count, sets, usable_watch};

use domains::measure::Measure;
use machine_bounds::leaving::{leaves_by, may_leave_by};
use rule_frame::{
    Change, Choice, Element, Instant, NodeId, Part, Place, Problem, Region, Row, Side, VmId,
};
use slices::choice::usable;
use standings::host::is_host;
use standings::leaves::leaves_of;
use standings::numbers::Leaving;

/// The first and the last start of a node that shuts down.
#[derive(Clone, Copy)]
pub struct Shutdown {
    pub first: Instant,
    pub last: Instant,
}

// those of a node that is usable and may not stay, where it may go to one place
fn shutdown_of(p: &Problem, g: &Region, n: NodeId) -> Option<Shutdown>
    requires region { IsSized p.now.given g.now }
    requires node { n.0 < node_count p.now.given }
    ensures { IfSome result (IsShutdown p.now.given (sets g.now) n.0) }
{
    let domain = g.domain(Element::Node(n));
    if domain.idle() || !usable(p, n, Choice::Idle, 0) {
        return None;
    }
    let rows = domain.rows();
    if rows.len() != 1 {
        return None;
    }
    let row = rows[0];
    Some(Shutdown {
        first: row.lo,
        last: row.hi,
    })
}

/// Until when a machine has its host under a start at the place of a row.
pub fn leave_at(p: &Problem, v: VmId, row: Row, start: Instant) -> u64
    requires { v.0 < machine_count p.now.given }
    ensures { result ≡ leave_of p.now.given v.0 (AnyChoice.Act row.place start) }
{
    let leaving = Leaving {
        problem: p,
        machine: v,
        leaves: leaves_of(p, v),
    };
    leaving.value(Choice::Act {
        place: row.place,
        start,
    })
}

/// Whether a machine has come to a node by no instant up to the horizon.
pub(crate) fn goes_elsewhere(p: &Problem, g: &Region, v: VmId, n: NodeId) -> bool
    requires region { IsSized p.now.given g.now }
    requires machine { v.0 < machine_count p.now.given }
    ensures { IsTrue result → (c : AnyChoice) (t : ℕ) → Contains (sets g.now (Element.Vm v)) c → t ≤ p.now.given.horizon → has_come n.0 t c ≡ false }
{
    g.leaves_none(Change {
        element: Element::Vm(v),
        part: Part::Upto(Place::At(n), p.horizon()),
        side: Side::Inside,
    })
}

// whether a machine is not at a node that shuts down when it does
fn lets_go(p: &Problem, g: &Region, v: VmId, n: NodeId, x: Shutdown) -> bool
    requires region { IsSized p.now.given g.now }
    requires machine { v.0 < machine_count p.now.given }
    ensures { IsTrue result → LetsGo p.now.given (sets g.now) v.0 n.0 x }
{
    let domain = g.domain(Element::Vm(v));
    if domain.is_empty() || !goes_elsewhere(p, g, v, n) {
        return false;
    }
    if !is_host(p, v, n) {
        return true;
    }
    may_leave_by(p, v, domain, u64::from(x.first)) && leaves_by(p, v, domain, x.last)
}

// whether none is
fn all_let_go(p: &Problem, g: &Region, n: NodeId, x: Shutdown) -> bool
    requires region { IsSized p.now.given g.now }
    ensures { IsTrue result → (v : ℕ) → v < machine_count p.now.given → LetsGo p.now.given (sets g.now) v n.0 x }
{
    for i in 0..p.cluster().machines().len() {
        if !lets_go(p, g, VmId(i as u32), n, x) {
            return false;
        }
    }
    true
}

/// Whether it is seen that a node that shuts down is usable whenever it is needed.
pub fn is_let_go(p: &Problem, g: &Region, n: NodeId) -> bool
    requires region { IsSized p.now.given g.now }
    requires node { n.0 < node_count p.now.given }
    ensures { IsTrue result → IsClean (usable_watch p.now.given n.0) p.now.given (sets g.now) }
{
    match shutdown_of(p, g, n) {
        None => false,
        Some(x) => all_let_go(p, g, n, x),
    }
}
