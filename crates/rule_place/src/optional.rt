//! Nodes that may stay usable or shut down, told for all instants up to the horizon at once.
ghost use Rattle.std.specs.Prelude.{◌≡◌, ℕ, ◌<◌, false, IfSome, IsTrue};
ghost use Rattle.std.specs.List.{Contains};
ghost use Rattle.rule_place.specs.Prelude.{Choice as AnyChoice, goes_in, IsAway, IsClean, IsShutdown, IsSized, LetsGo, machine_count, node_count, one, sets, usable_watch};

use crate::shutdowns::{Shutdown, leave_at};
use rule_frame::{Choice, Element, Instant, NodeId, Place, Problem, Region, Row, VmId};
use slices::choice::usable;
use standings::host::is_host;

// the first start of a node that is usable and may stay so, where it may go to one place; past the horizon it has shut down
// at the latest
fn option_of(p: &Problem, g: &Region, n: NodeId) -> Option<Shutdown>
    requires region { IsSized p.now.given g.now }
    requires node { n.0 < node_count p.now.given }
    ensures shutdown { IfSome result (IsShutdown p.now.given (sets g.now) n.0) }
    ensures late { IfSome result (λ x. p.now.given.horizon < x.last) }
{
    let domain = g.domain(Element::Node(n));
    if !domain.idle() || !usable(p, n, Choice::Idle, 0) {
        return None;
    }
    let rows = domain.rows();
    if rows.len() != 1 {
        return None;
    }
    let first = rows[0].lo;
    if first > p.horizon() {
        return None;
    }
    Some(Shutdown {
        first,
        last: p.horizon() + 1,
    })
}

// whether a place is another one than a node
fn is_elsewhere(place: Place, n: NodeId) -> bool
    ensures { IsTrue result → goes_in (AnyChoice.Act place 0) (one n.0) ≡ false }
{
    match place {
        Place::Nowhere => true,
        Place::At(m) => m.0 != n.0,
    }
}

// whether a machine is gone from a node by an instant with the first start of a row
fn is_gone(p: &Problem, v: VmId, row: Row, n: NodeId, end: Instant) -> bool
    requires { v.0 < machine_count p.now.given }
    ensures { IsTrue result → IsAway p.now.given v.0 n.0 end (AnyChoice.Act row.place row.lo) }
{
    is_elsewhere(row.place, n)
        && (!is_host(p, v, n) || leave_at(p, v, row, row.lo) <= u64::from(end))
}

// whether a machine is gone from a node by an instant under one of its choices
fn may_be_gone(p: &Problem, g: &Region, v: VmId, n: NodeId, end: Instant) -> bool
    requires region { IsSized p.now.given g.now }
    requires machine { v.0 < machine_count p.now.given }
    ensures { IsTrue result → (c : AnyChoice) × Contains (sets g.now (Element.Vm v)) c × IsAway p.now.given v.0 n.0 end c }
{
    let domain = g.domain(Element::Vm(v));
    if domain.idle() && !is_host(p, v, n) {
        return true;
    }
    let rows = domain.rows();
    for i in 0..rows.len() {
        if is_gone(p, v, rows[i], n, end) {
            return true;
        }
    }
    false
}

// whether each machine is
fn all_may_be_gone(p: &Problem, g: &Region, n: NodeId, x: Shutdown) -> bool
    requires region { IsSized p.now.given g.now }
    requires late { p.now.given.horizon < x.last }
    ensures { IsTrue result → (v : ℕ) → v < machine_count p.now.given → LetsGo p.now.given (sets g.now) v n.0 x }
{
    for i in 0..p.cluster().machines().len() {
        if !may_be_gone(p, g, VmId(i as u32), n, x.first) {
            return false;
        }
    }
    true
}

/// Whether it is seen that a node that may stay usable, or shut down, is usable whenever it is needed: each machine may be
/// gone before it shuts down.
pub fn is_optional(p: &Problem, g: &Region, n: NodeId) -> bool
    requires region { IsSized p.now.given g.now }
    requires node { n.0 < node_count p.now.given }
    ensures { IsTrue result → IsClean (usable_watch p.now.given n.0) p.now.given (sets g.now) }
{
    match option_of(p, g, n) {
        None => false,
        Some(x) => all_may_be_gone(p, g, n, x),
    }
}
