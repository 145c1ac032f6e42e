//! Which room a node has during a period.
ghost use Rattle.std.specs.Prelude.{◌≡◌, ℕ, ◌*◌, ◌<◌, ◌≤◌, length, IsTrue, true, if◌then◌else◌};
ghost use Rattle.load_bounds.specs.Prelude.{capacity_of, HasRoom, is_above_none, is_online as the_is_online, is_steady as the_is_steady, IsSized, max_capacity, max_nodes, node, node_count, NodesFit, one, Period as AnyPeriod, sets, sum_to, sure, surely, usable_at};

use crate::Period;
use crate::measures::IsUsable;
use catalogue::Problem;
use cluster::{Element, Instant, NodeId};
use domains::view::lowest_seen;
use domains::{Lens, Region, View};
use relax::sure::may_be_usable;

/// What a node has of a resource all through a period: its capacity, in the units of the resource, or 0 where it cannot be
/// usable at the first or the last instant.
#[tactic(auto, using(crate::proofs::RoomLemmas::room_while_usable, crate::proofs::RoomLemmas::no_room))]
pub fn room_of(p: &Problem, g: &Region, n: NodeId, r: u8, x: Period) -> u64
    requires region { IsSized p.now.given g.now }
    requires node { n.0 < node_count p.now.given }
    requires resource { r < length p.now.given.resources }
    ensures room { HasRoom p.now.given (sets g.now) r (one n.0) x result }
    ensures small { result ≤ max_capacity }
{
    if may_be_used(p, g, n, x) {
        p.capacity(n, r)
    } else {
        0
    }
}

/// Whether a node may be usable at both ends of a period.
#[tactic(auto, using(crate::proofs::RoomLemmas::usable_when_steady))]
pub(crate) fn may_be_used(p: &Problem, g: &Region, n: NodeId, x: Period) -> bool
    requires region { IsSized p.now.given g.now }
    requires node { n.0 < node_count p.now.given }
    ensures first { IsTrue result → (sure p.now.given (sets g.now) x.from).usable n.0 ≡ true }
    ensures last { IsTrue result → (sure p.now.given (sets g.now) x.to).usable n.0 ≡ true }
{
    if stays_online(p, g, n) {
        return true;
    }
    let view = View {
        region: g,
        lens: Lens::Whole,
    };
    may_be_usable(p, &view, n, x.from) && may_be_usable(p, &view, n, x.to)
}

// whether a value, if there is one, is above 0
fn is_above(lowest: Option<u64>) -> bool
    ensures { result ≡ is_above_none lowest }
{
    match lowest {
        None => true,
        Some(x) => x > 0,
    }
}

// whether a node is usable at an instant under each of its choices
fn is_surely_usable(p: &Problem, g: &Region, n: NodeId, t: Instant) -> bool
    requires region { IsSized p.now.given g.now }
    requires node { n.0 < node_count p.now.given }
    ensures { result ≡ surely (usable_at p.now.given n.0 t) (sets g.now (node n.0)) }
{
    let view = View {
        region: g,
        lens: Lens::Whole,
    };
    let usable = IsUsable {
        problem: p,
        node: n,
        at: t,
    };
    is_above(lowest_seen(&view, Element::Node(n), &usable))
}

/// Whether what is used of a node, no more than it has room for, fits under each of its choices during a period: nothing
/// is, or it is usable under each of them at the first and the last instant.
#[tactic(auto, using(crate::proofs::RoomLemmas::unused_fits, crate::proofs::RoomLemmas::usable_fits, crate::proofs::RoomLemmas::steady_fits))]
pub fn node_fits(p: &Problem, g: &Region, n: NodeId, x: Period, used: u64) -> bool
    requires region { IsSized p.now.given g.now }
    requires node { n.0 < node_count p.now.given }
    ensures { IsTrue result → (r free : ℕ) → HasRoom p.now.given (sets g.now) r (one n.0) x free → used ≤ free → NodesFit p.now.given (sets g.now) r (one n.0) x used }
{
    if used == 0 {
        return true;
    }
    stays_online(p, g, n) || is_surely_usable(p, g, n, x.from) && is_surely_usable(p, g, n, x.to)
}

// whether a node is online
fn is_online(p: &Problem, n: NodeId) -> bool
    requires { n.0 < node_count p.now.given }
    ensures { result ≡ the_is_online p.now.given.nodes n.0 }
{
    p.cluster().nodes()[n.0 as usize].online
}

// whether a node is online and can only stay as it is, so that it is usable at all times
#[tactic(auto, using(crate::proofs::RoomLemmas::stays_steady))]
fn stays_online(p: &Problem, g: &Region, n: NodeId) -> bool
    requires region { IsSized p.now.given g.now }
    requires node { n.0 < node_count p.now.given }
    ensures { IsTrue result → (x : AnyPeriod) → the_is_steady p.now.given (sets g.now) x n.0 ≡ true }
{
    let domain = g.domain(Element::Node(n));
    if !is_online(p, n) || !domain.idle() {
        return false;
    }
    match domain.rows() {
        [] => true,
        [_, ..] => false,
    }
}

/// Whether a node is usable at both ends of a period under each of its choices, of which there is one.
#[tactic(auto, unfolding(reasons::specs::Sure::sure))]
pub(crate) fn is_steady(p: &Problem, g: &Region, n: NodeId, x: Period) -> bool
    requires region { IsSized p.now.given g.now }
    requires node { n.0 < node_count p.now.given }
    ensures { result ≡ the_is_steady p.now.given (sets g.now) x n.0 }
{
    if stays_online(p, g, n) {
        return true;
    }
    let view = View {
        region: g,
        lens: Lens::Whole,
    };
    may_be_usable(p, &view, n, x.from)
        && is_surely_usable(p, g, n, x.from)
        && is_surely_usable(p, g, n, x.to)
}

/// The sum of the capacities for a resource of the nodes that are usable at both ends of a period under each of their
/// choices, and have one.
pub fn steady_room(p: &Problem, g: &Region, r: u8, x: Period) -> u64
    requires region { IsSized p.now.given g.now }
    requires resource { r < length p.now.given.resources }
    ensures room { result ≡ sum_to (node_count p.now.given) (λ n. if the_is_steady p.now.given (sets g.now) x n then capacity_of p.now.given n r else 0) }
    ensures small { result ≤ max_nodes * max_capacity }
{
    let mut total = 0;
    for i in 0..p.cluster().nodes().len() {
        let n = NodeId(i as u32);
        if is_steady(p, g, n, x) {
            total += p.capacity(n, r);
        }
    }
    total
}
