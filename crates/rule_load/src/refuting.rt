//! Whether a reason is seen to refute a region with what is inside a part of an element's choices.
ghost use Rattle.std.specs.Prelude.{◌≡◌, ◌<◌, ◌≤◌, IfSome, IsTrue, length};
ghost use Rattle.rule_load.specs.Prelude.{all_nodes, cache_of, FailHolds, in_part, IsCacheFor, IsElement, IsOverload, IsSized, keeping, MayAnswer, node_count, nodes_of, one, sets, sure};

use crate::{LoadKeeper, resource_total};
use load_bounds::over::is_over;
use load_bounds::total_over::is_over_all;
use relax::area::area_of;
use relax::refutes::refutes_inside;
use rule_frame::{
    Area, Element, Instant, Lens, NodeId, Part, Problem, Reason, Region, View, has_element,
};

// the node of an area that is one of the problem alone
fn only_node(p: &Problem, area: Area) -> Option<NodeId>
    ensures { IfSome result (λ n. (n.0 < node_count p.now.given) × (nodes_of p.now.given area ≡ one n.0)) }
{
    match area {
        Area::One(n) => if has_element(p, Element::Node(n)) {
            Some(n)
        } else {
            None
        },
        Area::All | Area::In(_) | Area::OutsideOne(_) | Area::Outside(_) => None,
    }
}

/// Whether it is seen that a reason does: the load of one node by the machines near it, that of all nodes by the machines that
/// may not stay, all others exactly.
pub(crate) fn refutes_part(
    k: &LoadKeeper,
    p: &Problem,
    g: &Region,
    e: Element,
    part: Part,
    reason: &Reason,
) -> bool
    requires region { IsSized p.now.given g.now }
    requires right { IsCacheFor (cache_of k.now.table k.now.fixed k.now.near k.now.firsts k.now.movers k.now.rooms k.now.hold_on) p.now.given (sets g.now) }
    requires element { IsElement p.now.given e }
    requires may { MayAnswer reason.now }
    ensures { IsTrue result → FailHolds p.now.given (keeping e (in_part part) (sets g.now)) reason.now }
{
    match reason {
        Reason::Load(t, r, set) => {
            let area = area_of(p, set);
            match only_node(p, area) {
                Some(n) => overloads(k, p, g, e, part, *t, *r, n),
                None => overloads_all(k, p, g, e, part, *t, *r, area)
                    || refutes_inside(p, None, g, e, part, reason),
            }
        }
        Reason::Empty(_)
        | Reason::Bound
        | Reason::Pair(..)
        | Reason::Place(..)
        | Reason::Group(..)
        | Reason::SetLoad(..)
        | Reason::Power(..)
        | Reason::Usable(..)
        | Reason::Hall(..) => refutes_inside(p, None, g, e, part, reason),
    }
}

// whether what is inside a part is seen to overload a node
fn overloads(
    k: &LoadKeeper,
    p: &Problem,
    g: &Region,
    e: Element,
    part: Part,
    t: Instant,
    r: u8,
    n: NodeId,
) -> bool
    requires region { IsSized p.now.given g.now }
    requires right { IsCacheFor (cache_of k.now.table k.now.fixed k.now.near k.now.firsts k.now.movers k.now.rooms k.now.hold_on) p.now.given (sets g.now) }
    requires node { n.0 < node_count p.now.given }
    ensures { IsTrue result → (t ≤ p.now.given.horizon) × (r < length p.now.given.resources) × IsOverload p.now.given (sure p.now.given (keeping e (in_part part) (sets g.now)) t) r (one n.0) }
{
    if t > p.horizon() || (r as usize) >= resource_total(p) {
        return false;
    }
    let view = View {
        region: g,
        lens: Lens::Inside(e, part),
    };
    is_over(p, &view, k.at(p, g, n), r, n, t)
}

// whether it is seen to overload all nodes together, where an area is all of them
fn overloads_all(
    k: &LoadKeeper,
    p: &Problem,
    g: &Region,
    e: Element,
    part: Part,
    t: Instant,
    r: u8,
    area: Area,
) -> bool
    requires region { IsSized p.now.given g.now }
    requires right { IsCacheFor (cache_of k.now.table k.now.fixed k.now.near k.now.firsts k.now.movers k.now.rooms k.now.hold_on) p.now.given (sets g.now) }
    ensures all { IsTrue result → nodes_of p.now.given area ≡ all_nodes p.now.given }
    ensures over { IsTrue result → (t ≤ p.now.given.horizon) × (r < length p.now.given.resources) × IsOverload p.now.given (sure p.now.given (keeping e (in_part part) (sets g.now)) t) r (all_nodes p.now.given) }
{
    if !matches!(area, Area::All) || t > p.horizon() || (r as usize) >= resource_total(p) {
        return false;
    }
    let Some(movers) = k.holders(p, g) else {
        return false;
    };
    let view = View {
        region: g,
        lens: Lens::Inside(e, part),
    };
    is_over_all(p, &view, k.fixed(p, g), movers, r, t)
}
