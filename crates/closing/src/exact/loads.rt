//! Loads of nodes.
ghost use Rattle.std.specs.Prelude.{◌≡◌, ℕ, ◌+◌, ◌<◌, ◌≤◌, ◌^◌, IfNone, IfSome, length};
ghost use Rattle.closing.specs.Prelude.{IsFound, IsNodeMissed, IsNodeSpared, IsOverload, IsOverloaded, IsSized, load as load_of, node_count, nodes_of, room as room_of, sets, sure};

use crate::exact::above::machine_above;
use crate::exact::usable::NotUsable;
use crate::look::Look;
use crate::shared::counts::{nodes_of, resources_of};
use crate::shared::ends::end_that;
use catalogue::Problem;
use cluster::{Choice, Element, Instant, NodeId};
use domains::{Lens, Region, View};
use relax::totals::{load, room};
use relax::{Area, has, may_be_usable};
use slices::Weight;

// an end of a node's choices under which the area lacks more capacity than is spare
fn end_missed(
    p: &Problem,
    g: &Region,
    r: u8,
    area: &Area,
    t: Instant,
    spare: u64,
    n: NodeId,
) -> Option<Choice>
    requires region { IsSized p.now.given g.now }
    requires node { n.0 < node_count p.now.given }
    requires resource { r < length p.now.given.resources }
    ensures none { IfNone result (IsNodeSpared p.now.given (sets g.now) r (nodes_of p.now.given area.now) t spare n.0) }
    ensures some { IfSome result (IsNodeMissed p.now.given (sets g.now) r (nodes_of p.now.given area.now) t spare n.0) }
{
    if !has(p, area, n) || p.capacity(n, r) <= spare {
        return None;
    }
    let view = View {
        region: g,
        lens: Lens::Whole,
    };
    if !may_be_usable(p, &view, n, t) {
        return None;
    }
    let test = NotUsable {
        problem: p,
        node: n,
        at: t,
    };
    end_that(g.domain(Element::Node(n)), &test)
}

// a node and an end of its choices under which the area lacks more capacity than is spare
fn node_missed(
    p: &Problem,
    g: &Region,
    r: u8,
    area: &Area,
    t: Instant,
    spare: u64,
) -> Option<(NodeId, Choice)>
    requires region { IsSized p.now.given g.now }
    requires resource { r < length p.now.given.resources }
    ensures none { IfNone result ((n : ℕ) → n < node_count p.now.given → IsNodeSpared p.now.given (sets g.now) r (nodes_of p.now.given area.now) t spare n) }
    ensures some { IfSome result (λ x. (x.0.0 < node_count p.now.given) × IsNodeMissed p.now.given (sets g.now) r (nodes_of p.now.given area.now) t spare x.0.0 x.1) }
{
    for i in 0..nodes_of(p) {
        let n = NodeId(i as u32);
        if let Some(c) = end_missed(p, g, r, area, t, spare, n) {
            return Some((n, c));
        }
    }
    None
}

// where the least uses fit, and so much is spare: whether they do with each element set to each end
fn found_by_ends(p: &Problem, g: &Region, r: u8, area: &Area, t: Instant, spare: u64) -> Look
    requires region { IsSized p.now.given g.now }
    requires resource { r < length p.now.given.resources }
    requires spare { spare + load_of p.now.given (sure p.now.given (sets g.now) t) r (nodes_of p.now.given area.now)
        ≡ room_of p.now.given (sure p.now.given (sets g.now) t) r (nodes_of p.now.given area.now) }
    ensures { IsFound (λ s. IsOverload p.now.given s r (nodes_of p.now.given area.now)) p.now.given (sets g.now) t result }
{
    if let Some((v, c)) = machine_above(p, g, Weight::Amount(r), area, t, spare) {
        return Look::Cut(Element::Vm(v), c, t);
    }
    if let Some((n, c)) = node_missed(p, g, r, area, t, spare) {
        return Look::Cut(Element::Node(n), c, t);
    }
    Look::Clean
}

// a look at one instant at the load of a resource on the nodes of an area
fn resource_found(p: &Problem, g: &Region, r: u8, area: &Area, t: Instant) -> Look
    requires region { IsSized p.now.given g.now }
    requires resource { r < length p.now.given.resources }
    ensures { IsFound (λ s. IsOverload p.now.given s r (nodes_of p.now.given area.now)) p.now.given (sets g.now) t result }
{
    let view = View {
        region: g,
        lens: Lens::Whole,
    };
    let used = load(p, &view, r, area, t);
    let free = room(p, &view, r, area, t);
    if used > free {
        return Look::Fail(t);
    }
    found_by_ends(p, g, r, area, t, free - used)
}

/// A look at one instant at the loads of the resources on the nodes of an area.
pub fn load_found(p: &Problem, g: &Region, area: &Area, t: Instant) -> Look
    requires region { IsSized p.now.given g.now }
    ensures { IsFound (IsOverloaded p.now.given (nodes_of p.now.given area.now)) p.now.given (sets g.now) t result }
{
    for r in 0..resources_of(p) {
        match resource_found(p, g, r as u8, area, t) {
            Look::Clean => {}
            Look::Fail(u) => return Look::Fail(u),
            Look::Cut(e, c, u) => return Look::Cut(e, c, u),
        }
    }
    Look::Clean
}
