//! Sums over what is sure in what is seen of a region.
ghost use Rattle.std.specs.Prelude.{◌≡◌, ◌≤◌, ◌<◌, ◌*◌, ◌^◌, length, if◌then◌else◌};
ghost use Rattle.relax.specs.Prelude.{capacity_of, end_of, IsElement, IsSized, IsWeight, least, least_cost as least_cost_of, load as load_of, machine_count, max_capacity, max_machines, max_nodes, node, node_count, nodes_of, powered_nodes as powered_nodes_of, presences as presences_of, room as room_of, seen, sum_to, sure, total as total_of, vm};

use crate::area::{Area, has};
use crate::one_node;
use crate::sure::{least_end, least_held, may_be_usable, surely_powered};
use catalogue::Problem;
use cluster::{Element, Instant, NodeId, VmId};
use domains::View;
use slices::Weight;

/// The sum of the least that machines hold on the nodes of an area.
pub fn total(p: &Problem, view: &View, weight: Weight, area: &Area, t: Instant) -> u64
    requires region { IsSized p.now.given view.now.region.now }
    requires weight { IsWeight p.now.given weight }
    ensures { result ≡ total_of p.now.given (sure p.now.given (seen view.now.region.now view.now.lens) t) weight (nodes_of p.now.given area.now) }
{
    let mut total = 0;
    for v in 0..p.cluster().machines().len() {
        total += least_held(p, view, VmId(v as u32), weight, area, t);
    }
    total
}

/// The sum of the least uses of a resource on the nodes of an area. Of one node it is told in a quicker way.
pub fn load(p: &Problem, view: &View, r: u8, area: &Area, t: Instant) -> u64
    requires region { IsSized p.now.given view.now.region.now }
    requires resource { r < length p.now.given.resources }
    ensures { result ≡ load_of p.now.given (sure p.now.given (seen view.now.region.now view.now.lens) t) r (nodes_of p.now.given area.now) }
{
    if let Area::One(n) = area {
        return one_node::load(p, view, r, *n, t);
    }
    total(p, view, Weight::Amount(r), area, t)
}

/// The sum of the least numbers of presences on the nodes of an area.
pub fn presences(p: &Problem, view: &View, area: &Area, t: Instant) -> u64
    requires region { IsSized p.now.given view.now.region.now }
    ensures { result ≡ presences_of p.now.given (sure p.now.given (seen view.now.region.now view.now.lens) t) (nodes_of p.now.given area.now) }
{
    total(p, view, Weight::Presence, area, t)
}

// the capacity of a node for a resource, 0 where it is not in the area or cannot be usable
fn room_at(p: &Problem, view: &View, r: u8, area: &Area, n: NodeId, t: Instant) -> u64
    requires region { IsSized p.now.given view.now.region.now }
    requires resource { r < length p.now.given.resources }
    requires node { IsElement p.now.given (Element.Node n) }
    ensures room { result ≡ (if nodes_of p.now.given area.now n.0 then (if (sure p.now.given (seen view.now.region.now view.now.lens) t).usable n.0 then capacity_of p.now.given n.0 r else 0) else 0) }
    ensures small { result ≤ max_capacity }
{
    if !has(p, area, n) {
        return 0;
    }
    if may_be_usable(p, view, n, t) {
        p.capacity(n, r)
    } else {
        0
    }
}

/// The sum of the capacities for a resource of those nodes of an area that may be usable.
pub fn room(p: &Problem, view: &View, r: u8, area: &Area, t: Instant) -> u64
    requires region { IsSized p.now.given view.now.region.now }
    requires resource { r < length p.now.given.resources }
    ensures { result ≡ room_of p.now.given (sure p.now.given (seen view.now.region.now view.now.lens) t) r (nodes_of p.now.given area.now) }
{
    if let Area::One(n) = area {
        return one_node::room(p, view, r, *n, t);
    }
    let mut total = 0;
    for n in 0..p.cluster().nodes().len() {
        total += room_at(p, view, r, area, NodeId(n as u32), t);
    }
    total
}

// 1 for a node of the area that is surely powered
fn powered_in(p: &Problem, view: &View, area: &Area, n: NodeId, t: Instant) -> u64
    requires region { IsSized p.now.given view.now.region.now }
    requires node { IsElement p.now.given (Element.Node n) }
    ensures powered { result ≡ (if nodes_of p.now.given area.now n.0 then (if (sure p.now.given (seen view.now.region.now view.now.lens) t).powered n.0 then 1 else 0) else 0) }
    ensures small { result ≤ 1 }
{
    if !has(p, area, n) {
        return 0;
    }
    u64::from(surely_powered(p, view, n, t))
}

/// How many nodes of an area are surely powered.
pub fn powered_nodes(p: &Problem, view: &View, area: &Area, t: Instant) -> u64
    requires region { IsSized p.now.given view.now.region.now }
    ensures { result ≡ powered_nodes_of p.now.given (sure p.now.given (seen view.now.region.now view.now.lens) t) (nodes_of p.now.given area.now) }
{
    let mut total = 0;
    for n in 0..p.cluster().nodes().len() {
        total += powered_in(p, view, area, NodeId(n as u32), t);
    }
    total
}

// the least end of an element, 0 where it has no choice
fn end_or_none(p: &Problem, view: &View, e: Element) -> u64
    requires region { IsSized p.now.given view.now.region.now }
    requires element { IsElement p.now.given e }
    ensures { result ≡ least (end_of p.now.given e) (seen view.now.region.now view.now.lens e) }
{
    least_end(p, view, e).unwrap_or(0)
}

// the sum of the least ends of the machines
fn machine_ends(p: &Problem, view: &View) -> u128
    requires region { IsSized p.now.given view.now.region.now }
    ensures total { result ≡ sum_to (machine_count p.now.given) (λ v. least (end_of p.now.given (vm v)) (seen view.now.region.now view.now.lens (vm v))) }
    ensures small { result ≤ max_machines * 2 ^ 64 }
{
    let mut total = 0u128;
    for v in 0..p.cluster().machines().len() {
        total += u128::from(end_or_none(p, view, Element::Vm(VmId(v as u32))));
    }
    total
}

// and of the nodes
fn node_ends(p: &Problem, view: &View) -> u128
    requires region { IsSized p.now.given view.now.region.now }
    ensures total { result ≡ sum_to (node_count p.now.given) (λ n. least (end_of p.now.given (node n)) (seen view.now.region.now view.now.lens (node n))) }
    ensures small { result ≤ max_nodes * 2 ^ 64 }
{
    let mut total = 0u128;
    for n in 0..p.cluster().nodes().len() {
        total += u128::from(end_or_none(p, view, Element::Node(NodeId(n as u32))));
    }
    total
}

/// The sum of the least ends of all elements. Choices need not be legal, hence so wide a number.
#[tactic(auto, unfolding(reasons::specs::Sure::least_cost))]
pub fn least_cost(p: &Problem, view: &View) -> u128
    requires region { IsSized p.now.given view.now.region.now }
    ensures { result ≡ least_cost_of p.now.given (seen view.now.region.now view.now.lens) }
{
    machine_ends(p, view) + node_ends(p, view)
}
