//! Sums over machines and nodes.
ghost use Rattle.std.specs.Prelude.{◌≡◌, ◌≤◌, ◌<◌, length};
ghost use Rattle.placement_rules.specs.Prelude.{amount_in, choices_of, count_in, has_node, image_in as the_image_in, IsPlanOf, IsWeight, machine_count, max_amount, max_held, node_count, powered_nodes, snapshot_at, total};

use catalogue::Problem;
use cluster::{Instant, NodeId, NodeSet, VmId};
use slices::holding::{Held, amount};
use slices::snapshot::{holding_at, powered};
use slices::{Plan, Weight};

/// How many machines there are.
pub(crate) fn machines_of(p: &Problem) -> usize
    ensures { result ≡ machine_count p.now.given }
{
    p.cluster().machines().len()
}

/// How many nodes there are.
pub(crate) fn nodes_of(p: &Problem) -> usize
    ensures { result ≡ node_count p.now.given }
{
    p.cluster().nodes().len()
}

/// What a machine uses of a resource where it is held, if that is in the set.
fn use_in(p: &Problem, v: VmId, held: Option<Held>, r: u8, nodes: &NodeSet) -> u64
    requires machine { v.0 < machine_count p.now.given }
    requires resource { r < length p.now.given.resources }
    ensures value { result ≡ amount_in p.now.given v.0 r (has_node nodes.now) held }
    ensures small { result ≤ max_amount }
{
    match held {
        Some(h) => {
            if nodes.has(h.node) {
                amount(p, v, h.what, r)
            } else {
                0
            }
        }
        None => 0,
    }
}

/// 1 where the presence is on a node of the set.
fn presence_in(held: Option<Held>, nodes: &NodeSet) -> u64
    ensures value { result ≡ count_in (has_node nodes.now) held }
    ensures small { result ≤ 1 }
{
    match held {
        Some(h) => { if nodes.has(h.node) { 1 } else { 0 } }
        None => 0,
    }
}

/// 1 where the image is on a node of the set.
fn image_in(image: Option<NodeId>, nodes: &NodeSet) -> u64
    ensures value { result ≡ the_image_in (has_node nodes.now) image }
    ensures small { result ≤ 1 }
{
    match image {
        Some(n) => { if nodes.has(n) { 1 } else { 0 } }
        None => 0,
    }
}

/// What a machine holds on the nodes of a set.
fn held_on(p: &Problem, plan: &Plan, v: VmId, weight: Weight, nodes: &NodeSet, t: Instant) -> u64
    requires plan { IsPlanOf p.now.given plan.now }
    requires machine { v.0 < machine_count p.now.given }
    requires weight { IsWeight p.now.given weight }
    ensures value { result ≡ (snapshot_at p.now.given (choices_of plan.now) t).held v.0 weight (has_node nodes.now) }
    ensures small { result ≤ max_held }
{
    let now = holding_at(p, plan, v, t);
    match weight {
        Weight::Amount(r) => {
            use_in(p, v, now.source, r, nodes) + use_in(p, v, now.target, r, nodes)
        }
        Weight::Presence => presence_in(now.source, nodes) + presence_in(now.target, nodes),
        Weight::Image => image_in(now.image, nodes),
    }
}

/// What all machines hold on the nodes of a set.
pub fn total_on(p: &Problem, plan: &Plan, weight: Weight, nodes: &NodeSet, t: Instant) -> u64
    requires plan { IsPlanOf p.now.given plan.now }
    requires weight { IsWeight p.now.given weight }
    ensures { result ≡ total p.now.given (snapshot_at p.now.given (choices_of plan.now) t) weight (has_node nodes.now) }
{
    let mut total = 0;
    for v in 0..machines_of(p) {
        total += held_on(p, plan, VmId(v as u32), weight, nodes, t);
    }
    total
}

/// The number of powered nodes of a set.
pub fn powered_in(p: &Problem, plan: &Plan, nodes: &NodeSet, t: Instant) -> u64
    requires plan { IsPlanOf p.now.given plan.now }
    ensures { result ≡ powered_nodes p.now.given (snapshot_at p.now.given (choices_of plan.now) t) (has_node nodes.now) }
{
    let mut count = 0;
    for i in 0..nodes_of(p) {
        let n = NodeId(i as u32);
        if nodes.has(n) && powered(p, plan, n, t) {
            count += 1;
        }
    }
    count
}
