//! The first broken rule at an instant, by a plain search in the order of the rules.
ghost use Rattle.std.specs.Prelude.{◌≡◌, ◌↔◌, ◌==◌, ◌<◌, false, length, nat_lt, slice_index_or, IsTrue, MatchOption};
ghost use Rattle.judge.specs.Prelude.{applies, AreUsable, AreUsableNodes, choices_of, ConstraintsHold, HoldsAt, image_in, is_in, is_where, IsFirstAway, IsFirstOff, IsFirstRule, IsFirstUnmet, IsMetAt, IsPlanOf, KeepsAllAt, machine_count, max_nodes, one, snapshot_at, StandsUsably};

use crate::standing::{first_over, loads_at, machines_of, nodes_of, usable_nodes};
use catalogue::Problem;
use cluster::limits::MAX_NODES;
use cluster::{Instant, NodeId, VmId};
use placement_rules::holds;
use slices::Plan;
use slices::holding::{Held, Holding};
use slices::rule::Rule;
use slices::snapshot::holding_at;

/// Whether what is held is on the node.
fn is_on(held: Option<Held>, n: NodeId) -> bool
    ensures { result ≡ is_in (one n.0) held }
{
    match held {
        Some(h) => h.node.0 == n.0,
        None => false,
    }
}

/// Whether the image is on the node.
fn is_image_on(image: Option<NodeId>, n: NodeId) -> bool
    ensures { result ≡ nat_lt 0 (image_in (one n.0) image) }
{
    match image {
        Some(m) => m.0 == n.0,
        None => false,
    }
}

/// Whether a machine that holds this stands on the node.
fn stands_on(now: Holding, n: NodeId) -> bool
    ensures { result ≡ is_where now n.0 }
{
    is_on(now.source, n) || is_on(now.target, n) || is_image_on(now.image, n)
}

/// Whether a machine that holds this stands on the node, and that is not usable.
fn is_off(nodes: &[bool; MAX_NODES], now: Holding, n: NodeId) -> bool
    requires { n.0 < max_nodes }
    ensures { IsTrue result ↔ (IsTrue (is_where now n.0) × (slice_index_or nodes.now n.0 false ≡ false)) }
{
    stands_on(now, n) && !nodes[n.0 as usize]
}

/// The first node where a machine stands that is not usable.
fn first_off(
    p: &Problem,
    plan: &Plan,
    nodes: &[bool; MAX_NODES],
    v: VmId,
    t: Instant,
) -> Option<NodeId>
    requires plan { IsPlanOf p.now.given plan.now }
    requires machine { v.0 < machine_count p.now.given }
    requires nodes { AreUsableNodes p.now.given (snapshot_at p.now.given (choices_of plan.now) t) nodes.now }
    ensures { MatchOption result (StandsUsably p.now.given (snapshot_at p.now.given (choices_of plan.now) t) v.0) (λ n. IsFirstOff p.now.given (snapshot_at p.now.given (choices_of plan.now) t) v.0 n.0) }
{
    let now = holding_at(p, plan, v, t);
    for i in 0..nodes_of(p) {
        let n = NodeId(i as u32);
        if is_off(nodes, now, n) {
            return Some(n);
        }
    }
    None
}

/// The first machine that stands on a node that is not usable, and the first such node.
fn first_away(p: &Problem, plan: &Plan, t: Instant) -> Option<(VmId, NodeId)>
    requires plan { IsPlanOf p.now.given plan.now }
    ensures { MatchOption result (AreUsable p.now.given (snapshot_at p.now.given (choices_of plan.now) t) (machine_count p.now.given)) (λ x. IsFirstAway p.now.given (snapshot_at p.now.given (choices_of plan.now) t) x.0.0 x.1.0) }
{
    let nodes = usable_nodes(p, plan, t);
    for i in 0..machines_of(p) {
        let v = VmId(i as u32);
        if let Some(n) = first_off(p, plan, &nodes, v, t) {
            return Some((v, n));
        }
    }
    None
}

/// Whether a constraint applies and does not hold.
fn is_unmet(p: &Problem, plan: &Plan, c: u32, t: Instant) -> bool
    requires plan { IsPlanOf p.now.given plan.now }
    requires constraint { c < length p.now.given.constraints }
    ensures met { result ≡ false → IsMetAt p.now.given (choices_of plan.now) t c }
    ensures unmet { IsTrue result → IsTrue (applies p.now.given (t == p.now.given.horizon) c) × ¬ HoldsAt p.now.given (choices_of plan.now) t c }
{
    p.applies(c, t) && !holds(p, c, plan, t)
}

/// The first constraint that applies and does not hold.
fn first_unmet(p: &Problem, plan: &Plan, t: Instant) -> Option<u32>
    requires plan { IsPlanOf p.now.given plan.now }
    ensures { MatchOption result (ConstraintsHold p.now.given (choices_of plan.now) t (length p.now.given.constraints)) (λ c. IsFirstUnmet p.now.given (choices_of plan.now) t c) }
{
    for i in 0..p.constraints().len() {
        let c = i as u32;
        if is_unmet(p, plan, c, t) {
            return Some(c);
        }
    }
    None
}

/// The first broken rule at an instant.
pub(crate) fn first_broken_rule(p: &Problem, plan: &Plan, t: Instant) -> Option<Rule>
    requires plan { IsPlanOf p.now.given plan.now }
    ensures { MatchOption result (KeepsAllAt p.now.given (choices_of plan.now) t) (IsFirstRule p.now.given (choices_of plan.now) t) }
{
    if let Some((n, r)) = first_over(p, &loads_at(p, plan, t)) {
        return Some(Rule::Load(n, r));
    }
    if let Some((v, n)) = first_away(p, plan, t) {
        return Some(Rule::Usable(v, n));
    }
    if let Some(c) = first_unmet(p, plan, t) {
        return Some(Rule::Constraint(c));
    }
    None
}
