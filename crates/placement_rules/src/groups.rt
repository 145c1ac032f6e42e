//! Where the machines of a list are all together.
ghost use Rattle.std.specs.Prelude.{◌≡◌, ◌↔◌, ◌<◌, ◌≤◌, ◌||◌, ℕ, false, true, nat_lt, Any, IsTrue, MatchOption};
ghost use Rattle.std.specs.List.{list_all};
ghost use Rattle.placement_rules.specs.Prelude.{AreGrouped, AreReached, choices_of, group_sets, groups_seen, has_node, is_in, IsHeldWithin, IsPlanOf, machine_count, max_nodes, one, snapshot_at};

use crate::counts::nodes_of;
use catalogue::Problem;
use cluster::{Instant, NodeId, NodeSet, VmId};
use slices::Plan;
use slices::form::Groups;
use slices::holding::Held;
use slices::snapshot::holding_at;

/// Puts the node where something is held into the set.
fn put(set: &mut NodeSet, held: Option<Held>)
    requires within { IsHeldWithin max_nodes held }
    ensures { (n : ℕ) → has_node set.new n ≡ (is_in (one n) held || has_node set.old n) }
{
    match held {
        Some(h) => set.insert(h.node),
        None => {}
    }
}

/// The nodes on which the machines are present.
fn reached(p: &Problem, plan: &Plan, machines: &[VmId], t: Instant) -> NodeSet
    requires plan { IsPlanOf p.now.given plan.now }
    requires machines { list_all (λ x. nat_lt x.0 (machine_count p.now.given)) machines.now ≡ true }
    ensures { AreReached (snapshot_at p.now.given (choices_of plan.now) t) machines.now result }
{
    let mut set = NodeSet::new();
    for v in machines {
        let now = holding_at(p, plan, *v, t);
        put(&mut set, now.source);
        put(&mut set, now.target);
    }
    set
}

/// The first node of a set, of those below the count.
fn first_node(set: &NodeSet, count: usize) -> Option<NodeId>
    requires { count ≤ max_nodes }
    ensures { MatchOption result ((n : ℕ) → n < count → has_node set.now n ≡ false) (λ n. (n.0 < count) × IsTrue (has_node set.now n.0)) }
{
    for i in 0..count {
        let n = NodeId(i as u32);
        if set.has(n) {
            return Some(n);
        }
    }
    None
}

/// The set of one node.
fn only(n: NodeId) -> NodeSet
    requires { n.0 < max_nodes }
    ensures { (m : ℕ) → has_node result m ≡ one n.0 m }
{
    let mut set = NodeSet::new();
    set.insert(n);
    set
}

/// Whether those of the first nodes that are in a set are in the other one.
fn is_inside(set: &NodeSet, other: &NodeSet, count: usize) -> bool
    requires { count ≤ max_nodes }
    ensures { IsTrue result ↔ ((n : ℕ) → n < count → IsTrue (has_node set.now n) → IsTrue (has_node other.now n)) }
{
    for i in 0..count {
        let n = NodeId(i as u32);
        if set.has(n) && !other.has(n) {
            return false;
        }
    }
    true
}

/// Whether one of the groups has those of the first nodes that are in a set.
fn is_inside_some(set: &NodeSet, groups: &[NodeSet], count: usize) -> bool
    requires { count ≤ max_nodes }
    ensures { IsTrue result ↔ Any (λ g. (n : ℕ) → n < count → IsTrue (has_node set.now n) → IsTrue (has_node g n)) groups.now }
{
    for group in groups {
        if is_inside(set, group, count) {
            return true;
        }
    }
    false
}

/// Whether one of the groups has all presences of the machines, or there is none.
pub fn are_grouped(p: &Problem, plan: &Plan, machines: &[VmId], groups: &Groups, t: Instant) -> bool
    requires plan { IsPlanOf p.now.given plan.now }
    requires machines { list_all (λ x. nat_lt x.0 (machine_count p.now.given)) machines.now ≡ true }
    ensures { IsTrue result ↔ AreGrouped p.now.given (snapshot_at p.now.given (choices_of plan.now) t) machines.now (group_sets p.now.given (groups_seen groups.now)) }
{
    let nodes = reached(p, plan, machines, t);
    let count = nodes_of(p);
    match first_node(&nodes, count) {
        Some(first) => match groups {
            Groups::AnyNode => is_inside(&nodes, &only(first), count),
            Groups::AnyOf(sets) => is_inside_some(&nodes, sets.items(), count),
        },
        None => true,
    }
}
