//! Sets of nodes as looks ask for them.
ghost use Rattle.std.specs.Prelude.{◌≡◌, ◌↔◌, ℕ, ◌<◌, ◌≤◌, IfSome, IsTrue};
ghost use Rattle.relax.specs.Prelude.{has_node, IsElement, max_nodes, node_count, nodes_of, one};

use catalogue::Problem;
use cluster::{Element, NodeId, NodeSet};

/// Nodes: one, all of the problem, those of a set, or those that are not one or not in a set.
#[derive(Clone, Copy)]
pub enum Area {
    One(NodeId),
    All,
    In(NodeSet),
    OutsideOne(NodeId),
    Outside(NodeSet),
}

/// Whether a node is in an area.
pub fn has(p: &Problem, area: &Area, n: NodeId) -> bool
    ensures { result ≡ nodes_of p.now.given area.now n.0 }
{
    match area {
        Area::One(m) => n.0 == m.0,
        Area::All => (n.0 as usize) < p.cluster().nodes().len(),
        Area::In(set) => set.has(n),
        Area::OutsideOne(m) => n.0 != m.0,
        Area::Outside(set) => !set.has(n),
    }
}

// whether a set has each of the first nodes
fn has_each(set: &NodeSet, count: usize) -> bool
    requires { count ≤ max_nodes }
    ensures { IsTrue result → (n : ℕ) → n < count → IsTrue (has_node set.now n) }
{
    for n in 0..count {
        if !set.has(NodeId(n as u32)) {
            return false;
        }
    }
    true
}

// the node of a set that has one alone; None where it has more, or none
#[tactic(auto, using(crate::proofs::OneNodeLemmas::only_one))]
fn only_node(set: &NodeSet) -> Option<NodeId>
    ensures { IfSome result (λ n. has_node set.now ≡ one n.0) }
{
    let n = set.first_from(0)?;
    match set.first_from(n.0 as usize + 1) {
        None => Some(n),
        Some(_) => None,
    }
}

/// The area of a set: one node where it has that alone, and all nodes where it has them all and no other.
pub fn area_of(p: &Problem, set: &NodeSet) -> Area
    ensures { nodes_of p.now.given result ≡ has_node set.now }
{
    if let Some(n) = only_node(set) {
        return Area::One(n);
    }
    let count = node_total(p);
    if set.is_within(count) && has_each(set, count) {
        Area::All
    } else {
        Area::In(*set)
    }
}

/// Whether there is a node of that number.
pub(crate) fn is_node(p: &Problem, n: NodeId) -> bool
    ensures { IsTrue result ↔ IsElement p.now.given (Element.Node n) }
{
    (n.0 as usize) < node_total(p)
}

/// How many nodes there are.
pub(crate) fn node_total(p: &Problem) -> usize
    ensures { result ≡ node_count p.now.given }
{
    p.cluster().nodes().len()
}
