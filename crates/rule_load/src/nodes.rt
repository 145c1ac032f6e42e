//! The nodes whose load is a watch.
ghost use Rattle.std.specs.Prelude.{◌≡◌, ℕ, ◌+◌, ◌<◌, IfNone, IfSome};
ghost use Rattle.rule_load.specs.Prelude.{all_nodes, AreListed, has_node, node_count, nodes_at, one};

use rule_frame::{NodeId, NodeSet, Problem};

/// How many nodes there are.
pub(crate) fn node_total(p: &Problem) -> usize
    ensures { result ≡ node_count p.now.given }
{
    p.cluster().nodes().len()
}

/// The one node whose load is the watch of a number; none for that of all nodes together.
#[tactic(auto, using(crate::specs::Quiet::one_at, crate::specs::Quiet::all_at))]
pub(crate) fn node_at(p: &Problem, i: usize) -> Option<NodeId>
    requires { i < node_count p.now.given + 1 }
    ensures none { IfNone result (nodes_at p.now.given i ≡ all_nodes p.now.given) }
    ensures some { IfSome result (λ n. (n.0 < node_count p.now.given) × (nodes_at p.now.given i ≡ one n.0)) }
{
    if i < node_total(p) {
        Some(NodeId(i as u32))
    } else {
        None
    }
}

// the set of one node
fn one_node(p: &Problem, n: NodeId) -> NodeSet
    requires { n.0 < node_count p.now.given }
    ensures nodes { (m : ℕ) → has_node result m ≡ one n.0 m }
{
    let mut set = NodeSet::new();
    set.insert(n);
    set
}

/// The set of one node.
pub(crate) fn node_set(p: &Problem, n: NodeId) -> NodeSet
    requires { n.0 < node_count p.now.given }
    ensures { has_node result ≡ one n.0 }
{
    one_node(p, n)
}

// the set of all nodes
fn all_of(p: &Problem) -> NodeSet
    ensures { (m : ℕ) → has_node result m ≡ all_nodes p.now.given m }
{
    let mut set = NodeSet::new();
    for n in 0..node_total(p) {
        set.insert(NodeId(n as u32));
    }
    set
}

/// The nodes whose load is the watch of a number, as a set.
pub(crate) fn watched_nodes(p: &Problem, i: usize) -> NodeSet
    requires { i < node_count p.now.given + 1 }
    ensures nodes { has_node result ≡ nodes_at p.now.given i }
    ensures listed { AreListed p.now.given result }
{
    match node_at(p, i) {
        None => all_of(p),
        Some(n) => one_node(p, n),
    }
}
