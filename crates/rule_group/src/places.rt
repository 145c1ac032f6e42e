//! The groups of nodes of a constraint, by their numbers: each node by itself, or the sets that it lists.
ghost use Rattle.std.specs.Prelude.{◌≡◌, ◌⊎◌, ℕ, ◌<◌, ◌≤◌, IsTrue};
ghost use Rattle.rule_group.specs.Prelude.{AreNodesOf, group_count as the_group_count, group_nodes, groups_seen, has_node, HasSpots, IsAtOne, IsHad, IsServed, IsSpotIn, max_nodes};

use crate::spots::Spots;
use cluster::limits::MAX_NODES;
use rule_frame::{NodeId, NodeSet, Problem};
use slices::form::Groups;

/// How many groups there are.
pub fn group_count(p: &Problem, groups: &Groups) -> usize
    ensures { result ≡ the_group_count p.now.given (groups_seen groups.now) }
{
    match groups {
        Groups::AnyNode => p.cluster().nodes().len(),
        Groups::AnyOf(sets) => sets.items().len(),
    }
}

/// Whether the group of a number has a node.
pub fn has(p: &Problem, groups: &Groups, i: usize, n: NodeId) -> bool
    requires { i < the_group_count p.now.given (groups_seen groups.now) }
    ensures { result ≡ group_nodes (groups_seen groups.now) i n.0 }
{
    match groups {
        Groups::AnyNode => n.0 as usize == i,
        Groups::AnyOf(sets) => sets.items()[i].has(n),
    }
}

// whether it has a node, if there is one
fn has_spot(p: &Problem, groups: &Groups, i: usize, spot: Option<NodeId>) -> bool
    requires { i < the_group_count p.now.given (groups_seen groups.now) }
    ensures { IsTrue result → IsSpotIn (group_nodes (groups_seen groups.now) i) spot }
{
    match spot {
        None => true,
        Some(n) => has(p, groups, i, n),
    }
}

// whether it has all these nodes
fn has_spots(p: &Problem, groups: &Groups, i: usize, spots: Spots) -> bool
    requires { i < the_group_count p.now.given (groups_seen groups.now) }
    ensures { IsTrue result → HasSpots (group_nodes (groups_seen groups.now) i) spots }
{
    has_spot(p, groups, i, spots.host) && has_spot(p, groups, i, spots.place)
}

// the numbers of the groups that may have all these nodes: from one on, and before another
fn range_of(p: &Problem, groups: &Groups, spots: Spots) -> (usize, usize)
    ensures count { result.1 ≤ the_group_count p.now.given (groups_seen groups.now) }
    ensures limit { result.1 ≤ max_nodes }
{
    let count = group_count(p, groups).min(MAX_NODES);
    match groups {
        Groups::AnyOf(_) => (0, count),
        Groups::AnyNode => match spots.place.or(spots.host) {
            None => (0, count),
            Some(n) => {
                let i = n.0 as usize;
                if i < count { (i, i + 1) } else { (0, 0) }
            }
        },
    }
}

// whether the group of a number is among some, and has all these nodes
fn serves(p: &Problem, groups: &Groups, spots: Spots, among: &NodeSet, i: usize) -> bool
    requires count { i < the_group_count p.now.given (groups_seen groups.now) }
    requires limit { i < max_nodes }
    ensures { IsTrue result → IsServed p.now.given (groups_seen groups.now) among.now spots i }
{
    if !among.has(NodeId(i as u32)) {
        return false;
    }
    has_spots(p, groups, i, spots)
}

// puts its number in, where it is so
fn add_if_serving(
    p: &Problem,
    groups: &Groups,
    spots: Spots,
    among: &NodeSet,
    i: usize,
    found: &mut NodeSet,
)
    requires count { i < the_group_count p.now.given (groups_seen groups.now) }
    requires limit { i < max_nodes }
    ensures { (j : ℕ) → IsTrue (has_node found.new j) → IsTrue (has_node found.old j) ⊎ IsServed p.now.given (groups_seen groups.now) among.now spots j }
{
    if !serves(p, groups, spots, among, i) {
        return;
    }
    found.insert(NodeId(i as u32));
}

/// Puts in those of some groups that have all these nodes.
pub fn add_serving(p: &Problem, groups: &Groups, spots: Spots, among: &NodeSet, found: &mut NodeSet)
    ensures { (j : ℕ) → IsTrue (has_node found.new j) → IsTrue (has_node found.old j) ⊎ IsServed p.now.given (groups_seen groups.now) among.now spots j }
{
    let (first, end) = range_of(p, groups, spots);
    for i in first..end {
        add_if_serving(p, groups, spots, among, i, found);
    }
}

/// Whether one of some groups has all these nodes.
pub fn is_served(p: &Problem, groups: &Groups, spots: Spots, among: &NodeSet) -> bool
    ensures { IsTrue result → (i : ℕ) × IsServed p.now.given (groups_seen groups.now) among.now spots i }
{
    let (first, end) = range_of(p, groups, spots);
    for i in first..end {
        if serves(p, groups, spots, among, i) {
            return true;
        }
    }
    false
}

/// All groups.
pub fn all_groups(p: &Problem, groups: &Groups) -> NodeSet
    ensures { (i : ℕ) → IsTrue (has_node result i) → i < the_group_count p.now.given (groups_seen groups.now) }
{
    let count = group_count(p, groups).min(MAX_NODES);
    let mut all = NodeSet::new();
    for i in 0..count {
        all.insert(NodeId(i as u32));
    }
    all
}

// puts a node in, where one of some groups has it
fn add_if_had(p: &Problem, groups: &Groups, among: &NodeSet, n: NodeId, nodes: &mut NodeSet)
    requires { n.0 < max_nodes }
    ensures { (m : ℕ) → IsTrue (has_node nodes.new m) → IsTrue (has_node nodes.old m) ⊎ IsHad p.now.given (groups_seen groups.now) among.now m }
{
    let there = Spots {
        host: None,
        place: Some(n),
    };
    if !is_served(p, groups, there, among) {
        return;
    }
    nodes.insert(n);
}

// before which number nodes are asked: all nodes, none where each is a group by itself
fn end_of_nodes(p: &Problem, groups: &Groups) -> usize
    ensures { result ≤ max_nodes }
{
    match groups {
        Groups::AnyNode => 0,
        Groups::AnyOf(_) => p.cluster().nodes().len().min(MAX_NODES),
    }
}

/// The nodes that some of the sets have. Where each node is a group by itself none is told, since that is asked as soon.
pub fn nodes_of(p: &Problem, groups: &Groups, among: &NodeSet) -> NodeSet
    ensures { AreNodesOf p.now.given (groups_seen groups.now) among.now result }
{
    let end = end_of_nodes(p, groups);
    let mut nodes = NodeSet::new();
    for n in 0..end {
        add_if_had(p, groups, among, NodeId(n as u32), &mut nodes);
    }
    nodes
}

// whether a machine may be on one node alone, which is one of these
fn is_at_one(spots: Spots, nodes: &NodeSet) -> bool
    ensures { IsTrue result → IsAtOne nodes.now spots }
{
    if spots.host.is_some() {
        return false;
    }
    match spots.place {
        None => false,
        Some(n) => nodes.has(n),
    }
}

/// Whether one of some groups has all nodes on which a machine may be; of one node that is told by the nodes that they have.
pub fn is_served_by(
    p: &Problem,
    groups: &Groups,
    spots: Spots,
    among: &NodeSet,
    nodes: &NodeSet,
) -> bool
    ensures { AreNodesOf p.now.given (groups_seen groups.now) among.now nodes.now → IsTrue result → (i : ℕ) × IsServed p.now.given (groups_seen groups.now) among.now spots i }
{
    if is_at_one(spots, nodes) {
        return true;
    }
    is_served(p, groups, spots, among)
}
