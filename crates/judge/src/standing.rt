//! Whether all loads fit and all machines stand on usable nodes, at one instant.
ghost use Rattle.std.specs.Prelude.{◌≡◌, ◌↔◌, ◌<◌, ℕ, false, slice_index_or, nat_lt, IsTrue, MatchOption, length};
ghost use Rattle.judge.specs.Prelude.{AreUsable, AreUsableNodes, cell, choices_of, image_in, is_in, is_where, IsFirstIn, IsFirstOver, IsHeldWithin, IsNodeWithin, IsPlanOf, load, loads_of, LoadsFit, machine_count, max_nodes, node_count, NodeFits, one, snapshot_at, Stands};

use crate::loads::{Loads, add_both, no_loads};
use catalogue::Problem;
use cluster::limits::MAX_NODES;
use cluster::{Instant, NodeId, VmId};
use slices::Plan;
use slices::holding::{Held, Holding};
use slices::snapshot::{holding_at, usable};

/// How many machines there are.
pub(crate) fn machines_of(p: &Problem) -> usize
    ensures { result ≡ machine_count p.now.given }
{
    p.cluster().machines().len()
}

/// How many nodes there are.
pub(crate) fn nodes_of(p: &Problem) -> usize
    ensures { result ≡ node_count p.now.given }
{
    p.cluster().nodes().len()
}

/// A table of nodes of which none is marked.
fn no_nodes() -> [bool; MAX_NODES]
    ensures { (n : ℕ) → slice_index_or result n false ≡ false }
{
    [false; MAX_NODES]
}

/// Which nodes are usable.
pub(crate) fn usable_nodes(p: &Problem, plan: &Plan, t: Instant) -> [bool; MAX_NODES]
    requires plan { IsPlanOf p.now.given plan.now }
    ensures { AreUsableNodes p.now.given (snapshot_at p.now.given (choices_of plan.now) t) result }
{
    let mut table = no_nodes();
    for n in 0..nodes_of(p) {
        table[n] = usable(p, plan, NodeId(n as u32), t);
    }
    table
}

/// Whether the node where a machine is held, if there is one, is usable.
fn is_held_usably(nodes: &[bool; MAX_NODES], held: Option<Held>) -> bool
    requires { IsHeldWithin max_nodes held }
    ensures { IsTrue result ↔ ((n : ℕ) → IsTrue (is_in (one n) held) → IsTrue (slice_index_or nodes.now n false)) }
{
    match held {
        Some(h) => nodes[h.node.0 as usize],
        None => true,
    }
}

/// Whether the node of an image, if there is one, is usable.
fn is_kept_usably(nodes: &[bool; MAX_NODES], image: Option<NodeId>) -> bool
    requires { IsNodeWithin max_nodes image }
    ensures { IsTrue result ↔ ((n : ℕ) → IsTrue (nat_lt 0 (image_in (one n) image)) → IsTrue (slice_index_or nodes.now n false)) }
{
    match image {
        Some(n) => nodes[n.0 as usize],
        None => true,
    }
}

/// Whether a machine that holds this stands on usable nodes alone.
fn stands_usably(nodes: &[bool; MAX_NODES], now: Holding) -> bool
    requires source { IsHeldWithin max_nodes now.source }
    requires target { IsHeldWithin max_nodes now.target }
    requires image { IsNodeWithin max_nodes now.image }
    ensures { IsTrue result ↔ ((n : ℕ) → IsTrue (is_where now n) → IsTrue (slice_index_or nodes.now n false)) }
{
    is_held_usably(nodes, now.source)
        && is_held_usably(nodes, now.target)
        && is_kept_usably(nodes, now.image)
}

/// Adds up what all machines take. True where all of them stand on usable nodes alone.
pub(crate) fn sweep(table: &mut Loads, p: &Problem, plan: &Plan, t: Instant) -> bool
    requires plan { IsPlanOf p.now.given plan.now }
    requires empty { (n r : ℕ) → cell table.old n r ≡ 0 }
    ensures loads { (n r : ℕ) → r < length p.now.given.resources → cell table.new n r ≡ loads_of p.now.given (snapshot_at p.now.given (choices_of plan.now) t) n r }
    ensures usables { IsTrue result ↔ AreUsable p.now.given (snapshot_at p.now.given (choices_of plan.now) t) (machine_count p.now.given) }
{
    let nodes = usable_nodes(p, plan, t);
    let mut all = true;
    for i in 0..machines_of(p) {
        let v = VmId(i as u32);
        let now = holding_at(p, plan, v, t);
        add_both(table, p, v, now);
        let here = stands_usably(&nodes, now);
        all = all & here;
    }
    all
}

/// The loads of all nodes at an instant, by one pass over the machines: what is compared with the
/// capacities. Rows past the nodes and amounts past the resources say nothing.
pub fn loads_at(p: &Problem, plan: &Plan, t: Instant) -> Loads
    requires { IsPlanOf p.now.given plan.now }
    ensures { (n r : ℕ) → r < length p.now.given.resources → cell result n r ≡ load p.now.given (snapshot_at p.now.given (choices_of plan.now) t) r (one n) }
{
    let mut table = no_loads();
    let _ = sweep(&mut table, p, plan, t);
    table
}

/// The first resource whose load on a node exceeds the capacity.
fn first_in(p: &Problem, table: &Loads, n: NodeId) -> Option<u8>
    requires { n.0 < node_count p.now.given }
    ensures { MatchOption result (NodeFits p.now.given (cell table.now) n.0) (IsFirstIn p.now.given (cell table.now) n.0) }
{
    for i in 0..p.cluster().resources().len() {
        let r = i as u8;
        if table[n.0 as usize][i] > p.capacity(n, r) {
            return Some(r);
        }
    }
    None
}

/// The first node, and the first resource there, whose load exceeds the capacity.
pub(crate) fn first_over(p: &Problem, table: &Loads) -> Option<(NodeId, u8)>
    ensures { MatchOption result (LoadsFit p.now.given (cell table.now) (node_count p.now.given)) (λ x. IsFirstOver p.now.given (cell table.now) x.0.0 x.1) }
{
    for i in 0..nodes_of(p) {
        let n = NodeId(i as u32);
        if let Some(r) = first_in(p, table, n) {
            return Some((n, r));
        }
    }
    None
}

/// Whether all loads fit and all machines stand on usable nodes.
pub(crate) fn stands(p: &Problem, plan: &Plan, t: Instant) -> bool
    requires plan { IsPlanOf p.now.given plan.now }
    ensures { IsTrue result ↔ Stands p.now.given (snapshot_at p.now.given (choices_of plan.now) t) }
{
    let mut table = no_loads();
    sweep(&mut table, p, plan, t) && first_over(p, &table).is_none()
}
