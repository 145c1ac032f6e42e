//! The table of the limits that overbooking sets, one for each node and resource.
ghost use Rattle.std.specs.Prelude.{◌≡◌, ℕ, ◌<◌, ◌≤◌, ◌&&◌, ◌==◌, ◌*◌, ◌/◌, length, None, Some, slice_index_or, if◌then◌else◌, OnOk, OnErr};
ghost use Rattle.catalogue.specs.Prelude.{has_node, HasRows, lesser_of, limit_cell, limit_with, max_amount, max_resources, max_scale, written_of};
ghost use Rattle.catalogue.specs.declared.constraint.Constraint.TheVariants.{Overbook};

use base::Memory;
use cluster::limits::MAX_RESOURCES;
use cluster::{Cluster, NodeId, NodeSet};

/// Notes that nodes may be used up to `num / den` of their written capacity, rounded down: the
/// lesser of this and the noted limit stays.
pub fn note_overbook(
    cluster: &Cluster,
    table: &mut Vec<[Option<u64>; MAX_RESOURCES]>,
    nodes: &NodeSet,
    r: u8,
    num: u64,
    den: u64,
) -> Result<(), Memory>
    requires rows { HasRows (length cluster.now.given.nodes) table.old.items }
    requires resource { r < max_resources }
    requires num { num ≤ max_scale }
    requires den { 0 < den }
    ensures rows { HasRows (length cluster.now.given.nodes) table.new.items }
    ensures noted { OnOk result ((n q : ℕ) → n < length cluster.now.given.nodes → q < max_resources →
        limit_cell table.new.items n q ≡ limit_with n q (written_of cluster.now.given.nodes n q) (limit_cell table.old.items n q) (Overbook nodes.now r num den)) }
    ensures kept { OnErr result (table.new.items ≡ table.old.items) }
{
    fill(table, cluster.nodes().len())?;
    lower(cluster, table, nodes, r, num, den);
    Ok(())
}

/// Gives the table a row for each node, where it has none yet.
fn fill(table: &mut Vec<[Option<u64>; MAX_RESOURCES]>, count: usize) -> Result<(), Memory>
    requires { HasRows count table.old.items }
    ensures full { OnOk result (length table.new.items ≡ count) }
    ensures same { (n r : ℕ) → limit_cell table.new.items n r ≡ limit_cell table.old.items n r }
    ensures kept { OnErr result (table.new.items ≡ table.old.items) }
{
    if table.is_empty() {
        table.resize(count, [None; MAX_RESOURCES])?;
    }
    Ok(())
}

/// Lowers the limits of the nodes of a set.
fn lower(
    cluster: &Cluster,
    table: &mut Vec<[Option<u64>; MAX_RESOURCES]>,
    nodes: &NodeSet,
    r: u8,
    num: u64,
    den: u64,
)
    requires rows { length table.old.items ≡ length cluster.now.given.nodes }
    requires resource { r < max_resources }
    requires num { num ≤ max_scale }
    requires den { 0 < den }
    ensures rows { length table.new.items ≡ length table.old.items }
    ensures cells { (n q : ℕ) → n < length cluster.now.given.nodes → q < max_resources →
        limit_cell table.new.items n q ≡ limit_with n q (written_of cluster.now.given.nodes n q) (limit_cell table.old.items n q) (Overbook nodes.now r num den) }
{
    for i in 0..cluster.nodes().len() {
        let n = NodeId(i as u32);
        if nodes.has(n) {
            lower_one(&mut table[i], r, written(cluster, n, r) * num / den);
        }
    }
}

/// Lowers one limit of a row.
fn lower_one(row: &mut [Option<u64>; MAX_RESOURCES], r: u8, amount: u64)
    requires { r < max_resources }
    ensures { (q : ℕ) → q < max_resources → slice_index_or row.new q None ≡ (if r == q then Some (lesser_of (slice_index_or row.old q None) amount) else slice_index_or row.old q None) }
{
    row[r as usize] = match row[r as usize] {
        Some(limit) => Some(if limit < amount { limit } else { amount }),
        None => Some(amount),
    };
}

/// The written capacity of a node for a resource.
#[tactic(auto, using(crate::proofs::Bounds::written_of_le))]
pub fn written(cluster: &Cluster, n: NodeId, r: u8) -> u64
    requires node { n.0 < length cluster.now.given.nodes }
    requires resource { r < max_resources }
    ensures written { result ≡ written_of cluster.now.given.nodes n.0 r }
    ensures small { result ≤ max_amount }
{
    cluster.nodes()[n.0 as usize].capacity[r as usize]
}

/// The noted limit, none where there is no row.
pub fn limit_at(table: &[[Option<u64>; MAX_RESOURCES]], n: NodeId, r: u8) -> Option<u64>
    requires { r < max_resources }
    ensures { result ≡ limit_cell table.now n.0 r }
{
    match table.get(n.0 as usize) {
        Some(row) => row[r as usize],
        None => None,
    }
}
