//! The tables of what is wanted of each machine and each node.
ghost use Rattle.std.specs.Prelude.{◌≡◌, ℕ, ◌<◌, ◌≤◌, length, true, OnOk, OnErr};
ghost use Rattle.catalogue.specs.Prelude.{are_below, has_node, HasRows, is_member, max_nodes, wish_cell, wish_where, wish_with};

use crate::targets::{Target, Wish};
use base::Memory;
use cluster::{NodeId, NodeSet, VmId};

/// Notes that machines are wanted in a state.
pub fn note_machines(
    table: &mut Vec<Wish>,
    count: usize,
    machines: &[VmId],
    target: Target,
) -> Result<(), Memory>
    requires rows { HasRows count table.old.items }
    requires machines { are_below count machines.now ≡ true }
    ensures rows { HasRows count table.new.items }
    ensures noted { OnOk result ((v : ℕ) → v < count →
        wish_cell table.new.items v ≡ wish_where (is_member machines.now v) (wish_cell table.old.items v) target) }
    ensures kept { OnErr result (table.new.items ≡ table.old.items) }
{
    fill(table, count)?;
    wish_machines(table, machines, target);
    Ok(())
}

/// Notes that nodes are wanted in a state.
pub fn note_nodes(
    table: &mut Vec<Wish>,
    count: usize,
    nodes: &NodeSet,
    target: Target,
) -> Result<(), Memory>
    requires rows { HasRows count table.old.items }
    requires few { count ≤ max_nodes }
    ensures rows { HasRows count table.new.items }
    ensures noted { OnOk result ((n : ℕ) → n < count →
        wish_cell table.new.items n ≡ wish_where (has_node nodes.now n) (wish_cell table.old.items n) target) }
    ensures kept { OnErr result (table.new.items ≡ table.old.items) }
{
    fill(table, count)?;
    wish_nodes(table, nodes, target);
    Ok(())
}

/// Gives the table a wish for each element, where it has none yet.
fn fill(table: &mut Vec<Wish>, count: usize) -> Result<(), Memory>
    requires { HasRows count table.old.items }
    ensures full { OnOk result (length table.new.items ≡ count) }
    ensures same { (v : ℕ) → wish_cell table.new.items v ≡ wish_cell table.old.items v }
    ensures kept { OnErr result (table.new.items ≡ table.old.items) }
{
    if table.is_empty() {
        table.resize(count, Wish::Keep)?;
    }
    Ok(())
}

/// Adds a target to the wishes for machines.
fn wish_machines(table: &mut [Wish], machines: &[VmId], target: Target)
    requires { are_below (length table.old) machines.now ≡ true }
    ensures { (v : ℕ) → v < length table.old →
        wish_cell table.new v ≡ wish_where (is_member machines.now v) (wish_cell table.old v) target }
{
    for id in machines {
        let place = id.0 as usize;
        table[place] = with_target(table[place], target);
    }
}

/// Adds a target to the wishes for the nodes of a set.
fn wish_nodes(table: &mut [Wish], nodes: &NodeSet, target: Target)
    requires { length table.old ≤ max_nodes }
    ensures { (n : ℕ) → n < length table.old →
        wish_cell table.new n ≡ wish_where (has_node nodes.now n) (wish_cell table.old n) target }
{
    for i in 0..table.len() {
        if nodes.has(NodeId(i as u32)) {
            table[i] = with_target(table[i], target);
        }
    }
}

/// A wish with one more target.
fn with_target(wish: Wish, target: Target) -> Wish
    ensures { result ≡ wish_with wish target }
{
    match wish {
        Wish::Keep => Wish::To(target),
        Wish::To(other) => {
            if other as u8 == target as u8 {
                wish
            } else {
                Wish::Clash
            }
        }
        Wish::Clash => Wish::Clash,
    }
}

/// The noted wish, `Keep` where there is none.
pub fn wish_at(table: &[Wish], place: u32) -> Wish
    ensures { result ≡ wish_cell table.now place }
{
    match table.get(place as usize) {
        Some(wish) => *wish,
        None => Wish::Keep,
    }
}
