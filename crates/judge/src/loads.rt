//! A table of the loads of all nodes.
ghost use Rattle.std.specs.Prelude.{◌≡◌, ℕ, ◌+◌, ◌*◌, ◌<◌, ◌≤◌, length, slice_index, slice_index_or};
ghost use Rattle.judge.specs.Prelude.{Amount, amount_in, cell, IsElement, IsHeldWithin, max_amount, max_nodes, one, weight_of};

use catalogue::Problem;
use cluster::limits::{MAX_NODES, MAX_RESOURCES};
use cluster::{Element, VmId};
use slices::holding::{Held, Holding, amount};
use slices::slice::What;

/// The amounts of each resource, node by node, in the units of the resources.
pub type Loads = [[u64; MAX_RESOURCES]; MAX_NODES];

/// A table of zeros.
pub(crate) fn no_loads() -> Loads
    ensures { (n r : ℕ) → cell result n r ≡ 0 }
{
    [[0; MAX_RESOURCES]; MAX_NODES]
}

/// Adds what a machine takes to the row of its node.
fn add_row(row: &mut [u64; MAX_RESOURCES], p: &Problem, v: VmId, what: What)
    requires machine { IsElement p.now.given (Element.Vm v) }
    requires room { (r : ℕ) → slice_index row.old r ≤ 10_000_000_000_000 }
    ensures sums { (r : ℕ) → r < length p.now.given.resources → slice_index row.new r ≡ slice_index row.old r + weight_of p.now.given v.0 (Amount r) what }
    ensures small { (r : ℕ) → slice_index row.new r ≤ slice_index row.old r + max_amount }
{
    for r in 0..p.cluster().resources().len() {
        row[r] += amount(p, v, what, r as u8);
    }
}

/// Adds what a machine takes where it is held.
fn add(table: &mut Loads, p: &Problem, v: VmId, held: Option<Held>)
    requires machine { IsElement p.now.given (Element.Vm v) }
    requires within { IsHeldWithin max_nodes held }
    requires room { (n r : ℕ) → cell table.old n r ≤ 10_000_000_000_000 }
    ensures sums { (n r : ℕ) → r < length p.now.given.resources → cell table.new n r ≡ cell table.old n r + amount_in p.now.given v.0 r (one n) held }
    ensures small { (n r : ℕ) → cell table.new n r ≤ cell table.old n r + max_amount }
{
    match held {
        Some(h) => add_row(&mut table[h.node.0 as usize], p, v, h.what),
        None => {}
    }
}

/// Adds all that a machine takes.
pub(crate) fn add_both(table: &mut Loads, p: &Problem, v: VmId, now: Holding)
    requires machine { IsElement p.now.given (Element.Vm v) }
    requires source { IsHeldWithin max_nodes now.source }
    requires target { IsHeldWithin max_nodes now.target }
    requires room { (n r : ℕ) → cell table.old n r ≤ 9_000_000_000_000 }
    ensures sums { (n r : ℕ) → r < length p.now.given.resources → cell table.new n r ≡
        cell table.old n r + (amount_in p.now.given v.0 r (one n) now.source + amount_in p.now.given v.0 r (one n) now.target) }
    ensures small { (n r : ℕ) → cell table.new n r ≤ cell table.old n r + 2 * max_amount }
{
    add(table, p, v, now.source);
    add(table, p, v, now.target);
}
