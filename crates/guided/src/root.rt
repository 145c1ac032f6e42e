//! What the order of a proof takes from the root: where each element began, and in which order some are looked at.

use crate::elements::{mover_at, server_at};
use crate::ends::least_move;
use crate::numbers::{at, cell};
use crate::rows::{machine_domain, machine_rows};
use crate::tables::Tables;
use base::Memory;
use domains::Region;
use std::alloc::Global;

/// A machine that wants more than a third of the greatest node, in some resource.
#[derive(Clone, Copy)]
pub struct Big {
    pub machine: usize,
    /// Whether it wants more than a half.
    pub half: bool,
}

/// What the order of a proof takes from the root.
#[derive(Drop)]
pub struct Root {
    /// The least end of the rows of each machine.
    pub moves: Vec<u64>,
    /// How many places each machine had.
    pub places: Vec<usize>,
    pub bigs: Vec<Big>,
    /// Machines, the longest move first; and nodes, the longest change first.
    pub movers: Vec<usize>,
    pub servers: Vec<usize>,
}

impl Root {
    /// Nothing.
    pub fn new(alloc: Global) -> Root {
        Root {
            moves: Vec::new(alloc),
            places: Vec::new(alloc),
            bigs: Vec::new(alloc),
            movers: Vec::new(alloc),
            servers: Vec::new(alloc),
        }
    }

    /// What is taken from a root.
    pub fn of(alloc: Global, tables: &Tables, g: &Region) -> Result<Root, Memory> {
        let mut moves = Vec::new(alloc);
        let mut places = Vec::new(alloc);
        for v in 0..tables.machines.len() {
            let mover = mover_at(&tables.machines, v);
            moves.push(match machine_domain(g, v) {
                Some(domain) => least_move(&mover, domain, 0),
                None => 0,
            })?;
            places.push(machine_rows(g, v).len())?;
        }
        Ok(Root {
            moves,
            places,
            bigs: bigs_of(alloc, tables)?,
            movers: longest_moves(alloc, tables)?,
            servers: longest_changes(alloc, tables)?,
        })
    }
}

fn bigs_of(alloc: Global, tables: &Tables) -> Result<Vec<Big>, Memory> {
    let mut tops = vec![in alloc; 0; tables.width]?;
    for n in 0..tables.nodes.len() {
        for r in 0..tables.width {
            let greatest = at(&tables.capacities, cell(n, tables.width, r)).max(at(&tops, r));
            crate::numbers::put(&mut tops, r, greatest);
        }
    }
    let mut bigs = Vec::new(alloc);
    for machine in 0..tables.machines.len() {
        if mover_at(&tables.machines, machine).lands && exceeds(tables, machine, &tops, 3) {
            let half = exceeds(tables, machine, &tops, 2);
            bigs.push(Big { machine, half })?;
        }
    }
    Ok(bigs)
}

// whether so many times the demand is more than the greatest node has, in some resource
fn exceeds(tables: &Tables, v: usize, tops: &[u64], times: u64) -> bool {
    for r in 0..tables.width {
        if tables.demand(v, r).saturating_mul(times) > at(tops, r) {
            return true;
        }
    }
    false
}

fn longest_moves(alloc: Global, tables: &Tables) -> Result<Vec<usize>, Memory> {
    let mut keys: Vec<(u64, usize)> = Vec::new(alloc);
    for v in 0..tables.machines.len() {
        let mover = mover_at(&tables.machines, v);
        if mover.lands {
            keys.push((u64::MAX - mover.lasts, v))?;
        }
    }
    in_order(alloc, keys)
}

fn longest_changes(alloc: Global, tables: &Tables) -> Result<Vec<usize>, Memory> {
    let mut keys: Vec<(u64, usize)> = Vec::new(alloc);
    for n in 0..tables.nodes.len() {
        keys.push((u64::MAX - server_at(&tables.nodes, n).lasts, n))?;
    }
    in_order(alloc, keys)
}

/// The numbers by rising keys.
pub fn in_order(alloc: Global, keys: Vec<(u64, usize)>) -> Result<Vec<usize>, Memory> {
    let mut keys = keys;
    keys.sort_unstable();
    let mut order = Vec::new(alloc);
    for (_, number) in &keys {
        order.push(*number)?;
    }
    Ok(order)
}
