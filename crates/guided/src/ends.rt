//! Least ends of a region.

use crate::elements::{Mover, Server, mover_at, server_at};
use crate::numbers::{NEVER, at};
use crate::rows::{first_end, machine_domain, node_domain};
use crate::tables::Tables;
use domains::{Domain, Region};

/// The least end of the rows of a machine, where a bound is known that none is below.
pub fn least_move(mover: &Mover, domain: &Domain, known: u64) -> u64 {
    let bound = known.max(mover.least_lasting());
    let mut least = NEVER;
    for row in domain.rows() {
        least = least.min(first_end(*mover, *row));
        if least <= bound {
            break;
        }
    }
    least
}

/// The same of a machine of a region, where such bounds are known of all; never where it has no rows.
pub fn least_of(tables: &Tables, g: &Region, known: &[u64], v: usize) -> u64 {
    match (machine_domain(g, v), tables.machines.get(v)) {
        (Some(domain), Some(mover)) => least_move(mover, domain, at(known, v)),
        (None, _) | (_, None) => NEVER,
    }
}

/// The least end of the row of a node.
pub fn least_change(server: Server, domain: &Domain) -> u64 {
    match domain.rows().first() {
        Some(row) => u64::from(row.lo).saturating_add(server.lasts),
        None => NEVER,
    }
}

/// The sum of the least ends of a region.
pub fn least_sum(tables: &Tables, g: &Region) -> u64 {
    let mut sum: u64 = 0;
    for v in 0..tables.machines.len() {
        if let Some(domain) = machine_domain(g, v) {
            if !domain.idle() {
                sum = sum.saturating_add(least_move(&mover_at(&tables.machines, v), domain, 0));
            }
        }
    }
    for n in 0..tables.nodes.len() {
        if let Some(domain) = node_domain(g, n) {
            if !domain.idle() {
                sum = sum.saturating_add(least_change(server_at(&tables.nodes, n), domain));
            }
        }
    }
    sum
}
