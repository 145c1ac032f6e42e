//! What a region leaves of an element, by numbers; of one that it does not have nothing.

use crate::draft::{is_host, lasts, node_at};
use crate::elements::Mover;
use crate::numbers::NEVER;
use cluster::{Element, NodeId, Place, VmId};
use domains::{Domain, Region, Row};

/// The domain of a machine, if the region has it.
pub fn machine_domain(g: &Region, v: usize) -> Option<&Domain> {
    match u32::try_from(v) {
        Ok(id) => {
            if v < g.machine_count() {
                Some(g.domain(Element::Vm(VmId(id))))
            } else {
                None
            }
        }
        Err(_) => None,
    }
}

/// The domain of a node, if the region has it.
pub fn node_domain(g: &Region, n: usize) -> Option<&Domain> {
    match u32::try_from(n) {
        Ok(id) => {
            if n < g.node_count() {
                Some(g.domain(Element::Node(NodeId(id))))
            } else {
                None
            }
        }
        Err(_) => None,
    }
}

/// The rows of a domain, none where there is no domain.
pub fn rows_of(domain: Option<&Domain>) -> &[Row] {
    match domain {
        Some(domain) => domain.rows(),
        None => &[],
    }
}

/// The rows of a machine.
pub fn machine_rows(g: &Region, v: usize) -> &[Row] {
    rows_of(machine_domain(g, v))
}

/// Whether a machine may stay.
pub fn machine_idle(g: &Region, v: usize) -> bool {
    match machine_domain(g, v) {
        Some(domain) => domain.idle(),
        None => false,
    }
}

/// Whether a node may stay.
pub fn node_idle(g: &Region, n: usize) -> bool {
    match node_domain(g, n) {
        Some(domain) => domain.idle(),
        None => false,
    }
}

/// The row of a node, if it may change.
pub fn node_row(g: &Region, n: usize) -> Option<Row> {
    rows_of(node_domain(g, n)).first().copied()
}

/// The row of a machine at a place, if there is one.
pub fn row_at(g: &Region, v: usize, place: Place) -> Option<Row> {
    find_row(machine_rows(g, v), place)
}

/// The row at a place, of rows that climb by place.
pub fn find_row(rows: &[Row], place: Place) -> Option<Row> {
    let key = rank(place);
    let mut from = 0;
    let mut to = rows.len();
    for _ in 0..rows.len() {
        let middle = from / 2 + to / 2;
        match rows.get(middle) {
            None => break,
            Some(row) => {
                let here = rank(row.place);
                if here == key {
                    return Some(*row);
                }
                if here < key {
                    from = middle.saturating_add(1);
                } else {
                    to = middle;
                }
            }
        }
        if from >= to {
            break;
        }
    }
    None
}

// a place's number in the order of places
fn rank(place: Place) -> u64 {
    match place {
        Place::Nowhere => 0,
        Place::At(n) => u64::from(n.0) + 1,
    }
}

/// The end of a machine's action that starts as early as a row lets it.
pub fn first_end(mover: Mover, row: Row) -> u64 {
    u64::from(row.lo).saturating_add(lasts(mover, row.place))
}

/// When a machine can have left its host at the earliest.
pub fn first_leaving(g: &Region, mover: Mover, v: usize) -> u64 {
    let bound = mover.least_lasting();
    let mut first = NEVER;
    for row in machine_rows(g, v) {
        let rises = mover.rises && is_host(mover, row.place);
        if !rises {
            first = first.min(first_end(mover, *row));
        }
        if first <= bound {
            break;
        }
    }
    first
}
