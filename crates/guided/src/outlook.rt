//! A region at the horizon, if all stays that may stay.

use crate::draft::{at_node, is_host, node_at};
use crate::elements::{Mover, mover_at};
use crate::ends::{least_change, least_move};
use crate::numbers::{NEVER, add, at, cell, take};
use crate::root::Root;
use crate::rows::{find_row, machine_domain, node_domain};
use crate::tables::Tables;
use base::Memory;
use cluster::Place;
use domains::{Domain, Region};
use std::alloc::Global;

/// What is left to an element.
#[derive(Clone, Copy)]
pub struct Left {
    pub may_stay: bool,
    /// In how many rows it may act.
    pub rows: usize,
    /// The least end of these; never where there is none, and of a machine that may stay, of which few are asked.
    pub least: u64,
    /// Whether it has one choice only.
    pub is_one: bool,
}

impl Left {
    /// Whether it may stay, and may act.
    pub fn is_torn(&self) -> bool {
        self.may_stay && self.rows > 0
    }

    /// In how many ways it may go on, each place counting as one.
    pub fn ways(&self) -> usize {
        self.rows.saturating_add(usize::from(self.may_stay))
    }
}

/// For what a machine counts.
#[derive(Clone, Copy, PartialEq, Eq)]
enum Stand {
    Nothing,
    /// It is on a node, with what it uses.
    Stays(usize),
    /// It is on a node, with what it demands.
    Lands(usize),
    /// It may still be raised on a node, to what it demands.
    Rises(usize),
}

/// A region at the horizon, if all stays that may stay, machines that have one place are there, and no others count.
///
/// It is of the tables that it was made for. A look takes away and adds only what has changed since the look before; what it
/// gives is the same as if all were counted anew, since no sum comes near the end of its type.
#[derive(Drop)]
pub struct Outlook {
    pub machines: Vec<Left>,
    pub nodes: Vec<Left>,
    /// The machines that must act and have several places left, in their order.
    pub open: Vec<usize>,
    /// The sum of the least ends.
    pub sum: u64,
    /// What is used on each node of each resource, and how many machines are there.
    pub load: Vec<u64>,
    /// The same, where machines count that may still be raised on their host.
    pub held: Vec<u64>,
    // for what each machine counts in these
    stands: Vec<Stand>,
}

const NOTHING: Left = Left {
    may_stay: false,
    rows: 0,
    least: NEVER,
    is_one: true,
};

impl Left {
    // what it adds to the sum of the least ends
    fn end(self) -> u64 {
        if self.may_stay || self.least == NEVER {
            0
        } else {
            self.least
        }
    }
}

impl Outlook {
    /// One of nothing.
    pub fn new(alloc: Global) -> Outlook {
        Outlook {
            machines: Vec::new(alloc),
            nodes: Vec::new(alloc),
            open: Vec::new(alloc),
            sum: 0,
            load: Vec::new(alloc),
            held: Vec::new(alloc),
            stands: Vec::new(alloc),
        }
    }

    /// One for tables, in which nothing counts yet.
    pub fn of(alloc: Global, tables: &Tables) -> Result<Outlook, Memory> {
        let places = cell(tables.nodes.len(), tables.width.saturating_add(1), 0);
        let mut outlook = Outlook::new(alloc);
        outlook.machines.resize(tables.machines.len(), NOTHING)?;
        outlook.nodes.resize(tables.nodes.len(), NOTHING)?;
        outlook.load.resize(places, 0)?;
        outlook.held.resize(places, 0)?;
        outlook
            .stands
            .resize(tables.machines.len(), Stand::Nothing)?;
        Ok(outlook)
    }

    /// What is left to a machine.
    pub fn machine(&self, v: usize) -> Left {
        self.machines.get(v).copied().unwrap_or(NOTHING)
    }

    /// What is left to a node.
    pub fn node(&self, n: usize) -> Left {
        self.nodes.get(n).copied().unwrap_or(NOTHING)
    }

    /// Becomes that of a region. Where memory is refused the next look goes on with what this one has not come to.
    pub fn look(&mut self, tables: &Tables, root: &Root, g: &Region) -> Result<(), Memory> {
        self.open.clear();
        for (v, mover) in tables.machines.iter().enumerate() {
            match machine_domain(g, v) {
                Some(domain) => self.look_at(tables, at(&root.moves, v), v, mover, domain)?,
                None => self.turn(tables, v, NOTHING, Stand::Nothing),
            }
        }
        for (n, server) in tables.nodes.iter().enumerate() {
            let left = match node_domain(g, n) {
                Some(domain) => left_of(domain, least_change(*server, domain)),
                None => NOTHING,
            };
            if let Some(place) = self.nodes.get_mut(n) {
                let before = *place;
                *place = left;
                self.count_end(before, left);
            }
        }
        Ok(())
    }

    // a machine that may stay, as before, counts for the same
    fn look_at(
        &mut self,
        tables: &Tables,
        known: u64,
        v: usize,
        mover: &Mover,
        domain: &Domain,
    ) -> Result<(), Memory> {
        if domain.idle() {
            match self.machines.get_mut(v) {
                Some(place) if place.may_stay => {
                    let rows = domain.rows().len();
                    place.rows = rows;
                    place.is_one = rows == 0;
                }
                Some(_) | None => self.turn(tables, v, left_of(domain, NEVER), staying(mover)),
            }
        } else {
            let left = left_of(domain, least_move(mover, domain, known));
            self.turn(tables, v, left, acting(mover, domain));
            if left.rows > 1 {
                self.open.push(v)?;
            }
        }
        Ok(())
    }

    // so much is left to a machine now, and it counts for that
    fn turn(&mut self, tables: &Tables, v: usize, left: Left, stand: Stand) {
        let Some(place) = self.machines.get_mut(v) else {
            return;
        };
        let before = *place;
        *place = left;
        self.count_end(before, left);
        let Some(place) = self.stands.get_mut(v) else {
            return;
        };
        let stood = *place;
        if stood != stand {
            *place = stand;
            self.count(tables, v, stood, false);
            self.count(tables, v, stand, true);
        }
    }

    fn count_end(&mut self, before: Left, left: Left) {
        if before.end() != left.end() {
            self.sum = self
                .sum
                .saturating_sub(before.end())
                .saturating_add(left.end());
        }
    }

    // a machine begins to count for something, or no longer does
    fn count(&mut self, tables: &Tables, v: usize, stand: Stand, begins: bool) {
        match stand {
            Stand::Nothing => {}
            Stand::Stays(n) => self.count_on(n, tables.usages(v), begins),
            Stand::Lands(n) => self.count_on(n, tables.demands(v), begins),
            Stand::Rises(n) => {
                let mut column = cell(n, tables.width.saturating_add(1), 0);
                for amount in tables.demands(v) {
                    change(&mut self.held, column, *amount, begins);
                    column = column.saturating_add(1);
                }
            }
        }
    }

    // a machine is on a node at the horizon, and has so much there
    fn count_on(&mut self, n: usize, amounts: &[u64], begins: bool) {
        let mut column = cell(n, amounts.len().saturating_add(1), 0);
        for amount in amounts {
            change(&mut self.load, column, *amount, begins);
            change(&mut self.held, column, *amount, begins);
            column = column.saturating_add(1);
        }
        change(&mut self.load, column, 1, begins);
    }

    /// How much a machine lacks at a place, and how much would be left there, in parts of a thousand of each resource.
    pub fn room(&self, tables: &Tables, v: usize, place: Place, counts: bool) -> (u64, u64) {
        let Some(n) = node_at(place) else {
            return (0, 0);
        };
        let columns = tables.width.saturating_add(1);
        let own = counts && is_host(mover_at(&tables.machines, v), place);
        let mut lack: u64 = 0;
        let mut left: u64 = 0;
        for r in 0..tables.width {
            let demand = tables.demand(v, r);
            let capacity = tables.capacity(n, r);
            let mut held = at(&self.held, cell(n, columns, r));
            if own {
                held = held.saturating_sub(demand);
            }
            let full = held.saturating_add(demand);
            lack = lack.saturating_add(share(full.saturating_sub(capacity), capacity));
            left = left.saturating_add(share(capacity.saturating_sub(full), capacity));
        }
        if lack > 0 { (lack, 0) } else { (0, left) }
    }
}

// adds to the number at a place, or takes from it
fn change(list: &mut Vec<u64>, i: usize, number: u64, begins: bool) {
    if begins {
        add(list, i, number);
    } else {
        take(list, i, number);
    }
}

// for what a machine counts that may stay
fn staying(mover: &Mover) -> Stand {
    match mover.host {
        Some(host) if mover.runs => Stand::Stays(host),
        Some(_) | None => Stand::Nothing,
    }
}

// for what a machine counts that must act: where it has one place left it is there
fn acting(mover: &Mover, domain: &Domain) -> Stand {
    match domain.rows() {
        [] => Stand::Nothing,
        [row] => match node_at(row.place) {
            Some(n) if mover.lands => Stand::Lands(n),
            Some(_) | None => Stand::Nothing,
        },
        rows => match mover.host {
            Some(host) if mover.rises && find_row(rows, at_node(host)).is_some() => {
                Stand::Rises(host)
            }
            Some(_) | None => Stand::Nothing,
        },
    }
}

fn share(amount: u64, capacity: u64) -> u64 {
    amount.saturating_mul(1000) / capacity.max(1)
}

fn left_of(domain: &Domain, least: u64) -> Left {
    Left {
        may_stay: domain.idle(),
        rows: domain.rows().len(),
        least,
        is_one: domain.is_one(),
    }
}
