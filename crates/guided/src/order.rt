//! The order of a proof: what breaks first, and then what is left.

use crate::breaks::Breaks;
use crate::elements::mover_at;
use crate::ends::least_of;
use crate::numbers::{NEVER, is_up, node, real};
use crate::outlook::{Left, Outlook};
use crate::race::Race;
use crate::rows::{first_end, machine_rows, node_row};
use crate::thought::Thought;
use crate::wish::Wish;
use base::Memory;
use cluster::{Element, Place, VmId};
use domains::{Part, Region, Row};
use std::alloc::Global;

// so many fails make staying forced by the bound, while a big machine has no place
const MANY_FAILS: u64 = 2_000;

// a machine with so few places may come before those that may stay
const FEW_PLACES: usize = 16;

// the slack where no plan is known
const WIDE: u64 = 1_000;

/// One look at a region, to find where it is split.
#[derive(Drop)]
pub struct Order<'a> {
    pub alloc: Global,
    pub thought: &'a Thought,
    pub outlook: &'a Outlook,
    pub region: &'a Region,
    /// What a plan may cost no more, if that is known.
    pub bound: Option<u64>,
    pub fails: u64,
    /// Machines and nodes, by number, that are not split yet.
    pub is_put_off: &'a [bool],
}

impl<'a> Order<'a> {
    /// Where the region is split; none where nothing is found.
    pub fn wish(&self) -> Result<Option<Wish>, Memory> {
        if let Some(element) = self.breaking()? {
            return Ok(Some(Wish {
                element,
                part: Part::Idle,
            }));
        }
        if let Some(wish) = self.forced() {
            return Ok(Some(wish));
        }
        if let Some(element) = self.server() {
            return Ok(Some(Wish {
                element,
                part: Part::Idle,
            }));
        }
        if let Some(v) = self.big() {
            return Ok(self.split(v));
        }
        if !self.has_few_places() {
            if let Some(v) = self.stayer() {
                return Ok(self.split(v));
            }
        }
        if let Some(v) = self.fewest_places() {
            return Ok(self.split(v));
        }
        Ok(self.least_start())
    }

    // the element of what breaks whose split lets the bound rise soonest
    fn breaking(&self) -> Result<Option<Element>, Memory> {
        let mut race = Race::new(real(self.slack().unwrap_or(WIDE)));
        let breaks = Breaks {
            alloc: self.alloc,
            tables: &self.thought.tables,
            outlook: self.outlook,
            region: self.region,
            moves: &self.thought.root.moves,
            is_put_off: self.is_put_off,
        };
        breaks.enter_all(&mut race)?;
        Ok(race.winner)
    }

    // by how much the sum of the least ends stays below the bound
    fn slack(&self) -> Option<u64> {
        match self.bound {
            Some(bound) => Some(bound.saturating_sub(self.outlook.sum)),
            None => None,
        }
    }

    // what the bound forces: staying, after many fails, or the one place that is not too dear
    fn forced(&self) -> Option<Wish> {
        let slack = self.slack()?;
        if self.fails > MANY_FAILS && self.has_open_big() {
            return self.forced_to_stay(slack);
        }
        for v in &self.outlook.open {
            if !is_up(self.is_put_off, *v) {
                if let Some(row) = self.affordable_row(*v, slack) {
                    return whole(*v, row);
                }
            }
        }
        None
    }

    fn forced_to_stay(&self, slack: u64) -> Option<Wish> {
        for (v, left) in self.outlook.machines.iter().enumerate() {
            if left.is_one || is_up(self.is_put_off, v) {
                continue;
            }
            if left.may_stay {
                if left.rows > 0 && self.least(v) >= slack {
                    return stay(v);
                }
            } else if left.rows > 1 {
                if let Some(row) = self.affordable_row(v, slack) {
                    return whole(v, row);
                }
            }
        }
        self.forced_server(slack)
    }

    fn least(&self, v: usize) -> u64 {
        least_of(
            &self.thought.tables,
            self.region,
            &self.thought.root.moves,
            v,
        )
    }

    fn forced_server(&self, slack: u64) -> Option<Wish> {
        for (n, left) in self.outlook.nodes.iter().enumerate() {
            if left.is_torn() && left.least >= slack && !self.is_server_put_off(n) {
                return Some(Wish {
                    element: Element::Node(node(n)),
                    part: Part::Idle,
                });
            }
        }
        None
    }

    fn is_server_put_off(&self, n: usize) -> bool {
        let machines = self.thought.tables.machines.len();
        is_up(self.is_put_off, machines.saturating_add(n))
    }

    // whether a big machine that must act has several places left
    fn has_open_big(&self) -> bool {
        for big in &self.thought.root.bigs {
            let left = self.outlook.machine(big.machine);
            if !left.may_stay && left.rows > 1 {
                return true;
            }
        }
        false
    }

    // the row of a machine that is not too dear, if it is the only one
    fn affordable_row(&self, v: usize, slack: u64) -> Option<Row> {
        let mover = mover_at(&self.thought.tables.machines, v);
        let limit = self.outlook.machine(v).least.saturating_add(slack);
        let mut found = None;
        for row in machine_rows(self.region, v) {
            if first_end(mover, *row) < limit {
                if found.is_some() {
                    return None;
                }
                found = Some(*row);
            }
        }
        found
    }

    // the node that may stay and has the longest change
    fn server(&self) -> Option<Element> {
        for n in &self.thought.root.servers {
            if self.outlook.node(*n).is_torn() && !self.is_server_put_off(*n) {
                return Some(Element::Node(node(*n)));
            }
        }
        None
    }

    // the big machine with several ways left: above a half of a node first, then the least end, the fewest ways
    fn big(&self) -> Option<usize> {
        let mut best = None;
        let mut least = (true, NEVER, usize::MAX);
        for big in &self.thought.root.bigs {
            let left = self.outlook.machine(big.machine);
            if left.ways() < 2 || is_up(self.is_put_off, big.machine) {
                continue;
            }
            let end = if left.may_stay { 0 } else { left.least };
            let key = (!big.half, end, left.ways());
            if best.is_none() || is_before(key, least) {
                best = Some(big.machine);
                least = key;
            }
        }
        best
    }

    // whether a machine that must act, in no pair and no group, has few places left, of many
    fn has_few_places(&self) -> bool {
        let thought = self.thought;
        for v in &self.outlook.open {
            let rows = self.outlook.machine(*v).rows;
            if rows > FEW_PLACES {
                continue;
            }
            let places = thought.root.places.get(*v).copied().unwrap_or(0);
            if rows <= places / 2 && !is_up(&thought.tables.rules.is_bound, *v) {
                return true;
            }
        }
        false
    }

    // the machine that may stay and has the longest move
    fn stayer(&self) -> Option<usize> {
        for v in &self.thought.root.movers {
            if self.outlook.machine(*v).is_torn() && !is_up(self.is_put_off, *v) {
                return Some(*v);
            }
        }
        None
    }

    // the machine with the fewest places, but for one; of several the one that wants most
    fn fewest_places(&self) -> Option<usize> {
        let mut best = None;
        let mut fewest = usize::MAX;
        let mut most = 0;
        for v in &self.outlook.open {
            let rows = self.outlook.machine(*v).rows;
            if rows > fewest {
                continue;
            }
            let demand = self.demands(*v);
            if rows < fewest || demand > most {
                best = Some(*v);
                fewest = rows;
                most = demand;
            }
        }
        best
    }

    fn demands(&self, v: usize) -> u64 {
        let mut sum: u64 = 0;
        for r in 0..self.thought.tables.width {
            sum = sum.saturating_add(self.thought.tables.demand(v, r));
        }
        sum
    }

    // the element that is not fixed and can start first
    fn least_start(&self) -> Option<Wish> {
        let mut best = None;
        let mut least = NEVER;
        for (v, left) in self.outlook.machines.iter().enumerate() {
            let start = first_start(*left, machine_rows(self.region, v).first());
            if start < least {
                best = self.split(v);
                least = start;
            }
        }
        for n in 0..self.outlook.nodes.len() {
            let row = node_row(self.region, n);
            let start = first_start(self.outlook.node(n), row.as_ref());
            if start < least {
                best = split_server(n, self.outlook.node(n), row);
                least = start;
            }
        }
        best
    }

    // the split of a machine: staying; else the whole of its best place, or of one place the first start
    fn split(&self, v: usize) -> Option<Wish> {
        let left = self.outlook.machine(v);
        if left.may_stay {
            return stay(v);
        }
        let row = self.best_row(v, left)?;
        if left.rows > 1 {
            whole(v, row)
        } else {
            upto(v, row.place, row.lo)
        }
    }

    // of the places with the least end the one that lacks least while all stays that may; of these the fullest
    fn best_row(&self, v: usize, left: Left) -> Option<Row> {
        let tables = &self.thought.tables;
        let mover = mover_at(&tables.machines, v);
        let rows = machine_rows(self.region, v);
        let counts = mover.rises && left.rows > 1;
        let mut best = None;
        let mut least = (NEVER, NEVER);
        for row in rows {
            if first_end(mover, *row) > left.least {
                continue;
            }
            let room = self.outlook.room(tables, v, row.place, counts);
            if best.is_none() || room.0 < least.0 || room.0 == least.0 && room.1 < least.1 {
                best = Some(*row);
                least = room;
            }
        }
        best
    }
}

fn is_before(a: (bool, u64, usize), b: (bool, u64, usize)) -> bool {
    if a.0 != b.0 {
        return b.0;
    }
    a.1 < b.1 || a.1 == b.1 && a.2 < b.2
}

fn first_start(left: Left, row: Option<&Row>) -> u64 {
    if left.is_one {
        return NEVER;
    }
    match row {
        Some(row) => if left.may_stay { 0 } else { u64::from(row.lo) },
        None => NEVER,
    }
}

fn stay(v: usize) -> Option<Wish> {
    Some(Wish {
        element: Element::Vm(VmId(u32::try_from(v).unwrap_or(u32::MAX))),
        part: Part::Idle,
    })
}

fn whole(v: usize, row: Row) -> Option<Wish> {
    upto(v, row.place, row.hi)
}

fn upto(v: usize, place: Place, start: u32) -> Option<Wish> {
    Some(Wish {
        element: Element::Vm(VmId(u32::try_from(v).unwrap_or(u32::MAX))),
        part: Part::Upto(place, start),
    })
}

fn split_server(n: usize, left: Left, row: Option<Row>) -> Option<Wish> {
    let element = Element::Node(node(n));
    if left.may_stay {
        return Some(Wish {
            element,
            part: Part::Idle,
        });
    }
    let row = row?;
    Some(Wish {
        element,
        part: Part::Upto(row.place, row.lo),
    })
}
