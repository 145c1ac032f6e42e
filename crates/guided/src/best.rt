//! The cheapest choice of one machine beside all that have one.

use crate::draft::{Draft, node_at};
use crate::elements::Mover;
use crate::numbers::{NEVER, at, cell, insert, is_up, list_at, node};
use crate::rows::{first_end, machine_rows};
use crate::rules::{Group, Spots};
use base::Memory;
use cluster::limits::MAX_NODES;
use cluster::{Choice, NodeSet, Place};
use domains::Row;

// at so many places of equal ends the fullest is taken, where there are more than twice as many places
const ENOUGH: usize = 12;

/// A choice that fits, and what it costs.
#[derive(Clone, Copy)]
pub struct Offer {
    pub cost: u64,
    /// What would be left on the node at the end, in parts of a thousand.
    pub left: u64,
    pub choice: Choice,
}

/// When a machine has to leave, and what its leaving delays.
#[derive(Clone, Copy)]
struct Leaving {
    limit: u64,
    /// When all others have left a host that is switched off; never where it is not.
    others: u64,
}

impl<'a> Draft<'a> {
    /// The cheapest choice of a machine without one, on the nodes of a set or those that its groups leave it.
    pub fn best(
        &mut self,
        v: usize,
        only: Option<NodeSet>,
        noise: bool,
    ) -> Result<Option<Offer>, Memory> {
        let mask = match only {
            Some(set) => Some(set),
            None => self.mask(v),
        };
        if self.may_stay(v) && self.can_stay(v, mask)? {
            return Ok(Some(Offer {
                cost: 0,
                left: 0,
                choice: Choice::Idle,
            }));
        }
        self.best_row(v, mask, noise)
    }

    // the cheapest place of a machine. With noise only some of many are looked at, from any one on, until it would be
    // done as soon as it can be at enough of them
    fn best_row(
        &mut self,
        v: usize,
        mask: Option<NodeSet>,
        noise: bool,
    ) -> Result<Option<Offer>, Memory> {
        let rows = machine_rows(self.region, v);
        let mover = self.mover(v);
        let leaving = self.leaving_of(v)?;
        let are_many = noise && rows.len() / 2 > ENOUGH;
        let from = if are_many { self.pick(rows.len()) } else { 0 };
        let mut best: Option<Offer> = None;
        let mut soon: usize = 0;
        for k in 0..rows.len() {
            let Some(row) = row_from(rows, from, k) else {
                break;
            };
            if !may_go(mask, row.place) && mover.lands || is_later(mover, row, &best) {
                continue;
            }
            self.work(1);
            if let Some(offer) = self.offer(v, row, &leaving, noise)? {
                if is_better(&best, offer) {
                    best = Some(offer);
                }
                if are_many && offer.cost <= at(&self.least, v) {
                    soon = soon.saturating_add(1);
                }
            }
            if soon >= ENOUGH {
                break;
            }
        }
        Ok(best)
    }

    fn leaving_of(&mut self, v: usize) -> Result<Leaving, Memory> {
        let limit = self.host_limit(v)?;
        let others = match self.mover(v).host {
            Some(host) => {
                if is_up(&self.acts, host) && self.server(host).is_on {
                    self.last_leaving(host, Some(v))
                } else {
                    NEVER
                }
            }
            None => NEVER,
        };
        Ok(Leaving { limit, others })
    }

    // what the row of a machine offers at best
    fn offer(
        &mut self,
        v: usize,
        row: Row,
        leaving: &Leaving,
        noise: bool,
    ) -> Result<Option<Offer>, Memory> {
        let Some(start) = self.start_in(v, row, leaving.limit)? else {
            return Ok(None);
        };
        let Ok(instant) = u32::try_from(start) else {
            return Ok(None);
        };
        let end = start.saturating_add(self.lasts(v, row.place));
        let mut left = self.left_at(v, row.place);
        if noise {
            left = left.saturating_mul((self.pick(60) as u64).saturating_add(70));
        }
        Ok(Some(Offer {
            cost: end.saturating_add(end.saturating_sub(leaving.others)),
            left,
            choice: Choice::Act {
                place: row.place,
                start: instant,
            },
        }))
    }

    // what would be left at a place at the end, in parts of a thousand, where the fullest place is sought
    fn left_at(&self, v: usize, place: Place) -> u64 {
        let Some(n) = node_at(place) else {
            return 0;
        };
        let Some(line) = self.rooms.get(n) else {
            return 0;
        };
        if !self.fullest || !line.is_ready || !self.mover(v).lands {
            return 0;
        }
        let tables = self.tables;
        let last = line.turns.len().saturating_sub(1);
        let mut most: u64 = 0;
        for r in 0..tables.width {
            let capacity = tables.capacity(n, r);
            let used = at(&line.used, cell(last, tables.width, r));
            let left = capacity.saturating_sub(used.saturating_add(tables.demand(v, r)));
            most = most.max(left.saturating_mul(1000) / capacity.max(1));
        }
        most
    }

    /// Whether a machine may stay beside all that have a choice.
    pub fn can_stay(&mut self, v: usize, mask: Option<NodeSet>) -> Result<bool, Memory> {
        let mover = self.mover(v);
        let Some(host) = mover.host else {
            return Ok(true);
        };
        if !mover.runs {
            return Ok(true);
        }
        if !self.is_on_at_end(host) || !has(mask, host) {
            return Ok(false);
        }
        if self.host_limit(v)? != NEVER || self.meets(v, host) {
            return Ok(false);
        }
        self.amounts_allow(v, host)
    }

    // whether a machine that stays would share its host with one that it is kept apart from
    fn meets(&self, v: usize, host: usize) -> bool {
        let apart = &self.tables.rules.apart;
        if apart.is_empty() {
            return false;
        }
        for w in list_at(&self.coming, host) {
            if apart.at_the_end(v, *w) {
                return true;
            }
        }
        for w in list_at(&self.tables.running, host) {
            if apart.at_the_end(v, *w) && self.leave(*w) == NEVER {
                return true;
            }
        }
        false
    }

    /// The nodes that its groups leave a machine, if it is in one.
    pub fn mask(&self, v: usize) -> Option<NodeSet> {
        let tables = self.tables;
        let groups = list_at(&tables.rules.groups_of, v);
        let mut mask = None;
        for c in groups {
            if let Some(group) = tables.rules.groups.get(*c) {
                let need = self.needed(group, Some(v));
                let left = self.spots_with(group, &need);
                mask = Some(match mask {
                    Some(set) => self.in_both(&set, &left),
                    None => left,
                });
            }
        }
        mask
    }

    /// The nodes on which members of a group are that have a choice; a group that always holds counts hosts too.
    pub fn needed(&self, group: &Group, but: Option<usize>) -> NodeSet {
        let mut need = NodeSet::new();
        for w in &group.members {
            let mover = self.mover(*w);
            let choice = self.choice(*w);
            if but == Some(*w) {
                if group.always && mover.runs {
                    insert_some(&mut need, mover.host);
                }
                continue;
            }
            let stays = matches!(choice, Some(Choice::Idle));
            let acts = matches!(choice, Some(Choice::Act { .. }));
            if mover.runs && (stays || acts && group.always) {
                insert_some(&mut need, mover.host);
            }
            insert_some(&mut need, self.landing(*w, choice));
        }
        need
    }

    // the nodes of a group that go with those that are needed
    fn spots_with(&self, group: &Group, need: &NodeSet) -> NodeSet {
        match &group.spots {
            Spots::Single => self.single_with(need),
            Spots::Sets(sets) => {
                let mut spots = NodeSet::new();
                for set in sets {
                    if self.is_in(need, set) {
                        for n in 0..self.acts.len() {
                            if set.has(node(n)) {
                                insert(&mut spots, n);
                            }
                        }
                    }
                }
                spots
            }
        }
    }

    // the one node that is needed; all where none is, and none where several are
    fn single_with(&self, need: &NodeSet) -> NodeSet {
        let mut spots = NodeSet::new();
        match need.first_from(0) {
            None => {
                for n in 0..self.acts.len() {
                    insert(&mut spots, n);
                }
            }
            Some(first) => {
                let n = first.0 as usize;
                if need.first_from(n.saturating_add(1)).is_none() {
                    insert(&mut spots, n);
                }
            }
        }
        spots
    }

    /// Whether each node of one set is in another.
    pub fn is_in(&self, need: &NodeSet, set: &NodeSet) -> bool {
        for n in 0..MAX_NODES {
            if need.has(node(n)) && !set.has(node(n)) {
                return false;
            }
        }
        true
    }

    fn in_both(&self, a: &NodeSet, b: &NodeSet) -> NodeSet {
        let mut both = NodeSet::new();
        for n in 0..self.acts.len() {
            if a.has(node(n)) && b.has(node(n)) {
                insert(&mut both, n);
            }
        }
        both
    }
}

fn insert_some(set: &mut NodeSet, n: Option<usize>) {
    if let Some(n) = n {
        insert(set, n);
    }
}

// whether a mask, if there is one, has a node
fn has(mask: Option<NodeSet>, n: usize) -> bool {
    match mask {
        Some(set) => set.has(node(n)),
        None => true,
    }
}

fn may_go(mask: Option<NodeSet>, place: Place) -> bool {
    match node_at(place) {
        Some(n) => has(mask, n),
        None => true,
    }
}

// the row that stands so far behind one of a list, which begins anew at its end
fn row_from(rows: &[Row], from: usize, k: usize) -> Option<Row> {
    let i = from.saturating_add(k);
    let i = if i < rows.len() {
        i
    } else {
        i.saturating_sub(rows.len())
    };
    rows.get(i).copied()
}

// whether a machine ends later at a place than what is known costs
fn is_later(mover: Mover, row: Row, best: &Option<Offer>) -> bool {
    match best {
        None => false,
        Some(known) => first_end(mover, row) > known.cost,
    }
}

fn is_better(best: &Option<Offer>, offer: Offer) -> bool {
    match best {
        None => true,
        Some(known) => {
            offer.cost < known.cost || offer.cost == known.cost && offer.left < known.left
        }
    }
}
