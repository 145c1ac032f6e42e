//! A plan made at once: machine by machine, the cheapest choice of each.

use crate::best::Offer;
use crate::draft::Draft;
use crate::numbers::{at, insert, list_at};
use crate::root::in_order;
use crate::rows::{machine_rows, node_idle, node_row, row_at};
use crate::rules::{Group, Power, Spots};
use base::Memory;
use cluster::{Choice, NodeSet};

impl<'a> Draft<'a> {
    /// Makes a plan from nothing: what has one choice takes it, then what may stay stays where that fits, and then the
    /// greatest machines come first.
    pub fn greedy(&mut self, fullest: bool) -> Result<(), Memory> {
        self.fullest = fullest;
        for v in 0..self.choices.len() {
            self.set(v, None)?;
        }
        self.choose_nodes();
        for v in 0..self.choices.len() {
            self.take_only(v)?;
        }
        for v in 0..self.choices.len() {
            self.let_stay(v)?;
        }
        let order = self.by_size()?;
        self.insert_all(&order, false)?;
        self.shift()?;
        self.keep();
        self.fullest = true;
        Ok(())
    }

    // a machine that lands nowhere acts as early as it can; one that cannot act stays
    fn take_only(&mut self, v: usize) -> Result<(), Memory> {
        let choice = match machine_rows(self.region, v).first() {
            None => Choice::Idle,
            Some(row) => Choice::Act {
                place: row.place,
                start: row.lo,
            },
        };
        let stays = self.may_stay(v);
        let acts = matches!(choice, Choice::Act { .. });
        let alone = !self.mover(v).lands && !self.tables.rules.orders.binds(v);
        if stays && !acts || acts && !stays && alone {
            return self.set(v, Some(choice));
        }
        Ok(())
    }

    fn let_stay(&mut self, v: usize) -> Result<(), Memory> {
        let tables = self.tables;
        if !self.is_open(v) || !self.may_stay(v) {
            return Ok(());
        }
        if list_at(&tables.rules.groups_of, v).is_empty() && self.can_stay(v, None)? {
            return self.set(v, Some(Choice::Idle));
        }
        Ok(())
    }

    // the machines without a choice: those first that wait for others, the least end first, and then the greatest first
    fn by_size(&self) -> Result<Vec<usize>, Memory> {
        let mut keys: Vec<(u64, usize)> = Vec::new(self.alloc);
        for v in 0..self.choices.len() {
            if self.is_open(v) {
                let key = if self.tables.rules.orders.binds(v) {
                    at(&self.least, v)
                } else {
                    u64::MAX - self.mover(v).size
                };
                keys.push((key, v))?;
            }
        }
        in_order(self.alloc, keys)
    }

    /// Gives each machine of a list that has no choice its cheapest one; one takes the others of its group with it.
    pub fn insert_all(&mut self, order: &[usize], noise: bool) -> Result<(), Memory> {
        let tables = self.tables;
        for v in order {
            if !self.is_open(*v) {
                continue;
            }
            if let Some(group) = self.open_group(*v) {
                if let Some(group) = tables.rules.groups.get(group) {
                    self.insert_group(group, noise)?;
                }
            }
            if self.is_open(*v) {
                if let Some(offer) = self.best(*v, None, noise)? {
                    self.set(*v, Some(offer.choice))?;
                }
            }
        }
        Ok(())
    }

    // the first group of a machine of which another member has no choice either
    fn open_group(&self, v: usize) -> Option<usize> {
        for c in list_at(&self.tables.rules.groups_of, v) {
            if let Some(group) = self.tables.rules.groups.get(*c) {
                for w in &group.members {
                    if *w != v && self.is_open(*w) {
                        return Some(*c);
                    }
                }
            }
        }
        None
    }

    // places the open members of a group on the spot where that is cheapest
    fn insert_group(&mut self, group: &Group, noise: bool) -> Result<(), Memory> {
        let members = self.open_members(group)?;
        let need = self.needed(group, None);
        let mut best: Option<(u64, NodeSet)> = None;
        for s in 0..self.spot_count(group) {
            let spot = spot_at(group, s);
            if !self.is_in(&need, &spot) {
                continue;
            }
            let limit = match best {
                Some((sum, _)) => sum.saturating_add(8),
                None => u64::MAX,
            };
            let mut sum = self.try_spot(&members, &spot, limit)?;
            if noise {
                sum = sum.saturating_add(self.pick(8) as u64);
            }
            if is_less(sum, &best) {
                best = Some((sum, spot));
            }
        }
        let Some((_, spot)) = best else {
            return Ok(());
        };
        for v in &members {
            if let Some(offer) = self.best(*v, Some(spot), noise)? {
                self.set(*v, Some(offer.choice))?;
            }
        }
        Ok(())
    }

    // eight times what the members cost on a spot, as far as it is below a limit; they stay without a choice
    fn try_spot(&mut self, members: &[usize], spot: &NodeSet, limit: u64) -> Result<u64, Memory> {
        let mut sum: u64 = 0;
        for v in members {
            let offer: Option<Offer> = self.best(*v, Some(*spot), false)?;
            let cost = match offer {
                Some(offer) => {
                    self.set(*v, Some(offer.choice))?;
                    offer.cost
                }
                None => self.penalty(),
            };
            sum = sum.saturating_add(cost.saturating_mul(8));
            if sum >= limit {
                break;
            }
        }
        for v in members {
            self.set(*v, None)?;
        }
        Ok(sum)
    }

    // the members of a group without a choice, the greatest first
    fn open_members(&self, group: &Group) -> Result<Vec<usize>, Memory> {
        let mut keys: Vec<(u64, usize)> = Vec::new(self.alloc);
        for v in &group.members {
            if self.is_open(*v) {
                keys.push((u64::MAX - self.mover(*v).size, *v))?;
            }
        }
        in_order(self.alloc, keys)
    }

    fn spot_count(&self, group: &Group) -> usize {
        match &group.spots {
            Spots::Single => self.acts.len(),
            Spots::Sets(sets) => sets.len(),
        }
    }

    /// Lets the machines that start later than they could start earlier, where that fits by now.
    pub fn shift(&mut self) -> Result<(), Memory> {
        let mut keys: Vec<(u64, usize)> = Vec::new(self.alloc);
        for v in 0..self.choices.len() {
            if let Some(Choice::Act { place, start }) = self.choice(v) {
                if self.may_start_before(v, place, start) {
                    keys.push((u64::from(start), v))?;
                }
            }
        }
        for v in &in_order(self.alloc, keys)? {
            self.shift_one(*v)?;
        }
        Ok(())
    }

    fn may_start_before(
        &self,
        v: usize,
        place: cluster::choices::Place,
        start: cluster::choices::Instant,
    ) -> bool {
        match row_at(self.region, v, place) {
            Some(row) => row.lo < start,
            None => false,
        }
    }

    fn shift_one(&mut self, v: usize) -> Result<(), Memory> {
        let old = self.choice(v);
        let Some(Choice::Act { place, start }) = old else {
            return Ok(());
        };
        let Some(row) = row_at(self.region, v, place) else {
            return Ok(());
        };
        self.set(v, None)?;
        let limit = self.host_limit(v)?;
        let earlier = self.start_in(v, row, limit)?;
        let mut choice = old;
        if let Some(earlier) = earlier {
            if let Ok(instant) = u32::try_from(earlier) {
                if instant < start {
                    choice = Some(Choice::Act {
                        place,
                        start: instant,
                    });
                }
            }
        }
        self.set(v, choice)
    }

    // nodes change only where they must; where too many are on, those go off that have the least to move away
    fn choose_nodes(&mut self) {
        let tables = self.tables;
        for n in 0..self.acts.len() {
            let acts = !node_idle(self.region, n);
            self.set_node(n, acts);
        }
        for power in &tables.rules.powers {
            for _ in 0..power.nodes.len() {
                if self.on_count(power) <= power.most {
                    break;
                }
                match self.cheapest_off(power) {
                    Some(n) => self.set_node(n, true),
                    None => break,
                }
            }
        }
    }

    // how many nodes are on at the end
    fn on_count(&self, power: &Power) -> u64 {
        let mut count: u64 = 0;
        for n in &power.nodes {
            if self.is_on_at_end(*n) {
                count = count.saturating_add(1);
            }
        }
        count
    }

    /// Whether no more nodes are on at the end than may be.
    pub fn powers_hold(&self) -> bool {
        for power in &self.tables.rules.powers {
            if self.on_count(power) > power.most {
                return false;
            }
        }
        true
    }

    // the node that may go off with the least to move away
    fn cheapest_off(&self, power: &Power) -> Option<usize> {
        let mut best = None;
        let mut least = u64::MAX;
        for n in &power.nodes {
            let may = self.server(*n).is_on && self.is_on_at_end(*n);
            if may && node_row(self.region, *n).is_some() {
                let moves = self.moves_away(*n);
                if moves < least {
                    best = Some(*n);
                    least = moves;
                }
            }
        }
        best
    }

    fn moves_away(&self, n: usize) -> u64 {
        let mut sum: u64 = 0;
        for v in list_at(&self.tables.running, n) {
            sum = sum.saturating_add(self.mover(*v).lasts);
        }
        sum
    }
}

// a spot of a group
fn spot_at(group: &Group, s: usize) -> NodeSet {
    let mut spot = NodeSet::new();
    match &group.spots {
        Spots::Single => insert(&mut spot, s),
        Spots::Sets(sets) => {
            if let Some(set) = sets.get(s) {
                spot = *set;
            }
        }
    }
    spot
}

fn is_less(sum: u64, best: &Option<(u64, NodeSet)>) -> bool {
    match best {
        None => true,
        Some((least, _)) => sum < *least,
    }
}
