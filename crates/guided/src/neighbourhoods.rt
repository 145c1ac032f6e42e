//! A plan made better: a few machines are taken out and put in again, time and again.

use crate::draft::{Draft, node_at};
use crate::numbers::{MIDDLE, at, is_up, list_at};
use crate::root::in_order;
use crate::rows::{machine_idle, machine_rows};
use crate::turning::FEW_LOOKS;
use base::Memory;
use cluster::Choice;

// what a round costs, whatever it looks at
const ROUND: usize = 10;

// so many times as long a plan with fewer machines without a place is waited for as a better one of a small problem,
// whatever the size: where the root already leaves none, all of it is in vain
const OPEN_TIMES: u64 = 4;

// a better plan is waited for so many times as long as it took to find the last one
const LONGER: u64 = 3;

// a group with more members is taken out only now and then
const FEW_MEMBERS: usize = 12;

/// A plan that is kept aside.
#[derive(Drop)]
struct Kept {
    score: u64,
    has_open: bool,
    choices: Vec<Option<Choice>>,
    acts: Vec<bool>,
    /// The work that was done when it was found.
    found: u64,
}

/// What a search for a better plan goes by.
#[derive(Drop)]
struct Search {
    begin: u64,
    patience: u64,
    current: u64,
    /// The mean of how long moves last.
    mean: u64,
    /// The machines and the nodes that may do otherwise.
    movable: Vec<usize>,
    turnable: Vec<usize>,
    best: Kept,
    /// What this round has turned, and taken out.
    turned: Vec<usize>,
    spots: Vec<usize>,
    freed: Vec<usize>,
}

impl<'a> Draft<'a> {
    /// Seeks a plan with a lower score, with no more than so much work; none is sought below the least. Where there are
    /// many pairs of a machine and a node, and a whole plan was found, it is sought once more from the plan at hand,
    /// since a search may end where it finds nothing better though there is.
    pub fn improve(&mut self, least: u64, effort: u64) -> Result<(), Memory> {
        let first = self.aside()?;
        self.improve_once(least, effort)?;
        let worked = self.steps.saturating_sub(first.found);
        let is_small = self.patience(effort) <= least_patience(effort);
        let is_done = self.open > 0 || self.score() <= least || worked >= effort;
        if is_small || is_done {
            return Ok(());
        }
        let best = self.aside()?;
        self.take(&first)?;
        self.improve_once(least, effort.saturating_sub(worked))?;
        if self.score() > best.score {
            self.take(&best)?;
        }
        Ok(())
    }

    fn improve_once(&mut self, least: u64, effort: u64) -> Result<(), Memory> {
        let mut search = self.search(effort)?;
        if search.movable.is_empty() {
            return Ok(());
        }
        for _ in 0..effort {
            if search.best.score <= least || self.is_over(&search, effort) {
                break;
            }
            self.round(&mut search)?;
        }
        self.take(&search.best)
    }

    fn search(&self, effort: u64) -> Result<Search, Memory> {
        Ok(Search {
            begin: self.steps,
            patience: self.patience(effort),
            current: self.score(),
            mean: self.mean_move(),
            movable: self.movable()?,
            turnable: self.turnable()?,
            best: self.aside()?,
            turned: Vec::new(self.alloc),
            spots: Vec::new(self.alloc),
            freed: Vec::new(self.alloc),
        })
    }

    // the work after which nothing better is hoped for: more where there are more pairs of a machine and a node
    fn patience(&self, effort: u64) -> u64 {
        let pairs = (self.choices.len() as u64).saturating_mul(self.acts.len() as u64);
        let scaled = pairs.saturating_mul(10);
        scaled.max(least_patience(effort)).min(effort / 6)
    }

    // whether the work is done, or nothing better was found for long
    fn is_over(&self, search: &Search, effort: u64) -> bool {
        let patience = if search.best.has_open {
            least_patience(effort).saturating_mul(OPEN_TIMES)
        } else {
            search.patience
        };
        self.steps.saturating_sub(search.begin) >= effort
            || self.steps.saturating_sub(search.best.found)
                > patience.saturating_add(longer(search))
    }

    // takes some machines out, puts them in again, and keeps what is not worse
    fn round(&mut self, search: &mut Search) -> Result<(), Memory> {
        search.turned.clear();
        search.spots.clear();
        search.freed.clear();
        if !self.turn_some(search)? {
            return Ok(());
        }
        self.free_bad(search)?;
        self.choose_spots(search)?;
        self.free_on_spots(search)?;
        self.free_groups(search)?;
        let order = self.noisy_order(search)?;
        self.insert_all(&order, true)?;
        self.shift()?;
        let looked = self.choices.len() / 8;
        self.work(looked.saturating_add(ROUND));
        self.judge(search)
    }

    // keeps the round, or takes it back
    fn judge(&mut self, search: &mut Search) -> Result<(), Memory> {
        let score = self.score();
        if score <= search.current.saturating_add(self.grace(search)) {
            search.current = score;
            self.keep();
            if score < search.best.score {
                search.best = self.aside()?;
            }
            return Ok(());
        }
        self.turn_back(search);
        self.go_back()
    }

    // how much dearer a round may be: mostly nothing, and else less and less until a better plan is found
    fn grace(&mut self, search: &Search) -> u64 {
        if self.pick(10) != 0 {
            return 0;
        }
        let whole = search.patience.saturating_add(longer(search)).max(1);
        let since = self.steps.saturating_sub(search.best.found);
        let left = whole.saturating_sub(since);
        search.mean.saturating_mul(left).saturating_mul(7) / whole.saturating_mul(10).max(1)
    }

    // now and then lets a node do otherwise, and another with it; false where too many would be on
    fn turn_some(&mut self, search: &mut Search) -> Result<bool, Memory> {
        if search.turnable.is_empty() || self.pick(3) != 0 {
            return Ok(true);
        }
        let first = self.to_turn(&search.turnable, FEW_LOOKS);
        self.turn_node(search, first)?;
        if !self.powers_hold() || self.pick(2) == 0 {
            if let Some(other) = self.counterpart(&search.turnable, first)? {
                self.turn_node(search, other)?;
            }
        }
        if !self.powers_hold() {
            self.turn_back(search);
            self.work(1);
            return Ok(false);
        }
        Ok(true)
    }

    fn turn_node(&mut self, search: &mut Search, n: usize) -> Result<(), Memory> {
        let acts = is_up(&self.acts, n);
        self.set_node(n, !acts);
        search.turned.push(n)?;
        search.spots.push(n)?;
        Ok(())
    }

    fn turn_back(&mut self, search: &Search) {
        for n in &search.turned {
            let acts = is_up(&self.acts, *n);
            self.set_node(*n, !acts);
        }
    }

    // takes out a machine that is badly placed, and picks nodes around it; half as often where a node was turned
    fn free_bad(&mut self, search: &mut Search) -> Result<(), Memory> {
        if !search.turned.is_empty() && self.pick(2) == 0 {
            return Ok(());
        }
        let bad = self.bad_ones()?;
        if bad.is_empty() || self.pick(8) == 0 {
            return Ok(());
        }
        let v = self.one_of(&bad);
        let old = self.choice(v);
        if self.free(v)? {
            search.freed.push(v)?;
        }
        let mover = self.mover(v);
        if let Some(host) = mover.host {
            if mover.runs && self.pick(2) == 0 {
                search.spots.push(host)?;
            }
        }
        if let Some(n) = self.landing(v, old) {
            if self.pick(2) == 0 {
                search.spots.push(n)?;
            }
        }
        if let Some(n) = self.some_place(v) {
            search.spots.push(n)?;
        }
        Ok(())
    }

    // one of the nodes to which a machine may go
    fn some_place(&mut self, v: usize) -> Option<usize> {
        let rows = machine_rows(self.region, v);
        let i = self.pick(rows.len());
        match rows.get(i) {
            Some(row) => node_at(row.place),
            None => None,
        }
    }

    // machines without a choice; where there are none, or now and then, also those that act though they may stay,
    // or end later than they could
    fn bad_ones(&mut self) -> Result<Vec<usize>, Memory> {
        let mut bad = Vec::new(self.alloc);
        if self.open > 0 {
            for v in 0..self.choices.len() {
                if self.is_open(v) {
                    bad.push(v)?;
                }
            }
        }
        if bad.is_empty() || self.pick(4) == 0 {
            for v in 0..self.choices.len() {
                if self.is_dear(v) {
                    bad.push(v)?;
                }
            }
        }
        Ok(bad)
    }

    fn is_dear(&self, v: usize) -> bool {
        let Some(Choice::Act { place, start }) = self.choice(v) else {
            return false;
        };
        let end = u64::from(start).saturating_add(self.lasts(v, place));
        at(&self.least, v) < end || self.may_stay(v)
    }

    // some more nodes, half of them where the machine may go that was taken out
    fn choose_spots(&mut self, search: &mut Search) -> Result<(), Memory> {
        let size = self.pick(3).saturating_add(2);
        for _ in search.spots.len()..size {
            let nodes = self.acts.len();
            let mut n = self.pick(nodes);
            if let Some(v) = search.freed.first().copied() {
                if self.pick(2) == 0 {
                    if let Some(place) = self.some_place(v) {
                        n = place;
                    }
                }
            }
            search.spots.push(n)?;
        }
        search.spots.sort_unstable();
        search.spots.dedup();
        Ok(())
    }

    // takes out what comes to these nodes, and none, some or all of what stays there
    fn free_on_spots(&mut self, search: &mut Search) -> Result<(), Memory> {
        let tables = self.tables;
        let share = match self.pick(3) {
            0 => 0,
            1 => 40,
            _ => 100,
        };
        for i in 0..search.spots.len() {
            let n = search.spots.get(i).copied().unwrap_or(0);
            let from = search.freed.len();
            search.freed.extend_from_slice(list_at(&self.coming, n))?;
            for w in list_at(&tables.running, n) {
                let stays = self.choice(*w) == Some(Choice::Idle) && self.is_on_at_end(n);
                if !stays || self.pick(100) < share {
                    search.freed.push(*w)?;
                }
            }
            for k in from..search.freed.len() {
                let v = search.freed.get(k).copied().unwrap_or(0);
                let _ = self.free(v)?;
            }
        }
        Ok(())
    }

    // takes out the groups of what was taken out
    fn free_groups(&mut self, search: &mut Search) -> Result<(), Memory> {
        let tables = self.tables;
        for i in 0..self.choices.len() {
            let Some(v) = search.freed.get(i).copied() else {
                break;
            };
            for c in list_at(&tables.rules.groups_of, v) {
                if let Some(group) = tables.rules.groups.get(*c) {
                    if group.members.len() > FEW_MEMBERS && self.pick(4) != 0 {
                        continue;
                    }
                    for w in &group.members {
                        if !self.is_open(*w) && self.free(*w)? {
                            search.freed.push(*w)?;
                        }
                    }
                }
            }
        }
        Ok(())
    }

    // takes the choice of a machine, where it has another one; whether it has none now
    fn free(&mut self, v: usize) -> Result<bool, Memory> {
        if self.is_open(v) {
            return Ok(true);
        }
        if !self.is_movable(v) {
            return Ok(false);
        }
        self.set(v, None)?;
        Ok(true)
    }

    fn is_movable(&self, v: usize) -> bool {
        let rows = machine_rows(self.region, v);
        match rows {
            [] => false,
            [row] => self.may_stay(v) || row.lo < row.hi,
            _ => true,
        }
    }

    fn movable(&self) -> Result<Vec<usize>, Memory> {
        let mut list = Vec::new(self.alloc);
        for v in 0..self.choices.len() {
            if self.is_movable(v) {
                list.push(v)?;
            }
        }
        Ok(list)
    }

    fn turnable(&self) -> Result<Vec<usize>, Memory> {
        let mut list = Vec::new(self.alloc);
        for n in 0..self.acts.len() {
            if self.may_turn(n) {
                list.push(n)?;
            }
        }
        Ok(list)
    }

    // the machines without a choice in an order of size with noise; in one of three rounds those that may stay come
    // last, above the middle of all keys, the dearest for its size first
    fn noisy_order(&mut self, search: &Search) -> Result<Vec<usize>, Memory> {
        let tables = self.tables;
        let by_cost = self.pick(3) == 0;
        let mut keys: Vec<(u64, usize)> = Vec::new(self.alloc);
        for v in &search.movable {
            if self.is_open(*v) {
                let key = if tables.rules.orders.binds(*v) {
                    at(&self.least, *v).saturating_add(self.pick(4) as u64)
                } else if by_cost && machine_idle(self.region, *v) {
                    self.key_by_cost(*v, search.mean)
                } else {
                    self.key_by_size(*v)
                };
                keys.push((key, *v))?;
            }
        }
        in_order(self.alloc, keys)
    }

    fn key_by_cost(&mut self, v: usize, mean: u64) -> u64 {
        let mover = self.mover(v);
        let noise = (self.pick(1000) as u64).saturating_add(500);
        let weight = mover.size.saturating_mul(mean).saturating_mul(noise) / mover.lasts.max(1);
        MIDDLE.saturating_add(weight.min(MIDDLE))
    }

    fn key_by_size(&mut self, v: usize) -> u64 {
        let tables = self.tables;
        let times: u64 = if list_at(&tables.rules.groups_of, v).is_empty() {
            1
        } else {
            2
        };
        let rows = machine_rows(self.region, v).len() as u64;
        let few = 32_768 / rows.saturating_add(1).max(1);
        let noise = (self.pick(1000) as u64)
            .saturating_mul(4)
            .saturating_add(3000);
        let size = self.mover(v).size.saturating_mul(times).saturating_add(few);
        MIDDLE.saturating_sub(size.saturating_mul(noise).min(MIDDLE))
    }

    fn mean_move(&self) -> u64 {
        let mut sum: u64 = 0;
        let mut count: u64 = 0;
        for mover in &self.tables.machines {
            if mover.lasts > 0 {
                sum = sum.saturating_add(mover.lasts);
                count = count.saturating_add(1);
            }
        }
        (sum / count.max(1)).max(1)
    }

    // the plan at hand, kept aside
    fn aside(&self) -> Result<Kept, Memory> {
        Ok(Kept {
            score: self.score(),
            has_open: self.cost().1 > 0,
            choices: Vec::from_slice(self.alloc, &self.choices)?,
            acts: Vec::from_slice(self.alloc, &self.acts)?,
            found: self.steps,
        })
    }

    // becomes a plan that was kept aside
    fn take(&mut self, kept: &Kept) -> Result<(), Memory> {
        for n in 0..self.acts.len() {
            let acts = is_up(&kept.acts, n);
            if is_up(&self.acts, n) != acts {
                self.set_node(n, acts);
            }
        }
        for v in 0..self.choices.len() {
            let choice = kept.choices.get(v).copied().unwrap_or(None);
            self.set(v, choice)?;
        }
        self.keep();
        Ok(())
    }
}

// the work after which nothing better is hoped for where a problem is small
fn least_patience(effort: u64) -> u64 {
    effort / 30
}

// for how much more work a better plan is waited for, since the last one took some
fn longer(search: &Search) -> u64 {
    let took = search.best.found.saturating_sub(search.begin);
    took.saturating_mul(LONGER)
}
