//! A whole plan in the making: a choice of each element, or none yet.

use crate::elements::{Mover, Server, mover_at, server_at};
use crate::ends::least_of;
use crate::lines::{Event, Line};
use crate::numbers::{NEVER, at, is_up, list_at, put, turn};
use crate::orders::Span;
use crate::rows::{first_leaving, machine_idle, node_idle, node_row};
use crate::rules::{empty_lists, note_in};
use crate::tables::Tables;
use base::Memory;
use cluster::{Choice, Place};
use domains::Region;
use std::alloc::Global;

/// A plan in the making, with choices of a region alone. A machine without a choice counts on its host until it can
/// have left at the earliest.
#[derive(Drop)]
pub struct Draft<'a> {
    pub alloc: Global,
    pub tables: &'a Tables,
    pub region: &'a Region,
    pub choices: Vec<Option<Choice>>,
    /// Which nodes change, and from when on.
    pub acts: Vec<bool>,
    pub starts: Vec<u64>,
    /// When each machine can have left its host at the earliest.
    pub leaving: Vec<u64>,
    /// The least end of the rows of each machine.
    pub least: Vec<u64>,
    /// The sum of the ends of the machines that act, and how many machines have no choice.
    pub ends: u64,
    pub open: u64,
    /// The machines that go to each node and land there.
    pub coming: Vec<Vec<usize>>,
    /// What is used on each node, and of each amount of the constraints.
    pub rooms: Vec<Line>,
    pub sums: Vec<Line>,
    /// The actions of those that take turns, list by list, in the order of their begins.
    pub in_turn: Vec<Vec<Span>>,
    pub events: Vec<Event>,
    pub level: Vec<u64>,
    /// What was changed since the draft was kept last, with the choice of then.
    pub changed: Vec<(usize, Option<Choice>)>,
    pub is_changed: Vec<bool>,
    /// How much work was done.
    pub steps: u64,
    pub random: u64,
    /// Whether of places with equal ends the fullest is taken, and not the first.
    pub fullest: bool,
}

impl<'a> Draft<'a> {
    /// A draft without a choice.
    pub fn new(alloc: Global, tables: &'a Tables, region: &'a Region) -> Result<Draft<'a>, Memory> {
        let machines = tables.machines.len();
        let nodes = tables.nodes.len();
        Ok(Draft {
            alloc,
            tables,
            region,
            choices: vec![in alloc; None; machines]?,
            acts: vec![in alloc; false; nodes]?,
            starts: vec![in alloc; 0; nodes]?,
            leaving: first_leavings(alloc, tables, region)?,
            least: least_ends(alloc, tables, region)?,
            ends: 0,
            open: machines as u64,
            coming: empty_lists(alloc, nodes)?,
            rooms: empty_lines(alloc, nodes)?,
            sums: empty_lines(alloc, tables.rules.amounts.len())?,
            in_turn: empty_spans(alloc, tables.rules.orders.list_count)?,
            events: Vec::new(alloc),
            level: vec![in alloc; 0; tables.width.max(1)]?,
            changed: Vec::new(alloc),
            is_changed: vec![in alloc; false; machines]?,
            steps: 0,
            random: 11_400_714_819_323_198_485,
            fullest: true,
        })
    }

    /// What is kept of a machine.
    pub fn mover(&self, v: usize) -> Mover {
        mover_at(&self.tables.machines, v)
    }

    /// What is kept of a node.
    pub fn server(&self, n: usize) -> Server {
        server_at(&self.tables.nodes, n)
    }

    /// The choice of a machine; none where it is open.
    pub fn choice(&self, v: usize) -> Option<Choice> {
        match self.choices.get(v) {
            Some(choice) => *choice,
            None => None,
        }
    }

    /// Whether a machine has no choice yet.
    pub fn is_open(&self, v: usize) -> bool {
        self.choice(v).is_none()
    }

    /// Whether a machine may stay as it is.
    pub fn may_stay(&self, v: usize) -> bool {
        machine_idle(self.region, v)
    }

    /// How long a machine's action at a place lasts.
    pub fn lasts(&self, v: usize, place: Place) -> u64 {
        lasts(self.mover(v), place)
    }

    /// Whether a machine's action at a place only raises what it uses there.
    pub fn rises(&self, v: usize, place: Place) -> bool {
        let mover = self.mover(v);
        mover.rises && is_host(mover, place)
    }

    /// The instant at which a machine leaves its host: where it is open the earliest.
    pub fn leave(&self, v: usize) -> u64 {
        match self.choice(v) {
            None => at(&self.leaving, v),
            Some(Choice::Idle) => NEVER,
            Some(Choice::Act { place, start }) => {
                if self.rises(v, place) {
                    NEVER
                } else {
                    u64::from(start).saturating_add(self.lasts(v, place))
                }
            }
        }
    }

    /// What is used on a node, and of its amounts, has to be worked out again.
    pub fn touch(&mut self, n: usize) {
        let tables = self.tables;
        if let Some(line) = self.rooms.get_mut(n) {
            line.is_ready = false;
        }
        for i in list_at(&tables.rules.amounts_of, n) {
            if let Some(line) = self.sums.get_mut(*i) {
                line.is_ready = false;
            }
        }
    }

    /// Gives a machine another choice, or none, and notes the one that it had.
    pub fn set(&mut self, v: usize, choice: Option<Choice>) -> Result<(), Memory> {
        let old = self.choice(v);
        if old == choice || v >= self.choices.len() {
            return Ok(());
        }
        if !is_up(&self.is_changed, v) {
            turn(&mut self.is_changed, v, true);
            self.changed.push((v, old))?;
        }
        self.go_from(v, old);
        self.leave_turns(v, old);
        put_choice(&mut self.choices, v, choice);
        self.count(v, old, choice);
        self.go_to(v, choice)?;
        self.take_turns(v, choice)?;
        let mover = self.mover(v);
        if let Some(host) = mover.host {
            if mover.runs {
                self.touch(host);
            }
        }
        Ok(())
    }

    // a machine has another choice than it had
    fn count(&mut self, v: usize, old: Option<Choice>, new: Option<Choice>) {
        self.ends = self.ends.saturating_sub(self.end(v, old));
        self.ends = self.ends.saturating_add(self.end(v, new));
        if old.is_none() {
            self.open = self.open.saturating_sub(1);
        }
        if new.is_none() {
            self.open = self.open.saturating_add(1);
        }
    }

    /// The end of a machine's choice, 0 where it has none.
    pub fn end(&self, v: usize, choice: Option<Choice>) -> u64 {
        match choice {
            Some(Choice::Act { place, start }) => {
                u64::from(start).saturating_add(self.lasts(v, place))
            }
            Some(Choice::Idle) | None => 0,
        }
    }

    // a machine no longer goes where it went
    fn go_from(&mut self, v: usize, choice: Option<Choice>) {
        let Some(n) = self.landing(v, choice) else {
            return;
        };
        if let Some(list) = self.coming.get_mut(n) {
            if let Some(i) = list.iter().position(|w| *w == v) {
                if i < list.len() {
                    let _ = list.swap_remove(i);
                }
            }
        }
        self.touch(n);
    }

    fn go_to(&mut self, v: usize, choice: Option<Choice>) -> Result<(), Memory> {
        let Some(n) = self.landing(v, choice) else {
            return Ok(());
        };
        if !self.rises(v, at_node(n)) {
            note_in(&mut self.coming, n, v)?;
        }
        self.touch(n);
        Ok(())
    }

    /// The node on which a machine lands with a choice.
    pub fn landing(&self, v: usize, choice: Option<Choice>) -> Option<usize> {
        if !self.mover(v).lands {
            return None;
        }
        match choice {
            Some(Choice::Act { place, .. }) => node_at(place),
            Some(Choice::Idle) | None => None,
        }
    }

    /// The sum of the ends of all that has a choice, and how many machines have none.
    pub fn cost(&self) -> (u64, u64) {
        let mut sum = self.ends;
        for n in 0..self.acts.len() {
            if is_up(&self.acts, n) {
                sum = sum.saturating_add(self.change_end(n));
            }
        }
        (sum, self.open)
    }

    /// The cost, where each machine without a choice counts as much as four that end last.
    pub fn score(&self) -> u64 {
        let (sum, open) = self.cost();
        sum.saturating_add(open.saturating_mul(self.penalty()))
    }

    /// What a machine without a choice counts.
    pub fn penalty(&self) -> u64 {
        self.tables.horizon.saturating_add(1).saturating_mul(4)
    }

    /// The start of a node's change: one that is switched off waits until the last machine has left.
    pub fn change_start(&self, n: usize) -> u64 {
        if self.server(n).is_on {
            let first = match node_row(self.region, n) {
                Some(row) => u64::from(row.lo),
                None => 0,
            };
            first.max(self.last_leaving(n, None))
        } else {
            at(&self.starts, n)
        }
    }

    /// The end of a node's change.
    pub fn change_end(&self, n: usize) -> u64 {
        self.change_start(n).saturating_add(self.server(n).lasts)
    }

    /// When the last machine has left a node, but for one machine and for those that stay.
    pub fn last_leaving(&self, n: usize, but: Option<usize>) -> u64 {
        let running = self.latest(list_at(&self.tables.running, n), but);
        running.max(self.latest(list_at(&self.tables.sleeping, n), but))
    }

    fn latest(&self, machines: &[usize], but: Option<usize>) -> u64 {
        let mut last = 0;
        for v in machines {
            let leave = self.leave(*v);
            if leave != NEVER && leave > last && but != Some(*v) {
                last = leave;
            }
        }
        last
    }

    /// Whether a machine may stand on a node at the end.
    pub fn is_on_at_end(&self, n: usize) -> bool {
        self.server(n).is_on != is_up(&self.acts, n)
    }

    /// From when on a node is usable.
    pub fn opens(&self, n: usize) -> u64 {
        let server = self.server(n);
        if server.is_on {
            0
        } else if is_up(&self.acts, n) {
            at(&self.starts, n).saturating_add(server.lasts)
        } else {
            NEVER
        }
    }

    /// Lets a node change, or not, as early as it can.
    pub fn set_node(&mut self, n: usize, acts: bool) {
        turn(&mut self.acts, n, acts);
        if let Some(row) = node_row(self.region, n) {
            put(&mut self.starts, n, u64::from(row.lo));
        }
        self.touch(n);
    }

    /// Whether a node may do otherwise than it does.
    pub fn may_turn(&self, n: usize) -> bool {
        node_idle(self.region, n) && node_row(self.region, n).is_some()
    }

    /// Takes back all changes since the draft was kept last.
    pub fn go_back(&mut self) -> Result<(), Memory> {
        for _ in 0..self.changed.len() {
            if let Some((v, choice)) = self.changed.pop() {
                self.set(v, choice)?;
                turn(&mut self.is_changed, v, false);
            }
        }
        Ok(())
    }

    /// Keeps all changes.
    pub fn keep(&mut self) {
        for (v, _) in &self.changed {
            turn(&mut self.is_changed, *v, false);
        }
        self.changed.clear();
    }

    /// The next number of a fixed sequence, below a count.
    pub fn pick(&mut self, count: usize) -> usize {
        self.random ^= self.random << 13;
        self.random ^= self.random >> 7;
        self.random ^= self.random << 17;
        ((self.random >> 11) % (count as u64).max(1)) as usize
    }

    /// Counts work that was done.
    pub fn work(&mut self, steps: usize) {
        self.steps = self.steps.saturating_add(steps as u64);
    }
}

fn put_choice(choices: &mut Vec<Option<Choice>>, v: usize, choice: Option<Choice>) {
    if v < choices.len() {
        choices[v] = choice;
    }
}

/// The node of a place, if it is one.
pub fn node_at(place: Place) -> Option<usize> {
    match place {
        Place::Nowhere => None,
        Place::At(n) => Some(n.0 as usize),
    }
}

/// The place of a node.
pub fn at_node(n: usize) -> Place {
    Place::At(crate::numbers::node(n))
}

/// Whether a place is the host of a machine.
pub fn is_host(mover: Mover, place: Place) -> bool {
    match node_at(place) {
        Some(n) => mover.host == Some(n),
        None => false,
    }
}

/// How long a machine's action at a place lasts.
pub fn lasts(mover: Mover, place: Place) -> u64 {
    if is_host(mover, place) {
        mover.lasts_at_host
    } else {
        mover.lasts
    }
}

fn empty_lines(alloc: Global, count: usize) -> Result<Vec<Line>, Memory> {
    let mut lines = Vec::new(alloc);
    for _ in 0..count {
        lines.push(Line {
            turns: Vec::new(alloc),
            used: Vec::new(alloc),
            is_ready: false,
        })?;
    }
    Ok(lines)
}

fn empty_spans(alloc: Global, count: usize) -> Result<Vec<Vec<Span>>, Memory> {
    let mut lists = Vec::new(alloc);
    for _ in 0..count {
        lists.push(Vec::new(alloc))?;
    }
    Ok(lists)
}

fn first_leavings(alloc: Global, tables: &Tables, region: &Region) -> Result<Vec<u64>, Memory> {
    let mut leavings = Vec::new(alloc);
    for v in 0..tables.machines.len() {
        leavings.push(first_leaving(region, mover_at(&tables.machines, v), v))?;
    }
    Ok(leavings)
}

fn least_ends(alloc: Global, tables: &Tables, region: &Region) -> Result<Vec<u64>, Memory> {
    let mut ends = Vec::new(alloc);
    for v in 0..tables.machines.len() {
        ends.push(least_of(tables, region, &[], v))?;
    }
    Ok(ends)
}
