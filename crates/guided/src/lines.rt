//! What is used over time: of a node, and of an amount of the constraints.

use crate::draft::Draft;
use crate::numbers::{NEVER, add, at, cell, list_at, put, take};
use base::Memory;
use cluster::Choice;

/// What is used over time, constant from each of its instants to the next, and after the last for ever.
#[derive(Drop)]
pub struct Line {
    /// Instants that climb from 0.
    pub turns: Vec<u64>,
    /// What is used from each instant on, resource by resource. Where a node is not usable its capacity counts as used.
    pub used: Vec<u64>,
    pub is_ready: bool,
}

impl Line {
    /// The instant at which a segment ends.
    pub fn end(&self, i: usize) -> u64 {
        self.turns
            .get(i.saturating_add(1))
            .copied()
            .unwrap_or(NEVER)
    }
}

/// What an event does to what is used.
#[derive(Clone, Copy)]
pub enum Turn {
    /// A machine leaves.
    Leaves(usize),
    /// A machine comes.
    Comes(usize),
    /// What a machine uses is raised to its demand.
    Rises(usize),
    /// The node becomes usable.
    Opens,
}

/// Something that changes what is used.
#[derive(Clone, Copy)]
pub struct Event {
    pub at: u64,
    pub turn: Turn,
}

impl<'a> Draft<'a> {
    /// Works out what is used on a node, where something has changed.
    pub fn ready(&mut self, n: usize) -> Result<(), Memory> {
        match self.rooms.get(n) {
            Some(line) => {
                if line.is_ready {
                    return Ok(());
                }
            }
            None => return Ok(()),
        }
        self.events.clear();
        self.note_node(n)?;
        self.note_opening(n)?;
        self.events.sort_unstable_by_key(|e| e.at);
        self.fill_level(n);
        self.draw_room(n)
    }

    // the events of the machines on a node
    fn note_node(&mut self, n: usize) -> Result<(), Memory> {
        let tables = self.tables;
        for v in list_at(&tables.running, n) {
            self.note_leaving(*v)?;
        }
        for i in 0..list_at(&self.coming, n).len() {
            if let Some(v) = list_at(&self.coming, n).get(i).copied() {
                if let Some(Choice::Act { start, .. }) = self.choice(v) {
                    self.note(u64::from(start), Turn::Comes(v))?;
                }
            }
        }
        Ok(())
    }

    fn note_leaving(&mut self, v: usize) -> Result<(), Memory> {
        if let Some(Choice::Act { place, start }) = self.choice(v) {
            if self.rises(v, place) {
                return self.note(u64::from(start), Turn::Rises(v));
            }
        }
        self.note(self.leave(v), Turn::Leaves(v))
    }

    fn note_opening(&mut self, n: usize) -> Result<(), Memory> {
        let opens = self.opens(n);
        if opens > 0 {
            return self.note(opens, Turn::Opens);
        }
        Ok(())
    }

    fn note(&mut self, at: u64, turn: Turn) -> Result<(), Memory> {
        if at <= self.tables.horizon {
            self.events.push(Event { at, turn })?;
        }
        Ok(())
    }

    // what is used on a node before all events
    fn fill_level(&mut self, n: usize) {
        let tables = self.tables;
        for r in 0..tables.width {
            let mut used: u64 = if self.opens(n) > 0 {
                tables.capacity(n, r)
            } else {
                0
            };
            for v in list_at(&tables.running, n) {
                used = used.saturating_add(tables.usage(*v, r));
            }
            put(&mut self.level, r, used);
        }
    }

    fn draw_room(&mut self, n: usize) -> Result<(), Memory> {
        let tables = self.tables;
        let Some(line) = self.rooms.get_mut(n) else {
            return Ok(());
        };
        line.turns.clear();
        line.used.clear();
        let mut last = 0;
        for event in &self.events {
            if event.at > last {
                line.turns.push(last)?;
                line.used
                    .extend_from_slice(level_of(&self.level, tables.width))?;
                last = event.at;
            }
            for r in 0..tables.width {
                match event.turn {
                    Turn::Leaves(v) => take(&mut self.level, r, tables.usage(v, r)),
                    Turn::Comes(v) => add(&mut self.level, r, tables.demand(v, r)),
                    Turn::Rises(v) => {
                        add(&mut self.level, r, tables.demand(v, r));
                        take(&mut self.level, r, tables.usage(v, r));
                    }
                    Turn::Opens => take(&mut self.level, r, tables.capacity(n, r)),
                }
            }
        }
        line.turns.push(last)?;
        line.used
            .extend_from_slice(level_of(&self.level, tables.width))?;
        line.is_ready = true;
        let drawn = line.turns.len();
        self.work(drawn.saturating_mul(2));
        Ok(())
    }

    /// Whether a machine has no room on a node in a segment, with what it wants or with what it uses at present.
    pub fn is_full(&self, n: usize, i: usize, v: usize, wants: bool) -> bool {
        let tables = self.tables;
        let Some(line) = self.rooms.get(n) else {
            return true;
        };
        for r in 0..tables.width {
            let amount = if wants {
                tables.demand(v, r)
            } else {
                tables.usage(v, r)
            };
            let used = at(&line.used, cell(i, tables.width, r));
            if used.saturating_add(amount) > tables.capacity(n, r) {
                return true;
            }
        }
        false
    }

    /// How many segments a node has.
    pub fn segments(&self, n: usize) -> usize {
        match self.rooms.get(n) {
            Some(line) => line.turns.len(),
            None => 0,
        }
    }

    /// When a segment of a node begins and ends.
    pub fn segment(&self, n: usize, i: usize) -> (u64, u64) {
        match self.rooms.get(n) {
            Some(line) => (at(&line.turns, i), line.end(i)),
            None => (0, NEVER),
        }
    }

    /// What a machine adds to an amount of the constraints where it is: at its host, and at its place.
    pub fn weighs(&self, i: usize, v: usize) -> (u64, u64) {
        match self.tables.rules.amounts.get(i) {
            Some(amount) => match amount.resource {
                Some(r) => (self.tables.usage(v, r), self.tables.demand(v, r)),
                None => (1, 1),
            },
            None => (0, 0),
        }
    }

    /// Works out what is used of an amount of the constraints, where something has changed.
    pub fn ready_sum(&mut self, i: usize) -> Result<(), Memory> {
        let tables = self.tables;
        let Some(amount) = tables.rules.amounts.get(i) else {
            return Ok(());
        };
        match self.sums.get(i) {
            Some(line) => {
                if line.is_ready {
                    return Ok(());
                }
            }
            None => return Ok(()),
        }
        self.events.clear();
        let mut level: u64 = 0;
        for n in &amount.nodes {
            self.note_node(*n)?;
            for v in list_at(&tables.running, *n) {
                level = level.saturating_add(self.weighs(i, *v).0);
            }
        }
        self.events.sort_unstable_by_key(|e| e.at);
        self.draw_sum(i, level)
    }

    fn draw_sum(&mut self, i: usize, from: u64) -> Result<(), Memory> {
        let mut turns = Vec::new(self.alloc);
        let mut used = Vec::new(self.alloc);
        let mut level = from;
        let mut last = 0;
        for event in &self.events {
            if event.at > last {
                turns.push(last)?;
                used.push(level)?;
                last = event.at;
            }
            level = match event.turn {
                Turn::Leaves(v) => level.saturating_sub(self.weighs(i, v).0),
                Turn::Comes(v) => level.saturating_add(self.weighs(i, v).1),
                Turn::Rises(v) => {
                    let (usage, demand) = self.weighs(i, v);
                    level.saturating_add(demand).saturating_sub(usage)
                }
                Turn::Opens => level,
            };
        }
        turns.push(last)?;
        used.push(level)?;
        self.work(turns.len());
        if let Some(line) = self.sums.get_mut(i) {
            line.turns = turns;
            line.used = used;
            line.is_ready = true;
        }
        Ok(())
    }
}

// the first so many numbers
fn level_of(level: &[u64], width: usize) -> &[u64] {
    &level[..width.min(level.len())]
}
