//! When a machine fits: on a node beside what is there over time, and within the amounts of the constraints.

use crate::draft::{Draft, node_at};
use crate::numbers::{NEVER, at, list_at, node};
use base::Memory;
use cluster::Choice;
use domains::Row;

// so often at most a start is put off by amounts
const MOST_PUSHES: usize = 4_096;

/// Whether a start fits an amount, or from when on one may.
#[derive(Clone, Copy)]
enum Push {
    Fits,
    Later(u64),
    Never,
}

impl<'a> Draft<'a> {
    /// The least start, from one on, from which a machine has room on a node for ever.
    fn fit(&mut self, v: usize, n: usize, from: u64) -> Result<Option<u64>, Memory> {
        self.ready(n)?;
        for i in (0..self.segments(n)).rev() {
            self.work(1);
            let (begin, end) = self.segment(n, i);
            if self.is_full(n, i, v, true) {
                return Ok(if end == NEVER {
                    None
                } else {
                    Some(from.max(end))
                });
            }
            if begin <= from {
                break;
            }
        }
        Ok(Some(from))
    }

    /// By when a machine without a choice must have left its host.
    pub fn host_limit(&mut self, v: usize) -> Result<u64, Memory> {
        let mover = self.mover(v);
        let Some(n) = mover.host else {
            return Ok(NEVER);
        };
        if !mover.runs {
            return Ok(NEVER);
        }
        self.ready(n)?;
        let leaving = at(&self.leaving, v);
        let full = self.first_full(n, v, leaving);
        Ok(full.min(self.first_clash(n, v)))
    }

    // from when on, from an instant on, a machine has no room for what it uses at present
    fn first_full(&mut self, n: usize, v: usize, from: u64) -> u64 {
        for i in 0..self.segments(n) {
            self.work(1);
            let (begin, end) = self.segment(n, i);
            if end > from && self.is_full(n, i, v, false) {
                return begin.max(from);
            }
        }
        NEVER
    }

    // when the first machine comes that may never share a node with this one
    fn first_clash(&self, n: usize, v: usize) -> u64 {
        let apart = &self.tables.rules.apart;
        let mut first = NEVER;
        if apart.is_empty() {
            return first;
        }
        for w in list_at(&self.coming, n) {
            if apart.always(v, *w) {
                if let Some(Choice::Act { start, .. }) = self.choice(*w) {
                    first = first.min(u64::from(start));
                }
            }
        }
        first
    }

    // the least start, from one on, at which a machine meets none on a node that it is kept apart from
    fn fit_apart(&self, v: usize, n: usize, from: u64) -> Option<u64> {
        let apart = &self.tables.rules.apart;
        if apart.is_empty() {
            return Some(from);
        }
        for w in list_at(&self.coming, n) {
            if apart.at_the_end(v, *w) {
                return None;
            }
        }
        let mut start = from;
        for w in list_at(&self.tables.running, n) {
            if apart.at_the_end(v, *w) {
                let leave = self.leave(*w);
                if leave == NEVER {
                    return None;
                }
                if apart.always(v, *w) {
                    start = start.max(leave);
                }
            }
        }
        Some(start)
    }

    // the least start, from one on, that all amounts let a machine have that goes to a node
    fn fit_amounts(
        &mut self,
        v: usize,
        n: usize,
        from: u64,
        lasts: u64,
    ) -> Result<Option<u64>, Memory> {
        let mut start = from;
        for _ in 0..MOST_PUSHES {
            match self.push_by_all(v, n, start, lasts)? {
                Push::Fits => return Ok(Some(start)),
                Push::Later(t) => start = t,
                Push::Never => return Ok(None),
            }
        }
        Ok(None)
    }

    fn push_by_all(&mut self, v: usize, n: usize, start: u64, lasts: u64) -> Result<Push, Memory> {
        let tables = self.tables;
        for i in list_at(&tables.rules.amounts_of, n) {
            self.ready_sum(*i)?;
            match self.push_by(*i, v, n, start, lasts) {
                Push::Fits => (),
                Push::Later(t) => return Ok(Push::Later(t)),
                Push::Never => return Ok(Push::Never),
            }
        }
        let mover = self.mover(v);
        let Some(host) = mover.host else {
            return Ok(Push::Fits);
        };
        if mover.runs && host != n {
            for i in list_at(&tables.rules.amounts_of, host) {
                self.ready_sum(*i)?;
                match self.push_by(*i, v, n, start, lasts) {
                    Push::Fits => (),
                    Push::Later(t) => return Ok(Push::Later(t)),
                    Push::Never => return Ok(Push::Never),
                }
            }
        }
        Ok(Push::Fits)
    }

    // what one amount says of a start
    fn push_by(&mut self, i: usize, v: usize, n: usize, start: u64, lasts: u64) -> Push {
        let tables = self.tables;
        let Some(amount) = tables.rules.amounts.get(i) else {
            return Push::Fits;
        };
        let mover = self.mover(v);
        let leaves = match mover.host {
            Some(host) => mover.runs && amount.set.has(node(host)),
            None => false,
        };
        let lands = amount.set.has(node(n));
        let count = self.sum_segments(i);
        if !amount.always {
            let used = self.sum_at(i, count.saturating_sub(1));
            let over = used.saturating_add(self.weighs(i, v).1) > amount.most;
            return if lands && over {
                Push::Never
            } else {
                Push::Fits
            };
        }
        let stay = Stay {
            start,
            end: start.saturating_add(lasts),
            leaves,
            lands,
            most: amount.most,
        };
        for k in (0..count).rev() {
            self.work(1);
            match self.push_at(i, v, k, &stay) {
                Push::Fits => (),
                Push::Later(t) => return Push::Later(t),
                Push::Never => return Push::Never,
            }
        }
        Push::Fits
    }

    // what one segment of an amount says of a start
    fn push_at(&self, i: usize, v: usize, k: usize, stay: &Stay) -> Push {
        let Some(line) = self.sums.get(i) else {
            return Push::Fits;
        };
        let (begin, end) = (at(&line.turns, k), line.end(k));
        let used = at(&line.used, k);
        let (usage, demand) = self.weighs(i, v);
        let leaving = at(&self.leaving, v);
        let is_there = stay.leaves && end > leaving && begin < stay.end && stay.end > leaving;
        let is_here = stay.lands && end > stay.start;
        if is_there && used.saturating_add(usage) > stay.most {
            return Push::Never;
        }
        if is_here && used.saturating_add(demand) > stay.most {
            return later(stay.start.max(end));
        }
        let from = begin.max(leaving).max(stay.start);
        let both = is_there && is_here && from < end.min(stay.end);
        if both && used.saturating_add(usage).saturating_add(demand) > stay.most {
            return later(end);
        }
        Push::Fits
    }

    /// How many segments an amount has.
    pub fn sum_segments(&self, i: usize) -> usize {
        match self.sums.get(i) {
            Some(line) => line.turns.len(),
            None => 0,
        }
    }

    fn sum_at(&self, i: usize, k: usize) -> u64 {
        match self.sums.get(i) {
            Some(line) => at(&line.used, k),
            None => 0,
        }
    }

    /// Whether the amounts of its host let a machine stay.
    pub fn amounts_allow(&mut self, v: usize, host: usize) -> Result<bool, Memory> {
        let tables = self.tables;
        for i in list_at(&tables.rules.amounts_of, host) {
            self.ready_sum(*i)?;
            if !self.amount_allows(*i, v) {
                return Ok(false);
            }
        }
        Ok(true)
    }

    fn amount_allows(&self, i: usize, v: usize) -> bool {
        let (Some(amount), Some(line)) = (self.tables.rules.amounts.get(i), self.sums.get(i)) else {
            return true;
        };
        let usage = self.weighs(i, v).0;
        let leaving = at(&self.leaving, v);
        for k in 0..line.turns.len() {
            let end = line.end(k);
            let counts = end > leaving && (amount.always || end == NEVER);
            if counts && at(&line.used, k).saturating_add(usage) > amount.most {
                return false;
            }
        }
        true
    }

    // the least start, from one on, from which what a machine uses on its host may be raised
    fn fit_rise(&mut self, v: usize, n: usize, from: u64) -> Result<Option<u64>, Memory> {
        self.ready(n)?;
        let leaving = at(&self.leaving, v);
        let mut start = from;
        for i in (0..self.segments(n)).rev() {
            self.work(1);
            let (begin, end) = self.segment(n, i);
            if end > leaving && end > start && self.is_full(n, i, v, true) {
                if end == NEVER {
                    return Ok(None);
                }
                start = end;
            }
            if begin < leaving && self.is_full_raised(n, i, v) {
                let t = end.min(leaving);
                if t == NEVER {
                    return Ok(None);
                }
                start = start.max(t);
            }
        }
        let full = self.first_full(n, v, leaving);
        Ok(if full < start { None } else { Some(start) })
    }

    // whether a machine that counts on a node in a segment has no room for what its demand is above its use
    fn is_full_raised(&self, n: usize, i: usize, v: usize) -> bool {
        let tables = self.tables;
        let Some(line) = self.rooms.get(n) else {
            return true;
        };
        for r in 0..tables.width {
            let used = at(&line.used, crate::numbers::cell(i, tables.width, r));
            let raised = used
                .saturating_add(tables.demand(v, r))
                .saturating_sub(tables.usage(v, r));
            if raised > tables.capacity(n, r) {
                return true;
            }
        }
        false
    }

    /// The least start of a row that fits, for a machine that must have left its host by an instant.
    pub fn start_in(&mut self, v: usize, row: Row, limit: u64) -> Result<Option<u64>, Memory> {
        let mut from = u64::from(row.lo);
        for _ in 0..MOST_PUSHES {
            let Some(start) = self.start_from(v, row, limit, from)? else {
                return Ok(None);
            };
            match self.fit_order(v, row.place, start) {
                None => return Ok(None),
                Some(later) => {
                    if later == start {
                        return Ok(Some(start));
                    }
                    from = later;
                }
            }
        }
        Ok(None)
    }

    // the same from an instant on, whatever waits for what
    fn start_from(
        &mut self,
        v: usize,
        row: Row,
        limit: u64,
        from: u64,
    ) -> Result<Option<u64>, Memory> {
        let start = match node_at(row.place) {
            None => Some(from),
            Some(n) => {
                if self.rises(v, row.place) {
                    let start = self.fit_rise(v, n, from)?;
                    return Ok(by(start, u64::from(row.hi)));
                }
                self.start_on(v, n, from, self.lasts(v, row.place))?
            }
        };
        let last = u64::from(row.hi).min(limit.saturating_sub(self.lasts(v, row.place)));
        Ok(by(start, last))
    }

    // the least start on a node, from one on, that fits
    fn start_on(
        &mut self,
        v: usize,
        n: usize,
        from: u64,
        lasts: u64,
    ) -> Result<Option<u64>, Memory> {
        if !self.mover(v).lands {
            return Ok(Some(from));
        }
        if !self.is_on_at_end(n) {
            return Ok(None);
        }
        let Some(room) = self.fit(v, n, from)? else {
            return Ok(None);
        };
        let Some(apart) = self.fit_apart(v, n, room) else {
            return Ok(None);
        };
        if self.tables.rules.amounts.is_empty() {
            return Ok(Some(apart));
        }
        self.fit_amounts(v, n, apart, lasts)
    }
}

/// An action of a machine, as an amount sees it.
#[derive(Clone, Copy)]
struct Stay {
    start: u64,
    end: u64,
    leaves: bool,
    lands: bool,
    most: u64,
}

fn later(t: u64) -> Push {
    if t == NEVER {
        Push::Never
    } else {
        Push::Later(t)
    }
}

// a start, where it is not past the last one
fn by(start: Option<u64>, last: u64) -> Option<u64> {
    match start {
        Some(start) => { if start <= last { Some(start) } else { None } }
        None => None,
    }
}
