//! Which actions wait for others: pairs in order, and machines that act in turn.

use crate::draft::Draft;
use crate::numbers::{NEVER, list_at};
use crate::rules::{empty_lists, note_in};
use base::Memory;
use cluster::{Choice, Place};
use std::alloc::Global;

// so often at most a start is put off by others
const MOST_WAITS: usize = 4_096;

/// What the constraints say of the order of actions.
#[derive(Drop)]
pub struct Orders {
    /// Of each machine those that have to end before it starts, and those that may start once it has ended.
    before: Vec<Vec<usize>>,
    after: Vec<Vec<usize>>,
    /// The numbers of the lists of each machine of which no two members act at once, and how many there are.
    in_turn: Vec<Vec<usize>>,
    pub list_count: usize,
    is_empty: bool,
}

impl Orders {
    /// No order, of so many machines.
    pub fn none(alloc: Global, machines: usize) -> Result<Orders, Memory> {
        Ok(Orders {
            before: empty_lists(alloc, machines)?,
            after: empty_lists(alloc, machines)?,
            in_turn: empty_lists(alloc, machines)?,
            list_count: 0,
            is_empty: true,
        })
    }

    /// Whether no action waits for another.
    pub fn is_empty(&self) -> bool {
        self.is_empty
    }

    /// Whether a machine waits for another, or another for it.
    pub fn binds(&self, v: usize) -> bool {
        !list_at(&self.before, v).is_empty()
            || !list_at(&self.after, v).is_empty()
            || !list_at(&self.in_turn, v).is_empty()
    }

    /// Of two machines the first one ends before the second one starts.
    pub fn note_pair(&mut self, first: usize, second: usize) -> Result<(), Memory> {
        self.is_empty = false;
        note_in(&mut self.before, second, first)?;
        note_in(&mut self.after, first, second)
    }

    /// No two machines of a list act at once.
    pub fn note_turns(&mut self, machines: &[usize]) -> Result<(), Memory> {
        self.is_empty = false;
        for v in machines {
            note_in(&mut self.in_turn, *v, self.list_count)?;
        }
        self.list_count = self.list_count.saturating_add(1);
        Ok(())
    }
}

/// When an action begins and when it ends.
#[derive(Clone, Copy, PartialEq, Eq)]
pub struct Span {
    begin: u64,
    end: u64,
}

impl<'a> Draft<'a> {
    // when a machine acts, if it does
    fn span(&self, v: usize, choice: Option<Choice>) -> Option<Span> {
        match choice {
            Some(Choice::Act { place, start }) => {
                let begin = u64::from(start);
                Some(Span {
                    begin,
                    end: begin.saturating_add(self.lasts(v, place)),
                })
            }
            Some(Choice::Idle) | None => None,
        }
    }

    /// A machine no longer acts in its turn.
    pub fn leave_turns(&mut self, v: usize, choice: Option<Choice>) {
        let tables = self.tables;
        let Some(span) = self.span(v, choice) else {
            return;
        };
        for i in list_at(&tables.rules.orders.in_turn, v) {
            if let Some(spans) = self.in_turn.get_mut(*i) {
                if let Some(k) = spans.iter().position(|it| *it == span) {
                    if k < spans.len() {
                        let _ = spans.remove(k);
                    }
                }
            }
        }
    }

    /// A machine acts in its turn.
    pub fn take_turns(&mut self, v: usize, choice: Option<Choice>) -> Result<(), Memory> {
        let tables = self.tables;
        let Some(span) = self.span(v, choice) else {
            return Ok(());
        };
        for i in list_at(&tables.rules.orders.in_turn, v) {
            if let Some(spans) = self.in_turn.get_mut(*i) {
                let later = spans.iter().position(|it| it.begin > span.begin);
                let k = later.unwrap_or(spans.len()).min(spans.len());
                spans.insert(k, span)?;
            }
        }
        Ok(())
    }

    /// The least start, from one on, at which a machine meets no action that it waits for; none where it would end too late
    /// for one that waits for it.
    pub fn fit_order(&mut self, v: usize, place: Place, from: u64) -> Option<u64> {
        let tables = self.tables;
        let orders = &tables.rules.orders;
        if orders.is_empty {
            return Some(from);
        }
        let lasts = self.lasts(v, place);
        let start = self.fit_turns(v, from.max(self.last_end(v)), lasts);
        if start.saturating_add(lasts) > self.first_start(v) {
            return None;
        }
        Some(start)
    }

    // when all have ended that are to end before a machine starts
    fn last_end(&self, v: usize) -> u64 {
        let mut last = 0;
        for w in list_at(&self.tables.rules.orders.before, v) {
            if let Some(span) = self.span(*w, self.choice(*w)) {
                last = last.max(span.end);
            }
        }
        last
    }

    // when the first starts that may do so only once a machine has ended
    fn first_start(&self, v: usize) -> u64 {
        let mut first = NEVER;
        for w in list_at(&self.tables.rules.orders.after, v) {
            if let Some(span) = self.span(*w, self.choice(*w)) {
                first = first.min(span.begin);
            }
        }
        first
    }

    // the least start, from one on, at which none acts of those with which a machine takes turns
    fn fit_turns(&mut self, v: usize, from: u64, lasts: u64) -> u64 {
        let tables = self.tables;
        let mut start = from;
        for _ in 0..MOST_WAITS {
            let before = start;
            for i in list_at(&tables.rules.orders.in_turn, v) {
                if let Some(spans) = self.in_turn.get(*i) {
                    start = after_spans(spans, start, lasts);
                    self.steps = self.steps.saturating_add(1);
                }
            }
            if start == before {
                break;
            }
        }
        start
    }
}

// the least start, from one on, of an action that meets none of some others, which stand in the order of their begins
fn after_spans(spans: &[Span], from: u64, lasts: u64) -> u64 {
    let mut start = from;
    for span in spans {
        if span.begin >= start.saturating_add(lasts) {
            break;
        }
        start = start.max(span.end);
    }
    start
}
