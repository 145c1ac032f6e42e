//! The plan that is followed: sought once at the root, and believed nowhere.

use crate::draft::Draft;
use crate::numbers::is_up;
use crate::rows::find_row;
use crate::tables::Tables;
use base::Memory;
use cluster::{Choice, Element, Place};
use domains::{Domain, Part, Region};
use std::alloc::Global;

// the most work of a search for a better plan; about a step is one look at one segment of one node
const MOST_WORK: u64 = 30_000_000;

// the work for each pair of a machine and a node, as far as it is less
const WORK_EACH: u64 = 15_000;

/// A whole plan, and what it costs.
#[derive(Drop)]
pub struct Target {
    pub machines: Vec<Choice>,
    pub nodes: Vec<Choice>,
    pub cost: u64,
}

impl Target {
    /// The best plan that was found in a region whose least ends have that sum; none where no whole one was found.
    pub fn seek(
        alloc: Global,
        tables: &Tables,
        region: &Region,
        sum: u64,
    ) -> Result<Option<Target>, Memory> {
        let mut draft = Draft::new(alloc, tables, region)?;
        draft.greedy(false)?;
        if draft.cost() != (sum, 0) {
            draft.greedy(true)?;
        }
        if draft.cost() != (sum, 0) {
            draft.improve(sum, work_for(tables))?;
        }
        target_of(&draft)
    }

    /// The choice of an element, if the plan has it.
    pub fn choice(&self, e: Element) -> Option<Choice> {
        match e {
            Element::Vm(v) => self.machines.get(v.0 as usize).copied(),
            Element::Node(n) => self.nodes.get(n.0 as usize).copied(),
        }
    }

    /// Whether a domain still holds the choice of its element.
    pub fn is_held(&self, e: Element, domain: &Domain) -> bool {
        match self.choice(e) {
            None => false,
            Some(Choice::Idle) => domain.idle(),
            Some(Choice::Act { place, start }) => match find_row(domain.rows(), place) {
                Some(row) => row.lo <= start && start <= row.hi,
                None => false,
            },
        }
    }

    /// The part of a domain that holds the choice of its element: staying; the whole of its place, or only up to its
    /// start; and where no other place is left its start. None where the domain does not hold the choice.
    pub fn part(&self, e: Element, domain: &Domain, at_once: bool) -> Option<Part> {
        if !self.is_held(e, domain) {
            return None;
        }
        match self.choice(e) {
            None => None,
            Some(Choice::Idle) => Some(Part::Idle),
            Some(Choice::Act { place, start }) => {
                let row = find_row(domain.rows(), place)?;
                let several = domain.idle() || domain.rows().len() > 1;
                if several && !at_once {
                    Some(Part::Upto(place, row.hi))
                } else if several || row.hi > start {
                    Some(Part::Upto(place, start))
                } else {
                    Some(Part::From(place, start))
                }
            }
        }
    }
}

// how much work is worth a problem
fn work_for(tables: &Tables) -> u64 {
    let pairs = (tables.machines.len() as u64).saturating_mul(tables.nodes.len() as u64);
    pairs.saturating_mul(WORK_EACH).min(MOST_WORK)
}

// the plan of a draft, if it is whole
fn target_of(draft: &Draft) -> Result<Option<Target>, Memory> {
    let (cost, open) = draft.cost();
    if open > 0 {
        return Ok(None);
    }
    let mut machines = Vec::new(draft.alloc);
    for v in 0..draft.choices.len() {
        machines.push(draft.choice(v).unwrap_or(Choice::Idle))?;
    }
    let mut nodes = Vec::new(draft.alloc);
    for n in 0..draft.acts.len() {
        let choice = if is_up(&draft.acts, n) {
            Choice::Act {
                place: Place::Nowhere,
                start: u32::try_from(draft.change_start(n)).unwrap_or(u32::MAX),
            }
        } else {
            Choice::Idle
        };
        nodes.push(choice)?;
    }
    Ok(Some(Target {
        machines,
        nodes,
        cost,
    }))
}
