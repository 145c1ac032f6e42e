//! What the constraints say, as far as a plan is sought with it.

use crate::numbers::{cell, is_up, node, turn};
use crate::orders::Orders;
use base::Memory;
use catalogue::lists::{Groups, Parts};
use catalogue::{Constraint, Problem, Vms};
use cluster::NodeSet;
use cluster::limits::MAX_NODES;
use slices::form::{Separation, form_of};
use slices::{Form, Weight};
use std::alloc::Global;

const AT_THE_END: u8 = 1;

const ALWAYS: u8 = 3;

/// Which machines may share no node: at the horizon, or at each instant.
#[derive(Drop)]
pub struct Apart {
    machines: usize,
    table: Vec<u8>,
}

impl Apart {
    /// Whether no two machines are kept apart.
    pub fn is_empty(&self) -> bool {
        self.table.is_empty()
    }

    /// Whether two machines may share no node at the horizon.
    pub fn at_the_end(&self, v: usize, w: usize) -> bool {
        self.bits(v, w) != 0
    }

    /// Whether two machines may never share a node.
    pub fn always(&self, v: usize, w: usize) -> bool {
        self.bits(v, w) == ALWAYS
    }

    fn bits(&self, v: usize, w: usize) -> u8 {
        if v == w {
            return 0;
        }
        self.table
            .get(cell(v, self.machines, w))
            .copied()
            .unwrap_or(0)
    }

    /// Lets go of what is kept, and its memory.
    pub fn forget(&mut self, alloc: Global) {
        self.table = Vec::new(alloc);
    }

    // makes room for a table, where there is none yet
    fn open(&mut self) -> Result<(), Memory> {
        if self.table.is_empty() {
            let places = self.machines.saturating_mul(self.machines);
            self.table.resize(places, 0)?;
        }
        Ok(())
    }

    fn keep(&mut self, v: usize, w: usize, bits: u8) {
        let i = cell(v, self.machines, w);
        if i < self.table.len() {
            self.table[i] |= bits;
        }
    }

    // keeps each machine of a list apart from each of another
    fn keep_all(&mut self, vs: &[usize], ws: &[usize], bits: u8) {
        for v in vs {
            for w in ws {
                self.keep(*v, *w, bits);
            }
        }
    }
}

/// On which nodes together the members of a group may be.
#[derive(Drop)]
pub enum Spots {
    /// Any one node.
    Single,
    /// The nodes of one of these sets.
    Sets(Vec<NodeSet>),
}

/// Machines that belong together.
#[derive(Drop)]
pub struct Group {
    pub members: Vec<usize>,
    pub spots: Spots,
    pub always: bool,
}

/// How much may be used on nodes together.
#[derive(Drop)]
pub struct Amount {
    pub nodes: Vec<usize>,
    pub set: NodeSet,
    /// The resource, or presences.
    pub resource: Option<usize>,
    pub most: u64,
    pub always: bool,
}

/// How many nodes may be on together.
#[derive(Drop)]
pub struct Power {
    pub nodes: Vec<usize>,
    pub most: u64,
}

/// What the constraints of a problem say.
#[derive(Drop)]
pub struct Rules {
    alloc: Global,
    pub apart: Apart,
    pub spreads: Vec<Vec<usize>>,
    pub groups: Vec<Group>,
    pub groups_of: Vec<Vec<usize>>,
    pub amounts: Vec<Amount>,
    pub amounts_of: Vec<Vec<usize>>,
    pub powers: Vec<Power>,
    /// Which machines are in a spread, a split or a group.
    pub is_bound: Vec<bool>,
    pub orders: Orders,
}

impl Rules {
    /// What the constraints of a problem say.
    pub fn of(alloc: Global, p: &Problem) -> Result<Rules, Memory> {
        let machines = p.cluster().machines().len();
        let mut rules = Rules {
            alloc,
            apart: Apart {
                machines,
                table: Vec::new(alloc),
            },
            spreads: Vec::new(alloc),
            groups: Vec::new(alloc),
            groups_of: empty_lists(alloc, machines)?,
            amounts: Vec::new(alloc),
            amounts_of: empty_lists(alloc, p.cluster().nodes().len())?,
            powers: Vec::new(alloc),
            is_bound: vec![in alloc; false; machines]?,
            orders: Orders::none(alloc, machines)?,
        };
        for constraint in p.constraints() {
            rules.note(constraint)?;
        }
        Ok(rules)
    }

    fn note(&mut self, constraint: &Constraint) -> Result<(), Memory> {
        let always = constraint.is_continuous();
        match form_of(constraint) {
            Form::Apart(Separation::Each(machines)) => self.note_spread(machines, always),
            Form::Apart(Separation::Between(parts)) => self.note_split(parts, always),
            Form::Apart(Separation::FromOthers(machines)) => self.note_lonely(machines, always),
            Form::Together(machines, slices::form::Groups::AnyNode) => {
                let members = numbers_of(self.alloc, machines)?;
                self.note_group(members, Spots::Single, always)
            }
            Form::Together(machines, slices::form::Groups::AnyOf(groups)) => {
                let members = numbers_of(self.alloc, machines)?;
                let spots = Spots::Sets(sets_of(self.alloc, groups)?);
                self.note_group(members, spots, always)
            }
            Form::Bounded(Weight::Amount(resource), nodes, amount) => {
                self.note_amount(nodes, Some(usize::from(resource)), amount, always)
            }
            Form::Bounded(Weight::Presence, nodes, amount) => {
                self.note_amount(nodes, None, amount, always)
            }
            Form::Powered(nodes, amount) => self.note_power(nodes, amount),
            Form::Ordered(before, after) => {
                self.orders.note_pair(before.0 as usize, after.0 as usize)
            }
            Form::InTurn(machines) => {
                let members = numbers_of(self.alloc, machines)?;
                self.orders.note_turns(&members)
            }
            // where a machine may be, its rows tell; no constraint counts images
            Form::Allowed(..) | Form::Bounded(Weight::Image, ..) | Form::Settled => Ok(()),
        }
    }

    fn bind(&mut self, members: &[usize]) {
        for v in members {
            turn(&mut self.is_bound, *v, true);
        }
    }

    fn note_spread(&mut self, machines: &Vms, always: bool) -> Result<(), Memory> {
        let members = numbers_of(self.alloc, machines)?;
        self.apart.open()?;
        self.apart.keep_all(&members, &members, bits_of(always));
        self.bind(&members);
        self.spreads.push(members)?;
        Ok(())
    }

    fn note_lonely(&mut self, machines: &Vms, always: bool) -> Result<(), Memory> {
        let members = numbers_of(self.alloc, machines)?;
        let others = others_than(self.alloc, &members, self.apart.machines)?;
        self.apart.open()?;
        self.apart.keep_all(&members, &others, bits_of(always));
        self.apart.keep_all(&others, &members, bits_of(always));
        Ok(())
    }

    fn note_split(&mut self, parts: &Parts, always: bool) -> Result<(), Memory> {
        self.apart.open()?;
        let parts = parts.items();
        for i in 0..parts.len() {
            let here = numbers_of(self.alloc, &parts[i])?;
            self.bind(&here);
            for j in 0..parts.len() {
                if i != j {
                    let there = numbers_of(self.alloc, &parts[j])?;
                    self.apart.keep_all(&here, &there, bits_of(always));
                }
            }
        }
        Ok(())
    }

    fn note_group(
        &mut self,
        members: Vec<usize>,
        spots: Spots,
        always: bool,
    ) -> Result<(), Memory> {
        let number = self.groups.len();
        self.bind(&members);
        for v in &members {
            note_in(&mut self.groups_of, *v, number)?;
        }
        self.groups.push(Group {
            members,
            spots,
            always,
        })?;
        Ok(())
    }

    fn note_amount(
        &mut self,
        set: &NodeSet,
        resource: Option<usize>,
        most: u64,
        always: bool,
    ) -> Result<(), Memory> {
        let number = self.amounts.len();
        let nodes = nodes_of(self.alloc, set)?;
        for n in &nodes {
            note_in(&mut self.amounts_of, *n, number)?;
        }
        self.amounts.push(Amount {
            nodes,
            set: *set,
            resource,
            most,
            always,
        })?;
        Ok(())
    }

    fn note_power(&mut self, set: &NodeSet, most: u64) -> Result<(), Memory> {
        let nodes = nodes_of(self.alloc, set)?;
        self.powers.push(Power { nodes, most })?;
        Ok(())
    }
}

fn bits_of(always: bool) -> u8 {
    if always { ALWAYS } else { AT_THE_END }
}

/// So many empty lists.
pub fn empty_lists(alloc: Global, count: usize) -> Result<Vec<Vec<usize>>, Memory> {
    let mut lists = Vec::new(alloc);
    for _ in 0..count {
        lists.push(Vec::new(alloc))?;
    }
    Ok(lists)
}

/// Adds a number to the list at a place, if there is one.
pub fn note_in(lists: &mut Vec<Vec<usize>>, i: usize, number: usize) -> Result<(), Memory> {
    if let Some(list) = lists.get_mut(i) {
        list.push(number)?;
    }
    Ok(())
}

fn numbers_of(alloc: Global, machines: &Vms) -> Result<Vec<usize>, Memory> {
    let mut numbers = Vec::new(alloc);
    for v in machines.items() {
        numbers.push(v.0 as usize)?;
    }
    Ok(numbers)
}

fn nodes_of(alloc: Global, set: &NodeSet) -> Result<Vec<usize>, Memory> {
    let mut numbers = Vec::new(alloc);
    for n in 0..MAX_NODES {
        if set.has(node(n)) {
            numbers.push(n)?;
        }
    }
    Ok(numbers)
}

fn sets_of(alloc: Global, groups: &Groups) -> Result<Vec<NodeSet>, Memory> {
    let mut sets = Vec::new(alloc);
    for set in groups.items() {
        sets.push(*set)?;
    }
    Ok(sets)
}

// the machines, of so many, that are not members
fn others_than(alloc: Global, members: &[usize], count: usize) -> Result<Vec<usize>, Memory> {
    let mut is_member = vec![in alloc; false; count]?;
    for v in members {
        turn(&mut is_member, *v, true);
    }
    let mut others = Vec::new(alloc);
    for v in 0..count {
        if !is_up(&is_member, v) {
            others.push(v)?;
        }
    }
    Ok(others)
}
