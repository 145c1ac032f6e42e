//! Branching on what breaks: which constraints and capacities do not hold at the horizon if all stays that may stay,
//! and whose staying would cost the others most.

use crate::elements::{mover_at, server_at};
use crate::ends::least_of;
use crate::numbers::{add, at, cell, is_up, list_at, node, put, real};
use crate::outlook::Outlook;
use crate::race::Race;
use crate::rules::{Amount, Group, Power, Spots};
use crate::tables::Tables;
use base::Memory;
use cluster::{Element, VmId};
use domains::Region;
use std::alloc::Global;

/// A machine that may stay and may act, with what it uses and its least end.
#[derive(Clone, Copy)]
struct Stayer {
    machine: usize,
    amount: u64,
    cost: u64,
}

/// What is looked at to find what breaks.
#[derive(Drop)]
pub struct Breaks<'a> {
    pub alloc: Global,
    pub tables: &'a Tables,
    pub outlook: &'a Outlook,
    pub region: &'a Region,
    /// The least end of the rows of each machine at the root.
    pub moves: &'a [u64],
    /// Machines and nodes, by number, that are not split yet.
    pub is_put_off: &'a [bool],
}

impl<'a> Breaks<'a> {
    /// Enters all elements that break something by staying.
    pub fn enter_all(&self, race: &mut Race) -> Result<(), Memory> {
        let tables = self.tables;
        for n in 0..tables.nodes.len() {
            self.enter_node(n, race)?;
        }
        for amount in &tables.rules.amounts {
            self.enter_amount(amount, race)?;
        }
        let mut crowds = Crowds::of(self.alloc, tables.nodes.len())?;
        for members in &tables.rules.spreads {
            self.enter_crowded(members, &mut crowds, race);
        }
        for group in &tables.rules.groups {
            self.enter_scattered(group, race)?;
        }
        for power in &tables.rules.powers {
            self.enter_power(power, race);
        }
        Ok(())
    }

    // each resource of which a node has too little
    fn enter_node(&self, n: usize, race: &mut Race) -> Result<(), Memory> {
        let tables = self.tables;
        let is_on = self.may_be_on(n);
        for r in 0..tables.width {
            let capacity = if is_on { tables.capacity(n, r) } else { 0 };
            let used = at(&self.outlook.load, cell(n, self.columns(), r));
            if used > capacity {
                let mut stayers = Vec::new(self.alloc);
                self.note_stayers(n, Some(r), &mut stayers)?;
                self.enter_over(stayers, used - capacity, race)?;
            }
        }
        Ok(())
    }

    // whether a node may be usable at the horizon
    fn may_be_on(&self, n: usize) -> bool {
        let left = self.outlook.node(n);
        if server_at(&self.tables.nodes, n).is_on {
            left.may_stay
        } else {
            left.rows > 0
        }
    }

    fn columns(&self) -> usize {
        self.tables.width.saturating_add(1)
    }

    fn enter_amount(&self, amount: &Amount, race: &mut Race) -> Result<(), Memory> {
        let column = amount.resource.unwrap_or(self.tables.width);
        let mut used: u64 = 0;
        for n in &amount.nodes {
            used = used.saturating_add(at(&self.outlook.load, cell(*n, self.columns(), column)));
        }
        if used <= amount.most {
            return Ok(());
        }
        let mut stayers = Vec::new(self.alloc);
        for n in &amount.nodes {
            self.note_stayers(*n, amount.resource, &mut stayers)?;
        }
        self.enter_over(stayers, used - amount.most, race)
    }

    // the machines on a node that may stay and may act, with what they use; of no resource each counts one
    fn note_stayers(
        &self,
        n: usize,
        resource: Option<usize>,
        stayers: &mut Vec<Stayer>,
    ) -> Result<(), Memory> {
        for v in list_at(&self.tables.running, n) {
            let left = self.outlook.machine(*v);
            let amount = match resource {
                Some(r) => self.tables.usage(*v, r),
                None => 1,
            };
            if left.is_torn() && amount > 0 {
                stayers.push(Stayer {
                    machine: *v,
                    amount,
                    cost: self.least(*v),
                })?;
            }
        }
        Ok(())
    }

    fn least(&self, v: usize) -> u64 {
        least_of(self.tables, self.region, self.moves, v)
    }

    // machines of which some must go, so that so much is no longer used: the staying of each costs what the others pay
    fn enter_over(&self, stayers: Vec<Stayer>, need: u64, race: &mut Race) -> Result<(), Memory> {
        let mut stayers = stayers;
        stayers.sort_unstable_by_key(|s| (price(*s), s.machine));
        let whole = covering(&stayers, None, need);
        let (first, second) = two_least(&stayers);
        for i in 0..stayers.len() {
            if let Some(stayer) = stayers.get(i).copied() {
                let rest = if i <= whole.used {
                    covering(&stayers, Some(i), need).cost
                } else {
                    whole.cost
                };
                let other = if stayer.cost == first { second } else { first };
                let other = real(other);
                let stays = if rest > other { rest } else { other };
                self.enter_machine(stayer.machine, stays, stayer.cost, race);
            }
        }
        Ok(())
    }

    fn enter_machine(&self, v: usize, stays: f64, acts: u64, race: &mut Race) {
        if is_up(self.is_put_off, v) {
            return;
        }
        if let Ok(id) = u32::try_from(v) {
            race.enter(Element::Vm(VmId(id)), stays, real(acts));
        }
    }

    // the host of a machine that runs, may stay and may act
    fn torn_host(&self, v: usize) -> Option<usize> {
        let mover = mover_at(&self.tables.machines, v);
        match mover.host {
            Some(host) if mover.runs && self.outlook.machine(v).is_torn() => Some(host),
            Some(_) | None => None,
        }
    }

    // members of which no two may stay on one node: the staying of one makes all others there act
    fn enter_crowded(&self, members: &[usize], crowds: &mut Crowds, race: &mut Race) {
        if !self.are_crowded(members, crowds) {
            return;
        }
        for v in members {
            if let Some(host) = self.torn_host(*v) {
                if crowds.is_crowded(host) {
                    crowds.add(host, self.least(*v));
                }
            }
        }
        for v in members {
            if let Some(host) = self.torn_host(*v) {
                if crowds.is_crowded(host) {
                    let acts = self.least(*v);
                    self.enter_machine(*v, real(crowds.others(host, acts)), acts, race);
                }
            }
        }
    }

    // whether several of these may stay on one node; they are counted by node
    fn are_crowded(&self, members: &[usize], crowds: &mut Crowds) -> bool {
        crowds.begin();
        let mut are_crowded = false;
        for v in members {
            if let Some(host) = self.torn_host(*v) {
                crowds.count(host);
                are_crowded = are_crowded || crowds.is_crowded(host);
            }
        }
        are_crowded
    }

    // members of a group that cannot all stay: the staying of one makes all others act that are outside of its spots
    fn enter_scattered(&self, group: &Group, race: &mut Race) -> Result<(), Memory> {
        let mut torn = Vec::new(self.alloc);
        for v in &group.members {
            if let Some(host) = self.torn_host(*v) {
                torn.push((*v, host, self.least(*v)))?;
            }
        }
        for (v, host, acts) in &torn {
            let mut sum: u64 = 0;
            let mut clashes = false;
            for (w, other, cost) in &torn {
                if v != w && do_clash(group, *host, *other) {
                    sum = sum.saturating_add(*cost);
                    clashes = true;
                }
            }
            if clashes {
                self.enter_machine(*v, real(sum), *acts, race);
            }
        }
        Ok(())
    }

    // nodes of which too many stay on
    fn enter_power(&self, power: &Power, race: &mut Race) {
        let mut on: u64 = 0;
        for n in &power.nodes {
            let is_on = server_at(&self.tables.nodes, *n).is_on;
            if is_on == self.outlook.node(*n).may_stay {
                on = on.saturating_add(1);
            }
        }
        if on <= power.most {
            return;
        }
        for n in &power.nodes {
            if self.may_go_off(*n) {
                let mut cheapest = u64::MAX;
                for k in &power.nodes {
                    if k != n && self.may_go_off(*k) {
                        cheapest = cheapest.min(self.outlook.node(*k).least);
                    }
                }
                self.enter_server(*n, real(cheapest), race);
            }
        }
    }

    fn may_go_off(&self, n: usize) -> bool {
        server_at(&self.tables.nodes, n).is_on && self.outlook.node(n).is_torn()
    }

    fn enter_server(&self, n: usize, stays: f64, race: &mut Race) {
        let number = self.tables.machines.len().saturating_add(n);
        if !is_up(self.is_put_off, number) {
            let acts = real(self.outlook.node(n).least);
            race.enter(Element::Node(node(n)), stays, acts);
        }
    }
}

// what one unit costs
fn price(stayer: Stayer) -> u64 {
    let cost = stayer.cost.saturating_mul(1000).saturating_add(1);
    cost.saturating_mul(4_294_967_296) / stayer.amount.max(1)
}

/// What covers a need, and up to which place of a list.
#[derive(Clone, Copy)]
struct Cover {
    cost: f64,
    used: usize,
}

// the least cost, in fractions, of machines in order of price, but for one, that cover a need
fn covering(stayers: &[Stayer], but: Option<usize>, need: u64) -> Cover {
    let mut cost = 0.0;
    let mut rest = need;
    for i in 0..stayers.len() {
        if let Some(stayer) = stayers.get(i).copied() {
            if but == Some(i) {
                continue;
            }
            if stayer.amount >= rest {
                let part = real(stayer.cost) * real(rest) / real(stayer.amount.max(1));
                return Cover {
                    cost: cost + part,
                    used: i,
                };
            }
            cost = cost + real(stayer.cost);
            rest = rest.saturating_sub(stayer.amount);
        }
    }
    Cover {
        cost: real(u64::MAX),
        used: stayers.len(),
    }
}

// the two least costs
fn two_least(stayers: &[Stayer]) -> (u64, u64) {
    let mut first = u64::MAX;
    let mut second = u64::MAX;
    for stayer in stayers {
        if stayer.cost < first {
            second = first;
            first = stayer.cost;
        } else if stayer.cost < second {
            second = stayer.cost;
        }
    }
    (first, second)
}

/// How many machines of one constraint are on each node, and the sum of their least ends. What stands of an earlier
/// constraint at a node does not count.
#[derive(Drop)]
struct Crowds {
    counts: Vec<u64>,
    costs: Vec<u64>,
    /// By node, the number of the constraint that was counted there last.
    rounds: Vec<u64>,
    round: u64,
}

impl Crowds {
    // so many nodes without a machine
    fn of(alloc: Global, nodes: usize) -> Result<Crowds, Memory> {
        let mut counts = Vec::new(alloc);
        let mut costs = Vec::new(alloc);
        let mut rounds = Vec::new(alloc);
        counts.resize(nodes, 0)?;
        costs.resize(nodes, 0)?;
        rounds.resize(nodes, 0)?;
        Ok(Crowds {
            counts,
            costs,
            rounds,
            round: 0,
        })
    }

    // the next constraint begins
    fn begin(&mut self) {
        self.round = self.round.saturating_add(1);
    }

    fn count(&mut self, host: usize) {
        if at(&self.rounds, host) != self.round {
            put(&mut self.rounds, host, self.round);
            put(&mut self.counts, host, 0);
            put(&mut self.costs, host, 0);
        }
        add(&mut self.counts, host, 1);
    }

    fn is_crowded(&self, host: usize) -> bool {
        at(&self.counts, host) > 1
    }

    fn add(&mut self, host: usize, cost: u64) {
        add(&mut self.costs, host, cost);
    }

    // what all others on the node of one cost
    fn others(&self, host: usize, own: u64) -> u64 {
        at(&self.costs, host).saturating_sub(own)
    }
}

// whether two members of a group may not stay on two hosts: no spot has both
fn do_clash(group: &Group, a: usize, b: usize) -> bool {
    match &group.spots {
        Spots::Single => a != b,
        Spots::Sets(sets) => {
            for set in sets {
                if set.has(node(a)) && set.has(node(b)) {
                    return false;
                }
            }
            true
        }
    }
}
