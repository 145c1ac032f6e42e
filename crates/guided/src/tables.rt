//! A problem in plain tables, by the numbers of its machines, nodes and resources.
ghost use Rattle.std.specs.Prelude.{◌<◌, length};

use crate::elements::{Mover, Server, mover_of, server_of};
use crate::numbers::{add, at, cell, stretch};
use crate::rules::{Rules, empty_lists, note_in};
use base::Memory;
use catalogue::Problem;
use cluster::{NodeId, VmId};
use std::alloc::Global;

/// A problem in plain tables. What machines use and want, and nodes have, stands resource by resource.
#[derive(Drop)]
pub struct Tables {
    pub machines: Vec<Mover>,
    pub nodes: Vec<Server>,
    /// How many resources there are.
    pub width: usize,
    pub horizon: u64,
    pub uses: Vec<u64>,
    pub demands: Vec<u64>,
    pub capacities: Vec<u64>,
    /// The machines that run on each node, and those that sleep there.
    pub running: Vec<Vec<usize>>,
    pub sleeping: Vec<Vec<usize>>,
    pub rules: Rules,
}

impl Tables {
    /// The tables of a problem.
    pub fn of(alloc: Global, p: &Problem) -> Result<Tables, Memory> {
        let count = p.cluster().nodes().len();
        let mut tables = Tables {
            machines: Vec::new(alloc),
            nodes: Vec::new(alloc),
            width: p.cluster().resources().len(),
            horizon: u64::from(p.horizon()),
            uses: Vec::new(alloc),
            demands: Vec::new(alloc),
            capacities: Vec::new(alloc),
            running: empty_lists(alloc, count)?,
            sleeping: empty_lists(alloc, count)?,
            rules: Rules::of(alloc, p)?,
        };
        tables.note_nodes(p)?;
        tables.note_machines(p)?;
        tables.measure(alloc)?;
        Ok(tables)
    }

    fn note_nodes(&mut self, p: &Problem) -> Result<(), Memory> {
        for n in 0..p.cluster().nodes().len() {
            let id = NodeId(n as u32);
            self.nodes.push(server_of(p, id))?;
            for r in 0..p.cluster().resources().len() {
                self.capacities.push(p.capacity(id, r as u8))?;
            }
        }
        Ok(())
    }

    fn note_machines(&mut self, p: &Problem) -> Result<(), Memory> {
        for v in 0..p.cluster().machines().len() {
            let id = VmId(v as u32);
            let mover = mover_of(p, id);
            self.machines.push(mover)?;
            if let Some(n) = mover.host {
                if mover.runs {
                    note_in(&mut self.running, n, v)?;
                } else {
                    note_in(&mut self.sleeping, n, v)?;
                }
            }
            for r in 0..p.cluster().resources().len() {
                self.uses.push(usage(p, id, r))?;
                self.demands.push(p.demand(id, r as u8))?;
            }
        }
        Ok(())
    }

    // the sizes of the machines
    fn measure(&mut self, alloc: Global) -> Result<(), Memory> {
        let mut totals = vec![in alloc; 0; self.width]?;
        for n in 0..self.nodes.len() {
            for r in 0..self.width {
                add(&mut totals, r, at(&self.capacities, cell(n, self.width, r)));
            }
        }
        for v in 0..self.machines.len() {
            let size = self.share(v, &totals);
            if let Some(mover) = self.machines.get_mut(v) {
                mover.size = size;
            }
        }
        Ok(())
    }

    // the greatest share of the mean capacity that a machine wants, where the totals of all nodes are these
    fn share(&self, v: usize, totals: &[u64]) -> u64 {
        let mut greatest: u64 = 0;
        for r in 0..self.width {
            let wanted = self.demand(v, r).saturating_mul(65_536);
            let mean = at(totals, r) / (self.nodes.len() as u64).max(1);
            greatest = greatest.max(wanted / mean.max(1));
        }
        greatest
    }

    /// What a machine wants of a resource where it runs at the end.
    pub fn demand(&self, v: usize, r: usize) -> u64 {
        at(&self.demands, cell(v, self.width, r))
    }

    /// What a machine uses of a resource at present.
    pub fn usage(&self, v: usize, r: usize) -> u64 {
        at(&self.uses, cell(v, self.width, r))
    }

    /// What a machine wants of each resource where it runs at the end.
    pub fn demands(&self, v: usize) -> &[u64] {
        stretch(&self.demands, cell(v, self.width, 0), self.width)
    }

    /// What a machine uses of each resource at present.
    pub fn usages(&self, v: usize) -> &[u64] {
        stretch(&self.uses, cell(v, self.width, 0), self.width)
    }

    /// What a node has of a resource.
    pub fn capacity(&self, n: usize, r: usize) -> u64 {
        at(&self.capacities, cell(n, self.width, r))
    }
}

// what a machine uses of a resource at present
fn usage(p: &Problem, v: VmId, r: usize) -> u64
    requires { v.0 < length p.now.given.machines }
{
    let usage = &p.cluster().machines()[v.0 as usize].usage;
    usage.get(r).copied().unwrap_or(0)
}
