//! Where in the list of each constraint a machine stands.
use base::Memory;
use catalogue::{Problem, Vms};
use cluster::VmId;
use slices::Form;
use slices::form::{Separation, form_of};
use std::alloc::Global;

/// The place of a machine in the list of a constraint.
#[derive(Clone, Copy)]
struct Seat {
    constraint: u32,
    place: u32,
}

/// For each machine its places in the lists of constraints, in the order of these.
///
/// Nothing is promised of them: they only say at which place of a list to look.
#[derive(Drop)]
pub struct Seats {
    lists: Vec<Vec<Seat>>,
}

impl Seats {
    /// Those of the lists that say where machines may be, or that keep each apart from each. The only error is want of memory.
    pub fn of(alloc: Global, p: &Problem) -> Result<Seats, Memory> {
        let count = p.cluster().machines().len();
        let mut lists = Vec::with_capacity(alloc, count)?;
        for _ in 0..count {
            lists.push(Vec::new(alloc))?;
        }
        let mut seats = Seats { lists };
        for c in 0..p.constraints().len() {
            match form_of(&p.constraints()[c]) {
                Form::Allowed(machines, _) => seats.put_all(c as u32, machines)?,
                Form::Apart(Separation::Each(machines)) => seats.put_all(c as u32, machines)?,
                Form::Apart(Separation::Between(_) | Separation::FromOthers(_))
                | Form::Together(..)
                | Form::Ordered(..)
                | Form::InTurn(_)
                | Form::Bounded(..)
                | Form::Powered(..)
                | Form::Settled => (),
            }
        }
        Ok(seats)
    }

    // takes note of all machines in the list of a constraint
    fn put_all(&mut self, c: u32, machines: &Vms) -> Result<(), Memory> {
        let items = machines.items();
        for i in 0..items.len() {
            let v = items[i].0 as usize;
            if v < self.lists.len() && i <= u32::MAX as usize {
                self.lists[v].push(Seat {
                    constraint: c,
                    place: i as u32,
                })?;
            }
        }
        Ok(())
    }

    /// The place at which to look for a machine in the list of a constraint.
    pub fn place_of(&self, c: u32, v: VmId) -> usize {
        let i = v.0 as usize;
        if i >= self.lists.len() {
            return 0;
        }
        for seat in &self.lists[i] {
            if seat.constraint == c {
                return seat.place as usize;
            }
        }
        0
    }
}
