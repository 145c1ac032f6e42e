//! The lanes of a band: bars and their labels, none over another.
ghost use Rattle.std.specs.Prelude.{◌≡◌, ◌+◌, ◌^◌, ◌<◌, ◌≤◌, IfOk};

use base::Memory;
use std::alloc::Global;

/// What a bar takes of a lane, with its label.
#[derive(Clone, Copy)]
struct Taken {
    lane: u64,
    from: u64,
    to: u64,
}

/// The lanes of a band, and what is taken of them.
#[derive(Drop)]
pub(crate) struct Rows {
    alloc: Global,
    taken: Vec<Taken>,
    pub lanes: u64,
}

impl Rows {
    pub fn new(alloc: Global) -> Rows
        ensures { result.lanes ≡ 0 }
    {
        Rows {
            alloc,
            taken: Vec::new(alloc),
            lanes: 0,
        }
    }

    /// Which lanes are taken between two places, by one pass over what is taken; neighbours may touch.
    fn busy(&self, from: u64, to: u64) -> Result<Vec<bool>, Memory> {
        let mut busy = vec![in self.alloc; false; self.lanes as usize]?;
        for taken in &self.taken {
            if taken.from < to && from < taken.to {
                if let Some(lane) = busy.get_mut(taken.lane as usize) {
                    *lane = true;
                }
            }
        }
        Ok(busy)
    }

    /// The first lane that is free there; where none is, the one that comes next.
    fn first_free(&self, from: u64, to: u64) -> Result<u64, Memory>
        ensures { IfOk result (λ lane. lane ≤ self.now.lanes) }
    {
        let busy = self.busy(from, to)?;
        Ok(match busy.iter().position(|is_busy| !*is_busy) {
            Some(lane) => self.lanes.min(lane as u64),
            None => self.lanes,
        })
    }

    /// Takes the first lane that is free there, and says which.
    pub fn take(&mut self, from: u64, to: u64) -> Result<u64, Memory>
        requires { self.old.lanes < 2 ^ 32 }
        ensures lane { IfOk result (λ lane. lane < self.new.lanes) }
        ensures kept { self.old.lanes ≤ self.new.lanes }
        ensures few { self.new.lanes ≤ self.old.lanes + 1 }
    {
        let lane = self.first_free(from, to)?;
        self.taken.push(Taken { lane, from, to })?;
        self.lanes = self.lanes.max(lane + 1);
        Ok(lane)
    }
}
