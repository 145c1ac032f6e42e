//! What a search knows of the least cost, shared by who finds it and who tells it.

use std::alloc::Global;
use std::cell::Cell;
use std::rc::Rc;

/// What is known of the least cost, shared by the brancher that sees it and the desk that tells it.
#[derive(Drop)]
pub struct Least {
    // nothing where there was no memory for it
    known: Option<Rc<Cell<Option<u64>>>>,
}

impl Least {
    /// Nothing is known yet.
    pub fn new(alloc: Global) -> Least {
        Least {
            known: Rc::new(alloc, Cell::new(None)).ok(),
        }
    }

    /// The same, for another owner.
    pub fn share(&self) -> Least {
        Least {
            known: match &self.known {
                Some(cell) => Rc::clone(cell).ok(),
                None => None,
            },
        }
    }

    /// What is known.
    pub fn get(&self) -> Option<u64> {
        match &self.known {
            Some(cell) => cell.get(),
            None => None,
        }
    }

    /// This is known from now on; where there was no memory nothing is kept.
    pub fn set(&self, least: Option<u64>) {
        if let Some(cell) = &self.known {
            cell.set(least);
        }
    }
}
