//! How far an order has been passed, at each depth of a search.

use crate::order::MOST;

/// Up to which place of an order no element is left that could be taken.
///
/// What is passed for a region is passed for all that are narrower, so it is kept for each depth and found again when
/// the search goes back. Nothing is promised of it.
#[derive(Drop)]
pub struct Passed {
    places: [u16; MOST],
    depth: usize,
}

impl Passed {
    /// Nothing is passed.
    pub fn new() -> Passed {
        Passed {
            places: [0; MOST],
            depth: 0,
        }
    }

    /// Nothing is passed any more.
    pub fn clear(&mut self) {
        self.places[0] = 0;
        self.depth = 0;
    }

    /// What is passed at the depth at hand.
    pub fn place(&self) -> usize {
        usize::from(self.places[self.depth.min(MOST - 1)])
    }

    /// Goes one split deeper, with so much passed.
    pub fn go_deeper(&mut self, place: usize) {
        self.depth = self.depth.saturating_add(1);
        if self.depth < MOST {
            self.places[self.depth] = place.min(MOST) as u16;
        }
    }

    /// Goes back to where the last split was made.
    pub fn go_back(&mut self) {
        self.depth = self.depth.saturating_sub(1);
    }
}
