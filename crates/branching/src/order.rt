//! Elements in an order that is worked out once for a problem.

/// How many elements a problem has at most.
pub const MOST: usize = 4_608;

// keys leave so many numbers room
const NUMBERS: u64 = 8_192;

// the greatest weight: what is above counts as much
const HEAVIEST: u64 = 2_251_799_813_685_247;

/// Numbers of elements by weight: the greatest first, and of the same weight the least number.
///
/// A key is how far a weight is below the greatest one, and then the number. Nothing is promised of the numbers: who
/// reads one asks whether it is one of the problem at hand.
#[derive(Drop)]
pub struct Order {
    keys: [u64; MOST],
    len: usize,
}

impl Order {
    /// The order of no elements.
    pub fn new() -> Order {
        Order {
            keys: [0; MOST],
            len: 0,
        }
    }

    /// Takes all elements out.
    pub fn clear(&mut self) {
        self.len = 0;
    }

    /// Adds an element at the end, where there is room.
    pub fn push(&mut self, weight: u64, number: usize) {
        if self.len < MOST {
            self.keys[self.len] = key(weight, number);
            self.len += 1;
        }
    }

    /// Puts all elements in their order.
    pub fn sort(&mut self) {
        let len = self.len.min(MOST);
        self.keys[..len].sort_unstable();
    }

    /// How many elements it has.
    pub fn len(&self) -> usize {
        self.len
    }

    /// The number at a place, if there is one.
    pub fn number(&self, k: usize) -> Option<usize> {
        if k < self.len && k < MOST {
            Some((self.keys[k] % NUMBERS) as usize)
        } else {
            None
        }
    }
}

fn key(weight: u64, number: usize) -> u64 {
    (HEAVIEST - weight.min(HEAVIEST)) * NUMBERS + (number as u64) % NUMBERS
}
