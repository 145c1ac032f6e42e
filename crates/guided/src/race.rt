//! Which split lets the bound rise soonest.

use cluster::Element;

/// A race of splits into staying and acting: each raises the bound by so much on the one side, and by so much on the
/// other. Where all splits of a tree are like one, the tree has some e^(rate * slack) leaves, for the rate at which
/// e^(-rate * stays) + e^(-rate * acts) is 1; the split with the least rate wins.
///
/// Nothing is promised of it, so that real numbers do.
#[derive(Drop)]
pub struct Race {
    pub winner: Option<Element>,
    rate: f64,
    acts: f64,
    least: f64,
    slack: f64,
}

// splits whose rates are nearer than this are equal
const NEAR: f64 = 0.000001;

impl Race {
    /// A race of no splits yet, with so much slack for the bound to rise.
    pub fn new(slack: f64) -> Race {
        let least = if slack < 50.0 { slack / 200.0 } else { 0.25 };
        Race {
            winner: None,
            rate: 0.0,
            acts: 0.0,
            least,
            slack,
        }
    }

    /// Enters the split of an element; of several that are equal the one wins that is dearest to act.
    pub fn enter(&mut self, element: Element, stays: f64, acts: f64) {
        let left = clip(stays, self.least, self.slack);
        let right = clip(acts, self.least, self.slack);
        if self.winner.is_some() {
            let sum = both(self.rate, left, right);
            if sum > 1.0 + NEAR || sum > 1.0 - NEAR && right <= self.acts {
                return;
            }
        }
        self.winner = Some(element);
        self.acts = right;
        self.rate = rate(left, right, self.least);
    }
}

fn clip(rise: f64, least: f64, most: f64) -> f64 {
    if rise > most {
        most
    } else if rise > least {
        rise
    } else {
        least
    }
}

// the sum of what both sides leave
fn both(rate: f64, left: f64, right: f64) -> f64 {
    decay(rate * left) + decay(rate * right)
}

// the rate at which both sides leave one in sum, found by halving
fn rate(left: f64, right: f64, least: f64) -> f64 {
    let mut low = 0.0;
    let mut high = 2.0 / least;
    for _ in 0..40 {
        let middle = (low + high) / 2.0;
        if both(middle, left, right) > 1.0 {
            low = middle;
        } else {
            high = middle;
        }
    }
    high
}

// e^(-x), by 1 over the 256th power of e^(x / 256)
fn decay(x: f64) -> f64 {
    let y = x / 256.0;
    let mut power = 1.0 + y * (1.0 + y / 2.0 * (1.0 + y / 3.0 * (1.0 + y / 4.0)));
    for _ in 0..8 {
        power = power * power;
    }
    1.0 / power
}
