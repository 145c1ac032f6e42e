//! Which node is turned: let to change where it did not, or not to where it did.

use crate::draft::Draft;
use crate::numbers::{MIDDLE, is_up, list_at};
use base::Memory;
use cluster::Choice;

/// How many more nodes are looked at for the first that is turned.
pub const FEW_LOOKS: usize = 2;

// the same for the one that makes up for it
const MORE_LOOKS: usize = 5;

impl<'a> Draft<'a> {
    /// One of some nodes: mostly of a few that all change, or all do not, the one that costs least to turn.
    pub fn to_turn(&mut self, nodes: &[usize], looks: usize) -> usize {
        let mut best = self.one_of(nodes);
        if self.pick(4) == 0 {
            return best;
        }
        let acts = is_up(&self.acts, best);
        let mut least = self.turning(best);
        for _ in 0..looks {
            let other = self.one_of(nodes);
            let cost = self.turning(other);
            if is_up(&self.acts, other) == acts && cost < least {
                best = other;
                least = cost;
            }
        }
        self.work(looks);
        best
    }

    /// One of some nodes that can make up for one that was turned, if there is any.
    pub fn counterpart(&mut self, nodes: &[usize], n: usize) -> Result<Option<usize>, Memory> {
        let went_off = !self.is_on_at_end(n);
        let mut others = Vec::new(self.alloc);
        for k in nodes {
            if *k != n && self.is_on_at_end(*k) != went_off {
                others.push(*k)?;
            }
        }
        if others.is_empty() {
            return Ok(None);
        }
        Ok(Some(self.to_turn(&others, MORE_LOOKS)))
    }

    /// One of a list, the number 0 where it is empty.
    pub fn one_of(&mut self, list: &[usize]) -> usize {
        let i = self.pick(list.len());
        list.get(i).copied().unwrap_or(0)
    }

    // what turning a node is likely to cost, above the middle; below it what is saved
    fn turning(&self, n: usize) -> u64 {
        if is_up(&self.acts, n) {
            MIDDLE.saturating_sub(self.saved(n))
        } else {
            MIDDLE.saturating_add(self.asked(n))
        }
    }

    // the ends of a node's change and of what leaves it
    fn saved(&self, n: usize) -> u64 {
        let mut sum = self.change_end(n);
        for v in list_at(&self.tables.running, n) {
            sum = sum.saturating_add(self.end(*v, self.choice(*v)));
        }
        sum
    }

    // how long what stays takes to leave, and half of that for what comes, which has to go elsewhere
    fn asked(&self, n: usize) -> u64 {
        let mut sum: u64 = 0;
        for v in list_at(&self.tables.running, n) {
            if self.choice(*v) == Some(Choice::Idle) {
                sum = sum.saturating_add(self.mover(*v).lasts);
            }
        }
        for v in list_at(&self.coming, n) {
            sum = sum.saturating_add(self.mover(*v).lasts / 2);
        }
        sum
    }
}
