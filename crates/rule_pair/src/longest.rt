//! By node, how long machines of different parts surely stay there.
ghost use Rattle.std.specs.Prelude.{◌≡◌, ◌≢◌, ℕ, ◌<◌, ◌≤◌, IsTrue, IfNone};
ghost use Rattle.rule_pair.specs.Prelude.{AreLonger, AreOrdered, IsAt, IsOrdered, of_others as the_of_others, told_until};

use crate::posts::Post;
use cluster::limits::MAX_NODES;
use rule_frame::{Instant, NodeId, VmId};

/// Before when a machine of a part may surely be at a node. Up to 0 that is never.
#[derive(Clone, Copy)]
pub struct Stay {
    pub until: u64,
    pub part: usize,
    pub machine: VmId,
}

/// The longest stay at a node, and the longest of those of other parts.
#[derive(Clone, Copy)]
pub struct Longest {
    pub first: Stay,
    pub second: Stay,
}

/// The longest stays at each node.
pub type Table = [Longest; MAX_NODES];

const NO_STAY: Stay = Stay {
    until: 0,
    part: 0,
    machine: VmId(0),
};

/// No stay at all.
pub const NOBODY: Longest = Longest {
    first: NO_STAY,
    second: NO_STAY,
};

/// The longest of those that are of other parts than one.
pub(crate) fn of_others(x: Longest, part: usize) -> Stay
    ensures { result ≡ the_of_others x part }
{
    if x.first.part == part {
        x.second
    } else {
        x.first
    }
}

// the longest, where there is one stay more
fn with(x: Longest, stay: Stay) -> Longest
    requires { IsOrdered x }
    ensures ordered { IsOrdered result }
    ensures longer { (part : ℕ) → (the_of_others x part).until ≤ (the_of_others result part).until }
    ensures told { (part : ℕ) → part ≢ stay.part → stay.until ≤ (the_of_others result part).until }
{
    if stay.part == x.first.part {
        if stay.until <= x.first.until {
            return x;
        }
        return Longest {
            first: stay,
            second: x.second,
        };
    }
    if stay.until > x.first.until {
        return Longest {
            first: stay,
            second: x.first,
        };
    }
    if stay.until > x.second.until {
        return Longest {
            first: x.first,
            second: stay,
        };
    }
    x
}

/// Tells of the post of a machine, if it has one. False where the table has no such node.
pub fn tell(table: &mut Table, v: VmId, part: usize, post: Option<Post>) -> bool
    requires { AreOrdered table.old }
    ensures ordered { AreOrdered table.new }
    ensures longer { AreLonger table.old table.new }
    ensures told { IsTrue result → (n t q : ℕ) → IsAt post n t → q ≢ part → t < told_until table.new q n }
{
    let Some(post) = post else {
        return true;
    };
    let n = post.node.0 as usize;
    if n >= MAX_NODES {
        return false;
    }
    let stay = Stay {
        until: u64::from(post.last) + 1,
        part,
        machine: v,
    };
    table[n] = with(table[n], stay);
    true
}

/// The longest stay at a node of machines of other parts, where it ends after an instant.
pub fn stay_after(table: &Table, n: NodeId, part: usize, from: Instant) -> Option<Stay>
    ensures { IfNone result (told_until table.now part n.0 ≤ from) }
{
    let i = n.0 as usize;
    if i >= MAX_NODES {
        return None;
    }
    if table[i].first.until <= u64::from(from) && table[i].second.until <= u64::from(from) {
        return None;
    }
    let stay = of_others(table[i], part);
    if stay.until <= u64::from(from) {
        None
    } else {
        Some(stay)
    }
}
