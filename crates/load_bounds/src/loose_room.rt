//! Which room all nodes have together during a period where some of them may be usable or not.
ghost use Rattle.std.specs.Prelude.{◌≡◌, ℕ, ◌+◌, ◌*◌, ◌<◌, ◌≤◌, false, length, if◌then◌else◌};
ghost use Rattle.load_bounds.specs.Prelude.{all_nodes, capacity_of, HasRoom, IsAtStake, IsDuring, IsSized, max_capacity, max_nodes, node_count, NodesFit, sets, sure};

use crate::Period;
use crate::room::{is_steady, may_be_used};
use catalogue::Problem;
use cluster::NodeId;
use domains::{Lens, Region, View};
use relax::sure::may_be_usable;

/// What those nodes have of a resource that may be usable all through a period, and the most of it that one node may
/// lack under one of its choices, in the units of the resource.
#[derive(Clone, Copy)]
pub struct LooseRoom {
    pub total: u64,
    pub at_stake: u64,
}

// whether a node may be usable at one end of a period
fn may_matter(p: &Problem, g: &Region, n: NodeId, x: Period) -> bool
    requires region { IsSized p.now.given g.now }
    requires node { n.0 < node_count p.now.given }
    ensures first { result ≡ false → (sure p.now.given (sets g.now) x.from).usable n.0 ≡ false }
    ensures last { result ≡ false → (sure p.now.given (sets g.now) x.to).usable n.0 ≡ false }
{
    let view = View {
        region: g,
        lens: Lens::Whole,
    };
    may_be_usable(p, &view, n, x.from) || may_be_usable(p, &view, n, x.to)
}

// what a node has that may be usable all through a period
#[tactic(auto, using(crate::proofs::LooseLemmas::lasts_all_through, crate::proofs::LooseLemmas::none_lasts))]
fn lasting(p: &Problem, g: &Region, n: NodeId, r: u8, x: Period) -> u64
    requires region { IsSized p.now.given g.now }
    requires node { n.0 < node_count p.now.given }
    requires resource { r < length p.now.given.resources }
    ensures lasts { (t : ℕ) → IsDuring x t → result ≤ (if (sure p.now.given (sets g.now) t).usable n.0 then capacity_of p.now.given n.0 r else 0) }
    ensures small { result ≤ max_capacity }
{
    if may_be_used(p, g, n, x) {
        p.capacity(n, r)
    } else {
        0
    }
}

// what a node may lack of it
#[tactic(auto, using(crate::proofs::LooseLemmas::steady_stakes, crate::proofs::LooseLemmas::unused_stakes, crate::proofs::LooseLemmas::capacity_stakes))]
fn stake(p: &Problem, g: &Region, n: NodeId, r: u8, x: Period) -> u64
    requires region { IsSized p.now.given g.now }
    requires node { n.0 < node_count p.now.given }
    requires resource { r < length p.now.given.resources }
    ensures stake { IsAtStake p.now.given (sets g.now) r x n.0 result }
    ensures small { result ≤ max_capacity }
{
    if is_steady(p, g, n, x) {
        return 0;
    }
    if may_matter(p, g, n, x) {
        p.capacity(n, r)
    } else {
        0
    }
}

/// The room of all nodes for a resource during a period.
pub fn loose_room(p: &Problem, g: &Region, r: u8, x: Period) -> LooseRoom
    requires region { IsSized p.now.given g.now }
    requires resource { r < length p.now.given.resources }
    ensures room { HasRoom p.now.given (sets g.now) r (all_nodes p.now.given) x result.total }
    ensures stake { (used : ℕ) → used + result.at_stake ≤ result.total → NodesFit p.now.given (sets g.now) r (all_nodes p.now.given) x used }
    ensures small { result.total ≤ max_nodes * max_capacity }
    ensures small_stake { result.at_stake ≤ max_capacity }
{
    let mut total = 0;
    let mut at_stake = 0;
    for i in 0..p.cluster().nodes().len() {
        let n = NodeId(i as u32);
        total += lasting(p, g, n, r, x);
        at_stake = at_stake.max(stake(p, g, n, r, x));
    }
    LooseRoom { total, at_stake }
}
