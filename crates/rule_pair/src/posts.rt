//! Where a machine may surely be, told for all instants up to the horizon at once.
ghost use Rattle.std.specs.Prelude.{◌≡◌, ℕ, ◌<◌, ◌≤◌, ◌&&◌, nat_lt, Some, IfNone, IfSome, IsTrue};
ghost use Rattle.rule_pair.specs.Prelude.{AreRight, choices, comes_by, HasPosts, hosted_in, IsAt, IsSized, machine_count, one, sets, StandsWithin, state_of};

use machine_bounds::leaving::leave_or_later;
use rule_constraint::host;
use rule_frame::{Domain, Element, Instant, NodeId, Problem, Region, VmId};
use standings::numbers::{Arrival, Standing, standing_of};

/// A node, and the last instant at which a machine may surely be there.
#[derive(Clone, Copy)]
pub struct Post {
    pub node: NodeId,
    pub last: Instant,
}

/// The host of a machine, as long as it may surely be there, and the node that it surely comes to: from an instant up
/// to the horizon it surely is nowhere else.
#[derive(Clone, Copy)]
pub struct Posts {
    pub host: Option<Post>,
    pub come: Option<Post>,
}

/// The last instant before one, or the horizon.
pub fn last_before(p: &Problem, end: u64) -> Option<Instant>
    ensures none { IfNone result (end ≡ 0) }
    ensures some { IfSome result (λ l. (t : ℕ) → t ≤ p.now.given.horizon → t < end → t ≤ l) }
{
    let horizon = p.horizon();
    if end == 0 {
        None
    } else if end > u64::from(horizon) {
        Some(horizon)
    } else {
        Some((end - 1) as u32)
    }
}

// the host, until a machine leaves it, where it does so after an instant
fn host_post(p: &Problem, v: VmId, leave: u64, from: Instant) -> Option<Post>
    requires { v.0 < machine_count p.now.given }
    ensures { (n t : ℕ) → from ≤ t → t ≤ p.now.given.horizon → IsTrue (hosted_in (state_of p.now.given v.0) (one n) && nat_lt t leave) → IsAt result n t }
{
    if leave <= u64::from(from) {
        return None;
    }
    match host(p, v) {
        None => None,
        Some(node) => match last_before(p, leave) {
            None => None,
            Some(last) => Some(Post { node, last }),
        },
    }
}

// the node that a machine comes to
fn come_post(p: &Problem, come: Option<Arrival>) -> Option<Post>
    ensures { (n t : ℕ) → t ≤ p.now.given.horizon → IsTrue (comes_by n t come) → IsAt result n t }
{
    match come {
        None => None,
        Some(a) => Some(Post {
            node: a.node,
            last: p.horizon(),
        }),
    }
}

// where a machine surely stands, and for how long at most; one that may stay has not come elsewhere
#[tactic(auto, using(crate::proofs::StayLemmas::idle_stands, crate::proofs::StayLemmas::stands_within))]
fn stand(p: &Problem, v: VmId, domain: &Domain) -> Standing
    requires { v.0 < machine_count p.now.given }
    ensures { StandsWithin p.now.given v.0 (choices domain.now) result }
{
    if domain.idle() {
        Standing {
            leave: leave_or_later(p, v, domain),
            come: None,
        }
    } else {
        standing_of(p, v, domain)
    }
}

// where a machine surely stands, and for how long at most, by what is kept of it where it is kept
#[tactic(auto, using(crate::proofs::StayLemmas::stands_within))]
fn stand_as_kept(p: &Problem, g: &Region, kept: &[Standing], v: VmId) -> Standing
    requires region { IsSized p.now.given g.now }
    requires kept { AreRight p.now.given (sets g.now) kept.now }
    requires machine { v.0 < machine_count p.now.given }
    ensures { StandsWithin p.now.given v.0 (sets g.now (Element.Vm v)) result }
{
    let i = v.0 as usize;
    if i < kept.len() {
        kept[i]
    } else {
        stand(p, v, g.domain(Element::Vm(v)))
    }
}

/// The posts of a machine from an instant on.
pub fn posts_of(p: &Problem, g: &Region, kept: &[Standing], v: VmId, from: Instant) -> Posts
    requires region { IsSized p.now.given g.now }
    requires kept { AreRight p.now.given (sets g.now) kept.now }
    requires machine { v.0 < machine_count p.now.given }
    ensures { HasPosts p.now.given (sets g.now) from v.0 result }
{
    let k = stand_as_kept(p, g, kept, v);
    Posts {
        host: host_post(p, v, k.leave, from),
        come: come_post(p, k.come),
    }
}
