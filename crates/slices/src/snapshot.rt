//! What is where at an instant of a plan.
ghost use Rattle.std.specs.Prelude.{◌≡◌, ◌≤◌, ◌<◌, length, nat_lt};
ghost use Rattle.slices.specs.Prelude.{amount_in, choices_of, Image, image_in, is_in, IsElement, IsHoldingOf, IsPlanOf, load, max_amount, max_load, node_count, one, snapshot_at};

use crate::choice;
use crate::holding::{Held, Holding, amount};
use crate::plan::Plan;
use crate::stage::Progress;
use catalogue::Problem;
use cluster::{Element, Instant, NodeId, VmId};

/// All that a machine holds at an instant.
#[tactic(auto, unfolding(crate::specs::Snapshots::snapshot, crate::specs::Snapshots::stages_at, crate::specs::Snapshots::held_at))]
pub fn holding_at(p: &Problem, plan: &Plan, v: VmId, t: Instant) -> Holding
    requires plan { IsPlanOf p.now.given plan.now }
    requires machine { IsElement p.now.given (Element.Vm v) }
    ensures { IsHoldingOf p.now.given (snapshot_at p.now.given (choices_of plan.now) t) v.0 result }
{
    choice::holding(p, v, plan.choice(Element::Vm(v)), t)
}

/// What is held on one node, of a resource.
fn amount_on(p: &Problem, v: VmId, held: Option<Held>, n: NodeId, r: u8) -> u64
    requires machine { IsElement p.now.given (Element.Vm v) }
    requires resource { r < length p.now.given.resources }
    ensures amount { result ≡ amount_in p.now.given v.0 r (one n.0) held }
    ensures small { result ≤ max_amount }
{
    match held {
        Some(x) => if x.node.0 == n.0 {
            amount(p, v, x.what, r)
        } else {
            0
        },
        None => 0,
    }
}

fn is_on(held: Option<Held>, n: NodeId) -> bool
    ensures { result ≡ is_in (one n.0) held }
{
    match held {
        Some(x) => x.node.0 == n.0,
        None => false,
    }
}

/// The sum of the uses of a resource on a node at an instant.
pub fn used(p: &Problem, plan: &Plan, n: NodeId, r: u8, t: Instant) -> u64
    requires plan { IsPlanOf p.now.given plan.now }
    requires resource { r < length p.now.given.resources }
    ensures load { result ≡ load p.now.given (snapshot_at p.now.given (choices_of plan.now) t) r (one n.0) }
    ensures small { result ≤ max_load }
{
    let mut total = 0;
    for v in 0..p.cluster().machines().len() {
        let vm = VmId(v as u32);
        let now = holding_at(p, plan, vm, t);
        total += amount_on(p, vm, now.source, n, r) + amount_on(p, vm, now.target, n, r);
    }
    total
}

/// Whether a machine is present on a node at an instant.
pub fn present(p: &Problem, plan: &Plan, v: VmId, n: NodeId, t: Instant) -> bool
    requires plan { IsPlanOf p.now.given plan.now }
    requires machine { IsElement p.now.given (Element.Vm v) }
    ensures { result ≡ (snapshot_at p.now.given (choices_of plan.now) t).present v.0 (one n.0) }
{
    let now = holding_at(p, plan, v, t);
    is_on(now.source, n) || is_on(now.target, n)
}

/// Whether a machine has its image on a node at an instant.
pub fn image(p: &Problem, plan: &Plan, v: VmId, n: NodeId, t: Instant) -> bool
    requires plan { IsPlanOf p.now.given plan.now }
    requires machine { IsElement p.now.given (Element.Vm v) }
    ensures { result ≡ nat_lt 0 ((snapshot_at p.now.given (choices_of plan.now) t).held v.0 Image (one n.0)) }
{
    match holding_at(p, plan, v, t).image {
        Some(m) => m.0 == n.0,
        None => false,
    }
}

/// Whether a node is usable at an instant.
#[tactic(auto, unfolding(crate::specs::Snapshots::snapshot, crate::specs::Snapshots::stages_at, crate::specs::Snapshots::usable_at))]
pub fn usable(p: &Problem, plan: &Plan, n: NodeId, t: Instant) -> bool
    requires plan { IsPlanOf p.now.given plan.now }
    requires node { IsElement p.now.given (Element.Node n) }
    ensures { result ≡ (snapshot_at p.now.given (choices_of plan.now) t).usable n.0 }
{
    choice::usable(p, n, plan.choice(Element::Node(n)), t)
}

/// Whether a node is powered at an instant.
#[tactic(auto, unfolding(crate::specs::Snapshots::snapshot, crate::specs::Snapshots::stages_at, crate::specs::Snapshots::powered_at))]
pub fn powered(p: &Problem, plan: &Plan, n: NodeId, t: Instant) -> bool
    requires plan { IsPlanOf p.now.given plan.now }
    requires node { IsElement p.now.given (Element.Node n) }
    ensures { result ≡ (snapshot_at p.now.given (choices_of plan.now) t).powered n.0 }
{
    choice::powered(p, n, plan.choice(Element::Node(n)), t)
}

/// Whether a machine's action is so far at an instant.
#[tactic(auto, unfolding(crate::specs::Snapshots::snapshot, crate::specs::Snapshots::stages_at, crate::specs::Snapshots::action_at))]
pub fn action_at(p: &Problem, plan: &Plan, v: VmId, far: Progress, t: Instant) -> bool
    requires plan { IsPlanOf p.now.given plan.now }
    requires machine { IsElement p.now.given (Element.Vm v) }
    ensures { result ≡ (snapshot_at p.now.given (choices_of plan.now) t).action v.0 far }
{
    choice::action(p, v, plan.choice(Element::Vm(v)), far, t)
}
