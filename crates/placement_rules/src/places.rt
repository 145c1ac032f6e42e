//! Where single machines are allowed.
ghost use Rattle.std.specs.Prelude.{◌≡◌, ◌↔◌, ◌<◌, ℕ, false, true, nat_lt, IsTrue};
ghost use Rattle.std.specs.List.{list_all};
ghost use Rattle.placement_rules.specs.Prelude.{AreAllowed, choices_of, is_in, IsAllowed, IsHeldWithin, IsOffLimits, IsPlanOf, machine_count, node_count, one, places_seen, snapshot_at};

use catalogue::Problem;
use cluster::{Instant, VmId};
use slices::Plan;
use slices::form::{Places, is_off_limits};
use slices::holding::Held;
use slices::snapshot::holding_at;

/// Whether a member may be where it is held.
fn allows(p: &Problem, places: &Places, v: VmId, held: Option<Held>) -> bool
    requires machine { v.0 < machine_count p.now.given }
    requires within { IsHeldWithin (node_count p.now.given) held }
    ensures { IsTrue result ↔ ((n : ℕ) → n < node_count p.now.given → IsOffLimits p.now.given (places_seen places.now) v.0 n → is_in (one n) held ≡ false) }
{
    match held {
        Some(h) => !is_off_limits(p, places, v, h.node),
        None => true,
    }
}

/// Whether a member may be on the nodes where it is present.
fn is_allowed(p: &Problem, plan: &Plan, places: &Places, v: VmId, t: Instant) -> bool
    requires plan { IsPlanOf p.now.given plan.now }
    requires machine { v.0 < machine_count p.now.given }
    ensures { IsTrue result ↔ IsAllowed p.now.given (snapshot_at p.now.given (choices_of plan.now) t) (places_seen places.now) v.0 }
{
    let now = holding_at(p, plan, v, t);
    allows(p, places, v, now.source) && allows(p, places, v, now.target)
}

/// Whether all members may be on the nodes where they are present.
pub fn are_allowed(p: &Problem, plan: &Plan, machines: &[VmId], places: &Places, t: Instant) -> bool
    requires plan { IsPlanOf p.now.given plan.now }
    requires machines { list_all (λ x. nat_lt x.0 (machine_count p.now.given)) machines.now ≡ true }
    ensures { IsTrue result ↔ AreAllowed p.now.given (snapshot_at p.now.given (choices_of plan.now) t) machines.now (places_seen places.now) }
{
    for v in machines {
        if !is_allowed(p, plan, places, *v, t) {
            return false;
        }
    }
    true
}
