//! Which actions may overlap.
ghost use Rattle.std.specs.Prelude.{◌≡◌, ◌↔◌, ◌<◌, false, true, nat_lt, IfSome, IsTrue};
ghost use Rattle.std.specs.List.{list_all};
ghost use Rattle.placement_rules.specs.Prelude.{Acting, choices_of, IsPlanOf, machine_count, snapshot_at, Started, TakeTurns, Unended};

use catalogue::Problem;
use cluster::{Instant, VmId};
use slices::Plan;
use slices::snapshot::action_at;
use slices::stage::Progress;

/// Whether the action of one machine has not started, or that of the other is over.
pub fn is_in_order(p: &Problem, plan: &Plan, before: VmId, after: VmId, t: Instant) -> bool
    requires plan { IsPlanOf p.now.given plan.now }
    requires before { before.0 < machine_count p.now.given }
    requires after { after.0 < machine_count p.now.given }
    ensures { let now = snapshot_at p.now.given (choices_of plan.now) t in
        IsTrue result ↔ (IsTrue (now.action after.0 Started) → now.action before.0 Unended ≡ false) }
{
    !action_at(p, plan, after, Progress::Started, t)
        || !action_at(p, plan, before, Progress::Unended, t)
}

/// Whether the machine's action goes on.
fn acts(p: &Problem, plan: &Plan, v: VmId, t: Instant) -> bool
    requires plan { IsPlanOf p.now.given plan.now }
    requires machine { v.0 < machine_count p.now.given }
    ensures { result ≡ (snapshot_at p.now.given (choices_of plan.now) t).action v.0 Acting }
{
    action_at(p, plan, v, Progress::Acting, t)
}

/// Whether there is no machine, or this one.
fn is_at_most(acting: Option<VmId>, v: VmId) -> bool
    ensures { IsTrue result ↔ IfSome acting (λ w. w.0 ≡ v.0) }
{
    match acting {
        Some(w) => w.0 == v.0,
        None => true,
    }
}

/// Whether no two of the machines act.
pub fn take_turns(p: &Problem, plan: &Plan, machines: &[VmId], t: Instant) -> bool
    requires plan { IsPlanOf p.now.given plan.now }
    requires machines { list_all (λ x. nat_lt x.0 (machine_count p.now.given)) machines.now ≡ true }
    ensures { IsTrue result ↔ TakeTurns p.now.given (snapshot_at p.now.given (choices_of plan.now) t) machines.now }
{
    let mut acting = None;
    for v in machines {
        if !acts(p, plan, *v, t) {
            continue;
        }
        if !is_at_most(acting, *v) {
            return false;
        }
        acting = Some(*v);
    }
    true
}
