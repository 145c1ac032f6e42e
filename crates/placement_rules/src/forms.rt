//! Whether a constraint holds of a plan at an instant, by its form.
ghost use Rattle.std.specs.Prelude.{◌↔◌, ◌<◌, length, IsTrue};
ghost use Rattle.placement_rules.specs.Prelude.{choices_of, form_seen, HoldsAt, IsKept, IsPlanOf, IsSound, snapshot_at};

use crate::actions::{is_in_order, take_turns};
use crate::apart::are_apart;
use crate::counts::{powered_in, total_on};
use crate::groups::are_grouped;
use crate::places::are_allowed;
use catalogue::Problem;
use cluster::Instant;
use slices::form::form_of;
use slices::{Form, Plan};

/// Whether what is where at an instant is as the form asks.
fn is_kept(p: &Problem, plan: &Plan, form: &Form, t: Instant) -> bool
    requires plan { IsPlanOf p.now.given plan.now }
    requires sound { IsSound p.now.given (form_seen form.now) }
    ensures { IsTrue result ↔ IsKept p.now.given (snapshot_at p.now.given (choices_of plan.now) t) (form_seen form.now) }
{
    match form {
        Form::Apart(separation) => are_apart(p, plan, separation, t),
        Form::Allowed(machines, places) => are_allowed(p, plan, machines.items(), places, t),
        Form::Together(machines, groups) => are_grouped(p, plan, machines.items(), groups, t),
        Form::Ordered(before, after) => is_in_order(p, plan, *before, *after, t),
        Form::InTurn(machines) => take_turns(p, plan, machines.items(), t),
        Form::Bounded(weight, nodes, amount) => total_on(p, plan, *weight, nodes, t) <= *amount,
        Form::Powered(nodes, amount) => powered_in(p, plan, nodes, t) <= *amount,
        Form::Settled => true,
    }
}

/// Whether the constraint of a number holds at an instant, whether or not it is to hold then: the
/// line of the constraint catalogue of BtrPlace for its kind, as this planner reads it. A
/// constraint that is part of the demand, of the capacity or of the legal choices holds always.
pub fn holds(p: &Problem, c: u32, plan: &Plan, t: Instant) -> bool
    requires plan { IsPlanOf p.now.given plan.now }
    requires constraint { c < length p.now.given.constraints }
    ensures { IsTrue result ↔ HoldsAt p.now.given (choices_of plan.now) t c }
{
    is_kept(p, plan, &form_of(&p.constraints()[c as usize]), t)
}
