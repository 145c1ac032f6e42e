//! A look at one instant at one constraint, by its form.
ghost use Rattle.std.specs.Prelude.{◌≡◌, ◌<◌, length, true};
ghost use Rattle.closing.specs.Prelude.{are_below, AreListed, broken_at, constraint_watch, HasSeparated, inventory_of, is_rule, IsBroken, IsFound, IsSized, machine_count, scope_of, separated, separation_seen, sets, Suffice};

use crate::exact::capacities::{amount_found, powered_found};
use crate::exact::groups::group_found;
use crate::exact::pairs::{lonely_found, split_found, spread_found};
use crate::exact::places::placed_found;
use crate::look::Look;
use crate::shared::change_instants::ChangeInstants;
use catalogue::{Constraint, Problem};
use cluster::Instant;
use domains::Region;
use slices::Form;
use slices::form::{Separation, form_of};

// whether two machines that are kept apart are on one node
fn separated_found(p: &Problem, g: &Region, separation: &Separation, t: Instant) -> Look
    requires region { IsSized p.now.given g.now }
    requires machines { are_below (machine_count p.now.given) (separated (separation_seen separation.now)) ≡ true }
    ensures { IsFound (λ s. HasSeparated p.now.given s (separation_seen separation.now)) p.now.given (sets g.now) t result }
{
    match separation {
        Separation::Each(machines) => spread_found(p, g, machines.items(), t),
        Separation::Between(parts) => split_found(p, g, parts.items(), t),
        Separation::FromOthers(machines) => lonely_found(p, g, machines.items(), t),
    }
}

// whether the constraint is broken, whether or not it is to hold at the instant
fn rule_found(p: &Problem, g: &Region, constraint: &Constraint, t: Instant) -> Look
    requires region { IsSized p.now.given g.now }
    requires rule { is_rule (inventory_of p.now.given) constraint.now ≡ true }
    ensures { IsFound (λ s. IsBroken p.now.given s constraint.now) p.now.given (sets g.now) t result }
{
    match form_of(constraint) {
        Form::Apart(separation) => separated_found(p, g, &separation, t),
        Form::Allowed(machines, places) => placed_found(p, g, machines.items(), &places, t),
        Form::Together(machines, _) => group_found(p, g, constraint, machines.items(), t),
        Form::Ordered(before, after) => group_found(p, g, constraint, &[before, after], t),
        Form::InTurn(machines) => group_found(p, g, constraint, machines.items(), t),
        Form::Bounded(weight, nodes, amount) => amount_found(p, g, weight, nodes, amount, t),
        Form::Powered(nodes, amount) => powered_found(p, g, nodes, amount, t),
        Form::Settled => Look::Clean,
    }
}

/// A look at the constraint of a number, which is broken only where it is to hold.
pub fn constraint_found(p: &Problem, g: &Region, c: u32, t: Instant) -> Look
    requires region { IsSized p.now.given g.now }
    requires constraint { c < length p.now.given.constraints }
    ensures { IsFound (broken_at (constraint_watch p.now.given c) p.now.given t) p.now.given (sets g.now) t result }
{
    if !p.applies(c, t) {
        return Look::Clean;
    }
    rule_found(p, g, &p.constraints()[c as usize], t)
}

/// At whose change instants a constraint is looked at: those of its members, where it looks at nothing but where they
/// are, or how far their actions are.
#[tactic(auto, using(crate::proofs::SomeLemmas::presences_see, crate::proofs::SomeLemmas::actions_see))]
pub fn change_instants_of<'a>(p: &Problem, constraint: &'a Constraint) -> ChangeInstants<'a>
    requires { is_rule (inventory_of p.now.given) constraint.now ≡ true }
    ensures machines { AreListed p.now.given result }
    ensures sees { Suffice result (scope_of constraint.now) }
{
    match form_of(constraint) {
        Form::Apart(Separation::Each(machines))
        | Form::Allowed(machines, _)
        | Form::Together(machines, _)
        | Form::InTurn(machines) => ChangeInstants::Of(machines.items()),
        Form::Apart(Separation::Between(_) | Separation::FromOthers(_))
        | Form::Ordered(..)
        | Form::Bounded(..)
        | Form::Powered(..)
        | Form::Settled => ChangeInstants::OfAll,
    }
}
