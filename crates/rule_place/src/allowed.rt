//! Whether machines are only where a constraint lets them be, told for all instants up to the horizon at once.
ghost use Rattle.std.specs.Prelude.{◌≡◌, ◌≢◌, ℕ, [], ◌<◌, ◌&&◌, false, length, nat_lt, true, slice_index_or, IsTrue};
ghost use Rattle.std.specs.List.{list_all};
ghost use Rattle.rule_place.specs.Prelude.{Allowed, choices, constraint_watch, ForbidsPlace, form_of as the_form_of, inventory_of, is_rule, IsAllowed, IsClean, IsHarmless, IsMember, IsOffHost, IsSized, machine_count, MayGo, no_row, places_seen, rule_watch, sets, Vm};

use crate::places::limits_of;
use machine_bounds::leaving::leaves_by;
use rule_constraint::host;
use rule_frame::{Constraint, Domain, Element, NodeId, Place, Problem, Region, Row, VmId, Vms};
use slices::form::{Places, is_off_limits};

// whether a constraint lets its member not be on a node
fn forbids(
    p: &Problem,
    _constraint: &Constraint,
    limits: (&Vms, Places<'_>),
    v: VmId,
    n: NodeId,
) -> bool
    requires machine { v.0 < machine_count p.now.given }
    requires form { the_form_of _constraint.now ≡ Allowed limits.0.now (places_seen limits.1) }
    ensures { result ≡ false → ¬ ForbidsPlace p.now.given _constraint.now v.0 n.0 }
{
    is_off_limits(p, &limits.1, v, n)
}

// whether the actions of a row go to no node that is forbidden
fn row_is_allowed(
    p: &Problem,
    constraint: &Constraint,
    limits: (&Vms, Places<'_>),
    v: VmId,
    row: Row,
) -> bool
    requires machine { v.0 < machine_count p.now.given }
    requires form { the_form_of constraint.now ≡ Allowed limits.0.now (places_seen limits.1) }
    ensures { IsTrue result → MayGo p.now.given constraint.now v.0 row.place }
{
    match row.place {
        Place::Nowhere => true,
        Place::At(n) => !forbids(p, constraint, limits, v, n),
    }
}

// whether so are those of each row
fn rows_are_allowed(
    p: &Problem,
    constraint: &Constraint,
    limits: (&Vms, Places<'_>),
    v: VmId,
    rows: &[Row],
) -> bool
    requires machine { v.0 < machine_count p.now.given }
    requires form { the_form_of constraint.now ≡ Allowed limits.0.now (places_seen limits.1) }
    ensures { IsTrue result → (i : ℕ) → i < length rows.now → MayGo p.now.given constraint.now v.0 (slice_index_or rows.now i no_row).place }
{
    for i in 0..rows.len() {
        if !row_is_allowed(p, constraint, limits, v, rows[i]) {
            return false;
        }
    }
    true
}

// whether a machine has no host that is forbidden, or leaves it where the horizon alone counts
#[tactic(auto, using(crate::proofs::AllowedLemmas::no_host, crate::proofs::AllowedLemmas::other_host, crate::proofs::AllowedLemmas::leaves_host))]
fn host_is_allowed(
    p: &Problem,
    constraint: &Constraint,
    limits: (&Vms, Places<'_>),
    v: VmId,
    domain: &Domain,
) -> bool
    requires machine { v.0 < machine_count p.now.given }
    requires form { the_form_of constraint.now ≡ Allowed limits.0.now (places_seen limits.1) }
    ensures { IsTrue result → IsOffHost p.now.given constraint.now v.0 (choices domain.now) }
{
    let Some(h) = host(p, v) else {
        return true;
    };
    if !forbids(p, constraint, limits, v, h) {
        return true;
    }
    !constraint.is_continuous() && leaves_by(p, v, domain, p.horizon())
}

// whether a machine is seen to be nowhere that is forbidden to it
fn machine_is_allowed(
    p: &Problem,
    g: &Region,
    constraint: &Constraint,
    limits: (&Vms, Places<'_>),
    v: VmId,
) -> bool
    requires region { IsSized p.now.given g.now }
    requires machine { v.0 < machine_count p.now.given }
    requires form { the_form_of constraint.now ≡ Allowed limits.0.now (places_seen limits.1) }
    ensures { IsTrue result → IsAllowed p.now.given (sets g.now) constraint.now v.0 }
{
    let domain = g.domain(Element::Vm(v));
    if domain.is_empty() {
        return false;
    }
    let rows = domain.rows();
    rows_are_allowed(p, constraint, limits, v, rows)
        && host_is_allowed(p, constraint, limits, v, domain)
}

// whether a machine has a choice left
fn has_choice(p: &Problem, g: &Region, v: VmId) -> bool
    requires region { IsSized p.now.given g.now }
    requires machine { v.0 < machine_count p.now.given }
    ensures { IsTrue result → sets g.now (Vm v) ≢ [] }
{
    !g.domain(Element::Vm(v)).is_empty()
}

/// Whether a constraint that is clean is seen to stay so where a machine loses choices: it does as long as one is left, since
/// under none of them the machine was where the constraint lets it not be.
pub fn is_spared(p: &Problem, g: &Region, c: u32, v: VmId) -> bool
    requires region { IsSized p.now.given g.now }
    requires constraint { c < length p.now.given.constraints }
    requires machine { v.0 < machine_count p.now.given }
    ensures { IsTrue result → IsHarmless (constraint_watch p.now.given c) p.now.given (sets g.now) (Vm v) }
{
    match limits_of(&p.constraints()[c as usize]) {
        None => false,
        Some(_) => has_choice(p, g, v),
    }
}

// whether each of these machines is seen to be nowhere that the constraint forbids to its members.
fn are_allowed(
    p: &Problem,
    g: &Region,
    constraint: &Constraint,
    limits: (&Vms, Places<'_>),
    machines: &[VmId],
) -> bool
    requires region { IsSized p.now.given g.now }
    requires form { the_form_of constraint.now ≡ Allowed limits.0.now (places_seen limits.1) }
    requires machines { list_all (λ x. nat_lt x.0 (machine_count p.now.given)) machines.now ≡ true }
    ensures { IsTrue result → (v : ℕ) → IsMember machines.now v → IsAllowed p.now.given (sets g.now) constraint.now v }
{
    for i in 0..machines.len() {
        if !machine_is_allowed(p, g, constraint, limits, machines[i]) {
            return false;
        }
    }
    true
}

/// Whether it is seen that each member of a constraint is only where the constraint lets it be.
pub fn is_kept(p: &Problem, g: &Region, constraint: &Constraint) -> bool
    requires region { IsSized p.now.given g.now }
    requires rule { is_rule (inventory_of p.now.given) constraint.now ≡ true }
    ensures { IsTrue result → IsClean (rule_watch p.now.given constraint.now) p.now.given (sets g.now) }
{
    match limits_of(constraint) {
        None => false,
        Some(limits) => are_allowed(p, g, constraint, limits, limits.0.items()),
    }
}
