//! Constraints on whole groups of machines.
ghost use Rattle.std.specs.Prelude.{◌≡◌, ℕ, ◌<◌, nat_lt, true, IfNone, IfSome};
ghost use Rattle.{std.specs.List.list_all, closing.specs.Looks.IsFound, closing.specs.Parts.FailAtEnds, closing.specs.Parts.IsEndThat, closing.specs.Stands.IsGroupWith};
ghost use Rattle.relax.specs.Prelude.{form_of, inventory_of, is_rule, IsGroup, IsMember, IsSized, machine_count, members, sets, vm};

use crate::look::Look;
use crate::shared::ends::{Test, end_that};
use catalogue::{Constraint, Problem};
use cluster::{Choice, Element, Instant, VmId};
use domains::{Lens, Region, View};
use relax::groups::is_group;

// whether the condition is met with a machine set to a choice
#[derive(Drop)]
struct GroupWith<'a> {
    problem: &'a Problem,
    region: &'a Region,
    constraint: &'a Constraint,
    machine: VmId,
    at: Instant,
}

impl Test for GroupWith<'_> {
    ghost ready = { λ m. IsSized m.problem.now.given m.region.now × (is_rule (inventory_of m.problem.now.given) m.constraint.now ≡ true) };

    ghost meant = { λ m. IsGroupWith m.problem.now.given (sets m.region.now) m.constraint.now m.at m.machine.0 };

    fn passes(&self, c: Choice) -> bool {
        let view = View {
            region: self.region,
            lens: Lens::Set(Element::Vm(self.machine), c),
        };
        is_group(self.problem, &view, self.constraint, self.at)
    }
}

// a machine of a list and an end of its choices with which the condition is met
fn member_with(
    p: &Problem,
    g: &Region,
    constraint: &Constraint,
    machines: &[VmId],
    t: Instant,
) -> Option<(VmId, Choice)>
    requires region { IsSized p.now.given g.now }
    requires rule { is_rule (inventory_of p.now.given) constraint.now ≡ true }
    requires machines { list_all (λ x. nat_lt x.0 (machine_count p.now.given)) machines.now ≡ true }
    ensures none { IfNone result ((v : ℕ) → IsMember machines.now v → FailAtEnds (IsGroupWith p.now.given (sets g.now) constraint.now t v) (sets g.now (vm v))) }
    ensures some { IfSome result (λ x. (x.0.0 < machine_count p.now.given) × IsEndThat (IsGroupWith p.now.given (sets g.now) constraint.now t x.0.0) (sets g.now (vm x.0.0)) x.1) }
{
    for i in 0..machines.len() {
        let v = machines[i];
        let test = GroupWith {
            problem: p,
            region: g,
            constraint,
            machine: v,
            at: t,
        };
        if let Some(c) = end_that(g.domain(Element::Vm(v)), &test) {
            return Some((v, c));
        }
    }
    None
}

/// A look at whether no group of a constraint has all its members, or their actions overlap.
pub fn group_found(
    p: &Problem,
    g: &Region,
    constraint: &Constraint,
    machines: &[VmId],
    t: Instant,
) -> Look
    requires region { IsSized p.now.given g.now }
    requires rule { is_rule (inventory_of p.now.given) constraint.now ≡ true }
    requires machines { list_all (λ x. nat_lt x.0 (machine_count p.now.given)) machines.now ≡ true }
    requires members { machines.now ≡ members (form_of constraint.now) }
    ensures { IsFound (λ s. IsGroup p.now.given s constraint.now) p.now.given (sets g.now) t result }
{
    let view = View {
        region: g,
        lens: Lens::Whole,
    };
    if is_group(p, &view, constraint, t) {
        return Look::Fail(t);
    }
    match member_with(p, g, constraint, machines, t) {
        None => Look::Clean,
        Some((v, c)) => Look::Cut(Element::Vm(v), c, t),
    }
}
