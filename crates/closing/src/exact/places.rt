//! Machines where a constraint lets them not be.
ghost use Rattle.std.specs.Prelude.{◌≡◌, ℕ, ◌<◌, false, nat_lt, true, IsTrue};
ghost use Rattle.std.specs.List.{list_all};
ghost use Rattle.relax.specs.Prelude.{Instance, is_in, IsHeldWithin, IsOffLimits, IsSized, machine_count, node_count, one, places_seen, sets};
ghost use Rattle.closing.specs.{Looks.IsFound, Stands.AreWithin, Stands.IsAnyOf, Stands.IsMisplaced, Stands.IsPlacedBadly, Stands.IsWithin, Stands.has_node_of, Stands.is_node};

use crate::exact::each::{OfMachine, found_in};
use crate::look::Look;
use crate::shared::counts::nodes_of;
use crate::shared::ends::{Test, end_that};
use crate::shared::stands::{Stands, standing};
use catalogue::Problem;
use cluster::{Choice, Element, Instant, NodeId, VmId};
use domains::Region;
use slices::choice::holding;
use slices::form::{Places, is_off_limits};
use slices::holding::Held;

// whether a machine is held where it may not be
fn is_forbidden(p: &Problem, places: &Places, v: VmId, held: Option<Held>) -> bool
    requires machine { v.0 < machine_count p.now.given }
    requires within { IsHeldWithin (node_count p.now.given) held }
    ensures yes { IsTrue result → (n : ℕ) × (n < node_count p.now.given) × IsOffLimits p.now.given (places_seen places.now) v.0 n × IsTrue (is_in (one n) held) }
    ensures no { result ≡ false → (n : ℕ) → n < node_count p.now.given → IsOffLimits p.now.given (places_seen places.now) v.0 n → is_in (one n) held ≡ false }
{
    match held {
        None => false,
        Some(h) => is_off_limits(p, places, v, h.node),
    }
}

// whether under a choice a machine is where it may not be
#[derive(Drop)]
struct Misplaced<'a> {
    problem: &'a Problem,
    places: &'a Places<'a>,
    machine: VmId,
    at: Instant,
}

impl Test for Misplaced<'_> {
    ghost ready = { λ m. m.machine.0 < machine_count m.problem.now.given };

    ghost meant = { λ m. IsMisplaced m.problem.now.given (places_seen m.places.now) m.machine.0 m.at };

    fn passes(&self, c: Choice) -> bool {
        let now = holding(self.problem, self.machine, c, self.at);
        is_forbidden(self.problem, self.places, self.machine, now.source)
            || is_forbidden(self.problem, self.places, self.machine, now.target)
    }
}

// whether a machine may not be on a node, if there is one
fn is_bad(p: &Problem, places: &Places, v: VmId, node: Option<NodeId>) -> bool
    requires machine { v.0 < machine_count p.now.given }
    requires within { IsWithin (node_count p.now.given) node }
    ensures yes { IsTrue result → (n : ℕ) × (n < node_count p.now.given) × IsOffLimits p.now.given (places_seen places.now) v.0 n × IsTrue (is_node node n) }
    ensures no { result ≡ false → (n : ℕ) → n < node_count p.now.given → IsOffLimits p.now.given (places_seen places.now) v.0 n → is_node node n ≡ false }
{
    match node {
        None => false,
        Some(n) => is_off_limits(p, places, v, n),
    }
}

// whether there is a node on which it may not be
fn forbids_any(p: &Problem, places: &Places, v: VmId) -> bool
    requires { v.0 < machine_count p.now.given }
    ensures yes { IsTrue result → (n : ℕ) × (n < node_count p.now.given) × IsOffLimits p.now.given (places_seen places.now) v.0 n }
    ensures no { result ≡ false → (n : ℕ) → n < node_count p.now.given → ¬ IsOffLimits p.now.given (places_seen places.now) v.0 n }
{
    for i in 0..nodes_of(p) {
        if is_off_limits(p, places, v, NodeId(i as u32)) {
            return true;
        }
    }
    false
}

// whether it stands where it may not be
fn stands_badly(p: &Problem, places: &Places, v: VmId, stands: Stands) -> bool
    requires machine { v.0 < machine_count p.now.given }
    requires within { AreWithin (node_count p.now.given) stands }
    ensures yes { IsTrue result → (n : ℕ) × (n < node_count p.now.given) × IsOffLimits p.now.given (places_seen places.now) v.0 n × IsTrue (has_node_of stands n) }
    ensures no { result ≡ false → (n : ℕ) → n < node_count p.now.given → IsOffLimits p.now.given (places_seen places.now) v.0 n → has_node_of stands n ≡ false }
{
    match stands {
        Stands::Everywhere => forbids_any(p, places, v),
        Stands::On(a, b) => is_bad(p, places, v, a) || is_bad(p, places, v, b),
    }
}

// a look at whether a machine is where it may not be
fn member_found(p: &Problem, g: &Region, places: &Places, v: VmId, t: Instant) -> Look
    requires region { IsSized p.now.given g.now }
    requires machine { v.0 < machine_count p.now.given }
    ensures { IsFound (IsPlacedBadly p.now.given (places_seen places.now) v.0) p.now.given (sets g.now) t result }
{
    if stands_badly(p, places, v, standing(p, g, v, t)) {
        return Look::Fail(t);
    }
    let e = Element::Vm(v);
    let test = Misplaced {
        problem: p,
        places,
        machine: v,
        at: t,
    };
    match end_that(g.domain(e), &test) {
        None => Look::Clean,
        Some(c) => Look::Cut(e, c, t),
    }
}

// of each machine, whether it is where it may not be
#[derive(Drop)]
struct Placed<'a> {
    places: &'a Places<'a>,
}

impl OfMachine for Placed<'_> {
    ghost ready = { λ m p. Unit {0} };

    ghost met = { λ m p. IsPlacedBadly p (places_seen m.places.now) };

    fn found(&self, p: &Problem, g: &Region, v: VmId, t: Instant) -> Look {
        member_found(p, g, self.places, v, t)
    }
}

/// A look at whether one of the machines is where it may not be.
pub fn placed_found(p: &Problem, g: &Region, machines: &[VmId], places: &Places, t: Instant) -> Look
    requires region { IsSized p.now.given g.now }
    requires machines { list_all (λ x. nat_lt x.0 (machine_count p.now.given)) machines.now ≡ true }
    ensures { IsFound (IsAnyOf machines.now (IsPlacedBadly p.now.given (places_seen places.now))) p.now.given (sets g.now) t result }
{
    found_in(&Placed { places }, p, g, machines, t)
}
