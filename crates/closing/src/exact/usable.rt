//! Nodes that are needed and may not be usable.
ghost use Rattle.std.specs.Prelude.{◌≡◌, ℕ, ◌<◌, ◌≤◌, false, IfNone, IfSome, IsTrue};
ghost use Rattle.relax.specs.Prelude.{IsElement, IsSized, machine_count, node, node_count, sets, stands_on, sure, vm};
ghost use Rattle.closing.specs.{Kinds.IsNeeded, Looks.IsFound, Parts.FailAtEnds, Parts.IsEndThat, Parts.IsNotUsable, Parts.NoneAmong, Parts.StandsUnder};

use crate::look::Look;
use crate::shared::counts::machines_of;
use crate::shared::ends::{Test, end_at, end_that};
use catalogue::Problem;
use cluster::{Choice, Element, Instant, NodeId, Place, VmId};
use domains::{Lens, Region, View};
use relax::{Area, held, is_host, may_be_usable, surely_has_image, surely_in};
use slices::Weight;
use slices::choice::usable;

/// Whether a node is not usable at an instant.
#[derive(Drop)]
pub struct NotUsable<'a> {
    pub problem: &'a Problem,
    pub node: NodeId,
    pub at: Instant,
}

impl Test for NotUsable<'_> {
    ghost ready = { λ m. IsElement m.problem.now.given (node m.node.0) };

    ghost meant = { λ m. IsNotUsable m.problem.now.given m.node.0 m.at };

    fn passes(&self, c: Choice) -> bool {
        !usable(self.problem, self.node, c, self.at)
    }
}

// whether a machine is on a node at an instant, or has its image there
#[derive(Drop)]
struct StandsOn<'a> {
    problem: &'a Problem,
    machine: VmId,
    node: NodeId,
    at: Instant,
}

impl Test for StandsOn<'_> {
    ghost ready = { λ m. IsElement m.problem.now.given (vm m.machine.0) };

    ghost meant = { λ m. StandsUnder m.problem.now.given m.machine.0 m.node.0 m.at };

    fn passes(&self, c: Choice) -> bool {
        let area = Area::One(self.node);
        held(
            self.problem,
            self.machine,
            Weight::Presence,
            &area,
            c,
            self.at,
        ) > 0
            || held(self.problem, self.machine, Weight::Image, &area, c, self.at) > 0
    }
}

// whether a machine is surely on a node, or surely has its image there
fn surely_stands(p: &Problem, g: &Region, v: VmId, n: NodeId, t: Instant) -> bool
    requires region { IsSized p.now.given g.now }
    requires machine { IsElement p.now.given (Element.Vm v) }
    ensures { result ≡ stands_on (sure p.now.given (sets g.now) t) v.0 n.0 }
{
    let view = View {
        region: g,
        lens: Lens::Whole,
    };
    let area = Area::One(n);
    surely_in(p, &view, v, &area, t) || surely_has_image(p, &view, v, &area, t)
}

// whether some machine surely is or has
fn is_needed(p: &Problem, g: &Region, n: NodeId, t: Instant) -> bool
    requires region { IsSized p.now.given g.now }
    ensures yes { IsTrue result → (v : ℕ) × (v < machine_count p.now.given) × IsTrue (stands_on (sure p.now.given (sets g.now) t) v n.0) }
    ensures no { result ≡ false → (v : ℕ) → v < machine_count p.now.given → stands_on (sure p.now.given (sets g.now) t) v n.0 ≡ false }
{
    for i in 0..machines_of(p) {
        if surely_stands(p, g, VmId(i as u32), n, t) {
            return true;
        }
    }
    false
}

// an end of a machine's choices under which it is on the node or has its image there
fn end_on(p: &Problem, g: &Region, v: VmId, n: NodeId, t: Instant) -> Option<Choice>
    requires region { IsSized p.now.given g.now }
    requires machine { v.0 < machine_count p.now.given }
    ensures none { IfNone result (FailAtEnds (StandsUnder p.now.given v.0 n.0 t) (sets g.now (vm v.0))) }
    ensures some { IfSome result (IsEndThat (StandsUnder p.now.given v.0 n.0 t) (sets g.now (vm v.0))) }
{
    let test = StandsOn {
        problem: p,
        machine: v,
        node: n,
        at: t,
    };
    let domain = g.domain(Element::Vm(v));
    if is_host(p, v, n) {
        end_that(domain, &test)
    } else {
        end_at(domain, Place::At(n), &test)
    }
}

// of the machines that the node hosts, or of the others, one and such an end of its choices
fn machine_among(
    p: &Problem,
    g: &Region,
    n: NodeId,
    t: Instant,
    hosted: bool,
) -> Option<(VmId, Choice)>
    requires region { IsSized p.now.given g.now }
    ensures none { IfNone result (NoneAmong p.now.given (sets g.now) n.0 t hosted (machine_count p.now.given)) }
    ensures some { IfSome result (λ x. (x.0.0 < machine_count p.now.given) × IsEndThat (StandsUnder p.now.given x.0.0 n.0 t) (sets g.now (vm x.0.0)) x.1) }
{
    for i in 0..machines_of(p) {
        let v = VmId(i as u32);
        if is_host(p, v, n) == hosted {
            if let Some(c) = end_on(p, g, v, n, t) {
                return Some((v, c));
            }
        }
    }
    None
}

// a machine and such an end of its choices; those from elsewhere are tried first, of which one row is looked at
fn machine_on(p: &Problem, g: &Region, n: NodeId, t: Instant) -> Option<(VmId, Choice)>
    requires region { IsSized p.now.given g.now }
    ensures none { IfNone result ((v : ℕ) → v < machine_count p.now.given → FailAtEnds (StandsUnder p.now.given v n.0 t) (sets g.now (vm v))) }
    ensures some { IfSome result (λ x. (x.0.0 < machine_count p.now.given) × IsEndThat (StandsUnder p.now.given x.0.0 n.0 t) (sets g.now (vm x.0.0)) x.1) }
{
    match machine_among(p, g, n, t, false) {
        Some((v, c)) => Some((v, c)),
        None => machine_among(p, g, n, t, true),
    }
}

// of a node that may be usable
fn found_where_usable(p: &Problem, g: &Region, n: NodeId, t: Instant) -> Look
    requires region { IsSized p.now.given g.now }
    requires node { n.0 < node_count p.now.given }
    requires usable { IsTrue ((sure p.now.given (sets g.now) t).usable n.0) }
    ensures { IsFound (IsNeeded p.now.given n.0) p.now.given (sets g.now) t result }
{
    let e = Element::Node(n);
    let test = NotUsable {
        problem: p,
        node: n,
        at: t,
    };
    match end_that(g.domain(e), &test) {
        None => Look::Clean,
        Some(c) => {
            if is_needed(p, g, n, t) {
                Look::Cut(e, c, t)
            } else {
                Look::Clean
            }
        }
    }
}

// of a node that is surely not usable
fn found_where_not(p: &Problem, g: &Region, n: NodeId, t: Instant) -> Look
    requires region { IsSized p.now.given g.now }
    requires node { n.0 < node_count p.now.given }
    requires usable { (sure p.now.given (sets g.now) t).usable n.0 ≡ false }
    ensures { IsFound (IsNeeded p.now.given n.0) p.now.given (sets g.now) t result }
{
    if is_needed(p, g, n, t) {
        return Look::Fail(t);
    }
    match machine_on(p, g, n, t) {
        None => Look::Clean,
        Some((v, c)) => Look::Cut(Element::Vm(v), c, t),
    }
}

/// A look at one instant at whether a node on which a machine is, or has its image, is usable.
pub fn usable_found(p: &Problem, g: &Region, n: NodeId, t: Instant) -> Look
    requires region { IsSized p.now.given g.now }
    requires node { n.0 < node_count p.now.given }
    ensures { IsFound (IsNeeded p.now.given n.0) p.now.given (sets g.now) t result }
{
    let view = View {
        region: g,
        lens: Lens::Whole,
    };
    if may_be_usable(p, &view, n, t) {
        found_where_usable(p, g, n, t)
    } else {
        found_where_not(p, g, n, t)
    }
}
