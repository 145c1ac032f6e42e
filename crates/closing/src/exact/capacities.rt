//! What machines hold, and powered nodes, on the nodes of a constraint.
ghost use Rattle.std.specs.Prelude.{◌≡◌, ℕ, ◌+◌, ◌<◌, ◌≤◌, false, IfNone, IfSome, IsTrue};
ghost use Rattle.relax.specs.Prelude.{has_node, IsSized, IsWeight, node, node_count, powered_nodes as powered_nodes_of, sets, sure, total as total_of};
ghost use Rattle.closing.specs.{Looks.IsFound, Parts.FailAtEnds, Parts.IsEndThat, Parts.IsPoweredUnder};

use crate::exact::above::machine_above;
use crate::look::Look;
use crate::shared::counts::nodes_of;
use crate::shared::ends::{Test, end_that};
use catalogue::Problem;
use cluster::{Choice, Element, Instant, NodeId, NodeSet};
use domains::{Lens, Region, View};
use relax::{Area, powered_nodes, surely_powered, total};
use slices::Weight;
use slices::choice::powered;

/// A look at whether what machines hold on the nodes exceeds an amount.
pub fn amount_found(
    p: &Problem,
    g: &Region,
    weight: Weight,
    nodes: &NodeSet,
    amount: u64,
    t: Instant,
) -> Look
    requires region { IsSized p.now.given g.now }
    requires weight { IsWeight p.now.given weight }
    ensures { IsFound (λ s. amount < total_of p.now.given s weight (has_node nodes.now)) p.now.given (sets g.now) t result }
{
    let view = View {
        region: g,
        lens: Lens::Whole,
    };
    let area = Area::In(*nodes);
    let held = total(p, &view, weight, &area, t);
    if held > amount {
        return Look::Fail(t);
    }
    match machine_above(p, g, weight, &area, t, amount - held) {
        None => Look::Clean,
        Some((v, c)) => Look::Cut(Element::Vm(v), c, t),
    }
}

// whether a node is powered at an instant
#[derive(Drop)]
struct Powered<'a> {
    problem: &'a Problem,
    node: NodeId,
    at: Instant,
}

impl Test for Powered<'_> {
    ghost ready = { λ m. m.node.0 < node_count m.problem.now.given };

    ghost meant = { λ m. IsPoweredUnder m.problem.now.given m.node.0 m.at };

    fn passes(&self, c: Choice) -> bool {
        powered(self.problem, self.node, c, self.at)
    }
}

// an end of a node's choices under which it is powered, where it is in the set and not surely so
fn end_powered(p: &Problem, g: &Region, nodes: &NodeSet, n: NodeId, t: Instant) -> Option<Choice>
    requires region { IsSized p.now.given g.now }
    requires node { n.0 < node_count p.now.given }
    ensures none { IfNone result (IsTrue (has_node nodes.now n.0) → (sure p.now.given (sets g.now) t).powered n.0 ≡ false → FailAtEnds (IsPoweredUnder p.now.given n.0 t) (sets g.now (node n.0))) }
    ensures some { IfSome result (λ c. IsTrue (has_node nodes.now n.0) × ((sure p.now.given (sets g.now) t).powered n.0 ≡ false) × IsEndThat (IsPoweredUnder p.now.given n.0 t) (sets g.now (node n.0)) c) }
{
    let view = View {
        region: g,
        lens: Lens::Whole,
    };
    if !nodes.has(n) || surely_powered(p, &view, n, t) {
        return None;
    }
    let test = Powered {
        problem: p,
        node: n,
        at: t,
    };
    end_that(g.domain(Element::Node(n)), &test)
}

// where as many nodes of the set are surely powered as may be
fn one_more_found(p: &Problem, g: &Region, nodes: &NodeSet, amount: u64, t: Instant) -> Look
    requires region { IsSized p.now.given g.now }
    requires full { powered_nodes_of p.now.given (sure p.now.given (sets g.now) t) (has_node nodes.now) ≡ amount }
    ensures { IsFound (λ s. amount < powered_nodes_of p.now.given s (has_node nodes.now)) p.now.given (sets g.now) t result }
{
    for i in 0..nodes_of(p) {
        let n = NodeId(i as u32);
        if let Some(c) = end_powered(p, g, nodes, n, t) {
            return Look::Cut(Element::Node(n), c, t);
        }
    }
    Look::Clean
}

/// A look at whether the powered ones of the nodes are more than an amount.
pub fn powered_found(p: &Problem, g: &Region, nodes: &NodeSet, amount: u64, t: Instant) -> Look
    requires region { IsSized p.now.given g.now }
    ensures { IsFound (λ s. amount < powered_nodes_of p.now.given s (has_node nodes.now)) p.now.given (sets g.now) t result }
{
    let view = View {
        region: g,
        lens: Lens::Whole,
    };
    let count = powered_nodes(p, &view, &Area::In(*nodes), t);
    if count > amount {
        return Look::Fail(t);
    }
    if count < amount {
        return Look::Clean;
    }
    one_more_found(p, g, nodes, amount, t)
}
