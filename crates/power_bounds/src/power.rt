//! Whether the nodes of a constraint that are powered stay within its amount.
ghost use Rattle.std.specs.Prelude.{◌≡◌, ◌+◌, ◌<◌, ◌≤◌, ℕ, IfSome, IsTrue, true};
ghost use Rattle.power_bounds.specs.Prelude.{AreNotPowered, form_of as the_form_of, has_node, IsPoweredFit, IsSized, max_nodes, node, node_count, power_most, power_of as the_power_of, powered_most, PowerStaysAt, PowerStaysDuring, PowerStaysPast, PowerStaysWhenDue, sets, sum_to, sure, Choice as AnyChoice, IsElement, IsEnd};

use crate::period::{Period, act, sooner};
use catalogue::{Constraint, Problem};
use cluster::{Choice, Element, Instant, NodeId, NodeSet};
use domains::{Lens, Region, Row, View};
use relax::measures::end;
use relax::sure::surely_powered;
use slices::Form;
use slices::choice::powered;
use slices::form::form_of;

/// How many of the nodes of a set may be powered.
#[derive(Clone, Copy)]
pub struct PowerBound {
    pub nodes: NodeSet,
    pub amount: u64,
}

/// How many nodes a constraint lets be powered, if it is on that.
pub fn power_of(constraint: &Constraint) -> Option<PowerBound>
    ensures { result ≡ the_power_of (the_form_of constraint.now) }
{
    match form_of(constraint) {
        Form::Powered(nodes, amount) => Some(PowerBound {
            nodes: *nodes,
            amount,
        }),
        Form::Apart(_)
        | Form::Allowed(..)
        | Form::Together(..)
        | Form::Ordered(..)
        | Form::InTurn(_)
        | Form::Bounded(..)
        | Form::Settled => None,
    }
}

// whether a node is surely powered at an instant
fn is_powered(p: &Problem, g: &Region, n: NodeId, t: Instant) -> bool
    requires region { IsSized p.now.given g.now }
    requires node { n.0 < node_count p.now.given }
    ensures { result ≡ (sure p.now.given (sets g.now) t).powered n.0 }
{
    let view = View {
        region: g,
        lens: Lens::Whole,
    };
    surely_powered(p, &view, n, t)
}

// whether a node of a set is surely powered at one end of a period
fn most_powered(p: &Problem, g: &Region, nodes: &NodeSet, n: NodeId, x: Period) -> bool
    requires region { IsSized p.now.given g.now }
    requires node { n.0 < node_count p.now.given }
    ensures { result ≡ powered_most p.now.given (sets g.now) (has_node nodes.now) x n.0 }
{
    nodes.has(n) && (is_powered(p, g, n, x.from) || is_powered(p, g, n, x.to))
}

// 1 for a node that is
fn counted(p: &Problem, g: &Region, nodes: &NodeSet, n: NodeId, x: Period) -> u64
    requires region { IsSized p.now.given g.now }
    requires node { n.0 < node_count p.now.given }
    ensures counted { result ≡ power_most p.now.given (sets g.now) (has_node nodes.now) x n.0 }
    ensures small { result ≤ 1 }
{
    u64::from(most_powered(p, g, nodes, n, x))
}

// how many are
fn powered_total(p: &Problem, g: &Region, nodes: &NodeSet, x: Period) -> u64
    requires region { IsSized p.now.given g.now }
    ensures total { result ≡ sum_to (node_count p.now.given) (power_most p.now.given (sets g.now) (has_node nodes.now) x) }
    ensures small { result ≤ max_nodes }
{
    let mut total = 0;
    for i in 0..p.cluster().nodes().len() {
        total += counted(p, g, nodes, NodeId(i as u32), x);
    }
    total
}

// whether a node is powered under a choice at neither end of a period
fn is_off(p: &Problem, n: NodeId, c: Choice, x: Period) -> bool
    requires { n.0 < node_count p.now.given }
    ensures { IsTrue result → AreNotPowered p.now.given n.0 x c }
{
    !powered(p, n, c, x.from) && !powered(p, n, c, x.to)
}

// whether it is so while a node stays as it is, if it may
fn idle_off(p: &Problem, n: NodeId, idle: bool, x: Period) -> bool
    requires { n.0 < node_count p.now.given }
    ensures { IsTrue result → idle ≡ true → AreNotPowered p.now.given n.0 x AnyChoice.Idle }
{
    !idle || is_off(p, n, Choice::Idle, x)
}

// whether it is so under each end of a node's choices
fn stays_off(p: &Problem, g: &Region, n: NodeId, x: Period) -> bool
    requires region { IsSized p.now.given g.now }
    requires node { n.0 < node_count p.now.given }
    ensures { IsTrue result → (c : AnyChoice) → IsEnd (sets g.now (node n.0)) c → AreNotPowered p.now.given n.0 x c }
{
    let domain = g.domain(Element::Node(n));
    if !idle_off(p, n, domain.idle(), x) {
        return false;
    }
    let rows = domain.rows();
    for i in 0..rows.len() {
        if !is_off(p, n, act(rows[i], rows[i].lo), x) {
            return false;
        }
        if !is_off(p, n, act(rows[i], rows[i].hi), x) {
            return false;
        }
    }
    true
}

// whether a node of a set is surely powered during a period, or under no end of its choices
#[tactic(auto, using(crate::proofs::PowerLemmas::off_fits, crate::proofs::PowerLemmas::on_fits, crate::proofs::PowerLemmas::out_fits))]
fn node_fits(p: &Problem, g: &Region, nodes: &NodeSet, n: NodeId, x: Period) -> bool
    requires region { IsSized p.now.given g.now }
    requires node { n.0 < node_count p.now.given }
    ensures { IsTrue result → IsPoweredFit p.now.given (sets g.now) (has_node nodes.now) x n.0 }
{
    if !nodes.has(n) {
        return true;
    }
    if is_powered(p, g, n, x.from) && is_powered(p, g, n, x.to) {
        return true;
    }
    stays_off(p, g, n, x)
}

// whether each is
fn nodes_fit(p: &Problem, g: &Region, nodes: &NodeSet, x: Period) -> bool
    requires region { IsSized p.now.given g.now }
    ensures { IsTrue result → (n : ℕ) → n < node_count p.now.given → IsPoweredFit p.now.given (sets g.now) (has_node nodes.now) x n }
{
    for i in 0..p.cluster().nodes().len() {
        if !node_fits(p, g, nodes, NodeId(i as u32), x) {
            return false;
        }
    }
    true
}

// whether it is seen that no more are powered than may be during a period, with any one element set to any end of its choices
fn power_during(p: &Problem, g: &Region, bound: &PowerBound, x: Period) -> bool
    requires region { IsSized p.now.given g.now }
    ensures { IsTrue result → PowerStaysDuring p.now.given (sets g.now) (has_node bound.now.nodes) bound.now.amount x }
{
    let total = powered_total(p, g, &bound.nodes, x);
    if total < bound.amount {
        return true;
    }
    if total > bound.amount {
        return false;
    }
    nodes_fit(p, g, &bound.nodes, x)
}

// the first instant after one at which a row of these starts or ends to be powered
fn next_of_rows(p: &Problem, e: Element, rows: &[Row], after: u64, best: u64) -> u64
    requires element { IsElement p.now.given e }
    requires later { after < best }
    ensures later { after < result }
    ensures less { result ≤ best }
{
    let mut next = best;
    for row in rows {
        next = sooner(after, next, u64::from(row.lo));
        next = sooner(after, next, u64::from(row.hi));
        next = sooner(after, next, end(p, e, act(*row, row.lo)));
        next = sooner(after, next, end(p, e, act(*row, row.hi)));
    }
    next
}

// the first one at which a node may change, or the one after the horizon
fn next_change(p: &Problem, g: &Region, after: u64) -> u64
    requires region { IsSized p.now.given g.now }
    requires within { after ≤ p.now.given.horizon }
    ensures later { after < result }
    ensures most { result ≤ p.now.given.horizon + 1 }
{
    let mut next = u64::from(p.horizon()) + 1;
    for i in 0..p.cluster().nodes().len() {
        let e = Element::Node(NodeId(i as u32));
        next = next_of_rows(p, e, g.domain(e).rows(), after, next);
    }
    next
}

// the end of a period from an instant on in which it is seen, if it is
fn power_until(p: &Problem, g: &Region, bound: &PowerBound, from: u64) -> Option<u64>
    requires region { IsSized p.now.given g.now }
    requires within { from ≤ p.now.given.horizon }
    ensures { IfSome result (PowerStaysPast p.now.given (sets g.now) (has_node bound.now.nodes) bound.now.amount from) }
{
    let next = next_change(p, g, from);
    let x = Period {
        from: from as u32,
        to: (next - 1) as u32,
    };
    if power_during(p, g, bound, x) {
        return Some(next);
    }
    None
}

// whether it is seen at all instants
fn power_always(p: &Problem, g: &Region, bound: &PowerBound) -> bool
    requires region { IsSized p.now.given g.now }
    ensures { IsTrue result → (t : ℕ) → t ≤ p.now.given.horizon → PowerStaysAt p.now.given (sets g.now) (has_node bound.now.nodes) bound.now.amount t }
{
    let end = u64::from(p.horizon()) + 1;
    let mut from = 0u64;
    'periods: while from < end {
        let Some(until) = power_until(p, g, bound, from) else {
            return false;
        };
        from = until;
    }
    true
}

// whether it is seen at the horizon
fn power_last(p: &Problem, g: &Region, bound: &PowerBound) -> bool
    requires region { IsSized p.now.given g.now }
    ensures { IsTrue result → PowerStaysAt p.now.given (sets g.now) (has_node bound.now.nodes) bound.now.amount p.now.given.horizon }
{
    let last = Period {
        from: p.horizon(),
        to: p.horizon(),
    };
    power_during(p, g, bound, last)
}

/// Whether it is seen whenever it has to be so: always, or at the horizon alone.
pub fn power_when_due(p: &Problem, g: &Region, bound: &PowerBound, always: bool) -> bool
    requires region { IsSized p.now.given g.now }
    ensures { IsTrue result → PowerStaysWhenDue p.now.given (sets g.now) (has_node bound.now.nodes) bound.now.amount always }
{
    if always {
        return power_always(p, g, bound);
    }
    power_last(p, g, bound)
}
