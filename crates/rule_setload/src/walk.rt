//! Periods one after the other, from one change of what machines hold on the nodes of a bound to the next.
ghost use Rattle.std.specs.Prelude.{◌≡◌, ◌+◌, ◌<◌, ◌≤◌, IfSome, IsTrue, length};
ghost use Rattle.rule_setload.specs.Prelude.{AreConcerned, AreStanding, AreStayersTo, has_node, IsSized, IsWeight, machine_count, sets, StaysAt, StaysIn, StaysPast, StaysWhenDue};

use crate::bounds::Bound;
use crate::concerned::{Members, weighing};
use crate::fit::stays_during;
use crate::movers_hold::is_outside;
use crate::stayers::Stayers;
use power_bounds::period::{Period, sooner};
use rule_constraint::host;
use rule_frame::{Element, NodeSet, Problem, Region, Row, VmId};
use standings::numbers::Standing;

// the first instant of these at which a row at the nodes starts or ends
fn next_of_rows(rows: &[Row], nodes: &NodeSet, after: u64, best: u64) -> u64
    requires { after < best }
    ensures later { after < result }
    ensures less { result ≤ best }
{
    let mut next = best;
    for row in rows {
        if !is_outside(row.place, nodes) {
            next = sooner(after, next, u64::from(row.lo));
            next = sooner(after, next, u64::from(row.hi));
        }
    }
    next
}

// whether a machine is on a node of a bound at present
fn is_inside(p: &Problem, v: VmId, bound: &Bound) -> bool
    requires { v.0 < machine_count p.now.given }
{
    match host(p, v) {
        None => false,
        Some(h) => bound.nodes.has(h),
    }
}

// the first instant of these at which a machine may have left the nodes, or come to them
fn next_of_machine(
    p: &Problem,
    g: &Region,
    k: Standing,
    v: VmId,
    bound: &Bound,
    after: u64,
    best: u64,
) -> u64
    requires region { IsSized p.now.given g.now }
    requires machine { v.0 < machine_count p.now.given }
    requires later { after < best }
    ensures later { after < result }
    ensures less { result ≤ best }
{
    let mut next = best;
    if is_inside(p, v, bound) {
        next = sooner(after, next, k.leave);
    }
    let domain = g.domain(Element::Vm(v));
    if domain.idle() {
        next
    } else {
        next_of_rows(domain.rows(), &bound.nodes, after, next)
    }
}

/// The first instant after one at which what these machines hold may change, or the one after the horizon.
pub(crate) fn next_change(
    p: &Problem,
    g: &Region,
    ks: &[Standing],
    bound: &Bound,
    members: &Members,
    after: u64,
) -> u64
    requires region { IsSized p.now.given g.now }
    requires count { length ks.now ≡ machine_count p.now.given }
    requires within { after ≤ p.now.given.horizon }
    ensures later { after < result }
    ensures most { result ≤ p.now.given.horizon + 1 }
{
    let mut next = u64::from(p.horizon()) + 1;
    for i in 0..p.cluster().machines().len() {
        let v = VmId(i as u32);
        if members.machines.has(v) {
            next = next_of_machine(p, g, ks[i], v, bound, after, next);
        }
    }
    next
}

// the end of a period from an instant on in which it is seen that what machines hold stays within an amount, if it is
fn stays_until(
    p: &Problem,
    g: &Region,
    ks: &[Standing],
    bound: &Bound,
    members: &Members,
    from: u64,
) -> Option<u64>
    requires region { IsSized p.now.given g.now }
    requires standings { AreStanding p.now.given (sets g.now) ks.now }
    requires weight { IsWeight p.now.given bound.now.weight }
    requires members { AreConcerned p.now.given (sets g.now) bound.now.weight (has_node bound.now.nodes) members.now }
    requires within { from ≤ p.now.given.horizon }
    ensures { IfSome result (StaysPast p.now.given (sets g.now) bound.now.weight (has_node bound.now.nodes) bound.now.amount from) }
{
    let next = next_change(p, g, ks, bound, members, from);
    let x = Period {
        from: from as u32,
        to: (next - 1) as u32,
    };
    if stays_during(p, g, ks, bound, members, x) {
        return Some(next);
    }
    None
}

// whether it is seen at all instants, period by period
fn stays_by_periods(
    p: &Problem,
    g: &Region,
    ks: &[Standing],
    bound: &Bound,
    members: &Members,
) -> bool
    requires region { IsSized p.now.given g.now }
    requires standings { AreStanding p.now.given (sets g.now) ks.now }
    requires weight { IsWeight p.now.given bound.now.weight }
    requires members { AreConcerned p.now.given (sets g.now) bound.now.weight (has_node bound.now.nodes) members.now }
    ensures { IsTrue result → StaysIn p.now.given (sets g.now) bound.now.weight (has_node bound.now.nodes) bound.now.amount }
{
    let end = u64::from(p.horizon()) + 1;
    let mut from = 0u64;
    'periods: while from < end {
        let Some(until) = stays_until(p, g, ks, bound, members, from) else {
            return false;
        };
        from = until;
    }
    true
}

// whether it is seen at all instants: of all at once, or else period by period
fn stays_always(p: &Problem, g: &Region, ks: &[Standing], bound: &Bound, members: &Members) -> bool
    requires region { IsSized p.now.given g.now }
    requires standings { AreStanding p.now.given (sets g.now) ks.now }
    requires weight { IsWeight p.now.given bound.now.weight }
    requires members { AreConcerned p.now.given (sets g.now) bound.now.weight (has_node bound.now.nodes) members.now }
    ensures { IsTrue result → StaysIn p.now.given (sets g.now) bound.now.weight (has_node bound.now.nodes) bound.now.amount }
{
    let whole = Period {
        from: 0,
        to: p.horizon(),
    };
    stays_during(p, g, ks, bound, members, whole) || stays_by_periods(p, g, ks, bound, members)
}

// whether it is seen at the horizon
fn stays_last(p: &Problem, g: &Region, ks: &[Standing], bound: &Bound, members: &Members) -> bool
    requires region { IsSized p.now.given g.now }
    requires standings { AreStanding p.now.given (sets g.now) ks.now }
    requires weight { IsWeight p.now.given bound.now.weight }
    requires members { AreConcerned p.now.given (sets g.now) bound.now.weight (has_node bound.now.nodes) members.now }
    ensures { IsTrue result → StaysAt p.now.given (sets g.now) bound.now.weight (has_node bound.now.nodes) bound.now.amount p.now.given.horizon }
{
    let last = Period {
        from: p.horizon(),
        to: p.horizon(),
    };
    stays_during(p, g, ks, bound, members, last)
}

/// Whether it is seen whenever it has to be so: always, or at the horizon alone.
pub(crate) fn stays_when_due(
    p: &Problem,
    g: &Region,
    ks: &[Standing],
    bound: &Bound,
    stayers: Stayers,
    always: bool,
) -> bool
    requires region { IsSized p.now.given g.now }
    requires standings { AreStanding p.now.given (sets g.now) ks.now }
    requires weight { IsWeight p.now.given bound.now.weight }
    requires stayers { AreStayersTo p.now.given bound.now.weight (has_node bound.now.nodes) (machine_count p.now.given) stayers }
    ensures { IsTrue result → StaysWhenDue p.now.given (sets g.now) bound.now.weight (has_node bound.now.nodes) bound.now.amount always }
{
    let members = weighing(p, g, bound, stayers);
    if always {
        return stays_always(p, g, ks, bound, &members);
    }
    stays_last(p, g, ks, bound, &members)
}
