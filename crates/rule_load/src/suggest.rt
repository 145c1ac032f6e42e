//! Cuts that are worth a try after one of a machine at a node was found.
ghost use Rattle.std.specs.Prelude.{◌<◌, IsTrue, length};
ghost use Rattle.rule_load.specs.Prelude.{AreKeptAt, AreStanding, IsElement, IsSized, machine_count, node_count, sets};

use crate::change_instants::next_change;
use crate::nodes::node_set;
use crate::room::room_of;
use crate::uses::{may_come, most_used};
use crate::{Kept, NEVER, Period, Standing, base, is_host, resource_total};
use relax::measures::end;
use rule_frame::{
    Choice, Element, Instant, Memory, NodeId, Part, Place, Problem, Reason, Region, Row,
    Suggestion, VmId, Weight,
};
use std::alloc::Global;

/// An overload of a node that a machine makes.
#[derive(Clone, Copy)]
struct Overload {
    node: NodeId,
    machine: VmId,
    resource: u8,
    at: Instant,
    reason: Reason,
}

/// What is spare of a resource on a node up to an instant, from the one after the entry before it on, and whether
/// even what is surely used is too much.
#[derive(Clone, Copy)]
struct Spare {
    until: Instant,
    amount: u64,
    lacks: bool,
}

// what is spare of a resource on a node in each of its periods, from one change to the next
fn spares(
    alloc: Global,
    p: &Problem,
    g: &Region,
    kept: Kept<'_>,
    n: NodeId,
    r: u8,
) -> Result<Vec<Spare>, Memory>
    requires region { IsSized p.now.given g.now }
    requires kept { AreKeptAt p.now.given (sets g.now) n.0 kept.fixed.now kept.standings.now kept.near.now kept.firsts.now }
    requires node { n.0 < node_count p.now.given }
    requires resource { r < length p.now.given.resources }
{
    let mut spares = Vec::new(alloc);
    let mut from = 0u64;
    'periods: while from <= u64::from(p.horizon()) {
        let next = next_change(p, g, kept, n, from);
        let x = Period {
            from: from as u32,
            to: (next - 1) as u32,
        };
        let room = room_of(p, g, n, r, x);
        let used = most_used(p, g, kept, n, r, x);
        spares.push(Spare {
            until: x.to,
            amount: room.saturating_sub(used),
            lacks: used > room,
        })?;
        from = next;
    }
    Ok(spares)
}

// what is spare at all times
fn least_spare(spares: &[Spare]) -> u64 {
    let mut least = u64::MAX;
    for spare in spares {
        least = least.min(spare.amount);
    }
    least
}

// the last instant up to which too little is spare for an amount; from an instant on what is surely used has it already
fn last_without(spares: &[Spare], amount: u64, there: u64) -> Option<Instant> {
    for i in 0..spares.len() {
        let spare = spares[spares.len() - 1 - i];
        let is_short = if u64::from(spare.until) < there {
            spare.amount < amount
        } else {
            spare.lacks
        };
        if is_short {
            return Some(spare.until);
        }
    }
    None
}

// from when on what is surely used of a node has what a machine brings
fn surely_there_from(k: Standing, node: NodeId) -> u64 {
    match k.come {
        Some(a) if a.node.0 == node.0 => u64::from(a.last),
        _ => NEVER,
    }
}

// the last instant up to which too little is spare for a machine, where it may come by then
fn comes_without(
    p: &Problem,
    g: &Region,
    kept: Kept<'_>,
    machine: VmId,
    node: NodeId,
    r: u8,
    spares: &[Spare],
) -> Option<Instant>
    requires kept { AreKeptAt p.now.given (sets g.now) node.0 kept.fixed.now kept.standings.now kept.near.now kept.firsts.now }
    requires machine { IsElement p.now.given (Element.Vm machine) }
    requires resource { r < length p.now.given.resources }
{
    if !may_come(p, kept, g, machine, node, p.horizon()) {
        return None;
    }
    let there = surely_there_from(kept.standings[machine.0 as usize], node);
    let at = last_without(spares, p.demand(machine, r), there)?;
    if kept.firsts[machine.0 as usize] <= at {
        Some(at)
    } else {
        None
    }
}

// of one machine the starts at the node with which it would be there up to an instant
fn suggest_arrival(
    p: &Problem,
    machine: VmId,
    node: NodeId,
    r: u8,
    at: Instant,
    them: &mut Vec<Suggestion>,
) -> Result<(), Memory>
    requires { node.0 < node_count p.now.given }
{
    them.push(Suggestion {
        element: Element::Vm(machine),
        part: Part::Upto(Place::At(node), at),
        reason: Reason::Load(at, r, node_set(p, node)),
    })?;
    Ok(())
}

// of each machine the starts at the node with which it would be there while too little of a resource is spare
fn suggest_arrivals(
    p: &Problem,
    g: &Region,
    kept: Kept<'_>,
    spares: &[Spare],
    node: NodeId,
    r: u8,
    them: &mut Vec<Suggestion>,
) -> Result<(), Memory>
    requires region { IsSized p.now.given g.now }
    requires kept { AreKeptAt p.now.given (sets g.now) node.0 kept.fixed.now kept.standings.now kept.near.now kept.firsts.now }
    requires node { node.0 < node_count p.now.given }
    requires resource { r < length p.now.given.resources }
{
    let order = kept.fixed.order(p, r);
    let scarce = least_spare(spares);
    // what each before it brings is always spare
    let first = order.partition_point(|x| x.most <= scarce);
    for i in first..order.len() {
        let machine = order[i].machine;
        if let Some(at) = comes_without(p, g, kept, machine, node, r, spares) {
            suggest_arrival(p, machine, node, r, at, them)?;
        }
    }
    Ok(())
}

// the starts of a row with which a machine has not left its host by an instant
fn late_starts(p: &Problem, e: Element, row: Row, t: Instant) -> Part
    requires { IsElement p.now.given e }
{
    let first = Choice::Act {
        place: row.place,
        start: row.lo,
    };
    let duration = end(p, e, first).saturating_sub(u64::from(row.lo));
    let from = (u64::from(t) + 1)
        .saturating_sub(duration)
        .max(u64::from(row.lo))
        .min(u64::from(row.hi));
    Part::From(row.place, from as u32)
}

// of one machine the choices with which it is still on its host at the instant
fn suggest_departure(
    p: &Problem,
    g: &Region,
    element: Element,
    over: Overload,
    them: &mut Vec<Suggestion>,
) -> Result<(), Memory>
    requires region { IsSized p.now.given g.now }
    requires element { IsElement p.now.given element }
{
    let domain = g.domain(element);
    for row in domain.rows() {
        them.push(Suggestion {
            element,
            part: late_starts(p, element, *row, over.at),
            reason: over.reason,
        })?;
    }
    if domain.idle() {
        them.push(Suggestion {
            element,
            part: Part::Idle,
            reason: over.reason,
        })?;
    }
    Ok(())
}

// those machines that may have left the node by the same instant, and would keep as much there
fn suggest_departures(
    p: &Problem,
    g: &Region,
    ks: &[Standing],
    over: Overload,
    them: &mut Vec<Suggestion>,
) -> Result<(), Memory>
    requires region { IsSized p.now.given g.now }
    requires right { AreStanding p.now.given (sets g.now) ks.now }
    requires machine { over.machine.0 < machine_count p.now.given }
    requires resource { over.resource < length p.now.given.resources }
{
    let weight = Weight::Amount(over.resource);
    let kept = base(p, over.machine, weight);
    for i in 0..p.cluster().machines().len() {
        let x = VmId(i as u32);
        let leaves = ks[i].leave <= u64::from(over.at);
        if leaves && is_host(p, x, over.node) && base(p, x, weight) >= kept {
            suggest_departure(p, g, Element::Vm(x), over, them)?;
        }
    }
    Ok(())
}

// whether there is such a machine, and such a resource
fn are_known(p: &Problem, v: VmId, r: u8) -> bool
    ensures machine { IsTrue result → v.0 < machine_count p.now.given }
    ensures resource { IsTrue result → r < length p.now.given.resources }
{
    (v.0 as usize) < p.cluster().machines().len() && (r as usize) < resource_total(p)
}

// the same, by what is spare in each period of the node
fn suggest_all_arrivals(
    p: &Problem,
    g: &Region,
    kept: Kept<'_>,
    node: NodeId,
    r: u8,
    them: &mut Vec<Suggestion>,
) -> Result<(), Memory>
    requires region { IsSized p.now.given g.now }
    requires kept { AreKeptAt p.now.given (sets g.now) node.0 kept.fixed.now kept.standings.now kept.near.now kept.firsts.now }
    requires node { node.0 < node_count p.now.given }
    requires resource { r < length p.now.given.resources }
{
    let spares = spares(*them.allocator(), p, g, kept, node, r)?;
    suggest_arrivals(p, g, kept, spares.as_slice(), node, r, them)
}

// whether a part is of a place that is the node
fn is_at(part: Part, node: NodeId) -> bool {
    match part {
        Part::Idle => false,
        Part::Upto(place, _) | Part::From(place, _) => place == Place::At(node),
    }
}

/// Puts cuts into a list that are worth a try after one of a machine was found: after an arrival those of all machines
/// for which there is no room at some time, after a departure those of each machine that would keep as much there at the
/// same instant.
pub(crate) fn suggest_on(
    p: &Problem,
    g: &Region,
    kept: Kept<'_>,
    node: NodeId,
    found: &Suggestion,
    them: &mut Vec<Suggestion>,
) -> Result<(), Memory>
    requires region { IsSized p.now.given g.now }
    requires kept { AreKeptAt p.now.given (sets g.now) node.0 kept.fixed.now kept.standings.now kept.near.now kept.firsts.now }
    requires node { node.0 < node_count p.now.given }
{
    let Element::Vm(machine) = found.element else {
        return Ok(());
    };
    let Reason::Load(at, resource, _) = found.reason else {
        return Ok(());
    };
    if !are_known(p, machine, resource) {
        return Ok(());
    }
    let over = Overload {
        node,
        machine,
        resource,
        at,
        reason: found.reason,
    };
    if is_at(found.part, node) {
        suggest_all_arrivals(p, g, kept, node, resource, them)
    } else {
        suggest_departures(p, g, kept.standings, over, them)
    }
}
