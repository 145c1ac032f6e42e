//! Cuts that are worth a try after one was found of machines that are kept apart: all that stays of others refute.
ghost use Rattle.std.specs.Prelude.{◌≡◌, ◌<◌, IfSome, length, nat_lt, true};
ghost use Rattle.std.specs.List.{list_all};
ghost use Rattle.rule_pair.specs.Prelude.{are_below, AreRight, IsSized, machine_count, separated, separation_seen, sets};

use crate::clear::{Met, first_instant, part_of, row_met, tell_machines, tell_parts};
use crate::longest::{NOBODY, Table, stay_after};
use crate::pairs::separation_of;
use crate::posts::last_before;
use crate::strangers::{class_of, members, tell_all};
use cluster::MachineSet;
use cluster::limits::MAX_NODES;
use quick_checks::members::part_with;
use rule_constraint::host;
use rule_frame::{
    Change, Element, Instant, Memory, NodeId, Part, Place, Problem, Reason, Region, Separation,
    Side, Suggestion, VmId, Vms,
};
use standings::numbers::Standing;

// how many cuts are put into the list at once: each takes some hundred bytes
const MOST: usize = 65_536;

// the number of a constraint, and the first instant at which it is to hold
#[derive(Clone, Copy)]
struct Asked {
    constraint: u32,
    from: Instant,
}

// suggests a part of a machine's choices that is refuted by a stay of a machine of another part. A member is named before
// a machine that is none
fn push(
    p: &Problem,
    asked: Asked,
    w: VmId,
    number: usize,
    part: Part,
    met: Met,
    them: &mut Vec<Suggestion>,
) -> Result<(), Memory> {
    let Some(last) = last_before(p, met.stay.until) else {
        return Ok(());
    };
    let part = match part {
        Part::Upto(place, _) => Part::Upto(place, last),
        other => other,
    };
    let (first, second) = if number >= met.stay.part {
        (w, met.stay.machine)
    } else {
        (met.stay.machine, w)
    };
    them.push(Suggestion {
        element: Element::Vm(w),
        part,
        reason: Reason::Pair(asked.constraint, last, first, second, met.node),
    })?;
    Ok(())
}

// where a machine may stay, that it does not where one of another part stays or comes
fn suggest_idle(
    p: &Problem,
    asked: Asked,
    w: VmId,
    part: usize,
    table: &Table,
    them: &mut Vec<Suggestion>,
) -> Result<(), Memory>
    requires machine { w.0 < machine_count p.now.given }
{
    let Some(node) = host(p, w) else {
        return Ok(());
    };
    match stay_after(table, node, part, asked.from) {
        None => Ok(()),
        Some(stay) => push(p, asked, w, part, Part::Idle, Met { node, stay }, them),
    }
}

// of a machine, that it is nowhere while one of another part stays there
fn suggest_machine(
    p: &Problem,
    g: &Region,
    asked: Asked,
    w: VmId,
    part: usize,
    table: &Table,
    them: &mut Vec<Suggestion>,
) -> Result<(), Memory>
    requires region { IsSized p.now.given g.now }
    requires machine { w.0 < machine_count p.now.given }
{
    if them.len() >= MOST {
        return Ok(());
    }
    let domain = g.domain(Element::Vm(w));
    if domain.idle() {
        suggest_idle(p, asked, w, part, table, them)?;
    }
    for row in domain.rows() {
        if let Some(met) = row_met(*row, part, asked.from, table) {
            push(p, asked, w, part, Part::Upto(row.place, row.lo), met, them)?;
        }
    }
    Ok(())
}

// of each machine of a part, or of each of a list where no two are to meet
fn suggest_each(
    p: &Problem,
    g: &Region,
    asked: Asked,
    machines: &[VmId],
    part: Option<usize>,
    table: &Table,
    them: &mut Vec<Suggestion>,
) -> Result<(), Memory>
    requires region { IsSized p.now.given g.now }
    requires machines { list_all (λ x. nat_lt x.0 (machine_count p.now.given)) machines.now ≡ true }
{
    for w in machines {
        suggest_machine(p, g, asked, *w, part_of(part, *w), table, them)?;
    }
    Ok(())
}

// of machines of which no two are to meet
fn suggest_list(
    p: &Problem,
    g: &Region,
    kept: &[Standing],
    asked: Asked,
    machines: &[VmId],
    them: &mut Vec<Suggestion>,
) -> Result<(), Memory>
    requires region { IsSized p.now.given g.now }
    requires kept { AreRight p.now.given (sets g.now) kept.now }
    requires machines { list_all (λ x. nat_lt x.0 (machine_count p.now.given)) machines.now ≡ true }
{
    let mut table = [NOBODY; MAX_NODES];
    if !tell_machines(p, g, kept, machines, None, asked.from, &mut table) {
        return Ok(());
    }
    suggest_each(p, g, asked, machines, None, &table, them)
}

// of those of parts
fn suggest_parts(
    p: &Problem,
    g: &Region,
    kept: &[Standing],
    asked: Asked,
    parts: &[Vms],
    them: &mut Vec<Suggestion>,
) -> Result<(), Memory>
    requires region { IsSized p.now.given g.now }
    requires kept { AreRight p.now.given (sets g.now) kept.now }
    requires machines { list_all (list_all (λ x. nat_lt x.0 (machine_count p.now.given))) parts.now ≡ true }
{
    let mut table = [NOBODY; MAX_NODES];
    if !tell_parts(p, g, kept, parts, asked.from, &mut table) {
        return Ok(());
    }
    for i in 0..parts.len() {
        suggest_each(p, g, asked, parts[i].items(), Some(i), &table, them)?;
    }
    Ok(())
}

// of members and all other machines
fn suggest_strangers(
    p: &Problem,
    g: &Region,
    kept: &[Standing],
    asked: Asked,
    members: &MachineSet,
    them: &mut Vec<Suggestion>,
) -> Result<(), Memory>
    requires region { IsSized p.now.given g.now }
    requires kept { AreRight p.now.given (sets g.now) kept.now }
{
    let mut table = [NOBODY; MAX_NODES];
    if !tell_all(p, g, kept, members, asked.from, &mut table) {
        return Ok(());
    }
    for i in 0..p.cluster().machines().len() {
        let w = VmId(i as u32);
        suggest_machine(p, g, asked, w, class_of(members, w), &table, them)?;
    }
    Ok(())
}

// of all machines that are kept apart
fn suggest_apart(
    p: &Problem,
    g: &Region,
    kept: &[Standing],
    asked: Asked,
    separation: &Separation,
    them: &mut Vec<Suggestion>,
) -> Result<(), Memory>
    requires region { IsSized p.now.given g.now }
    requires kept { AreRight p.now.given (sets g.now) kept.now }
    requires machines { are_below (machine_count p.now.given) (separated (separation_seen separation.now)) ≡ true }
{
    match separation {
        Separation::Each(machines) => suggest_list(p, g, kept, asked, machines.items(), them),
        Separation::Between(parts) => suggest_parts(p, g, kept, asked, parts.items(), them),
        Separation::FromOthers(machines) => {
            suggest_strangers(p, g, kept, asked, &members(p, machines.items()), them)
        }
    }
}

// a machine that has one place left, where it is up to an instant
#[derive(Clone, Copy)]
struct Settled {
    machine: VmId,
    node: NodeId,
    last: Instant,
}

// the machine of a cut that was found that was not cut, where it has one place left: it is the one that is in the way
fn in_the_way(p: &Problem, g: &Region, found: &Suggestion) -> Option<Settled>
    requires region { IsSized p.now.given g.now }
    ensures { IfSome result (λ s. s.machine.0 < machine_count p.now.given) }
{
    let Element::Vm(cut) = found.element else {
        return None;
    };
    let Reason::Pair(_, last, v, w, node) = found.reason else {
        return None;
    };
    let machine = if cut.0 == v.0 { w } else { v };
    if machine.0 as usize >= p.cluster().machines().len() {
        return None;
    }
    let domain = g.domain(Element::Vm(machine));
    let ways = domain
        .rows()
        .len()
        .saturating_add(usize::from(domain.idle()));
    if ways == 1 {
        Some(Settled {
            machine,
            node,
            last,
        })
    } else {
        None
    }
}

// suggests a part of a machine's choices by which it is where a settled one is
fn put_beside(
    asked: Asked,
    x: VmId,
    part: Part,
    settled: Settled,
    is_first: bool,
    them: &mut Vec<Suggestion>,
) -> Result<(), Memory> {
    let (first, second) = if is_first {
        (x, settled.machine)
    } else {
        (settled.machine, x)
    };
    them.push(Suggestion {
        element: Element::Vm(x),
        part,
        reason: Reason::Pair(asked.constraint, settled.last, first, second, settled.node),
    })?;
    Ok(())
}

// of a machine, that it does not stay where a settled one is, and does not start there while that is there
fn suggest_beside(
    p: &Problem,
    g: &Region,
    asked: Asked,
    x: VmId,
    settled: Settled,
    is_first: bool,
    them: &mut Vec<Suggestion>,
) -> Result<(), Memory>
    requires region { IsSized p.now.given g.now }
    requires machine { x.0 < machine_count p.now.given }
{
    if x.0 == settled.machine.0 || them.len() >= MOST {
        return Ok(());
    }
    let element = Element::Vm(x);
    if g.domain(element).idle() {
        if let Some(host) = host(p, x) {
            if host.0 == settled.node.0 {
                put_beside(asked, x, Part::Idle, settled, is_first, them)?;
            }
        }
    }
    let part = Part::Upto(Place::At(settled.node), settled.last);
    let inside = Change {
        element,
        part,
        side: Side::Inside,
    };
    if !g.leaves_none(inside) {
        put_beside(asked, x, part, settled, is_first, them)?;
    }
    Ok(())
}

// of each machine of a list
fn suggest_each_beside(
    p: &Problem,
    g: &Region,
    asked: Asked,
    machines: &[VmId],
    settled: Settled,
    is_first: bool,
    them: &mut Vec<Suggestion>,
) -> Result<(), Memory>
    requires region { IsSized p.now.given g.now }
    requires machines { list_all (λ x. nat_lt x.0 (machine_count p.now.given)) machines.now ≡ true }
{
    for x in machines {
        suggest_beside(p, g, asked, *x, settled, is_first, them)?;
    }
    Ok(())
}

// of each machine of the parts that have not the settled one
fn suggest_parts_beside(
    p: &Problem,
    g: &Region,
    asked: Asked,
    parts: &[Vms],
    settled: Settled,
    them: &mut Vec<Suggestion>,
) -> Result<(), Memory>
    requires region { IsSized p.now.given g.now }
    requires machines { list_all (list_all (λ x. nat_lt x.0 (machine_count p.now.given))) parts.now ≡ true }
{
    let own = part_with(parts, settled.machine).unwrap_or(parts.len());
    for i in 0..parts.len() {
        if i != own {
            suggest_each_beside(p, g, asked, parts[i].items(), settled, false, them)?;
        }
    }
    Ok(())
}

// of all other machines, where the settled one is to be alone; else of those that are to be
fn suggest_strangers_beside(
    p: &Problem,
    g: &Region,
    asked: Asked,
    members: &MachineSet,
    settled: Settled,
    them: &mut Vec<Suggestion>,
) -> Result<(), Memory>
    requires region { IsSized p.now.given g.now }
{
    let is_member = members.has(settled.machine);
    for i in 0..p.cluster().machines().len() {
        let x = VmId(i as u32);
        if members.has(x) != is_member {
            suggest_beside(p, g, asked, x, settled, !is_member, them)?;
        }
    }
    Ok(())
}

// of all that are kept apart from a settled machine
fn suggest_apart_from(
    p: &Problem,
    g: &Region,
    asked: Asked,
    separation: &Separation,
    settled: Settled,
    them: &mut Vec<Suggestion>,
) -> Result<(), Memory>
    requires region { IsSized p.now.given g.now }
    requires machines { are_below (machine_count p.now.given) (separated (separation_seen separation.now)) ≡ true }
{
    match separation {
        Separation::Each(machines) => {
            suggest_each_beside(p, g, asked, machines.items(), settled, false, them)
        }
        Separation::Between(parts) => {
            suggest_parts_beside(p, g, asked, parts.items(), settled, them)
        }
        Separation::FromOthers(machines) => {
            suggest_strangers_beside(p, g, asked, &members(p, machines.items()), settled, them)
        }
    }
}

/// Puts cuts into a list that are worth a try, after one was found by a look at a constraint: where it keeps machines
/// apart, of each of them that it is not at a node while another one surely stays there. Where the one that is in the
/// way has one place left, those are put alone that are of that place.
pub(crate) fn suggest_pairs(
    p: &Problem,
    g: &Region,
    kept: &[Standing],
    c: u32,
    found: &Suggestion,
    them: &mut Vec<Suggestion>,
) -> Result<(), Memory>
    requires region { IsSized p.now.given g.now }
    requires kept { AreRight p.now.given (sets g.now) kept.now }
    requires constraint { c < length p.now.given.constraints }
{
    let constraint = &p.constraints()[c as usize];
    let asked = Asked {
        constraint: c,
        from: first_instant(p, constraint),
    };
    let Some(separation) = separation_of(constraint) else {
        return Ok(());
    };
    match in_the_way(p, g, found) {
        None => suggest_apart(p, g, kept, asked, &separation, them),
        Some(settled) => suggest_apart_from(p, g, asked, &separation, settled, them),
    }
}
