//! Cuts of members that are to be together: at the horizon what is in no group that each member may be in, and before it an
//! action between two groups, as long as it lasts.
ghost use Rattle.std.specs.Prelude.{◌≡◌, ◌<◌, nat_lt, true, IfSome};
ghost use Rattle.std.specs.List.{list_all};
ghost use Rattle.rule_group.specs.Prelude.{AreLeaves, IsSized, machine_count};

use crate::acting::ends_of;
use crate::cuts::{instant_of, put};
use crate::places::{is_served, is_served_by, nodes_of};
use crate::spots::{spots_of_idle, spots_of_row};
use crate::together::common_groups;
use rule_frame::{Element, Memory, NodeSet, Part, Place, Problem, Region, Row, Suggestion, VmId};
use slices::form::Groups;
use standings::leaves::{Leaves, leaves_of};

// a constraint by its number, and the groups that each member may be in, with their nodes: always, or at the horizon
#[derive(Clone, Copy)]
struct Aim<'a> {
    constraint: u32,
    always: bool,
    groups: Groups<'a>,
    common: NodeSet,
    nodes: NodeSet,
}

// whether a place is outside the sets that are left
fn is_off(aim: &Aim, place: Place) -> bool {
    match (aim.groups, place) {
        (Groups::AnyOf(_), Place::At(n)) => !aim.nodes.has(n),
        (Groups::AnyOf(_) | Groups::AnyNode, _) => false,
    }
}

// whether none of these groups has all nodes on which a machine may be under a row
fn is_lost(p: &Problem, aim: &Aim, v: VmId, leaves: Option<Leaves>, row: Row) -> bool
    requires machine { v.0 < machine_count p.now.given }
    requires leaves { IfSome leaves (AreLeaves p.now.given v.0) }
{
    if is_off(aim, row.place) {
        return true;
    }
    let spots = spots_of_row(p, aim.always, v, leaves, row);
    !is_served_by(p, &aim.groups, spots, &aim.common, &aim.nodes)
}

// whether a machine may stay where none of these groups has its host
fn is_idle_lost(p: &Problem, g: &Region, aim: &Aim, v: VmId) -> bool
    requires region { IsSized p.now.given g.now }
    requires machine { v.0 < machine_count p.now.given }
{
    let spots = spots_of_idle(p, aim.always, v);
    g.domain(Element::Vm(v)).idle() && !is_served(p, &aim.groups, spots, &aim.common)
}

// all choices of a machine that are lost at the horizon
fn cut_at_end(
    p: &Problem,
    g: &Region,
    aim: &Aim,
    v: VmId,
    them: &mut Vec<Suggestion>,
) -> Result<(), Memory>
    requires region { IsSized p.now.given g.now }
    requires machine { v.0 < machine_count p.now.given }
{
    let leaves = leaves_of(p, v);
    if is_idle_lost(p, g, aim, v) {
        put(them, v, Part::Idle, aim.constraint, p.horizon())?;
    }
    for row in g.domain(Element::Vm(v)).rows() {
        if is_lost(p, aim, v, leaves, *row) {
            let part = Part::Upto(row.place, row.hi);
            put(them, v, part, aim.constraint, p.horizon())?;
        }
    }
    Ok(())
}

// those of all machines; those of the first ones are taken first
fn cut_all_at_end(
    p: &Problem,
    g: &Region,
    aim: &Aim,
    machines: &[VmId],
    them: &mut Vec<Suggestion>,
) -> Result<(), Memory>
    requires region { IsSized p.now.given g.now }
    requires machines { list_all (λ x. nat_lt x.0 (machine_count p.now.given)) machines.now ≡ true }
{
    for i in 0..machines.len() {
        cut_at_end(p, g, aim, machines[machines.len() - 1 - i], them)?;
    }
    Ok(())
}

// of each row of a machine that is lost the starts up to one before the first of them has ended
fn cut_actions(
    p: &Problem,
    g: &Region,
    aim: &Aim,
    v: VmId,
    them: &mut Vec<Suggestion>,
) -> Result<(), Memory>
    requires region { IsSized p.now.given g.now }
    requires machine { v.0 < machine_count p.now.given }
{
    let leaves = leaves_of(p, v);
    for row in g.domain(Element::Vm(v)).rows() {
        if is_lost(p, aim, v, leaves, *row) {
            let (first, _) = ends_of(p, v, *row);
            let t = instant_of(p, first.saturating_sub(1));
            let part = Part::Upto(row.place, t.min(row.hi));
            put(them, v, part, aim.constraint, t)?;
        }
    }
    Ok(())
}

// whether a row of a machine is lost
fn has_lost(p: &Problem, g: &Region, aim: &Aim, v: VmId) -> bool
    requires region { IsSized p.now.given g.now }
    requires machine { v.0 < machine_count p.now.given }
{
    let leaves = leaves_of(p, v);
    for row in g.domain(Element::Vm(v)).rows() {
        if is_lost(p, aim, v, leaves, *row) {
            return true;
        }
    }
    false
}

// how long a machine keeps its host that leaves it, if that is known
fn lasts(p: &Problem, v: VmId) -> u64
    requires { v.0 < machine_count p.now.given }
{
    match leaves_of(p, v) {
        None => 0,
        Some(leaves) => leaves.lasts,
    }
}

// of the machines with a row that is lost the one whose action lasts longest: the fewest cuts bring it into one group,
// and the others are then lost at the horizon
fn slowest(p: &Problem, g: &Region, aim: &Aim, machines: &[VmId]) -> Option<usize>
    requires region { IsSized p.now.given g.now }
    requires machines { list_all (λ x. nat_lt x.0 (machine_count p.now.given)) machines.now ≡ true }
{
    let mut best = None;
    let mut longest = 0;
    for i in 0..machines.len() {
        let long = lasts(p, machines[i]);
        if (best.is_none() || long > longest) && has_lost(p, g, aim, machines[i]) {
            best = Some(i);
            longest = long;
        }
    }
    best
}

// before the horizon: the actions of one machine
fn cut_before_end(
    p: &Problem,
    g: &Region,
    aim: &Aim,
    machines: &[VmId],
    them: &mut Vec<Suggestion>,
) -> Result<(), Memory>
    requires region { IsSized p.now.given g.now }
    requires machines { list_all (λ x. nat_lt x.0 (machine_count p.now.given)) machines.now ≡ true }
{
    match slowest(p, g, aim, machines) {
        Some(i) if i < machines.len() => cut_actions(p, g, aim, machines[i], them),
        _ => Ok(()),
    }
}

/// Puts in the cuts of members that are to be together always, or at the horizon alone.
pub fn cut_together(
    p: &Problem,
    g: &Region,
    c: u32,
    always: bool,
    groups: &Groups,
    machines: &[VmId],
    them: &mut Vec<Suggestion>,
) -> Result<(), Memory>
    requires region { IsSized p.now.given g.now }
    requires machines { list_all (λ x. nat_lt x.0 (machine_count p.now.given)) machines.now ≡ true }
{
    let common = common_groups(p, g, false, groups, machines);
    let nodes = nodes_of(p, groups, &common);
    let aim = Aim {
        constraint: c,
        always: false,
        groups: *groups,
        common,
        nodes,
    };
    cut_all_at_end(p, g, &aim, machines, them)?;
    if !always || them.len() > 0 {
        return Ok(());
    }
    let common = common_groups(p, g, true, groups, machines);
    let nodes = nodes_of(p, groups, &common);
    let aim = Aim {
        constraint: c,
        always: true,
        groups: *groups,
        common,
        nodes,
    };
    cut_before_end(p, g, &aim, machines, them)
}
