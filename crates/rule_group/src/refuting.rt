//! Whether a reason is seen to refute a region with what is inside a part of an element's choices.
//!
//! Of members that are to be together, the one that is cut goes to one place at most. Where it surely is there, or at its
//! host, it is outside each group that has neither, and of the few other groups alone all members are asked.
ghost use Rattle.std.specs.Prelude.{◌≡◌, ◌⊎◌, ℕ, ◌<◌, None, nat_lt, not, true, IfSome, IsTrue};
ghost use Rattle.std.specs.List.{list_all};
ghost use Rattle.rule_group.specs.Prelude.{AreScattered, group_count as the_group_count, group_nodes, group_sets, groups_seen, has_node, HasOutside, in_part, inventory_of, is_rule, IsElement, IsGroup, IsMember, IsSized, IsSpot, keeping, LacksSpot, machine_count, MovesTo, Refutes, seen, sets, StandsAt, StandsUnder, sure};

use crate::elsewhere::stays_elsewhere;
use crate::places::{group_count, has};
use crate::spots::{Spots, place_spot};
use cluster::limits::MAX_NODES;
use relax::named::is_named;
use relax::refutes::refutes_inside;
use relax::surely_in;
use rule_constraint::host;
use rule_frame::{
    Area, Constraint, Element, Form, Instant, Lens, NodeId, NodeSet, Part, Place, Problem, Reason,
    Region, View, VmId, form_of,
};
use slices::form::Groups;
use standings::leaves::{leaves_of, runs_on};
use standings::seen::is_narrowed;

// ---- one group

// whether that a machine is outside the group of a number is told by where it goes alone, of which all is seen
fn is_told_outside(p: &Problem, view: &View, v: VmId, groups: &Groups, i: usize, t: Instant) -> bool
    requires region { IsSized p.now.given view.now.region.now }
    requires machine { v.0 < machine_count p.now.given }
    requires group { i < the_group_count p.now.given (groups_seen groups.now) }
    ensures { IsTrue result → IsTrue ((sure p.now.given (seen view.now.region.now view.now.lens) t).present v.0 (λ n. not (group_nodes (groups_seen groups.now) i n))) }
{
    if is_narrowed(view.lens, v) {
        return false;
    }
    stays_elsewhere(p, view.region, v, groups, i)
}

// whether a machine is surely outside it
fn is_outside(p: &Problem, view: &View, v: VmId, groups: &Groups, i: usize, t: Instant) -> bool
    requires region { IsSized p.now.given view.now.region.now }
    requires machine { v.0 < machine_count p.now.given }
    requires group { i < the_group_count p.now.given (groups_seen groups.now) }
    ensures { IsTrue result → IsTrue ((sure p.now.given (seen view.now.region.now view.now.lens) t).present v.0 (λ n. not (group_nodes (groups_seen groups.now) i n))) }
{
    if is_told_outside(p, view, v, groups, i, t) {
        return true;
    }
    match groups {
        Groups::AnyNode => surely_in(p, view, v, &Area::OutsideOne(NodeId(i as u32)), t),
        Groups::AnyOf(sets) => surely_in(p, view, v, &Area::Outside(sets.items()[i]), t),
    }
}

// the place in a list of the machine with the fewest places to go
fn most_settled(p: &Problem, g: &Region, machines: &[VmId]) -> usize
    requires region { IsSized p.now.given g.now }
    requires machines { list_all (λ x. nat_lt x.0 (machine_count p.now.given)) machines.now ≡ true }
{
    let mut best = 0;
    let mut fewest = usize::MAX;
    for i in 0..machines.len() {
        let domain = g.domain(Element::Vm(machines[i]));
        let count = domain
            .rows()
            .len()
            .saturating_add(usize::from(domain.idle()));
        if count < fewest {
            fewest = count;
            best = i;
        }
        if count <= 1 {
            return i;
        }
    }
    best
}

// whether one of some machines is. The first one, of which cuts are tried first, is asked where that is quick, and then the one
// with the fewest places to go, which is told soonest
fn has_outside(
    p: &Problem,
    view: &View,
    machines: &[VmId],
    groups: &Groups,
    i: usize,
    t: Instant,
) -> bool
    requires region { IsSized p.now.given view.now.region.now }
    requires machines { list_all (λ x. nat_lt x.0 (machine_count p.now.given)) machines.now ≡ true }
    requires group { i < the_group_count p.now.given (groups_seen groups.now) }
    ensures { IsTrue result → HasOutside (sure p.now.given (seen view.now.region.now view.now.lens) t) machines.now (group_nodes (groups_seen groups.now) i) }
{
    if machines.len() > 0 && is_told_outside(p, view, machines[0], groups, i, t) {
        return true;
    }
    let first = most_settled(p, view.region, machines);
    if first < machines.len() && is_outside(p, view, machines[first], groups, i, t) {
        return true;
    }
    for k in 0..machines.len() {
        if k != first && is_outside(p, view, machines[k], groups, i, t) {
            return true;
        }
    }
    false
}

// whether the group of a number does not have a node, if there is one
fn lacks(p: &Problem, groups: &Groups, i: usize, spot: Option<NodeId>) -> bool
    requires { i < the_group_count p.now.given (groups_seen groups.now) }
    ensures { IsTrue result → LacksSpot (group_nodes (groups_seen groups.now) i) spot }
{
    match spot {
        None => true,
        Some(n) => !has(p, groups, i, n),
    }
}

// whether it lacks a member: the one that stands at these nodes, if it has neither, or else any
fn lacks_member(
    p: &Problem,
    view: &View,
    v: VmId,
    spots: Spots,
    machines: &[VmId],
    groups: &Groups,
    i: usize,
    t: Instant,
) -> bool
    requires region { IsSized p.now.given view.now.region.now }
    requires machines { list_all (λ x. nat_lt x.0 (machine_count p.now.given)) machines.now ≡ true }
    requires member { IsMember machines.now v.0 }
    requires stands { StandsAt (sure p.now.given (seen view.now.region.now view.now.lens) t) v.0 spots }
    requires group { i < the_group_count p.now.given (groups_seen groups.now) }
    ensures { IsTrue result → HasOutside (sure p.now.given (seen view.now.region.now view.now.lens) t) machines.now (group_nodes (groups_seen groups.now) i) }
{
    if lacks(p, groups, i, spots.host) && lacks(p, groups, i, spots.place) {
        return true;
    }
    has_outside(p, view, machines, groups, i, t)
}

// ---- all groups

// whether each group lacks a member, where one member stands at these nodes
fn are_scattered(
    p: &Problem,
    view: &View,
    v: VmId,
    spots: Spots,
    machines: &[VmId],
    groups: &Groups,
    t: Instant,
) -> bool
    requires region { IsSized p.now.given view.now.region.now }
    requires machines { list_all (λ x. nat_lt x.0 (machine_count p.now.given)) machines.now ≡ true }
    requires member { IsMember machines.now v.0 }
    requires stands { StandsAt (sure p.now.given (seen view.now.region.now view.now.lens) t) v.0 spots }
    ensures { IsTrue result → AreScattered (sure p.now.given (seen view.now.region.now view.now.lens) t) machines.now (group_sets p.now.given (groups_seen groups.now)) }
{
    let count = group_count(p, groups);
    for i in 0..count {
        if !lacks_member(p, view, v, spots, machines, groups, i, t) {
            return false;
        }
    }
    count > 0
}

// ---- where the member that is cut stands

// puts a node into a set, if there is one
fn insert_spot(set: &mut NodeSet, spot: Option<NodeId>)
    ensures { (n : ℕ) → IsTrue (has_node set.new n) → IsTrue (has_node set.old n) ⊎ IsSpot spot n }
{
    let Some(n) = spot else {
        return;
    };
    if (n.0 as usize) < MAX_NODES {
        set.insert(n);
    }
}

// the set of both nodes
fn nodes_at(spots: Spots) -> NodeSet
    ensures { (n : ℕ) → IsTrue (has_node result n) → IsSpot spots.host n ⊎ IsSpot spots.place n }
{
    let mut set = NodeSet::new();
    insert_spot(&mut set, spots.host);
    insert_spot(&mut set, spots.place);
    set
}

// whether a machine is surely at one of two nodes
fn stands_at(p: &Problem, view: &View, v: VmId, spots: Spots, t: Instant) -> bool
    requires region { IsSized p.now.given view.now.region.now }
    requires machine { v.0 < machine_count p.now.given }
    ensures { IsTrue result → StandsAt (sure p.now.given (seen view.now.region.now view.now.lens) t) v.0 spots }
{
    surely_in(p, view, v, &Area::In(nodes_at(spots)), t)
}

// the node to which a machine goes under the choices of a part
fn target_of(part: Part) -> Option<NodeId> {
    match part {
        Part::Idle => None,
        Part::Upto(place, _) | Part::From(place, _) => place_spot(place),
    }
}

// whether a machine that runs, and is to run on, goes to a node other than its host
fn moves_to(p: &Problem, v: VmId, n: NodeId) -> bool
    requires { v.0 < machine_count p.now.given }
    ensures { IsTrue result → MovesTo p.now.given v.0 n }
{
    let Some(h) = runs_on(p, v) else {
        return false;
    };
    let Some(leaves) = leaves_of(p, v) else {
        return false;
    };
    h.0 == leaves.host.0 && n.0 != h.0 && (n.0 as usize) < p.cluster().nodes().len()
}

// the node to which it goes under each choice of a part, by an instant
fn spots_gone_to(p: &Problem, v: VmId, part: Part, t: Instant) -> Option<Spots>
    requires { v.0 < machine_count p.now.given }
    ensures { IfSome result (StandsUnder p.now.given v part t) }
{
    let Part::Upto(place, last) = part else {
        return None;
    };
    let Place::At(n) = place else {
        return None;
    };
    if last > t || !moves_to(p, v, n) {
        return None;
    }
    Some(Spots {
        host: None,
        place: Some(n),
    })
}

// where a machine surely is under the choices of a part, which alone are seen: where it goes, or else there or at its host
fn spots_of_part(p: &Problem, view: &View, v: VmId, part: Part, t: Instant) -> Option<Spots>
    requires region { IsSized p.now.given view.now.region.now }
    requires machine { v.0 < machine_count p.now.given }
    requires part { seen view.now.region.now view.now.lens ≡ keeping (Element.Vm v) (in_part part) (sets view.now.region.now) }
    ensures { IfSome result (StandsAt (sure p.now.given (seen view.now.region.now view.now.lens) t) v.0) }
{
    if let Some(there) = spots_gone_to(p, v, part, t) {
        return Some(there);
    }
    let place = target_of(part);
    let there = Spots { host: None, place };
    if place.is_some() && stands_at(p, view, v, there, t) {
        return Some(there);
    }
    let near = Spots {
        host: host(p, v),
        place,
    };
    if stands_at(p, view, v, near, t) {
        Some(near)
    } else {
        None
    }
}

// ---- the constraint

// whether a constraint that asks members to be together is broken under a part of a member's choices. None where that is not
// told: of other constraints and elements, and of a member that may be elsewhere
fn is_broken(
    p: &Problem,
    view: &View,
    e: Element,
    part: Part,
    constraint: &Constraint,
    t: Instant,
) -> Option<bool>
    requires region { IsSized p.now.given view.now.region.now }
    requires element { IsElement p.now.given e }
    requires part { seen view.now.region.now view.now.lens ≡ keeping e (in_part part) (sets view.now.region.now) }
    requires rule { is_rule (inventory_of p.now.given) constraint.now ≡ true }
    ensures { IfSome result (λ b. IsTrue b → IsGroup p.now.given (sure p.now.given (seen view.now.region.now view.now.lens) t) constraint.now) }
{
    let Form::Together(machines, groups) = form_of(constraint) else {
        return None;
    };
    let Element::Vm(v) = e else {
        return None;
    };
    if !machines.has(v) {
        return None;
    }
    let spots = spots_of_part(p, view, v, part, t)?;
    Some(are_scattered(p, view, v, spots, machines.items(), &groups, t))
}

// whether a group reason is seen to refute what is inside a part
fn refutes_group(p: &Problem, g: &Region, e: Element, part: Part, c: u32, t: Instant) -> bool
    requires region { IsSized p.now.given g.now }
    requires element { IsElement p.now.given e }
    ensures { IsTrue result → Refutes p.now.given None (keeping e (in_part part) (sets g.now)) (Reason.Group c t) }
{
    let reason = Reason::Group(c, t);
    if !is_named(p, &reason) || !p.applies(c, t) {
        return false;
    }
    let view = View {
        region: g,
        lens: Lens::Inside(e, part),
    };
    match is_broken(p, &view, e, part, &p.constraints()[c as usize], t) {
        Some(yes) => yes,
        None => refutes_inside(p, None, g, e, part, &reason),
    }
}

/// Whether it is seen that a reason does.
pub(crate) fn refutes_part(p: &Problem, g: &Region, e: Element, part: Part, reason: &Reason) -> bool
    requires region { IsSized p.now.given g.now }
    requires element { IsElement p.now.given e }
    ensures { IsTrue result → Refutes p.now.given None (keeping e (in_part part) (sets g.now)) reason.now }
{
    match reason {
        Reason::Group(c, t) => refutes_group(p, g, e, part, *c, *t),
        Reason::Empty(_)
        | Reason::Bound
        | Reason::Load(..)
        | Reason::Pair(..)
        | Reason::Place(..)
        | Reason::SetLoad(..)
        | Reason::Power(..)
        | Reason::Usable(..)
        | Reason::Hall(..) => refutes_inside(p, None, g, e, part, reason),
    }
}
