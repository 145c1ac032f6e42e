//! Machines that are to be on different nodes, and are more than the nodes that are left to them.
ghost use Rattle.std.specs.Prelude.{◌≡◌, ◌<◌, IfSome, length, nat_lt, true};
ghost use Rattle.std.specs.List.{list_all};
ghost use Rattle.rule_pair.specs.Prelude.{are_below, FailHolds, IsSized, machine_count, separated, separation_seen, sets};

use crate::pairs::separation_of;
use relax::refutes::refutes;
use rule_frame::{
    Domain, Element, NodeId, NodeSet, Place, Problem, Reason, Region, Separation, VmId,
};
use standings::leaves::runs_on;
use standings::numbers::Standing;

// nodes, and how many more there must be for each of some machines to have one of its own
#[derive(Clone, Copy)]
struct Room {
    nodes: NodeSet,
    missing: usize,
}

impl Room {
    // no node for so many machines
    fn new(machines: usize) -> Room {
        Room {
            nodes: NodeSet::new(),
            missing: machines,
        }
    }

    // one machine or one node less is to be found
    fn lower(&mut self) {
        self.missing = self.missing.saturating_sub(1);
    }

    // a node of the problem more, where it is not among them
    fn add(&mut self, p: &Problem, n: NodeId) {
        if (n.0 as usize) < p.cluster().nodes().len() && !self.nodes.has(n) {
            self.nodes.insert(n);
            self.lower();
        }
    }
}

// whether a machine may be on no node at the end
fn may_be_off(p: &Problem, v: VmId, domain: &Domain) -> bool
    requires { v.0 < machine_count p.now.given }
{
    if domain.idle() && runs_on(p, v).is_none() {
        return true;
    }
    // a row at no node comes before all others
    match domain.rows() {
        [] => false,
        [first, ..] => first.place == Place::Nowhere,
    }
}

// the nodes more on which a machine may be at the end, until there are enough; one that may be on none needs none
fn add_member(p: &Problem, g: &Region, v: VmId, room: &mut Room)
    requires region { IsSized p.now.given g.now }
    requires machine { v.0 < machine_count p.now.given }
{
    let domain = g.domain(Element::Vm(v));
    if may_be_off(p, v, domain) {
        room.lower();
        return;
    }
    if domain.idle() {
        if let Some(n) = runs_on(p, v) {
            room.add(p, n);
        }
    }
    for row in domain.rows() {
        if room.missing == 0 {
            return;
        }
        if let Place::At(n) = row.place {
            room.add(p, n);
        }
    }
}

// the node that all choices of a machine go to, where that is kept
fn settled_at(kept: &[Standing], v: VmId) -> Option<NodeId> {
    let i = v.0 as usize;
    if i >= kept.len() {
        return None;
    }
    match kept[i].come {
        None => None,
        Some(a) => Some(a.node),
    }
}

// the nodes of the machines that have come to one; of these no row is read
fn add_settled(p: &Problem, kept: &[Standing], machines: &[VmId], room: &mut Room) {
    for v in machines {
        if let Some(n) = settled_at(kept, *v) {
            room.add(p, n);
        }
    }
}

// the nodes on which those of the machines may be that cannot be off, if they are seen to be too few
fn too_few(p: &Problem, g: &Region, kept: &[Standing], machines: &[VmId]) -> Option<NodeSet>
    requires region { IsSized p.now.given g.now }
    requires machines { list_all (λ x. nat_lt x.0 (machine_count p.now.given)) machines.now ≡ true }
{
    let mut room = Room::new(machines.len());
    add_settled(p, kept, machines, &mut room);
    for v in machines {
        if room.missing == 0 {
            return None;
        }
        if settled_at(kept, *v).is_none() {
            add_member(p, g, *v, &mut room);
        }
    }
    if room.missing == 0 {
        return None;
    }
    Some(room.nodes)
}

// the nodes that are too few for machines that are kept apart, each from each other one
fn crowded(p: &Problem, g: &Region, kept: &[Standing], separation: &Separation) -> Option<NodeSet>
    requires region { IsSized p.now.given g.now }
    requires machines { are_below (machine_count p.now.given) (separated (separation_seen separation.now)) ≡ true }
{
    match separation {
        Separation::Each(machines) => too_few(p, g, kept, machines.items()),
        Separation::Between(_) | Separation::FromOthers(_) => None,
    }
}

/// A reason that refutes the region, where the members of a spread are seen to be more than the nodes on which
/// they may be at the horizon. The nodes are a guess: whether they refute the region is asked exactly.
pub(crate) fn hall_reason(p: &Problem, g: &Region, kept: &[Standing], c: u32) -> Option<Reason>
    requires region { IsSized p.now.given g.now }
    requires constraint { c < length p.now.given.constraints }
    ensures { IfSome result (FailHolds p.now.given (sets g.now)) }
{
    let separation = separation_of(&p.constraints()[c as usize])?;
    let nodes = crowded(p, g, kept, &separation)?;
    let reason = Reason::Hall(c, p.horizon(), nodes);
    if refutes(p, None, g, &reason) {
        Some(reason)
    } else {
        None
    }
}
