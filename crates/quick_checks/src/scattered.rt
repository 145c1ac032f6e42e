//! Whether members that are to be together are seen to be where no group has all of them.
//!
//! The one that is cut goes to one place. Where it surely is there, it is outside each group without that node, and of
//! the few other groups alone the other members are asked.
ghost use Rattle.std.specs.Prelude.{◌≡◌, map, nat_lt, true, IfSome, IsTrue};
ghost use Rattle.std.specs.List.{list_all, range_with_len};
ghost use Rattle.quick_checks.specs.Prelude.{AreKnown, AreScattered, has_node, inventory_of, is_rule, IsGroup, IsOneIn, IsPosted, IsSized, machine_count, node_count, nodes_of, one, seen, sets, sure};

use crate::known::{is_in, is_on};
use catalogue::{Constraint, Problem, Vms};
use cluster::{Element, Instant, NodeId, NodeSet, Place, VmId};
use domains::{Lens, Part, Region, View};
use relax::{Area, has};
use slices::Form;
use slices::form::{Groups, form_of};
use standings::numbers::Standing;

/// A member, and a node on which it is.
#[derive(Clone, Copy)]
pub struct Post {
    pub machine: VmId,
    pub node: NodeId,
}

// the node to which a machine goes under the choices of a part
fn target_of(part: Part) -> Option<NodeId> {
    match part {
        Part::Idle => None,
        Part::Upto(place, _) | Part::From(place, _) => match place {
            Place::Nowhere => None,
            Place::At(n) => Some(n),
        },
    }
}

// the machine of which a lens shows what is inside a part, and the node to which it goes
fn cut_of(lens: Lens) -> Option<Post> {
    let Lens::Inside(Element::Vm(machine), part) = lens else {
        return None;
    };
    let node = target_of(part)?;
    Some(Post { machine, node })
}

// the member that is cut, where it is seen to be where it goes
fn post_of(p: &Problem, view: &View, ks: &[Standing], machines: &Vms, t: Instant) -> Option<Post>
    requires region { IsSized p.now.given view.now.region.now }
    requires machines { list_all (λ x. nat_lt x.0 (machine_count p.now.given)) machines.now ≡ true }
    requires known { AreKnown p.now.given (sets view.now.region.now) ks.now }
    ensures { IfSome result (IsPosted (sure p.now.given (seen view.now.region.now view.now.lens) t) machines.now) }
{
    let post = cut_of(view.lens)?;
    if machines.has(post.machine) && is_on(p, view, ks, post.machine, post.node, t) {
        Some(post)
    } else {
        None
    }
}

// how many nodes there are
fn node_total(p: &Problem) -> usize
    ensures { result ≡ node_count p.now.given }
{
    p.cluster().nodes().len()
}

// the place in a list of the machine with the fewest places to go
fn most_settled(p: &Problem, g: &Region, machines: &[VmId]) -> usize
    requires region { IsSized p.now.given g.now }
    requires machines { list_all (λ x. nat_lt x.0 (machine_count p.now.given)) machines.now ≡ true }
{
    let mut best = 0;
    let mut fewest = usize::MAX;
    for i in 0..machines.len() {
        let domain = g.domain(Element::Vm(machines[i]));
        let count = domain
            .rows()
            .len()
            .saturating_add(usize::from(domain.idle()));
        if count < fewest {
            fewest = count;
            best = i;
        }
    }
    best
}

// whether one of some machines is seen to be in an area; the one with the fewest places to go is asked first, which is told
// soonest
fn is_one_in(
    p: &Problem,
    view: &View,
    ks: &[Standing],
    machines: &[VmId],
    area: &Area,
    t: Instant,
) -> bool
    requires region { IsSized p.now.given view.now.region.now }
    requires machines { list_all (λ x. nat_lt x.0 (machine_count p.now.given)) machines.now ≡ true }
    requires known { AreKnown p.now.given (sets view.now.region.now) ks.now }
    ensures { IsTrue result → IsOneIn (sure p.now.given (seen view.now.region.now view.now.lens) t) machines.now (nodes_of p.now.given area.now) }
{
    let first = most_settled(p, view.region, machines);
    if first < machines.len() && is_in(p, view, ks, machines[first], area, t) {
        return true;
    }
    for i in 0..machines.len() {
        if is_in(p, view, ks, machines[i], area, t) {
            return true;
        }
    }
    false
}

// whether one of them is, where one is on a node
fn has_one_in(
    p: &Problem,
    view: &View,
    ks: &[Standing],
    machines: &[VmId],
    post: Post,
    area: &Area,
    t: Instant,
) -> bool
    requires region { IsSized p.now.given view.now.region.now }
    requires machines { list_all (λ x. nat_lt x.0 (machine_count p.now.given)) machines.now ≡ true }
    requires known { AreKnown p.now.given (sets view.now.region.now) ks.now }
    requires post { IsPosted (sure p.now.given (seen view.now.region.now view.now.lens) t) machines.now post }
    ensures { IsTrue result → IsOneIn (sure p.now.given (seen view.now.region.now view.now.lens) t) machines.now (nodes_of p.now.given area.now) }
{
    has(p, area, post.node) || is_one_in(p, view, ks, machines, area, t)
}

// whether they are seen to be so that no single node has all of them
fn are_apart(
    p: &Problem,
    view: &View,
    ks: &[Standing],
    machines: &[VmId],
    post: Option<Post>,
    t: Instant,
) -> bool
    requires region { IsSized p.now.given view.now.region.now }
    requires machines { list_all (λ x. nat_lt x.0 (machine_count p.now.given)) machines.now ≡ true }
    requires known { AreKnown p.now.given (sets view.now.region.now) ks.now }
    requires post { IfSome post (IsPosted (sure p.now.given (seen view.now.region.now view.now.lens) t) machines.now) }
    ensures { IsTrue result → AreScattered (sure p.now.given (seen view.now.region.now view.now.lens) t) machines.now (map one (range_with_len 0 (node_count p.now.given))) }
{
    let Some(post) = post else {
        return false;
    };
    let count = node_total(p);
    for n in 0..count {
        let area = Area::OutsideOne(NodeId(n as u32));
        if !has_one_in(p, view, ks, machines, post, &area, t) {
            return false;
        }
    }
    count > 0
}

// whether they are seen to be so that no group has all of them
fn are_outside(
    p: &Problem,
    view: &View,
    ks: &[Standing],
    machines: &[VmId],
    post: Option<Post>,
    groups: &[NodeSet],
    t: Instant,
) -> bool
    requires region { IsSized p.now.given view.now.region.now }
    requires machines { list_all (λ x. nat_lt x.0 (machine_count p.now.given)) machines.now ≡ true }
    requires known { AreKnown p.now.given (sets view.now.region.now) ks.now }
    requires post { IfSome post (IsPosted (sure p.now.given (seen view.now.region.now view.now.lens) t) machines.now) }
    ensures { IsTrue result → AreScattered (sure p.now.given (seen view.now.region.now view.now.lens) t) machines.now (map has_node groups.now) }
{
    let Some(post) = post else {
        return false;
    };
    for group in groups {
        let area = Area::Outside(*group);
        if !has_one_in(p, view, ks, machines, post, &area, t) {
            return false;
        }
    }
    groups.len() > 0
}

/// Whether it is seen that no group of a constraint may have all its members, of which one is cut.
pub fn is_scattered(
    p: &Problem,
    view: &View,
    ks: &[Standing],
    constraint: &Constraint,
    t: Instant,
) -> bool
    requires region { IsSized p.now.given view.now.region.now }
    requires rule { is_rule (inventory_of p.now.given) constraint.now ≡ true }
    requires known { AreKnown p.now.given (sets view.now.region.now) ks.now }
    ensures { IsTrue result → IsGroup p.now.given (sure p.now.given (seen view.now.region.now view.now.lens) t) constraint.now }
{
    match form_of(constraint) {
        Form::Together(machines, Groups::AnyNode) => {
            let post = post_of(p, view, ks, machines, t);
            are_apart(p, view, ks, machines.items(), post, t)
        }
        Form::Together(machines, Groups::AnyOf(groups)) => {
            let post = post_of(p, view, ks, machines, t);
            are_outside(p, view, ks, machines.items(), post, groups.items(), t)
        }
        Form::Apart(..)
        | Form::Allowed(..)
        | Form::Ordered(..)
        | Form::InTurn(..)
        | Form::Bounded(..)
        | Form::Powered(..)
        | Form::Settled => false,
    }
}
