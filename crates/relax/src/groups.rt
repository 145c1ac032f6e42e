//! Reasons of whole constraints: members that no group has all of, and actions that may not overlap.
ghost use Rattle.std.specs.Prelude.{All, ◌≡◌, ◌≢◌, ◌↔◌, ℕ, ◌<◌, false, true, [], map, nat_lt, IfSome, IfNone, IsTrue, slice_index_or, length};
ghost use Rattle.std.specs.List.{list_all, range_with_len};
ghost use Rattle.relax.specs.Prelude.{Acting, AreAllOut, AreBothActing, AreScattered, has_node, HasOutside, inventory_of, is_rule, IsElement, IsGroup, IsMember, IsOneIn, IsSized, machine_count, node_count, nodes_of, one, seen, Started, sure, Unended};

use crate::area::{Area, node_total};
use crate::sure::{surely_in, surely_so_far};
use catalogue::{Constraint, Problem};
use cluster::{Instant, NodeId, NodeSet, VmId};
use domains::View;
use slices::Form;
use slices::form::{Groups, form_of};
use slices::stage::Progress;

// the place in a list of a machine that is surely present on nodes of an area; the first place that is
// tried is handed in
fn find_in(
    p: &Problem,
    view: &View,
    machines: &[VmId],
    first: usize,
    area: &Area,
    t: Instant,
) -> Option<usize>
    requires region { IsSized p.now.given view.now.region.now }
    requires machines { list_all (λ x. nat_lt x.0 (machine_count p.now.given)) machines.now ≡ true }
    ensures some { IfSome result (λ i. IsOneIn (sure p.now.given (seen view.now.region.now view.now.lens) t) machines.now (nodes_of p.now.given area.now)) }
    ensures none { IfNone result (AreAllOut (sure p.now.given (seen view.now.region.now view.now.lens) t) machines.now (nodes_of p.now.given area.now)) }
{
    if first < machines.len() && surely_in(p, view, machines[first], area, t) {
        return Some(first);
    }
    for i in 0..machines.len() {
        if surely_in(p, view, machines[i], area, t) {
            return Some(i);
        }
    }
    None
}

// whether no single node may have all presences of the machines
fn are_apart(p: &Problem, view: &View, machines: &[VmId], t: Instant) -> bool
    requires region { IsSized p.now.given view.now.region.now }
    requires machines { list_all (λ x. nat_lt x.0 (machine_count p.now.given)) machines.now ≡ true }
    ensures yes { IsTrue result → AreScattered (sure p.now.given (seen view.now.region.now view.now.lens) t) machines.now (map one (range_with_len 0 (node_count p.now.given))) }
    ensures no { result ≡ false → ¬ AreScattered (sure p.now.given (seen view.now.region.now view.now.lens) t) machines.now (map one (range_with_len 0 (node_count p.now.given))) }
{
    let mut last = 0;
    let count = node_total(p);
    for n in 0..count {
        match find_in(
            p,
            view,
            machines,
            last,
            &Area::OutsideOne(NodeId(n as u32)),
            t,
        ) {
            None => return false,
            Some(i) => last = i,
        }
    }
    count > 0
}

// whether no group may have all presences of the machines
fn are_outside(p: &Problem, view: &View, machines: &[VmId], groups: &[NodeSet], t: Instant) -> bool
    requires region { IsSized p.now.given view.now.region.now }
    requires machines { list_all (λ x. nat_lt x.0 (machine_count p.now.given)) machines.now ≡ true }
    ensures yes { IsTrue result → AreScattered (sure p.now.given (seen view.now.region.now view.now.lens) t) machines.now (map has_node groups.now) }
    ensures no { result ≡ false → ¬ AreScattered (sure p.now.given (seen view.now.region.now view.now.lens) t) machines.now (map has_node groups.now) }
{
    let mut last = 0;
    for group in groups {
        match find_in(p, view, machines, last, &Area::Outside(*group), t) {
            None => return false,
            Some(i) => last = i,
        }
    }
    groups.len() > 0
}

// whether there is no machine, or this one
fn is_at_most(acting: Option<VmId>, v: VmId) -> bool
    ensures { IsTrue result ↔ IfSome acting (λ w. w.0 ≡ v.0) }
{
    match acting {
        Some(w) => w.0 == v.0,
        None => true,
    }
}

// whether two different machines of a list surely act
fn are_both_acting(p: &Problem, view: &View, machines: &[VmId], t: Instant) -> bool
    requires region { IsSized p.now.given view.now.region.now }
    requires machines { list_all (λ x. nat_lt x.0 (machine_count p.now.given)) machines.now ≡ true }
    ensures yes { IsTrue result → AreBothActing (sure p.now.given (seen view.now.region.now view.now.lens) t) machines.now }
    ensures no { result ≡ false → ¬ AreBothActing (sure p.now.given (seen view.now.region.now view.now.lens) t) machines.now }
{
    let mut acting = None;
    for v in machines {
        if !surely_so_far(p, view, *v, Progress::Acting, t) {
            continue;
        }
        if !is_at_most(acting, *v) {
            return true;
        }
        acting = Some(*v);
    }
    false
}

// whether the one machine's action has surely started, and the other's has surely not ended
fn is_early(p: &Problem, view: &View, before: VmId, after: VmId, t: Instant) -> bool
    requires region { IsSized p.now.given view.now.region.now }
    requires before { before.0 < machine_count p.now.given }
    requires after { after.0 < machine_count p.now.given }
    ensures yes { let now = sure p.now.given (seen view.now.region.now view.now.lens) t in
        IsTrue result → IsTrue (now.action after.0 Started) × IsTrue (now.action before.0 Unended) }
    ensures no { let now = sure p.now.given (seen view.now.region.now view.now.lens) t in
        result ≡ false → ¬ (IsTrue (now.action after.0 Started) × IsTrue (now.action before.0 Unended)) }
{
    surely_so_far(p, view, after, Progress::Started, t)
        && surely_so_far(p, view, before, Progress::Unended, t)
}

/// Whether no group of a constraint may have all its members; or the later machine of a precedence has
/// surely started and the earlier one surely not ended; or two members of a serialize surely act.
pub fn is_group(p: &Problem, view: &View, constraint: &Constraint, t: Instant) -> bool
    requires region { IsSized p.now.given view.now.region.now }
    requires rule { is_rule (inventory_of p.now.given) constraint.now ≡ true }
    ensures yes { IsTrue result → IsGroup p.now.given (sure p.now.given (seen view.now.region.now view.now.lens) t) constraint.now }
    ensures no { result ≡ false → ¬ IsGroup p.now.given (sure p.now.given (seen view.now.region.now view.now.lens) t) constraint.now }
{
    match form_of(constraint) {
        Form::Together(machines, Groups::AnyNode) => are_apart(p, view, machines.items(), t),
        Form::Together(machines, Groups::AnyOf(groups)) => {
            are_outside(p, view, machines.items(), groups.items(), t)
        }
        Form::Ordered(before, after) => is_early(p, view, before, after, t),
        Form::InTurn(machines) => are_both_acting(p, view, machines.items(), t),
        Form::Apart(..)
        | Form::Allowed(..)
        | Form::Bounded(..)
        | Form::Powered(..)
        | Form::Settled => false,
    }
}
