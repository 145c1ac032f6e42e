//! Reasons of sums: more of something than there may be.
ghost use Rattle.std.specs.Prelude.{filter, IsSomeAnd, ◌≡◌, ◌↔◌, ℕ, ◌<◌, ◌≤◌, true, length, nat_lt, IsTrue, IfSome};
ghost use Rattle.std.specs.List.{list_all};
ghost use Rattle.relax.specs.Prelude.{ExceedsSeparated, has_node, inventory_of, is_rule, IsHall, IsOverload, IsPower, IsSetLoad, IsSized, least_cost as the_least_cost, machine_count, max_nodes, nodes_in as the_nodes_in, nodes_of, seen, separated, separation_seen, sure};

use crate::area::{Area, area_of};
use crate::sure::surely_in;
use crate::totals::{least_cost, load, powered_nodes, room, total};
use catalogue::{Constraint, Problem};
use cluster::{Instant, NodeId, NodeSet, VmId};
use domains::View;
use slices::Form;
use slices::form::{Separation, form_of};

/// Whether a plan of a cost is handed in, and the sum of the least ends is no less. The sum is added up
/// where it is not handed in as well.
pub fn is_bounded(p: &Problem, view: &View, bound: Option<u64>, least: Option<u128>) -> bool
    requires region { IsSized p.now.given view.now.region.now }
    requires least { IfSome least (λ n. n ≡ the_least_cost p.now.given (seen view.now.region.now view.now.lens)) }
    ensures { IsTrue result ↔ IsSomeAnd bound (λ cost. cost ≤ the_least_cost p.now.given (seen view.now.region.now view.now.lens)) }
{
    match bound {
        None => false,
        Some(cost) => u128::from(cost) <= least_or(p, view, least),
    }
}

// the sum of the least ends, where it is not handed in
fn least_or(p: &Problem, view: &View, least: Option<u128>) -> u128
    requires region { IsSized p.now.given view.now.region.now }
    requires least { IfSome least (λ n. n ≡ the_least_cost p.now.given (seen view.now.region.now view.now.lens)) }
    ensures { result ≡ the_least_cost p.now.given (seen view.now.region.now view.now.lens) }
{
    match least {
        Some(sum) => sum,
        None => least_cost(p, view),
    }
}

/// Whether the least uses of a resource on the nodes of a set exceed the capacities of those of them
/// that may be usable.
pub fn is_overload(p: &Problem, view: &View, r: u8, set: &NodeSet, t: Instant) -> bool
    requires region { IsSized p.now.given view.now.region.now }
    requires resource { r < length p.now.given.resources }
    ensures { IsTrue result ↔ IsOverload p.now.given (sure p.now.given (seen view.now.region.now view.now.lens) t) r (has_node set.now) }
{
    let area = area_of(p, set);
    room(p, view, r, &area, t) < load(p, view, r, &area, t)
}

/// Whether the least uses, or the least numbers of presences, on the nodes of a constraint exceed its
/// amount.
pub fn is_set_load(p: &Problem, view: &View, constraint: &Constraint, t: Instant) -> bool
    requires region { IsSized p.now.given view.now.region.now }
    requires rule { is_rule (inventory_of p.now.given) constraint.now ≡ true }
    ensures { IsTrue result ↔ IsSetLoad p.now.given (sure p.now.given (seen view.now.region.now view.now.lens) t) constraint.now }
{
    match form_of(constraint) {
        Form::Bounded(weight, nodes, amount) => {
            amount < total(p, view, weight, &area_of(p, nodes), t)
        }
        Form::Apart(..)
        | Form::Allowed(..)
        | Form::Together(..)
        | Form::Ordered(..)
        | Form::InTurn(..)
        | Form::Powered(..)
        | Form::Settled => false,
    }
}

/// Whether more nodes of a constraint are surely powered than its amount.
pub fn is_power(p: &Problem, view: &View, constraint: &Constraint, t: Instant) -> bool
    requires region { IsSized p.now.given view.now.region.now }
    ensures { IsTrue result ↔ IsPower p.now.given (sure p.now.given (seen view.now.region.now view.now.lens) t) constraint.now }
{
    match form_of(constraint) {
        Form::Powered(nodes, amount) => amount < powered_nodes(p, view, &Area::In(*nodes), t),
        Form::Apart(..)
        | Form::Allowed(..)
        | Form::Together(..)
        | Form::Ordered(..)
        | Form::InTurn(..)
        | Form::Bounded(..)
        | Form::Settled => false,
    }
}

// how many nodes of the problem a set has
fn nodes_in(p: &Problem, set: &NodeSet) -> usize
    ensures { result ≡ the_nodes_in p.now.given (has_node set.now) }
{
    let mut total = 0;
    for n in 0..p.cluster().nodes().len() {
        total += usize::from(set.has(NodeId(n as u32)));
    }
    total
}

// how many machines of a list are surely present on nodes of an area
fn present_in(p: &Problem, view: &View, machines: &[VmId], area: &Area, t: Instant) -> usize
    requires region { IsSized p.now.given view.now.region.now }
    requires machines { list_all (λ x. nat_lt x.0 (machine_count p.now.given)) machines.now ≡ true }
    ensures { result ≡ length (filter (λ v. (sure p.now.given (seen view.now.region.now view.now.lens) t).present v.0 (nodes_of p.now.given area.now)) machines.now) }
{
    let mut total = 0;
    for v in machines {
        total += usize::from(surely_in(p, view, *v, area, t));
    }
    total
}

// whether more members, each kept apart from each other one, are surely present on nodes of a set than it has nodes
fn is_crowded(p: &Problem, view: &View, separation: &Separation, set: &NodeSet, t: Instant) -> bool
    requires region { IsSized p.now.given view.now.region.now }
    requires machines { list_all (λ x. nat_lt x.0 (machine_count p.now.given)) (separated (separation_seen separation.now)) ≡ true }
    ensures { IsTrue result ↔ ExceedsSeparated p.now.given (sure p.now.given (seen view.now.region.now view.now.lens) t) (has_node set.now) (separation_seen separation.now) }
{
    match separation {
        Separation::Each(machines) => {
            nodes_in(p, set) < present_in(p, view, machines.items(), &Area::In(*set), t)
        }
        Separation::Between(_) | Separation::FromOthers(_) => false,
    }
}

/// Whether more members of a spread are surely present on nodes of a set than it has nodes.
pub fn is_hall(p: &Problem, view: &View, constraint: &Constraint, set: &NodeSet, t: Instant) -> bool
    requires region { IsSized p.now.given view.now.region.now }
    requires rule { is_rule (inventory_of p.now.given) constraint.now ≡ true }
    ensures { IsTrue result ↔ IsHall p.now.given (sure p.now.given (seen view.now.region.now view.now.lens) t) (has_node set.now) constraint.now }
{
    match form_of(constraint) {
        Form::Apart(separation) => is_crowded(p, view, &separation, set, t),
        Form::Allowed(..)
        | Form::Together(..)
        | Form::Ordered(..)
        | Form::InTurn(..)
        | Form::Bounded(..)
        | Form::Powered(..)
        | Form::Settled => false,
    }
}
