//! What the machines may hold more that may not stay as they are, and whether all together stay within an amount.
ghost use Rattle.std.specs.Prelude.{◌≡◌, ◌*◌, ◌<◌, ◌≤◌, IfSome, IsTrue, false, length, slice_index_or};
ghost use Rattle.rule_setload.specs.Prelude.{AreExtra, AreMachines, AreMovers, AreStayersTo, Choice as AnyChoice, goes_in, has_node, IsExtra, IsSized, IsWeight, machine_count, max_amount, max_machines, no_row, sets, StaysIn};

use crate::bounds::Bound;
use crate::stayers::{Stayers, unit};
use rule_frame::{Element, NodeSet, Place, Problem, Region, Row, VmId};

/// Whether a place is none of the nodes of a set.
pub(crate) fn is_outside(place: Place, nodes: &NodeSet) -> bool
    ensures { IsTrue result → goes_in (AnyChoice.Act place 0) (has_node nodes.now) ≡ false }
{
    match place {
        Place::Nowhere => true,
        Place::At(n) => !nodes.has(n),
    }
}

// a row at a place outside a set, looked for at both ends
fn outer_row(rows: &[Row], nodes: &NodeSet) -> Option<usize>
    ensures { IfSome result (λ k. (k < length rows.now) × (goes_in (AnyChoice.Act (slice_index_or rows.now k no_row).place 0) (has_node nodes.now) ≡ false)) }
{
    let count = rows.len();
    if count == 0 {
        return None;
    }
    if is_outside(rows[0].place, nodes) {
        return Some(0);
    }
    if is_outside(rows[count - 1].place, nodes) {
        return Some(count - 1);
    }
    None
}

/// What a machine surely holds more than what it has at present, at the most: nothing where it may stay, or go elsewhere.
#[tactic(auto, using(crate::proofs::AmountLemmas::none_extra, crate::proofs::AmountLemmas::row_extra, crate::proofs::AmountLemmas::unit_extra))]
pub(crate) fn extra(p: &Problem, g: &Region, v: VmId, bound: &Bound) -> u64
    requires region { IsSized p.now.given g.now }
    requires machine { v.0 < machine_count p.now.given }
    requires weight { IsWeight p.now.given bound.now.weight }
    ensures extra { IsExtra p.now.given (sets g.now) bound.now.weight (has_node bound.now.nodes) v.0 result }
    ensures small { result ≤ max_amount }
{
    let domain = g.domain(Element::Vm(v));
    if domain.idle() {
        return 0;
    }
    match outer_row(domain.rows(), &bound.nodes) {
        Some(_) => 0,
        None => unit(p, v, bound.weight),
    }
}

// what the machines of a list do
fn extra_of(p: &Problem, g: &Region, machines: &[u32], bound: &Bound) -> u64
    requires region { IsSized p.now.given g.now }
    requires weight { IsWeight p.now.given bound.now.weight }
    requires machines { AreMachines p.now.given machines.now }
    ensures extra { AreExtra p.now.given (sets g.now) bound.now.weight (has_node bound.now.nodes) machines.now result }
    ensures small { result ≤ max_machines * max_amount }
{
    let mut total = 0;
    for i in 0..machines.len() {
        total += extra(p, g, VmId(machines[i]), bound);
    }
    total
}

/// Whether it is seen that what machines hold stays within an amount up to the horizon, with any one set to any of
/// its choices: by what all have at present, and the machines that may not stay.
#[tactic(auto, using(crate::proofs::AmountLemmas::stays_in))]
pub fn stays_within(
    p: &Problem,
    g: &Region,
    bound: &Bound,
    stayers: Stayers,
    movers: &[u32],
) -> bool
    requires region { IsSized p.now.given g.now }
    requires weight { IsWeight p.now.given bound.now.weight }
    requires stayers { AreStayersTo p.now.given bound.now.weight (has_node bound.now.nodes) (machine_count p.now.given) stayers }
    requires movers { AreMovers p.now.given (sets g.now) movers.now }
    ensures { IsTrue result → StaysIn p.now.given (sets g.now) bound.now.weight (has_node bound.now.nodes) bound.now.amount }
{
    let extra = extra_of(p, g, movers, bound);
    stayers.total + extra + stayers.most <= bound.amount
}
