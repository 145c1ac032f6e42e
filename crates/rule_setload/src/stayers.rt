//! What all machines have on the nodes of a constraint at present: no change of a region changes it.
ghost use Rattle.std.specs.Prelude.{◌≡◌, ◌+◌, ◌<◌, ◌≤◌, IfOk, length, true};
ghost use Rattle.rule_setload.specs.Prelude.{AreAllStayers, AreStayersOf, AreStayersTo, bound_of as the_bound_of, form_of, has_node, inventory_of, is_rule, IsWeight, machine_count, max_amount, stay_of, unit_of};

use crate::bounds::{Bound, bound_of};
use rule_constraint::host;
use rule_frame::{Constraint, Memory, Problem, VmId, Weight};
use standings::uses::base;
use std::alloc::Global;

/// What machines have on the nodes of a bound at present, and the most that one of them brings.
#[derive(Clone, Copy)]
pub struct Stayers {
    pub total: u64,
    pub most: u64,
}

impl Stayers {
    // of no machine
    fn none() -> Stayers
        ensures total { result.total ≡ 0 }
        ensures most { result.most ≡ 0 }
    {
        Stayers { total: 0, most: 0 }
    }
}

/// The most that a machine brings to a node.
pub fn unit(p: &Problem, v: VmId, weight: Weight) -> u64
    requires machine { v.0 < machine_count p.now.given }
    requires weight { IsWeight p.now.given weight }
    ensures unit { result ≡ unit_of p.now.given v.0 weight }
    ensures small { result ≤ max_amount }
{
    match weight {
        Weight::Amount(r) => p.demand(v, r),
        Weight::Presence | Weight::Image => 1,
    }
}

/// What a machine has on its host at present, where that is a node of a bound.
pub(crate) fn stay(p: &Problem, v: VmId, bound: &Bound) -> u64
    requires machine { v.0 < machine_count p.now.given }
    requires weight { IsWeight p.now.given bound.now.weight }
    ensures stay { result ≡ stay_of p.now.given bound.now.weight (has_node bound.now.nodes) v.0 }
    ensures small { result ≤ max_amount }
{
    match host(p, v) {
        None => 0,
        Some(h) => if bound.nodes.has(h) {
            base(p, v, bound.weight)
        } else {
            0
        },
    }
}

// with one machine more
#[tactic(auto, using(crate::proofs::AmountLemmas::one_more))]
fn with_one(p: &Problem, bound: &Bound, x: Stayers, v: VmId) -> Stayers
    requires weight { IsWeight p.now.given bound.now.weight }
    requires machine { v.0 < machine_count p.now.given }
    requires before { AreStayersTo p.now.given bound.now.weight (has_node bound.now.nodes) v.0 x }
    ensures { AreStayersTo p.now.given bound.now.weight (has_node bound.now.nodes) (v.0 + 1) result }
{
    Stayers {
        total: x.total + stay(p, v, bound),
        most: x.most.max(unit(p, v, bound.weight)),
    }
}

// of all machines
#[tactic(auto, using(crate::proofs::AmountLemmas::no_machine))]
fn all_of(p: &Problem, bound: &Bound) -> Stayers
    requires weight { IsWeight p.now.given bound.now.weight }
    ensures { AreStayersTo p.now.given bound.now.weight (has_node bound.now.nodes) (machine_count p.now.given) result }
{
    let mut x = Stayers::none();
    for i in 0..p.cluster().machines().len() {
        x = with_one(p, bound, x, VmId(i as u32));
    }
    x
}

// for what a constraint bounds, if it bounds something
fn stayers_of(p: &Problem, constraint: &Constraint) -> Stayers
    requires rule { is_rule (inventory_of p.now.given) constraint.now ≡ true }
    ensures { AreStayersOf p.now.given (the_bound_of (form_of constraint.now)) result }
{
    match bound_of(p, constraint) {
        None => Stayers::none(),
        Some(bound) => all_of(p, &bound),
    }
}

/// For each constraint.
pub fn all_stayers(alloc: Global, p: &Problem) -> Result<Vec<Stayers>, Memory>
    ensures { IfOk result (λ xs. AreAllStayers p.now.given (length p.now.given.constraints) xs.items) }
{
    let count = p.constraints().len();
    let mut all = Vec::with_capacity(alloc, count)?;
    for c in 0..count {
        all.push(stayers_of(p, &p.constraints()[c]))?;
    }
    Ok(all)
}
