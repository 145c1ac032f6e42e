//! What one machine holds on the nodes of a bound during a period: at the most, and surely.
ghost use Rattle.std.specs.Prelude.{◌≡◌, ℕ, ◌*◌, ◌<◌, ◌≤◌, nat_lt};
ghost use Rattle.rule_setload.specs.Prelude.{Choice as AnyChoice, goes_in as the_goes_in, has_node, has_started as the_has_started, if_so, HoldsLeast, IsKept, IsShare, IsStanding, IsWeight, leave_of, machine_count, max_amount, sets, stay_of, unit_of, vm};

use crate::bounds::Bound;
use crate::holders::is_among;
use crate::stayers::unit;
use domains::measure::Measure;
use power_bounds::period::Period;
use rule_frame::{Choice, Instant, NodeSet, Place, Problem, Region, Row, VmId};
use standings::leaves::leaves_of;
use standings::numbers::{Leaving, Standing};
use standings::uses::gain;

/// Whether the action of a choice goes to a node of a set.
pub(crate) fn goes_in(c: Choice, nodes: &NodeSet) -> bool
    ensures { result ≡ the_goes_in c (has_node nodes.now) }
{
    match c {
        Choice::Idle => false,
        Choice::Act { place, start: _ } => match place {
            Place::Nowhere => false,
            Place::At(n) => nodes.has(n),
        },
    }
}

// whether the action of a choice has started by an instant
fn has_started(c: Choice, t: Instant) -> bool
    ensures { result ≡ the_has_started t c }
{
    match c {
        Choice::Idle => false,
        Choice::Act { place: _, start } => start <= t,
    }
}

/// Until when a choice keeps the host of its machine.
pub(crate) fn left_at(p: &Problem, v: VmId, c: Choice) -> u64
    requires machine { v.0 < machine_count p.now.given }
    ensures { result ≡ leave_of p.now.given v.0 c }
{
    let leaving = Leaving {
        problem: p,
        machine: v,
        leaves: leaves_of(p, v),
    };
    leaving.value(c)
}

/// What is left under a choice of what a machine has at present, from an instant on.
pub(crate) fn kept(p: &Problem, v: VmId, stays: u64, c: Choice, from: Instant) -> u64
    requires machine { v.0 < machine_count p.now.given }
    ensures kept { (t : ℕ) → from ≤ t → if_so (nat_lt t (leave_of p.now.given v.0 c)) stays ≤ result }
    ensures small { result ≤ stays }
{
    if stays == 0 {
        return 0;
    }
    if left_at(p, v, c) <= u64::from(from) {
        0
    } else {
        stays
    }
}

/// What a choice has brought to the nodes of a bound by an instant.
pub(crate) fn brought(p: &Problem, v: VmId, bound: &Bound, c: Choice, by: Instant) -> u64
    requires machine { v.0 < machine_count p.now.given }
    requires weight { IsWeight p.now.given bound.now.weight }
    ensures brought { (t : ℕ) → t ≤ by → if_so (the_goes_in c (has_node bound.now.nodes)) (if_so (the_has_started t c) (unit_of p.now.given v.0 bound.now.weight)) ≤ result }
    ensures small { result ≤ max_amount }
{
    if has_started(c, by) && goes_in(c, &bound.nodes) {
        unit(p, v, bound.weight)
    } else {
        0
    }
}

/// What a machine holds at the most during a period under a choice.
#[tactic(auto, using(crate::proofs::HoldLemmas::is_share))]
pub(crate) fn share(p: &Problem, v: VmId, bound: &Bound, stays: u64, c: Choice, x: Period) -> u64
    requires machine { v.0 < machine_count p.now.given }
    requires weight { IsWeight p.now.given bound.now.weight }
    requires stays { stays ≡ stay_of p.now.given bound.now.weight (has_node bound.now.nodes) v.0 }
    requires few { stays ≤ max_amount }
    requires period { x.to ≤ p.now.given.horizon }
    ensures share { IsShare p.now.given bound.now.weight (has_node bound.now.nodes) v.0 c x result }
    ensures small { result ≤ 2 * max_amount }
{
    kept(p, v, stays, c, x.from) + brought(p, v, bound, c, x.to)
}

/// What a machine with these numbers has at present, while it keeps its host.
#[tactic(auto, using(crate::proofs::HolderLemmas::kept_holds))]
pub(crate) fn still_kept(
    p: &Problem,
    _g: &Region,
    v: VmId,
    k: Standing,
    stays: u64,
    _bound: &Bound,
    x: Period,
) -> u64
    requires standing { IsStanding p.now.given v.0 (sets _g.now (vm v.0)) k }
    requires kept { IsKept p.now.given _bound.now.weight (has_node _bound.now.nodes) v.0 stays }
    requires period { x.to ≤ p.now.given.horizon }
    ensures least { HoldsLeast p.now.given (sets _g.now) _bound.now.weight (has_node _bound.now.nodes) v.0 x result }
    ensures small { result ≤ max_amount }
{
    if u64::from(x.to) < k.leave { stays } else { 0 }
}

// what it brings where all its choices have come
#[tactic(auto, using(crate::proofs::HoldLemmas::surely_came))]
fn surely_come(p: &Problem, _g: &Region, v: VmId, k: Standing, bound: &Bound, x: Period) -> u64
    requires machine { v.0 < machine_count p.now.given }
    requires standing { IsStanding p.now.given v.0 (sets _g.now (vm v.0)) k }
    requires weight { IsWeight p.now.given bound.now.weight }
    requires period { x.to ≤ p.now.given.horizon }
    ensures least { HoldsLeast p.now.given (sets _g.now) bound.now.weight (has_node bound.now.nodes) v.0 x result }
    ensures small { result ≤ max_amount }
{
    match k.come {
        None => 0,
        Some(a) => if a.last <= x.from && is_among(p, a.node, &bound.nodes) {
            gain(p, v, bound.weight, a.node)
        } else {
            0
        },
    }
}

/// What a machine with these numbers surely holds at the least during a period: what it has at present, which is handed in,
/// while it keeps its host, or what it brings where all its choices have come. No row is read.
pub(crate) fn surely_held(
    p: &Problem,
    _g: &Region,
    v: VmId,
    k: Standing,
    stays: u64,
    bound: &Bound,
    x: Period,
) -> u64
    requires machine { v.0 < machine_count p.now.given }
    requires standing { IsStanding p.now.given v.0 (sets _g.now (vm v.0)) k }
    requires kept { IsKept p.now.given bound.now.weight (has_node bound.now.nodes) v.0 stays }
    requires weight { IsWeight p.now.given bound.now.weight }
    requires period { x.to ≤ p.now.given.horizon }
    ensures least { HoldsLeast p.now.given (sets _g.now) bound.now.weight (has_node bound.now.nodes) v.0 x result }
    ensures small { result ≤ max_amount }
{
    let kept = still_kept(p, _g, v, k, stays, bound, x);
    let come = surely_come(p, _g, v, k, bound, x);
    if kept < come { come } else { kept }
}
