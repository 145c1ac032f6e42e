//! What all machines surely hold at the most on the nodes of a bound during a period.
ghost use Rattle.std.specs.Prelude.{◌≡◌, ◌+◌, ◌*◌, ◌<◌, ◌≤◌, length, slice_index_or};
ghost use Rattle.rule_setload.specs.Prelude.{AreConcerned, AreWithin, domain_at, has_node, HoldsMost, IsSized, IsWeight, machine_count, max_amount, max_machines, no_row, sets, stay_of, vm};

use crate::bounds::Bound;
use crate::concerned::Members;
use crate::holding::share;
use crate::stayers::{stay, unit};
use power_bounds::period::{Period, act};
use rule_frame::{Domain, Element, Problem, Region, Row, VmId};
use standings::numbers::Standing;

// the row of a number
fn row_at(domain: &Domain, i: usize) -> Row
    requires { i < length domain.now.rows }
    ensures { result ≡ slice_index_or domain.now.rows i no_row }
{
    domain.rows()[i]
}

// the least of what a machine is known to hold no more than, and what both ends of a row have it hold
fn least_with(
    p: &Problem,
    g: &Region,
    v: VmId,
    bound: &Bound,
    stays: u64,
    x: Period,
    i: usize,
    most: u64,
) -> u64
    requires region { IsSized p.now.given g.now }
    requires machine { v.0 < machine_count p.now.given }
    requires weight { IsWeight p.now.given bound.now.weight }
    requires stays { stays ≡ stay_of p.now.given bound.now.weight (has_node bound.now.nodes) v.0 }
    requires few { stays ≤ max_amount }
    requires period { x.to ≤ p.now.given.horizon }
    requires row { i < length (domain_at g.now (vm v.0)).rows }
    requires most { HoldsMost p.now.given (sets g.now) bound.now.weight (has_node bound.now.nodes) v.0 x most }
    ensures least { HoldsMost p.now.given (sets g.now) bound.now.weight (has_node bound.now.nodes) v.0 x result }
    ensures small { result ≤ most }
{
    let domain = g.domain(Element::Vm(v));
    let row = row_at(domain, i);
    let first = share(p, v, bound, stays, act(row, row.lo), x);
    let last = share(p, v, bound, stays, act(row, row.hi), x);
    if first <= last && first <= most {
        return first;
    }
    if last <= most {
        return last;
    }
    most
}

// the least that one of the rows has a machine hold, where it is known to hold no more than a number
fn least_share(
    p: &Problem,
    g: &Region,
    v: VmId,
    bound: &Bound,
    stays: u64,
    x: Period,
    most: u64,
) -> u64
    requires region { IsSized p.now.given g.now }
    requires machine { v.0 < machine_count p.now.given }
    requires weight { IsWeight p.now.given bound.now.weight }
    requires stays { stays ≡ stay_of p.now.given bound.now.weight (has_node bound.now.nodes) v.0 }
    requires few { stays ≤ max_amount }
    requires period { x.to ≤ p.now.given.horizon }
    requires most { HoldsMost p.now.given (sets g.now) bound.now.weight (has_node bound.now.nodes) v.0 x most }
    ensures least { HoldsMost p.now.given (sets g.now) bound.now.weight (has_node bound.now.nodes) v.0 x result }
    ensures small { result ≤ most }
{
    let mut least = most;
    for i in 0..g.domain(Element::Vm(v)).rows().len() {
        if least == 0 {
            return least;
        }
        least = least_with(p, g, v, bound, stays, x, i, least);
    }
    least
}

/// What a machine surely holds at the most. Of one that may stay no row is read before it may have left its host.
#[tactic(auto, using(crate::proofs::HoldLemmas::most_idle, crate::proofs::HoldLemmas::most_ever))]
pub(crate) fn most_held(
    p: &Problem,
    g: &Region,
    k: Standing,
    v: VmId,
    bound: &Bound,
    x: Period,
) -> u64
    requires region { IsSized p.now.given g.now }
    requires machine { v.0 < machine_count p.now.given }
    requires weight { IsWeight p.now.given bound.now.weight }
    requires period { x.to ≤ p.now.given.horizon }
    ensures most { HoldsMost p.now.given (sets g.now) bound.now.weight (has_node bound.now.nodes) v.0 x result }
    ensures small { result ≤ 2 * max_amount }
{
    let stays = stay(p, v, bound);
    let domain = g.domain(Element::Vm(v));
    let idle = domain.idle();
    if !idle {
        let ever = stays + unit(p, v, bound.weight);
        return least_share(p, g, v, bound, stays, x, ever);
    }
    if stays == 0 || u64::from(x.from) < k.leave {
        return stays;
    }
    least_share(p, g, v, bound, stays, x, stays)
}

// what one of all machines does: nothing, where it is none of those that may hold something
#[tactic(auto, using(crate::proofs::AsideLemmas::aside_holds))]
fn most_of(
    p: &Problem,
    g: &Region,
    k: Standing,
    v: VmId,
    bound: &Bound,
    members: &Members,
    x: Period,
) -> u64
    requires region { IsSized p.now.given g.now }
    requires machine { v.0 < machine_count p.now.given }
    requires weight { IsWeight p.now.given bound.now.weight }
    requires members { AreConcerned p.now.given (sets g.now) bound.now.weight (has_node bound.now.nodes) members.now }
    requires period { x.to ≤ p.now.given.horizon }
    ensures most { HoldsMost p.now.given (sets g.now) bound.now.weight (has_node bound.now.nodes) v.0 x result }
    ensures small { result ≤ 2 * max_amount }
{
    if members.machines.has(v) {
        return most_held(p, g, k, v, bound, x);
    }
    0
}

/// What all machines together do, told by those that may hold something.
pub(crate) fn most_total(
    p: &Problem,
    g: &Region,
    ks: &[Standing],
    bound: &Bound,
    members: &Members,
    x: Period,
) -> u64
    requires region { IsSized p.now.given g.now }
    requires count { length ks.now ≡ machine_count p.now.given }
    requires weight { IsWeight p.now.given bound.now.weight }
    requires members { AreConcerned p.now.given (sets g.now) bound.now.weight (has_node bound.now.nodes) members.now }
    requires period { x.to ≤ p.now.given.horizon }
    ensures within { AreWithin p.now.given (sets g.now) bound.now.weight (has_node bound.now.nodes) x result }
    ensures small { result ≤ max_machines * (2 * max_amount) }
{
    let mut total = 0;
    for i in 0..p.cluster().machines().len() {
        total += most_of(p, g, ks[i], VmId(i as u32), bound, members, x);
    }
    total
}
