//! Whether an amount is seen to be exceeded, told by where machines surely stand.
ghost use Rattle.std.specs.Prelude.{◌<◌, ◌≤◌, IsTrue, length};
ghost use Rattle.rule_setload.specs.Prelude.{Applies, AreAllHolders, AreKept, AreStanding, has_node, IsKept, IsSetLoad, IsSized, IsStanding, IsWeight, machine_count, max_held, seen, sets, sure, total, vm};

use crate::bounds::{Bound, bound_of};
use crate::holders::{Holder, Holders};
use crate::holding::{still_kept, surely_held};
use power_bounds::period::Period;
use relax::sure::least_held;
use rule_frame::{Area, Instant, Lens, Problem, View, VmId};
use standings::numbers::Standing;
use standings::seen::{is_narrowed, narrowed};

// what a machine has at present, where the next of a list is that machine: nothing where it is another one
#[tactic(auto, using(crate::proofs::HolderLemmas::listed_kept, crate::proofs::HolderLemmas::none_kept))]
fn stays_of(_p: &Problem, holders: &[Holder], next: usize, v: VmId, _bound: &Bound) -> u64
    requires holders { AreKept _p.now.given _bound.now holders.now }
    ensures { IsKept _p.now.given _bound.now.weight (has_node _bound.now.nodes) v.0 result }
{
    if next < holders.len() && holders[next].machine.0 == v.0 {
        holders[next].amount
    } else {
        0
    }
}

// what a machine surely holds in what is seen: by its numbers, where all of its choices are
fn held_seen(
    p: &Problem,
    view: &View,
    v: VmId,
    k: Standing,
    stays: u64,
    bound: &Bound,
    t: Instant,
) -> u64
    requires region { IsSized p.now.given view.now.region.now }
    requires machine { v.0 < machine_count p.now.given }
    requires standing { IsStanding p.now.given v.0 (sets view.now.region.now (vm v.0)) k }
    requires kept { IsKept p.now.given bound.now.weight (has_node bound.now.nodes) v.0 stays }
    requires weight { IsWeight p.now.given bound.now.weight }
    requires within { t ≤ p.now.given.horizon }
    ensures held { result ≤ (sure p.now.given (seen view.now.region.now view.now.lens) t).held v.0 bound.now.weight (has_node bound.now.nodes) }
    ensures small { result ≤ max_held }
{
    if is_narrowed(view.lens, v) {
        return least_held(p, view, v, bound.weight, &Area::In(bound.nodes), t);
    }
    surely_held(
        p,
        view.region,
        v,
        k,
        stays,
        bound,
        Period { from: t, to: t },
    )
}

// whether a machine may hold more than what it has at present while it surely keeps that
#[inline(always)]
fn may_hold_more(k: Standing, stays: u64, t: Instant) -> bool {
    if stays > 0 {
        k.leave <= u64::from(t)
    } else {
        k.come.is_some()
    }
}

// what it does, told at once for most machines: for one that surely keeps its host, or has nothing and need not come
#[inline(always)]
fn held_at_once(
    p: &Problem,
    view: &View,
    v: VmId,
    k: Standing,
    stays: u64,
    bound: &Bound,
    t: Instant,
) -> u64
    requires region { IsSized p.now.given view.now.region.now }
    requires machine { v.0 < machine_count p.now.given }
    requires standing { IsStanding p.now.given v.0 (sets view.now.region.now (vm v.0)) k }
    requires kept { IsKept p.now.given bound.now.weight (has_node bound.now.nodes) v.0 stays }
    requires weight { IsWeight p.now.given bound.now.weight }
    requires within { t ≤ p.now.given.horizon }
    ensures held { result ≤ (sure p.now.given (seen view.now.region.now view.now.lens) t).held v.0 bound.now.weight (has_node bound.now.nodes) }
    ensures small { result ≤ max_held }
{
    if is_narrowed(view.lens, v) || may_hold_more(k, stays, t) {
        return held_seen(p, view, v, k, stays, bound, t);
    }
    let now = Period { from: t, to: t };
    still_kept(p, view.region, v, k, stays, bound, now)
}

// the number of the machine of which not all choices are seen
fn narrowed_number(lens: Lens) -> usize {
    match narrowed(lens) {
        None => usize::MAX,
        Some(v) => v.0 as usize,
    }
}

// whether the machine of a number may hold something: the next of a list, one that surely comes, or the other one
#[inline(always)]
fn may_hold(holders: &[Holder], next: usize, other: usize, i: usize, k: Standing) -> bool {
    if i == other || k.come.is_some() {
        return true;
    }
    next < holders.len() && holders[next].machine.0 as usize == i
}

// the number of the next machine to count: that of a list, or another one where it comes first
fn next_number(holders: &[Holder], next: usize, other: usize, low: usize) -> usize {
    let listed = if next < holders.len() {
        holders[next].machine.0 as usize
    } else {
        usize::MAX
    };
    if low <= other && other < listed {
        other
    } else {
        listed
    }
}

// whether those of a list alone, with the one of which not all choices are seen, surely hold more than the amount
fn listed_are_over(
    p: &Problem,
    view: &View,
    holders: &[Holder],
    ks: &[Standing],
    bound: &Bound,
    t: Instant,
) -> bool
    requires region { IsSized p.now.given view.now.region.now }
    requires holders { AreKept p.now.given bound.now holders.now }
    requires standings { AreStanding p.now.given (sets view.now.region.now) ks.now }
    requires weight { IsWeight p.now.given bound.now.weight }
    requires within { t ≤ p.now.given.horizon }
    ensures { IsTrue result → bound.now.amount < total p.now.given (sure p.now.given (seen view.now.region.now view.now.lens) t) bound.now.weight (has_node bound.now.nodes) }
{
    let other = narrowed_number(view.lens);
    let mut total = 0;
    let mut next = 0usize;
    let mut low = 0usize;
    for _ in 0..holders.len().saturating_add(1) {
        let i = next_number(holders, next, other, low);
        // each is counted once
        if i < low {
            return false;
        }
        if i >= p.cluster().machines().len() {
            return false;
        }
        let v = VmId(i as u32);
        let stays = stays_of(p, holders, next, v, bound);
        if stays > 0 {
            next = next.saturating_add(1);
        }
        total += held_at_once(p, view, v, ks[i], stays, bound, t);
        if total > bound.amount {
            return true;
        }
        low = i + 1;
    }
    false
}

// whether what machines surely hold in what is seen is more than the amount
fn is_over(
    p: &Problem,
    view: &View,
    holders: &[Holder],
    ks: &[Standing],
    bound: &Bound,
    t: Instant,
) -> bool
    requires region { IsSized p.now.given view.now.region.now }
    requires holders { AreKept p.now.given bound.now holders.now }
    requires standings { AreStanding p.now.given (sets view.now.region.now) ks.now }
    requires weight { IsWeight p.now.given bound.now.weight }
    requires within { t ≤ p.now.given.horizon }
    ensures { IsTrue result → bound.now.amount < total p.now.given (sure p.now.given (seen view.now.region.now view.now.lens) t) bound.now.weight (has_node bound.now.nodes) }
{
    let other = narrowed_number(view.lens);
    let mut total = 0;
    let mut next = 0usize;
    for i in 0..p.cluster().machines().len() {
        if may_hold(holders, next, other, i, ks[i]) {
            let v = VmId(i as u32);
            let stays = stays_of(p, holders, next, v, bound);
            if stays > 0 {
                next = next.saturating_add(1);
            }
            total += held_at_once(p, view, v, ks[i], stays, bound, t);
            if total > bound.amount {
                return true;
            }
        }
    }
    false
}

// whether it is seen to be more: by those of the list, or by all machines
fn is_exceeded(
    p: &Problem,
    view: &View,
    holders: &[Holder],
    ks: &[Standing],
    bound: &Bound,
    t: Instant,
) -> bool
    requires region { IsSized p.now.given view.now.region.now }
    requires holders { AreKept p.now.given bound.now holders.now }
    requires standings { AreStanding p.now.given (sets view.now.region.now) ks.now }
    requires weight { IsWeight p.now.given bound.now.weight }
    requires within { t ≤ p.now.given.horizon }
    ensures { IsTrue result → bound.now.amount < total p.now.given (sure p.now.given (seen view.now.region.now view.now.lens) t) bound.now.weight (has_node bound.now.nodes) }
{
    listed_are_over(p, view, holders, ks, bound, t) || is_over(p, view, holders, ks, bound, t)
}

/// Whether a constraint on what machines hold is seen to be broken at an instant in what is seen of a region. Those that have
/// something there at present are handed in, in the order of their numbers; whom the list leaves out is counted for less.
#[tactic(auto, using(crate::proofs::OverLemmas::over_applies))]
pub(crate) fn exceeds(
    p: &Problem,
    view: &View,
    holders: &Holders,
    ks: &[Standing],
    c: u32,
    t: Instant,
) -> bool
    requires region { IsSized p.now.given view.now.region.now }
    requires holders { AreAllHolders p.now.given (length p.now.given.constraints) holders.now }
    requires standings { AreStanding p.now.given (sets view.now.region.now) ks.now }
    ensures { IsTrue result → (c < length p.now.given.constraints) × (t ≤ p.now.given.horizon) × Applies p.now.given c t (IsSetLoad p.now.given (sure p.now.given (seen view.now.region.now view.now.lens) t)) }
{
    if c as usize >= p.constraints().len() || t > p.horizon() || !p.applies(c, t) {
        return false;
    }
    match bound_of(p, &p.constraints()[c as usize]) {
        None => false,
        Some(bound) => is_exceeded(p, view, holders.get(c as usize), ks, &bound, t),
    }
}
