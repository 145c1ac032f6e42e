//! Whether each machine fits in what is spare on the nodes of a bound during a period, under any of its choices.
ghost use Rattle.std.specs.Prelude.{◌≡◌, ◌⊎◌, ◌+◌, ◌<◌, ◌≤◌, ℕ, IsTrue, false, length, slice_index_or, true};
ghost use Rattle.rule_setload.specs.Prelude.{AreConcerned, AreStanding, Choice as AnyChoice, Climbs, goes_in, has_node, IsEnd, IsFit, IsLate, IsShare, IsSized, IsSpan, IsStanding, IsWeight, machine_count, max_amount, max_spare, no_row, sets, StaysDuring, stay_of, vm};

use crate::bounds::Bound;
use crate::concerned::Members;
use crate::holders::kept_amount;
use crate::holding::{brought, kept, surely_held};
use crate::most::most_total;
use crate::movers_hold::is_outside;
use crate::span::{RowRange, Span, rows_within};
use crate::stayers::{stay, unit};
use power_bounds::period::{Period, act};
use rule_frame::{Choice, Element, Instant, NodeSet, Problem, Region, Row, VmId};
use standings::numbers::Standing;

/// More than can be spare anywhere.
const MOST: u64 = 1_000_000_000_000_000_000;

// whether a machine holds no more than a limit under a choice
#[tactic(auto, using(crate::proofs::HoldLemmas::is_share, crate::proofs::HoldLemmas::ever_share))]
fn end_fits(
    p: &Problem,
    v: VmId,
    bound: &Bound,
    stays: u64,
    c: Choice,
    x: Period,
    limit: u64,
) -> bool
    requires machine { v.0 < machine_count p.now.given }
    requires weight { IsWeight p.now.given bound.now.weight }
    requires stays { stays ≡ stay_of p.now.given bound.now.weight (has_node bound.now.nodes) v.0 }
    requires few { stays ≤ max_amount }
    requires period { x.to ≤ p.now.given.horizon }
    ensures { IsTrue result → IsShare p.now.given bound.now.weight (has_node bound.now.nodes) v.0 c x limit }
{
    let came = brought(p, v, bound, c, x.to);
    came + stays <= limit || came + kept(p, v, stays, c, x.from) <= limit
}

// whether what a machine has fits, if it may stay
fn idle_fits(idle: bool, stays: u64, limit: u64) -> bool
    ensures { IsTrue result → idle ≡ true → stays ≤ limit }
{
    !idle || stays <= limit
}

// the rows of which not both ends are seen to fit at once: those at no node of the bound do where what the machine has fits
fn rows_in_doubt(rows: &[Row], bound: &Bound, span: Span, stays: u64, limit: u64) -> RowRange
    requires climbs { Climbs 0 rows.now }
    requires span { IsSpan (has_node bound.now.nodes) span }
    ensures within { result.to ≤ length rows.now }
    ensures others { (k : ℕ) → k < length rows.now → (k < result.from) ⊎ (result.to ≤ k) → (stays ≤ limit) × (goes_in (AnyChoice.Act (slice_index_or rows.now k no_row).place 0) (has_node bound.now.nodes) ≡ false) }
{
    if stays <= limit {
        rows_within(rows, &bound.nodes, span)
    } else {
        RowRange {
            from: 0,
            to: rows.len(),
        }
    }
}

// whether the ends of a machine's choices fit
fn ends_fit(
    p: &Problem,
    g: &Region,
    v: VmId,
    bound: &Bound,
    span: Span,
    stays: u64,
    x: Period,
    limit: u64,
) -> bool
    requires region { IsSized p.now.given g.now }
    requires machine { v.0 < machine_count p.now.given }
    requires weight { IsWeight p.now.given bound.now.weight }
    requires span { IsSpan (has_node bound.now.nodes) span }
    requires stays { stays ≡ stay_of p.now.given bound.now.weight (has_node bound.now.nodes) v.0 }
    requires few { stays ≤ max_amount }
    requires period { x.to ≤ p.now.given.horizon }
    ensures { IsTrue result → (c : AnyChoice) → IsEnd (sets g.now (vm v.0)) c → IsShare p.now.given bound.now.weight (has_node bound.now.nodes) v.0 c x limit }
{
    let domain = g.domain(Element::Vm(v));
    if !idle_fits(domain.idle(), stays, limit) {
        return false;
    }
    let rows = domain.rows();
    let doubt = rows_in_doubt(rows, bound, span, stays, limit);
    for i in doubt.from..doubt.to {
        let first = act(rows[i], rows[i].lo);
        let last = act(rows[i], rows[i].hi);
        if !end_fits(p, v, bound, stays, first, x, limit) {
            return false;
        }
        if !end_fits(p, v, bound, stays, last, x, limit) {
            return false;
        }
    }
    true
}

// whether a machine does
#[tactic(auto, using(crate::proofs::FitLemmas::one_fits, crate::proofs::FitLemmas::ever_fits, crate::proofs::FitLemmas::limit_fits, crate::proofs::FitLemmas::shares_fit))]
fn machine_fits(
    p: &Problem,
    g: &Region,
    k: Standing,
    v: VmId,
    bound: &Bound,
    span: Span,
    x: Period,
    spare: u64,
) -> bool
    requires region { IsSized p.now.given g.now }
    requires machine { v.0 < machine_count p.now.given }
    requires standing { IsStanding p.now.given v.0 (sets g.now (vm v.0)) k }
    requires weight { IsWeight p.now.given bound.now.weight }
    requires span { IsSpan (has_node bound.now.nodes) span }
    requires period { x.to ≤ p.now.given.horizon }
    requires small { spare ≤ max_spare }
    ensures { IsTrue result → IsFit p.now.given (sets g.now) bound.now.weight (has_node bound.now.nodes) v.0 x spare }
{
    let stays = stay(p, v, bound);
    let ever = stays + unit(p, v, bound.weight);
    if ever <= spare {
        return true;
    }
    if g.domain(Element::Vm(v)).is_one() {
        return true;
    }
    let limit = spare + surely_held(p, g, v, k, kept_amount(p, v, bound), bound, x);
    ever <= limit || ends_fit(p, g, v, bound, span, stays, x, limit)
}

// whether a row is seen to be at no node of a set, or later than an instant
fn is_late(row: Row, nodes: &NodeSet, by: Instant) -> bool
    ensures { IsTrue result → IsLate (has_node nodes.now) by row }
{
    row.lo > by || is_outside(row.place, nodes)
}

// whether each row is
fn are_late(rows: &[Row], nodes: &NodeSet, span: Span, by: Instant) -> bool
    requires climbs { Climbs 0 rows.now }
    requires span { IsSpan (has_node nodes.now) span }
    ensures { IsTrue result → (k : ℕ) → k < length rows.now → IsLate (has_node nodes.now) by (slice_index_or rows.now k no_row) }
{
    let near = rows_within(rows, nodes, span);
    for i in near.from..near.to {
        if !is_late(rows[i], nodes, by) {
            return false;
        }
    }
    true
}

// whether one that is aside does: all that it brings is spare, or it comes later
#[tactic(auto, using(crate::proofs::FitLemmas::unit_fits, crate::proofs::FitLemmas::late_fits))]
fn comer_fits(
    p: &Problem,
    g: &Region,
    v: VmId,
    bound: &Bound,
    span: Span,
    x: Period,
    spare: u64,
) -> bool
    requires region { IsSized p.now.given g.now }
    requires machine { v.0 < machine_count p.now.given }
    requires weight { IsWeight p.now.given bound.now.weight }
    requires span { IsSpan (has_node bound.now.nodes) span }
    requires none { stay_of p.now.given bound.now.weight (has_node bound.now.nodes) v.0 ≡ 0 }
    requires period { x.to ≤ p.now.given.horizon }
    ensures { IsTrue result → IsFit p.now.given (sets g.now) bound.now.weight (has_node bound.now.nodes) v.0 x spare }
{
    if unit(p, v, bound.weight) <= spare {
        return true;
    }
    let domain = g.domain(Element::Vm(v));
    are_late(domain.rows(), &bound.nodes, span, x.to)
}

// whether one of all machines does: of one that is aside no more is asked where what any brings is spare
#[tactic(auto, using(crate::proofs::FitLemmas::unit_fits))]
fn fits_among(
    p: &Problem,
    g: &Region,
    k: Standing,
    v: VmId,
    bound: &Bound,
    members: &Members,
    x: Period,
    spare: u64,
) -> bool
    requires region { IsSized p.now.given g.now }
    requires machine { v.0 < machine_count p.now.given }
    requires standing { IsStanding p.now.given v.0 (sets g.now (vm v.0)) k }
    requires weight { IsWeight p.now.given bound.now.weight }
    requires members { AreConcerned p.now.given (sets g.now) bound.now.weight (has_node bound.now.nodes) members.now }
    requires period { x.to ≤ p.now.given.horizon }
    requires small { spare ≤ max_spare }
    ensures { IsTrue result → IsFit p.now.given (sets g.now) bound.now.weight (has_node bound.now.nodes) v.0 x spare }
{
    if members.machines.has(v) {
        return machine_fits(p, g, k, v, bound, members.span, x, spare);
    }
    members.most <= spare || comer_fits(p, g, v, bound, members.span, x, spare)
}

// whether each does
fn machines_fit(
    p: &Problem,
    g: &Region,
    ks: &[Standing],
    bound: &Bound,
    members: &Members,
    x: Period,
    spare: u64,
) -> bool
    requires region { IsSized p.now.given g.now }
    requires standings { AreStanding p.now.given (sets g.now) ks.now }
    requires weight { IsWeight p.now.given bound.now.weight }
    requires members { AreConcerned p.now.given (sets g.now) bound.now.weight (has_node bound.now.nodes) members.now }
    requires period { x.to ≤ p.now.given.horizon }
    requires small { spare ≤ max_spare }
    ensures { IsTrue result → (v : ℕ) → v < machine_count p.now.given → IsFit p.now.given (sets g.now) bound.now.weight (has_node bound.now.nodes) v x spare }
{
    for i in 0..p.cluster().machines().len() {
        if !fits_among(p, g, ks[i], VmId(i as u32), bound, members, x, spare) {
            return false;
        }
    }
    true
}

// what is spare where so much is held
fn spare_of(amount: u64, total: u64) -> u64
    requires { total ≤ amount }
    ensures fits { total + result ≤ amount }
    ensures small { result ≤ max_spare }
{
    let spare = amount - total;
    if spare < MOST { spare } else { MOST }
}

/// Whether it is seen that what machines hold stays within an amount during a period, with any one set to any end of
/// its choices.
pub(crate) fn stays_during(
    p: &Problem,
    g: &Region,
    ks: &[Standing],
    bound: &Bound,
    members: &Members,
    x: Period,
) -> bool
    requires region { IsSized p.now.given g.now }
    requires standings { AreStanding p.now.given (sets g.now) ks.now }
    requires weight { IsWeight p.now.given bound.now.weight }
    requires members { AreConcerned p.now.given (sets g.now) bound.now.weight (has_node bound.now.nodes) members.now }
    requires period { x.to ≤ p.now.given.horizon }
    ensures { IsTrue result → StaysDuring p.now.given (sets g.now) bound.now.weight (has_node bound.now.nodes) bound.now.amount x }
{
    let total = most_total(p, g, ks, bound, members, x);
    if total > bound.amount {
        return false;
    }
    let spare = spare_of(bound.amount, total);
    machines_fit(p, g, ks, bound, members, x, spare)
}
