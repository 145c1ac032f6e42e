//! What machines use of a node at the most during a period.
ghost use Rattle.std.specs.Prelude.{◌≡◌, ◌≢◌, ℕ, None, false, IfSome, ◌+◌, ◌*◌, ◌<◌, ◌≤◌, length, slice_index_or, IsTrue, if◌then◌else◌};
ghost use Rattle.std.specs.List.{Contains};
ghost use Rattle.load_bounds.specs.Prelude.{Amount as AmountOf, AreKeptAt, base as the_base, gain as the_gain, HasLeft, hosted_in, IsElement, IsFixed, IsMost, IsMostBrought, IsMostLeft, IsSized, machine_count, max_amount, max_capacity, max_machines, most_kept as the_most_kept, no_standing, one, sets, StartsPast, state_of, sum_to, vm};

use crate::measures::LeftOver;
use crate::{
    Arrival, Fixed, Kept, Leaving, NEVER, Period, Standing, base, comes_by, gain, leaves_of,
};
use catalogue::Problem;
use cluster::{Element, Instant, NodeId, Place, VmId};
use domains::view::lowest_seen;
use domains::{Change, Lens, Part, Region, Side, View};
use slices::Weight;

// what a machine uses of a node on which it still is, or to which it has come, or both
#[inline(never)]
fn use_while(p: &Problem, v: VmId, n: NodeId, r: u8, stays: bool, comes: bool) -> u64
    requires machine { IsElement p.now.given (Element.Vm v) }
    requires resource { r < length p.now.given.resources }
    ensures most { result ≡ (if stays then the_base p.now.given v.0 (AmountOf r) else 0) + (if comes then the_gain p.now.given v.0 (AmountOf r) n.0 else 0) }
    ensures small { result ≤ 2 * max_amount }
{
    let weight = Weight::Amount(r);
    let kept = if stays { base(p, v, weight) } else { 0 };
    let come = if comes { gain(p, v, weight, n) } else { 0 };
    kept + come
}

/// What a machine with these numbers surely uses at the most. Most of those that are asked for use nothing, so that comes
/// first.
#[inline(always)]
pub(crate) fn most_kept(
    p: &Problem,
    f: &Fixed,
    v: VmId,
    n: NodeId,
    r: u8,
    x: Period,
    k: Standing,
) -> u64
    requires fixed { IsFixed p.now.given f.now }
    requires machine { IsElement p.now.given (Element.Vm v) }
    requires resource { r < length p.now.given.resources }
    ensures most { result ≡ the_most_kept p.now.given v.0 (AmountOf r) n.0 x k }
    ensures small { result ≤ 2 * max_amount }
{
    let stays = f.is_host(p, v, n) && u64::from(x.from) < k.leave;
    let comes = comes_by(k.come, n, x.to);
    if !stays && !comes {
        return 0;
    }
    use_while(p, v, n, r, stays, comes)
}

/// What machines surely use of a node and a resource at the most during a period, in the units of the resource: the sum
/// over those near it, since no other does.
pub fn most_used(p: &Problem, _g: &Region, kept: Kept<'_>, n: NodeId, r: u8, x: Period) -> u64
    requires kept { AreKeptAt p.now.given (sets _g.now) n.0 kept.fixed.now kept.standings.now kept.near.now kept.firsts.now }
    requires resource { r < length p.now.given.resources }
    ensures sum { result ≡ sum_to (machine_count p.now.given) (λ v. the_most_kept p.now.given v (AmountOf r) n.0 x (slice_index_or kept.entry.standings.now v no_standing)) }
    ensures small { result ≤ max_machines * (2 * max_amount) }
{
    let mut total = 0;
    for i in 0..kept.near.len() {
        let v = kept.near[i];
        total += most_kept(p, kept.fixed, VmId(v), n, r, x, kept.standings[v as usize]);
    }
    total
}

// what a machine has at present on a node
fn most_here(p: &Problem, f: &Fixed, v: VmId, n: NodeId, r: u8) -> u64
    requires fixed { IsFixed p.now.given f.now }
    requires machine { IsElement p.now.given (Element.Vm v) }
    requires resource { r < length p.now.given.resources }
    ensures here { result ≡ (if hosted_in (state_of p.now.given v.0) (one n.0) then the_base p.now.given v.0 (AmountOf r) else 0) }
    ensures small { result ≤ max_amount }
{
    if f.is_host(p, v, n) {
        base(p, v, Weight::Amount(r))
    } else {
        0
    }
}

/// Whether a machine gives its host up by an instant under each of its choices.
#[tactic(auto, using(crate::proofs::UseLemmas::all_left))]
pub(crate) fn has_left(p: &Problem, g: &Region, v: VmId, by: Instant) -> bool
    requires region { IsSized p.now.given g.now }
    requires machine { IsElement p.now.given (Element.Vm v) }
    ensures { IsTrue result → HasLeft p.now.given v.0 (sets g.now (vm v.0)) by }
{
    let view = View {
        region: g,
        lens: Lens::Whole,
    };
    let leaving = Leaving {
        problem: p,
        machine: v,
        leaves: leaves_of(p, v),
    };
    let left = LeftOver { leaving };
    let least = lowest_seen(&view, Element::Vm(v), &left).unwrap_or(0);
    least >= NEVER - u64::from(by)
}

// the most that is left of what a machine has at present on a node, from an instant on
#[tactic(auto, using(crate::proofs::UseLemmas::none_left, crate::proofs::UseLemmas::some_left))]
fn most_left(p: &Problem, f: &Fixed, g: &Region, v: VmId, n: NodeId, r: u8, from: Instant) -> u64
    requires fixed { IsFixed p.now.given f.now }
    requires region { IsSized p.now.given g.now }
    requires machine { IsElement p.now.given (Element.Vm v) }
    requires resource { r < length p.now.given.resources }
    ensures most { IsMostLeft p.now.given v.0 (sets g.now (vm v.0)) n.0 r from result }
    ensures small { result ≤ max_amount }
{
    let here = most_here(p, f, v, n, r);
    if here > 0 && has_left(p, g, v, from) {
        return 0;
    }
    here
}

// whether a machine has no row, and so is never brought anywhere; this tells it of most machines, and reads no row
#[tactic(auto, using(crate::proofs::UseLemmas::no_rows_brought))]
fn has_no_row(p: &Problem, g: &Region, v: VmId) -> bool
    requires region { IsSized p.now.given g.now }
    requires machine { IsElement p.now.given (Element.Vm v) }
    ensures { IsTrue result → (n r by : ℕ) → IsMostBrought p.now.given v.0 (sets g.now (vm v.0)) n r by 0 }
{
    match g.domain(Element::Vm(v)).rows() {
        [] => true,
        [_, ..] => false,
    }
}

/// The most that a machine has brought to a node by an instant, in the units of the resource.
#[tactic(auto, using(crate::proofs::UseLemmas::none_brought, crate::proofs::UseLemmas::some_brought))]
pub fn most_brought(p: &Problem, g: &Region, v: VmId, n: NodeId, r: u8, by: Instant) -> u64
    requires region { IsSized p.now.given g.now }
    requires machine { IsElement p.now.given (Element.Vm v) }
    requires resource { r < length p.now.given.resources }
    ensures most { IsMostBrought p.now.given v.0 (sets g.now (vm v.0)) n.0 r by result }
    ensures small { result ≤ max_amount }
{
    if has_no_row(p, g, v) {
        return 0;
    }
    let here = Change {
        element: Element::Vm(v),
        part: Part::Upto(Place::At(n), by),
        side: Side::Inside,
    };
    if g.leaves_none(here) {
        0
    } else {
        gain(p, v, Weight::Amount(r), n)
    }
}

// whether all choices of a machine go to another node
fn goes_elsewhere(come: Option<Arrival>, n: NodeId) -> bool
    ensures other { IsTrue result → IfSome come (λ a. a.node.0 ≢ n.0) }
    ensures some { IsTrue result → come ≢ None }
{
    match come {
        None => false,
        Some(a) => a.node.0 != n.0,
    }
}

/// Whether a machine may start at a node by an instant. A yes may be one too many.
#[tactic(auto, using(crate::proofs::UseLemmas::late_is_past, crate::proofs::UseLemmas::elsewhere_is_past))]
pub fn may_come(p: &Problem, kept: Kept<'_>, _g: &Region, v: VmId, n: NodeId, by: Instant) -> bool
    requires kept { AreKeptAt p.now.given (sets _g.now) n.0 kept.fixed.now kept.standings.now kept.near.now kept.firsts.now }
    requires machine { IsElement p.now.given (Element.Vm v) }
    ensures { result ≡ false → StartsPast (sets _g.now (vm v.0)) n.0 by }
{
    kept.firsts[v.0 as usize] <= by && !goes_elsewhere(kept.standings[v.0 as usize].come, n)
}

// whether a machine is seen not to start at a node by the end of a period. One that is not near the node either uses
// nothing there
#[tactic(auto, using(crate::proofs::UseLemmas::away_fits))]
fn stays_away(
    p: &Problem,
    kept: Kept<'_>,
    _g: &Region,
    v: VmId,
    n: NodeId,
    _r: u8,
    x: Period,
) -> bool
    requires kept { AreKeptAt p.now.given (sets _g.now) n.0 kept.fixed.now kept.standings.now kept.near.now kept.firsts.now }
    requires machine { IsElement p.now.given (Element.Vm v) }
    requires period { x.to ≤ p.now.given.horizon }
    ensures { IsTrue result → (Contains kept.entry.near.now v.0 → ⊥) → (bound : ℕ) → IsMost p.now.given v.0 (sets _g.now (vm v.0)) _r (one n.0) x bound }
{
    kept.firsts[v.0 as usize] > x.to
}

// whether a machine demands no more than is spare. One that is not near a node uses no more there
fn demands_little(
    p: &Problem,
    _kept: Kept<'_>,
    _g: &Region,
    v: VmId,
    _n: NodeId,
    r: u8,
    _x: Period,
    spare: u64,
) -> bool
    requires kept { AreKeptAt p.now.given (sets _g.now) _n.0 _kept.fixed.now _kept.standings.now _kept.near.now _kept.firsts.now }
    requires machine { IsElement p.now.given (Element.Vm v) }
    requires resource { r < length p.now.given.resources }
    requires period { _x.to ≤ p.now.given.horizon }
    ensures { IsTrue result → (Contains _kept.entry.near.now v.0 → ⊥) → (more : ℕ) → IsMost p.now.given v.0 (sets _g.now (vm v.0)) r (one _n.0) _x (spare + more) }
{
    p.demand(v, r) <= spare
}

/// Whether a machine is seen to use no more of a node than is spare, if it is not near the node: it does not start there by the
/// end of a period, or it demands no more.
pub fn asks_little(
    p: &Problem,
    kept: Kept<'_>,
    g: &Region,
    v: VmId,
    n: NodeId,
    r: u8,
    x: Period,
    spare: u64,
) -> bool
    requires kept { AreKeptAt p.now.given (sets g.now) n.0 kept.fixed.now kept.standings.now kept.near.now kept.firsts.now }
    requires machine { IsElement p.now.given (Element.Vm v) }
    requires resource { r < length p.now.given.resources }
    requires period { x.to ≤ p.now.given.horizon }
    ensures { IsTrue result → (Contains kept.entry.near.now v.0 → ⊥) → (more : ℕ) → IsMost p.now.given v.0 (sets g.now (vm v.0)) r (one n.0) x (spare + more) }
{
    stays_away(p, kept, g, v, n, r, x) || demands_little(p, kept, g, v, n, r, x, spare)
}

// the most that a machine has brought to a node by an instant, told without its rows
#[tactic(auto, using(crate::proofs::UseLemmas::past_brought, crate::proofs::UseLemmas::demand_brought))]
fn most_demanded(
    p: &Problem,
    kept: Kept<'_>,
    g: &Region,
    v: VmId,
    n: NodeId,
    r: u8,
    by: Instant,
) -> u64
    requires kept { AreKeptAt p.now.given (sets g.now) n.0 kept.fixed.now kept.standings.now kept.near.now kept.firsts.now }
    requires machine { IsElement p.now.given (Element.Vm v) }
    requires resource { r < length p.now.given.resources }
    ensures most { IsMostBrought p.now.given v.0 (sets g.now (vm v.0)) n.0 r by result }
    ensures small { result ≤ max_amount }
{
    if may_come(p, kept, g, v, n, by) {
        p.demand(v, r)
    } else {
        0
    }
}

// whether it is seen at once that a machine goes nowhere, and surely keeps its host during a period: then it uses no more
// than what it surely uses. So it is of most machines near a node
#[inline(always)]
#[tactic(auto, using(crate::proofs::UseLemmas::still_fits))]
fn stands_still(
    p: &Problem,
    g: &Region,
    kept: Kept<'_>,
    v: VmId,
    _n: NodeId,
    _r: u8,
    x: Period,
    _spare: u64,
) -> bool
    requires region { IsSized p.now.given g.now }
    requires kept { AreKeptAt p.now.given (sets g.now) _n.0 kept.fixed.now kept.standings.now kept.near.now kept.firsts.now }
    requires machine { IsElement p.now.given (Element.Vm v) }
    requires period { x.to ≤ p.now.given.horizon }
    ensures { IsTrue result → IsMost p.now.given v.0 (sets g.now (vm v.0)) _r (one _n.0) x (_spare + the_most_kept p.now.given v.0 (AmountOf _r) _n.0 x (slice_index_or kept.entry.standings.now v.0 no_standing)) }
{
    u64::from(x.from) < kept.standings[v.0 as usize].leave && has_no_row(p, g, v)
}

/// Whether a machine uses no more of a node during a period, under any of its choices, than what is spare and what it
/// surely uses there itself. Its rows are looked at only where its present use and its demand are more.
#[tactic(auto, using(crate::proofs::UseLemmas::fits_ever))]
pub fn machine_fits(
    p: &Problem,
    g: &Region,
    kept: Kept<'_>,
    v: VmId,
    n: NodeId,
    r: u8,
    x: Period,
    spare: u64,
) -> bool
    requires region { IsSized p.now.given g.now }
    requires kept { AreKeptAt p.now.given (sets g.now) n.0 kept.fixed.now kept.standings.now kept.near.now kept.firsts.now }
    requires machine { IsElement p.now.given (Element.Vm v) }
    requires resource { r < length p.now.given.resources }
    requires period { x.to ≤ p.now.given.horizon }
    requires small { spare ≤ max_capacity }
    ensures { IsTrue result → IsMost p.now.given v.0 (sets g.now (vm v.0)) r (one n.0) x (spare + the_most_kept p.now.given v.0 (AmountOf r) n.0 x (slice_index_or kept.entry.standings.now v.0 no_standing)) }
{
    if stands_still(p, g, kept, v, n, r, x, spare) {
        return true;
    }
    let ever = most_here(p, kept.fixed, v, n, r) + most_demanded(p, kept, g, v, n, r, x.to);
    if ever <= spare {
        return true;
    }
    let bound = spare + most_kept(p, kept.fixed, v, n, r, x, kept.standings[v.0 as usize]);
    if ever <= bound {
        return true;
    }
    most_left(p, kept.fixed, g, v, n, r, x.from) + most_brought(p, g, v, n, r, x.to) <= bound
}
