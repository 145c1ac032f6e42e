//! Where a node may be overloaded during a period: what may be found there, which has to be confirmed.
ghost use Rattle.std.specs.Prelude.{ℕ, ◌+◌, ◌<◌, ◌≤◌, IfNone, IsTrue, length, slice_index_or};
ghost use Rattle.std.specs.List.{Contains};
ghost use Rattle.rule_load.specs.Prelude.{Amount as AmountOf, AreKeptAt, IsElement, IsFreeDuring, IsMost, IsOverload, IsOverloaded, IsSized, MachinesFit, max_capacity, most_kept, no_standing, node_count, one, sets, StartNoSooner, vm};

use crate::room::{node_fits, room_of};
use crate::uses::{asks_little, machine_fits, most_brought, most_used};
use crate::{Kept, Leaving, Period, leaves_of, resource_total};
use domains::measure::Measure;
use rule_frame::{
    Choice, Domain, Element, Instant, Look, NodeId, Place, Problem, Region, Row, VmId,
};

fn first_of(row: Row) -> Choice {
    Choice::Act {
        place: row.place,
        start: row.lo,
    }
}

fn last_of(row: Row) -> Choice {
    Choice::Act {
        place: row.place,
        start: row.hi,
    }
}

// a choice of a machine under which it keeps its host past an instant
fn staying(p: &Problem, v: VmId, domain: &Domain, from: Instant) -> Choice
    requires { IsElement p.now.given (Element.Vm v) }
{
    let leaving = Leaving {
        problem: p,
        machine: v,
        leaves: leaves_of(p, v),
    };
    if domain.idle() {
        return Choice::Idle;
    }
    for row in domain.rows() {
        let last = last_of(*row);
        if leaving.value(last) > u64::from(from) {
            return last;
        }
    }
    Choice::Idle
}

// the first start of a machine at a node
fn coming(domain: &Domain, n: NodeId) -> Option<Instant> {
    for row in domain.rows() {
        if row.place == Place::At(n) {
            return Some(row.lo);
        }
    }
    None
}

// the case of a machine that may use too much: it comes, or it keeps its host
fn of_machine(p: &Problem, g: &Region, v: VmId, n: NodeId, r: u8, x: Period) -> Look
    requires region { IsSized p.now.given g.now }
    requires machine { IsElement p.now.given (Element.Vm v) }
    requires resource { r < length p.now.given.resources }
{
    let e = Element::Vm(v);
    let domain = g.domain(e);
    if most_brought(p, g, v, n, r, x.to) > 0 {
        if let Some(start) = coming(domain, n) {
            let place = Place::At(n);
            return Look::Cut(e, Choice::Act { place, start }, x.to);
        }
    }
    Look::Cut(e, staying(p, v, domain, x.from), x.from)
}

// the case of a machine near a node that may use more of it than is spare
fn near_doubt(
    p: &Problem,
    g: &Region,
    kept: Kept<'_>,
    n: NodeId,
    r: u8,
    x: Period,
    spare: u64,
) -> Option<Look>
    requires region { IsSized p.now.given g.now }
    requires kept { AreKeptAt p.now.given (sets g.now) n.0 kept.fixed.now kept.standings.now kept.near.now kept.firsts.now }
    requires resource { r < length p.now.given.resources }
    requires period { x.to ≤ p.now.given.horizon }
    requires small { spare ≤ max_capacity }
    ensures { IfNone result ((v : ℕ) → Contains kept.entry.near.now v → IsMost p.now.given v (sets g.now (vm v)) r (one n.0) x (spare + most_kept p.now.given v (AmountOf r) n.0 x (slice_index_or kept.entry.standings.now v no_standing))) }
{
    for i in 0..kept.near.len() {
        let v = VmId(kept.near[i]);
        if !machine_fits(p, g, kept, v, n, r, x, spare) {
            return Some(of_machine(p, g, v, n, r, x));
        }
    }
    None
}

// whether a machine uses no more of a node than is spare, or is near it
fn fits_from_afar(
    p: &Problem,
    g: &Region,
    kept: Kept<'_>,
    v: VmId,
    n: NodeId,
    r: u8,
    x: Period,
    spare: u64,
) -> bool
    requires region { IsSized p.now.given g.now }
    requires kept { AreKeptAt p.now.given (sets g.now) n.0 kept.fixed.now kept.standings.now kept.near.now kept.firsts.now }
    requires machine { IsElement p.now.given (Element.Vm v) }
    requires resource { r < length p.now.given.resources }
    requires period { x.to ≤ p.now.given.horizon }
    requires small { spare ≤ max_capacity }
    ensures { IsTrue result → (Contains kept.entry.near.now v.0 → ⊥) → IsMost p.now.given v.0 (sets g.now (vm v.0)) r (one n.0) x (spare + most_kept p.now.given v.0 (AmountOf r) n.0 x (slice_index_or kept.entry.standings.now v.0 no_standing)) }
{
    asks_little(p, kept, g, v, n, r, x, spare) || machine_fits(p, g, kept, v, n, r, x, spare)
}

// the first instant by which a machine that is not near a node may start there
fn first_afar(p: &Problem, _g: &Region, kept: Kept<'_>, _n: NodeId) -> Instant
    requires kept { AreKeptAt p.now.given (sets _g.now) _n.0 kept.fixed.now kept.standings.now kept.near.now kept.firsts.now }
    ensures { StartNoSooner p.now.given kept.entry.near.now kept.entry.firsts.now result }
{
    let mut first = Instant::MAX;
    for v in 0..kept.firsts.len() {
        let start = kept.firsts[v];
        if start < first && !kept.near.contains(&(v as u32)) {
            first = start;
        }
    }
    first
}

// whether no machine that is not near a node starts there by the end of a period. The first start there is worked out
// where it is asked for first, and is 0 until then
fn stay_away(
    p: &Problem,
    g: &Region,
    kept: Kept<'_>,
    n: NodeId,
    x: Period,
    start: &mut Instant,
) -> bool
    requires kept { AreKeptAt p.now.given (sets g.now) n.0 kept.fixed.now kept.standings.now kept.near.now kept.firsts.now }
    requires start { StartNoSooner p.now.given kept.near.now kept.firsts.now start.old }
    ensures start { StartNoSooner p.now.given kept.entry.near.now kept.entry.firsts.now start.new }
    ensures away { IsTrue result → x.to < start.new }
{
    if *start == 0 {
        *start = first_afar(p, g, kept, n);
    }
    x.to < *start
}

// the case of a machine that may use more of a node than is spare: those near it first, since where one of them has to
// leave, or may not be raised, fewer others have to be kept away
fn machine_doubt(
    p: &Problem,
    g: &Region,
    kept: Kept<'_>,
    n: NodeId,
    r: u8,
    x: Period,
    spare: u64,
    start: &mut Instant,
) -> Option<Look>
    requires region { IsSized p.now.given g.now }
    requires kept { AreKeptAt p.now.given (sets g.now) n.0 kept.fixed.now kept.standings.now kept.near.now kept.firsts.now }
    requires resource { r < length p.now.given.resources }
    requires period { x.to ≤ p.now.given.horizon }
    requires small { spare ≤ max_capacity }
    requires start { StartNoSooner p.now.given kept.near.now kept.firsts.now start.old }
    ensures start { StartNoSooner p.now.given kept.entry.near.now kept.entry.firsts.now start.new }
    ensures none { IfNone result (MachinesFit p.now.given (sets g.now) r (one n.0) x (λ v. most_kept p.now.given v (AmountOf r) n.0 x (slice_index_or kept.entry.standings.now v no_standing)) spare) }
{
    if let Some(doubt) = near_doubt(p, g, kept, n, r, x, spare) {
        return Some(doubt);
    }
    let order = kept.fixed.order(p, r);
    // what each before it has and brings is spare
    let first = order.partition_point(|x| x.most <= spare);
    // where most machines ask for more than is spare, none of them may come
    if 4 * first < order.len() && stay_away(p, g, kept, n, x, start) {
        return None;
    }
    // the one that uses the most comes first: more of its choices are too much
    let mut k = order.len();
    'machines: while first < k {
        k -= 1;
        let v = order[k].machine;
        if !fits_from_afar(p, g, kept, v, n, r, x, spare) {
            return Some(of_machine(p, g, v, n, r, x));
        }
    }
    None
}

// the case of a node that may not be usable: its first choice that is not so for the whole period is tried
// as it shuts down or boots
fn of_node(p: &Problem, g: &Region, n: NodeId, x: Period) -> Look
    requires region { IsSized p.now.given g.now }
    requires node { n.0 < node_count p.now.given }
{
    let e = Element::Node(n);
    let domain = g.domain(e);
    let online = p.cluster().nodes()[n.0 as usize].online;
    match domain.rows() {
        [row, ..] => if online {
            Look::Cut(e, first_of(*row), x.to)
        } else if domain.idle() {
            Look::Cut(e, Choice::Idle, x.from)
        } else {
            Look::Cut(e, last_of(*row), x.from)
        },
        [] => Look::Cut(e, Choice::Idle, x.from),
    }
}

// the case of a resource of which a node may lack some
fn resource_doubt(
    p: &Problem,
    g: &Region,
    kept: Kept<'_>,
    n: NodeId,
    r: u8,
    x: Period,
    start: &mut Instant,
) -> Option<Look>
    requires region { IsSized p.now.given g.now }
    requires kept { AreKeptAt p.now.given (sets g.now) n.0 kept.fixed.now kept.standings.now kept.near.now kept.firsts.now }
    requires node { n.0 < node_count p.now.given }
    requires resource { r < length p.now.given.resources }
    requires period { x.to ≤ p.now.given.horizon }
    requires start { StartNoSooner p.now.given kept.near.now kept.firsts.now start.old }
    ensures start { StartNoSooner p.now.given kept.entry.near.now kept.entry.firsts.now start.new }
    ensures none { IfNone result (IsFreeDuring (λ b. IsOverload p.now.given b r (one n.0)) p.now.given (sets g.now) x) }
{
    let used = most_used(p, g, kept, n, r, x);
    let room = room_of(p, g, n, r, x);
    if used > room {
        return Some(Look::Fail(x.from));
    }
    if let Some(doubt) = machine_doubt(p, g, kept, n, r, x, room - used, start) {
        return Some(doubt);
    }
    if node_fits(p, g, n, x, used) {
        None
    } else {
        Some(of_node(p, g, n, x))
    }
}

/// A case in which a node may be overloaded during a period, if there is one. The first start of a machine that is not near
/// the node is handed in and kept; it is 0 as long as it is not known.
pub(crate) fn load_doubt(
    p: &Problem,
    g: &Region,
    kept: Kept<'_>,
    n: NodeId,
    x: Period,
    start: &mut Instant,
) -> Option<Look>
    requires region { IsSized p.now.given g.now }
    requires kept { AreKeptAt p.now.given (sets g.now) n.0 kept.fixed.now kept.standings.now kept.near.now kept.firsts.now }
    requires node { n.0 < node_count p.now.given }
    requires period { x.to ≤ p.now.given.horizon }
    requires start { StartNoSooner p.now.given kept.near.now kept.firsts.now start.old }
    ensures start { StartNoSooner p.now.given kept.entry.near.now kept.entry.firsts.now start.new }
    ensures none { IfNone result (IsFreeDuring (IsOverloaded p.now.given (one n.0)) p.now.given (sets g.now) x) }
{
    for r in 0..resource_total(p) {
        if let Some(doubt) = resource_doubt(p, g, kept, n, r as u8, x, start) {
            return Some(doubt);
        }
    }
    None
}
