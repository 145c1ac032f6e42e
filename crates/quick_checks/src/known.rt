//! What is known beside a region, and what it tells of where machines surely are.
ghost use Rattle.std.specs.Prelude.{◌≡◌, ◌≤◌, ◌<◌, ℕ, List, nat_lt, length, IfSome, IsTrue};
ghost use Rattle.cluster.specs.declared.choices.Choice.{Choice as AnyChoice};
ghost use Rattle.quick_checks.specs.Prelude.{Amount as AmountOf, AreKnown, AreLegal, held_at, IsElement, IsSized, IsStanding, IsWeight, kept_use as the_kept_use, least, machine_count, max_held, nodes_of, one, Presence, seen, sets, sure, vm};

use crate::coming::{brought, comes_on};
use crate::elsewhere::is_always_in;
use crate::holding::holds_on;
use crate::tally::Tally;
use catalogue::Problem;
use cluster::{Element, Instant, NodeId, VmId};
use domains::View;
use hints::{Nearby, Seats};
use relax::{Area, has, least_held, surely_in};
use slices::Weight;
use slices::holding::amount;
use slices::slice::What;
use standings::host::host_of;
use standings::numbers::Standing;
use standings::seen::is_narrowed;
use standings::uses::kept_use;

/// Where to look first, where machines surely stand, and what some of them hold together.
#[derive(Clone, Copy)]
pub struct Known<'a> {
    pub nearby: &'a Nearby,
    pub seats: &'a Seats,
    /// Of each machine, or of none.
    pub standings: &'a [Standing],
    /// Of one bounded amount, or of none.
    pub tally: Option<Tally>,
}

// the numbers of a machine, where they are known and all of its choices are seen
fn standing_of(p: &Problem, view: &View, ks: &[Standing], v: VmId) -> Option<Standing>
    requires machine { v.0 < machine_count p.now.given }
    requires known { AreKnown p.now.given (sets view.now.region.now) ks.now }
    ensures { IfSome result (IsStanding p.now.given v.0 (seen view.now.region.now view.now.lens (vm v.0))) }
{
    let i = v.0 as usize;
    if is_narrowed(view.lens, v) || i >= ks.len() {
        return None;
    }
    Some(ks[i])
}

// what a machine surely uses of the nodes of an area, or less. On one node its numbers tell it; of all nodes one that holds on
// is not looked at closer
fn used(p: &Problem, view: &View, ks: &[Standing], r: u8, area: &Area, t: Instant, v: VmId) -> u64
    requires region { IsSized p.now.given view.now.region.now }
    requires resource { r < length p.now.given.resources }
    requires machine { v.0 < machine_count p.now.given }
    requires legal { AreLegal p.now.given (sets view.now.region.now) }
    requires known { AreKnown p.now.given (sets view.now.region.now) ks.now }
    ensures held { result ≤ (sure p.now.given (seen view.now.region.now view.now.lens) t).held v.0 (AmountOf r) (nodes_of p.now.given area.now) }
    ensures small { result ≤ max_held }
{
    if let Area::One(n) = area {
        if let Some(k) = standing_of(p, view, ks, v) {
            return kept_use(p, v, Weight::Amount(r), *n, t, k);
        }
        if let Some(u) = brought(p, view, r, *n, t, v) {
            return u;
        }
    }
    if matches!(area, Area::All) && holds_on(p, view, v) {
        return amount(p, v, What::Use, r);
    }
    least_held(p, view, v, Weight::Amount(r), area, t)
}

// what a machine with these numbers has on a node, if there is one and it is in an area
#[tactic(auto, using(crate::proofs::KnownLemmas::kept_inside))]
fn kept_on(
    p: &Problem,
    v: VmId,
    weight: Weight,
    area: &Area,
    t: Instant,
    k: Standing,
    node: Option<NodeId>,
) -> u64
    requires machine { IsElement p.now.given (Element.Vm v) }
    requires weight { IsWeight p.now.given weight }
    ensures { (cs : List AnyChoice) → IsStanding p.now.given v.0 cs k → result ≤ least (held_at p.now.given v.0 weight (nodes_of p.now.given area.now) t) cs }
{
    match node {
        None => 0,
        Some(n) => if has(p, area, n) {
            kept_use(p, v, weight, n, t, k)
        } else {
            0
        },
    }
}

// the node to which all choices of a machine with these numbers go
fn goal_of(k: Standing) -> Option<NodeId> {
    match k.come {
        None => None,
        Some(arrival) => Some(arrival.node),
    }
}

// what a machine with these numbers has at its host, or where it goes, if that is more
fn kept_in(p: &Problem, v: VmId, weight: Weight, area: &Area, t: Instant, k: Standing) -> u64
    requires machine { IsElement p.now.given (Element.Vm v) }
    requires weight { IsWeight p.now.given weight }
    ensures { (cs : List AnyChoice) → IsStanding p.now.given v.0 cs k → result ≤ least (held_at p.now.given v.0 weight (nodes_of p.now.given area.now) t) cs }
{
    let here = kept_on(p, v, weight, area, t, k, host_of(p, v));
    let there = kept_on(p, v, weight, area, t, k, goal_of(k));
    if here < there { there } else { here }
}

// what a machine surely holds on the nodes of an area, or less: where its numbers are known, no row is read
#[tactic(auto, using(crate::proofs::KnownLemmas::least_is_small), unfolding(reasons::specs::Sure::sure))]
fn told_in(
    p: &Problem,
    view: &View,
    ks: &[Standing],
    weight: Weight,
    area: &Area,
    t: Instant,
    v: VmId,
) -> u64
    requires region { IsSized p.now.given view.now.region.now }
    requires weight { IsWeight p.now.given weight }
    requires machine { v.0 < machine_count p.now.given }
    requires known { AreKnown p.now.given (sets view.now.region.now) ks.now }
    ensures held { result ≤ (sure p.now.given (seen view.now.region.now view.now.lens) t).held v.0 weight (nodes_of p.now.given area.now) }
    ensures small { result ≤ max_held }
{
    match standing_of(p, view, ks, v) {
        Some(k) => kept_in(p, v, weight, area, t, k),
        None => least_held(p, view, v, weight, area, t),
    }
}

/// What a machine surely holds on the nodes of an area, or less.
pub fn held(
    p: &Problem,
    view: &View,
    ks: &[Standing],
    weight: Weight,
    area: &Area,
    t: Instant,
    v: VmId,
) -> u64
    requires region { IsSized p.now.given view.now.region.now }
    requires weight { IsWeight p.now.given weight }
    requires machine { v.0 < machine_count p.now.given }
    requires legal { AreLegal p.now.given (sets view.now.region.now) }
    requires known { AreKnown p.now.given (sets view.now.region.now) ks.now }
    ensures held { result ≤ (sure p.now.given (seen view.now.region.now view.now.lens) t).held v.0 weight (nodes_of p.now.given area.now) }
    ensures small { result ≤ max_held }
{
    if let Area::In(_) = area {
        return told_in(p, view, ks, weight, area, t, v);
    }
    match weight {
        Weight::Amount(r) => used(p, view, ks, r, area, t, v),
        Weight::Presence | Weight::Image => told_in(p, view, ks, weight, area, t, v),
    }
}

// whether a machine with these numbers is on a node
fn stands_on(p: &Problem, v: VmId, k: Standing, n: NodeId, t: Instant) -> bool
    requires { IsElement p.now.given (Element.Vm v) }
    ensures { result ≡ nat_lt 0 (the_kept_use p.now.given v.0 Presence n.0 t k) }
{
    kept_use(p, v, Weight::Presence, n, t, k) > 0
}

/// Whether a machine is seen to be on a node.
pub fn is_on(p: &Problem, view: &View, ks: &[Standing], v: VmId, n: NodeId, t: Instant) -> bool
    requires region { IsSized p.now.given view.now.region.now }
    requires machine { v.0 < machine_count p.now.given }
    requires known { AreKnown p.now.given (sets view.now.region.now) ks.now }
    ensures { IsTrue result → IsTrue ((sure p.now.given (seen view.now.region.now view.now.lens) t).present v.0 (one n.0)) }
{
    match standing_of(p, view, ks, v) {
        Some(k) => stands_on(p, v, k, n, t),
        None => comes_on(p, view, v, n, t) || surely_in(p, view, v, &Area::One(n), t),
    }
}

// whether a machine with these numbers is at its host, or where it goes, and that is in an area
fn stands_in(p: &Problem, v: VmId, k: Standing, area: &Area, t: Instant) -> bool
    requires { IsElement p.now.given (Element.Vm v) }
    ensures { IsTrue result → (n : ℕ) × IsTrue (nodes_of p.now.given area.now n) × IsTrue (nat_lt 0 (the_kept_use p.now.given v.0 Presence n t k)) }
{
    if let Some(h) = host_of(p, v) {
        if has(p, area, h) && stands_on(p, v, k, h, t) {
            return true;
        }
    }
    match k.come {
        None => false,
        Some(arrival) => has(p, area, arrival.node) && stands_on(p, v, k, arrival.node, t),
    }
}

// whether it does, where its numbers are known
fn is_told_in(p: &Problem, view: &View, ks: &[Standing], v: VmId, area: &Area, t: Instant) -> bool
    requires machine { v.0 < machine_count p.now.given }
    requires known { AreKnown p.now.given (sets view.now.region.now) ks.now }
    ensures { IsTrue result → IsTrue ((sure p.now.given (seen view.now.region.now view.now.lens) t).present v.0 (nodes_of p.now.given area.now)) }
{
    match standing_of(p, view, ks, v) {
        Some(k) => stands_in(p, v, k, area, t),
        None => false,
    }
}

/// Whether a machine is seen to be in an area, by its numbers, by where it goes, or else by its choices.
pub fn is_in(p: &Problem, view: &View, ks: &[Standing], v: VmId, area: &Area, t: Instant) -> bool
    requires region { IsSized p.now.given view.now.region.now }
    requires machine { v.0 < machine_count p.now.given }
    requires known { AreKnown p.now.given (sets view.now.region.now) ks.now }
    ensures { IsTrue result → IsTrue ((sure p.now.given (seen view.now.region.now view.now.lens) t).present v.0 (nodes_of p.now.given area.now)) }
{
    is_told_in(p, view, ks, v, area, t)
        || is_always_in(p, view, v, area, t)
        || surely_in(p, view, v, area, t)
}
