//! Whether a node is overloaded, told by where the machines near it surely stand.
ghost use Rattle.std.specs.Prelude.{◌≡◌, ◌≢◌, ◌+◌, ◌*◌, ◌<◌, ◌≤◌, [], false, true, IfSome, IsTrue, length};
ghost use Rattle.std.specs.List.{Contains, sum_by};
ghost use Rattle.load_bounds.specs.Prelude.{Amount as AmountOf, AreKeptAt, At, Choice as AnyChoice, choices, has_come, held_at, IsElement, IsFixed, IsOverload, IsSized, kept_use as the_kept_use, least, load as load_of, max_held, max_machines, node_count, NodeId as AnyNode, one, seen, sets, sure};

use crate::uses::most_kept;
use crate::{Fixed, Kept, Period, Standing, gain, resource_total, standing_of};
use catalogue::Problem;
use cluster::{Element, Instant, NodeId, Place, VmId};
use domains::view::{Sight, shown};
use domains::{Domain, Row, View};
use profiles::near::is_listed;
use relax::Area;
use relax::sure::least_held;
use slices::Weight;
use standings::seen::{is_narrowed, narrowed, room_seen};

// what a machine with these numbers surely uses of a node
#[inline(always)]
fn kept_use(p: &Problem, f: &Fixed, v: VmId, k: Standing, r: u8, n: NodeId, t: Instant) -> u64
    requires fixed { IsFixed p.now.given f.now }
    requires machine { IsElement p.now.given (Element.Vm v) }
    requires resource { r < length p.now.given.resources }
    ensures uses { result ≡ the_kept_use p.now.given v.0 (AmountOf r) n.0 t k }
    ensures small { result ≤ max_held }
{
    most_kept(p, f, v, n, r, Period { from: t, to: t }, k)
}

// whether all choices of a machine have come to a node by an instant
#[tactic(auto, using(crate::proofs::OverLemmas::row_comes))]
fn have_come(domain: &Domain, n: NodeId, t: Instant) -> bool
    ensures come { IsTrue result → (c : AnyChoice) → Contains (choices domain.now) c → has_come n.0 t c ≡ true }
    ensures some { IsTrue result → choices domain.now ≢ [] }
{
    if domain.idle() {
        return false;
    }
    match domain.rows() {
        [row] => is_there(*row, n, t),
        _ => false,
    }
}

// whether a row is at a node and its last start is no later than an instant
fn is_there(row: Row, n: NodeId, t: Instant) -> bool
    ensures node { IsTrue result → (m : AnyNode) × (row.place ≡ At m) × (m.0 ≡ n.0) }
    ensures by { IsTrue result → row.hi ≤ t }
{
    match row.place {
        Place::Nowhere => false,
        Place::At(m) => m.0 == n.0 && row.hi <= t,
    }
}

// what a machine with these choices uses of a node at the least; until when it keeps its host is asked only there
#[tactic(auto, using(crate::proofs::OverLemmas::guest_holds, crate::proofs::OverLemmas::host_holds))]
fn use_of(p: &Problem, f: &Fixed, v: VmId, domain: &Domain, r: u8, n: NodeId, t: Instant) -> u64
    requires fixed { IsFixed p.now.given f.now }
    requires machine { IsElement p.now.given (Element.Vm v) }
    requires resource { r < length p.now.given.resources }
    requires within { t ≤ p.now.given.horizon }
    ensures held { result ≤ least (held_at p.now.given v.0 (AmountOf r) (one n.0) t) (choices domain.now) }
    ensures small { result ≤ max_held }
{
    if f.is_host(p, v, n) {
        kept_use(p, f, v, standing_of(p, v, domain), r, n, t)
    } else if have_come(domain, n, t) {
        gain(p, v, Weight::Amount(r), n)
    } else {
        0
    }
}

// what a machine surely uses of a node in what is seen, where that may not be all of its choices
#[tactic(auto, unfolding(reasons::specs::Sure::sure))]
fn use_seen(p: &Problem, view: &View, f: &Fixed, v: VmId, r: u8, n: NodeId, t: Instant) -> u64
    requires region { IsSized p.now.given view.now.region.now }
    requires fixed { IsFixed p.now.given f.now }
    requires machine { IsElement p.now.given (Element.Vm v) }
    requires resource { r < length p.now.given.resources }
    requires within { t ≤ p.now.given.horizon }
    ensures held { result ≤ (sure p.now.given (seen view.now.region.now view.now.lens) t).held v.0 (AmountOf r) (one n.0) }
    ensures small { result ≤ max_held }
{
    match shown(view.lens, Element::Vm(v)) {
        Sight::In(part) => {
            let there = view.region.domain(Element::Vm(v)).inside(part);
            use_of(p, f, v, &there, r, n, t)
        }
        Sight::All | Sight::Out(_) | Sight::Only(_) => {
            least_held(p, view, v, Weight::Amount(r), &Area::One(n), t)
        }
    }
}

// what a machine near the node does: by its numbers, where all of its choices are seen
#[tactic(auto, using(crate::proofs::OverLemmas::kept_is_held))]
fn near_one(p: &Problem, view: &View, kept: Kept<'_>, v: VmId, r: u8, n: NodeId, t: Instant) -> u64
    requires region { IsSized p.now.given view.now.region.now }
    requires kept { AreKeptAt p.now.given (sets view.now.region.now) n.0 kept.fixed.now kept.standings.now kept.near.now kept.firsts.now }
    requires machine { IsElement p.now.given (Element.Vm v) }
    requires resource { r < length p.now.given.resources }
    requires within { t ≤ p.now.given.horizon }
    ensures held { result ≤ (sure p.now.given (seen view.now.region.now view.now.lens) t).held v.0 (AmountOf r) (one n.0) }
    ensures small { result ≤ max_held }
{
    if is_narrowed(view.lens, v) {
        use_seen(p, view, kept.fixed, v, r, n, t)
    } else {
        kept_use(p, kept.fixed, v, kept.standings[v.0 as usize], r, n, t)
    }
}

// what those near it do; once that is more than enough no more are asked
fn near_use(
    p: &Problem,
    view: &View,
    kept: Kept<'_>,
    r: u8,
    n: NodeId,
    t: Instant,
    enough: u64,
) -> u64
    requires region { IsSized p.now.given view.now.region.now }
    requires kept { AreKeptAt p.now.given (sets view.now.region.now) n.0 kept.fixed.now kept.standings.now kept.near.now kept.firsts.now }
    requires resource { r < length p.now.given.resources }
    requires within { t ≤ p.now.given.horizon }
    ensures sum { result ≤ sum_by (λ v. (sure p.now.given (seen view.now.region.now view.now.lens) t).held v (AmountOf r) (one n.0)) kept.entry.near.now }
    ensures small { result ≤ max_machines * max_held }
{
    let mut total = 0;
    for i in 0..kept.near.len() {
        if total > enough {
            return total;
        }
        total += near_one(p, view, kept, VmId(kept.near[i]), r, n, t);
    }
    total
}

// what the machine does of which a lens may not show all choices, 0 where it is near. With what those near use it is no
// more than the load of the node
#[tactic(auto, using(crate::proofs::OverLemmas::near_alone, crate::proofs::OverLemmas::near_with))]
fn use_beside(p: &Problem, view: &View, kept: Kept<'_>, r: u8, n: NodeId, t: Instant) -> u64
    requires region { IsSized p.now.given view.now.region.now }
    requires kept { AreKeptAt p.now.given (sets view.now.region.now) n.0 kept.fixed.now kept.standings.now kept.near.now kept.firsts.now }
    requires resource { r < length p.now.given.resources }
    requires within { t ≤ p.now.given.horizon }
    ensures sum { result + sum_by (λ v. (sure p.now.given (seen view.now.region.now view.now.lens) t).held v (AmountOf r) (one n.0)) kept.entry.near.now ≤ load_of p.now.given (sure p.now.given (seen view.now.region.now view.now.lens) t) r (one n.0) }
    ensures small { result ≤ max_held }
{
    let Some(v) = narrowed(view.lens) else {
        return 0;
    };
    if v.0 as usize >= p.cluster().machines().len() {
        return 0;
    }
    if is_listed(kept.near, v) {
        return 0;
    }
    use_seen(p, view, kept.fixed, v, r, n, t)
}

/// Whether machines surely use more of a resource on a node than it has room for, at an instant, in what is seen: told by
/// those near it. A no may be one too many.
pub fn is_over(p: &Problem, view: &View, kept: Kept<'_>, r: u8, n: NodeId, t: Instant) -> bool
    requires region { IsSized p.now.given view.now.region.now }
    requires kept { AreKeptAt p.now.given (sets view.now.region.now) n.0 kept.fixed.now kept.standings.now kept.near.now kept.firsts.now }
    requires resource { r < length p.now.given.resources }
    requires node { n.0 < node_count p.now.given }
    requires within { t ≤ p.now.given.horizon }
    ensures { IsTrue result → IsOverload p.now.given (sure p.now.given (seen view.now.region.now view.now.lens) t) r (one n.0) }
{
    let room = room_seen(p, view, r, n, t);
    let beside = use_beside(p, view, kept, r, n, t);
    let near = near_use(p, view, kept, r, n, t, room.saturating_sub(beside));
    room < beside + near
}

/// The first resource, by its number, of which they do.
pub fn overloaded_at(p: &Problem, view: &View, kept: Kept<'_>, n: NodeId, t: Instant) -> Option<u8>
    requires region { IsSized p.now.given view.now.region.now }
    requires kept { AreKeptAt p.now.given (sets view.now.region.now) n.0 kept.fixed.now kept.standings.now kept.near.now kept.firsts.now }
    requires node { n.0 < node_count p.now.given }
    requires within { t ≤ p.now.given.horizon }
    ensures { IfSome result (λ r. (r < length p.now.given.resources) × IsOverload p.now.given (sure p.now.given (seen view.now.region.now view.now.lens) t) r (one n.0)) }
{
    for r in 0..resource_total(p) {
        if is_over(p, view, kept, r as u8, n, t) {
            return Some(r as u8);
        }
    }
    None
}
