//! A machine of which only choices that go to one node are seen comes there under each of them.
ghost use Rattle.std.specs.Prelude.{◌≡◌, ◌≤◌, ◌<◌, length, true, IfSome, IsTrue};
ghost use Rattle.std.specs.List.{Contains};
ghost use Rattle.cluster.specs.declared.choices.Choice.{Choice as AnyChoice};
ghost use Rattle.quick_checks.specs.Prelude.{Amount as AmountOf, At, has_come as the_has_come, in_part, IsElement, IsSized, max_held, NodeId as AnyNode, one, RegionView, seen, sure, vm};

use catalogue::Problem;
use cluster::{Element, Instant, NodeId, Place, VmId};
use domains::view::{Sight, shown};
use domains::{Lens, Part, View};
use relax::is_host;
use relax::sure::has_none;
use slices::Weight;
use standings::uses::gain;

// whether a place is a node
fn is_there(place: Place, n: NodeId) -> bool
    ensures { IsTrue result → (m : AnyNode) × (place ≡ At m) × (m.0 ≡ n.0) }
{
    match place {
        Place::Nowhere => false,
        Place::At(m) => m.0 == n.0,
    }
}

// whether under each choice inside a part a machine goes to a node, and has started by an instant
#[tactic(auto, using(crate::proofs::ComingLemmas::part_comes))]
fn comes_by(part: Part, n: NodeId, t: Instant) -> bool
    ensures { IsTrue result → (c : AnyChoice) → in_part part c ≡ true → IsTrue (the_has_come n.0 t c) }
{
    match part {
        Part::Idle | Part::From(..) => false,
        Part::Upto(place, last) => is_there(place, n) && last <= t,
    }
}

// whether so it is under each choice that is seen
fn has_come(lens: Lens, v: VmId, n: NodeId, t: Instant) -> bool
    ensures { IsTrue result → (g : RegionView) (c : AnyChoice) → Contains (seen g lens (vm v.0)) c → IsTrue (the_has_come n.0 t c) }
{
    match shown(lens, Element::Vm(v)) {
        Sight::In(part) => comes_by(part, n, t),
        Sight::All | Sight::Out(_) | Sight::Only(_) => false,
    }
}

/// Whether a machine is told to be on a node, since each choice that is seen brings it there.
pub fn comes_on(p: &Problem, view: &View, v: VmId, n: NodeId, t: Instant) -> bool
    requires machine { IsElement p.now.given (Element.Vm v) }
    ensures { IsTrue result → IsTrue ((sure p.now.given (seen view.now.region.now view.now.lens) t).present v.0 (one n.0)) }
{
    has_come(view.lens, v, n, t) && gain(p, v, Weight::Presence, n) > 0
}

/// What a machine brings to a node other than its host under each choice that is seen, if that is told.
pub fn brought(p: &Problem, view: &View, r: u8, n: NodeId, t: Instant, v: VmId) -> Option<u64>
    requires region { IsSized p.now.given view.now.region.now }
    requires resource { r < length p.now.given.resources }
    requires machine { IsElement p.now.given (Element.Vm v) }
    ensures held { IfSome result (λ u. u ≤ (sure p.now.given (seen view.now.region.now view.now.lens) t).held v.0 (AmountOf r) (one n.0)) }
    ensures small { IfSome result (λ u. u ≤ max_held) }
{
    if is_host(p, v, n) || !has_come(view.lens, v, n, t) {
        return None;
    }
    if has_none(p, view, Element::Vm(v)) {
        return None;
    }
    Some(gain(p, v, Weight::Amount(r), n))
}
