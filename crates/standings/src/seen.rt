//! What a lens shows: the machine of which it may not show all choices, and the room of a node.
ghost use Rattle.std.specs.Prelude.{◌≡◌, ℕ, ◌<◌, false, length, true, IsTrue};
ghost use Rattle.standings.specs.Prelude.{is_online as the_is_online, IsSized, node_count, one, RegionView, room as room_of, seen, sets, sure, vm};

use catalogue::Problem;
use cluster::{Element, Instant, NodeId, VmId};
use domains::view::has_idle;
use domains::{Lens, View};
use relax::may_be_usable;
pub use relax::narrowed;

/// Whether a lens may not show all choices of a machine.
pub fn is_narrowed(lens: Lens, v: VmId) -> bool
    ensures { result ≡ false → (g : RegionView) → seen g lens (vm v.0) ≡ sets g (vm v.0) }
{
    match narrowed(lens) {
        None => false,
        Some(x) => x.0 == v.0,
    }
}

// whether a node is online at present
fn is_online(p: &Problem, n: NodeId) -> bool
    requires { n.0 < node_count p.now.given }
    ensures { result ≡ the_is_online p.now.given.nodes n.0 }
{
    p.cluster().nodes()[n.0 as usize].online
}

// whether a node that is online may stay as it is, in what is seen: then it may be usable at all times
#[tactic(auto, using(crate::proofs::SeenLemmas::idle_usable))]
fn may_stay_online(p: &Problem, view: &View, n: NodeId) -> bool
    requires region { IsSized p.now.given view.now.region.now }
    requires node { n.0 < node_count p.now.given }
    ensures { IsTrue result → (t : ℕ) → (sure p.now.given (seen view.now.region.now view.now.lens) t).usable n.0 ≡ true }
{
    is_online(p, n) && has_idle(view, Element::Node(n))
}

/// The capacity of a node for a resource, 0 where it cannot be usable.
#[tactic(auto, using(relax::proofs::Public::room_of_one))]
pub fn room_seen(p: &Problem, view: &View, r: u8, n: NodeId, t: Instant) -> u64
    requires region { IsSized p.now.given view.now.region.now }
    requires resource { r < length p.now.given.resources }
    requires node { n.0 < node_count p.now.given }
    ensures { result ≡ room_of p.now.given (sure p.now.given (seen view.now.region.now view.now.lens) t) r (one n.0) }
{
    if may_stay_online(p, view, n) || may_be_usable(p, view, n, t) {
        p.capacity(n, r)
    } else {
        0
    }
}
