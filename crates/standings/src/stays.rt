//! Whether a machine is on a node, by how long it stays on its host.
ghost use Rattle.std.specs.Prelude.{◌≡◌, IsTrue, false, true};
ghost use Rattle.standings.specs.Prelude.{IsElement, IsSized, one, seen, state_of, sure};
ghost use Rattle.cluster.specs.declared.states.State.TheVariants.{Running};

use crate::leaves::runs_on;
use crate::numbers::leave;
use crate::seen::is_narrowed;
use catalogue::Problem;
use cluster::{Element, Instant, NodeId, VmId};
use domains::{Domain, View};
use relax::{Area, surely_in};

// whether a machine may stay that runs on a node
fn may_stay(p: &Problem, v: VmId, domain: &Domain, n: NodeId) -> bool
    requires { IsElement p.now.given (Element.Vm v) }
    ensures { IsTrue result → (domain.now.idle ≡ true) × (state_of p.now.given v.0 ≡ Running n) }
{
    match runs_on(p, v) {
        None => false,
        Some(h) => domain.idle() && h.0 == n.0,
    }
}

/// Whether a machine is on a node under each of its choices that are seen. Of one that may stay there the rows are not
/// measured with all that they hold.
#[tactic(auto, using(crate::proofs::StayLemmas::stays_there))]
pub fn surely_at(p: &Problem, view: &View, v: VmId, n: NodeId, t: Instant) -> bool
    requires region { IsSized p.now.given view.now.region.now }
    requires machine { IsElement p.now.given (Element.Vm v) }
    ensures { result ≡ (sure p.now.given (seen view.now.region.now view.now.lens) t).present v.0 (one n.0) }
{
    let domain = view.region.domain(Element::Vm(v));
    if !is_narrowed(view.lens, v) && may_stay(p, v, domain, n) {
        return u64::from(t) < leave(p, v, domain);
    }
    surely_in(p, view, v, &Area::One(n), t)
}
