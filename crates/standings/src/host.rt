//! The host of a machine: the node on which it runs or sleeps at present.
ghost use Rattle.std.specs.Prelude.{◌≡◌, ℕ};
ghost use Rattle.standings.specs.Prelude.{hosted_in, HostIs, IsElement, one, state_of};

use catalogue::Problem;
use cluster::{Element, NodeId, VmId};
pub use relax::is_host;
use slices::elements::state_of;

/// The host of a machine, if it runs or sleeps.
#[tactic(auto, using(crate::proofs::HostLemmas::host_is))]
pub fn host_of(p: &Problem, v: VmId) -> Option<NodeId>
    requires { IsElement p.now.given (Element.Vm v) }
    ensures { (n : ℕ) → HostIs result n (hosted_in (state_of p.now.given v.0) (one n)) }
{
    state_of(p, v).host()
}

/// Whether a host, if there is one, is this node.
pub fn is_this(host: Option<NodeId>, n: NodeId) -> bool
    ensures { HostIs host n.0 result }
{
    match host {
        None => false,
        Some(m) => m.0 == n.0,
    }
}
