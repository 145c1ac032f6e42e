//! The hosts of machines: the nodes on which they run or sleep at present.
ghost use Rattle.std.specs.Prelude.{◌≡◌};
ghost use Rattle.reasons.specs.Prelude.{IsElement, one, state_of};
ghost use Rattle.relax.specs.Areas.{hosted_in, nodes_of};

use crate::area::{Area, has};
use catalogue::Problem;
use cluster::{Element, NodeId, VmId};
use slices::elements::state_of;

/// Whether a machine has its host in an area.
pub fn is_hosted(p: &Problem, v: VmId, area: &Area) -> bool
    requires { IsElement p.now.given (Element.Vm v) }
    ensures { result ≡ hosted_in (state_of p.now.given v.0) (nodes_of p.now.given area.now) }
{
    match state_of(p, v).host() {
        Some(host) => has(p, area, host),
        None => false,
    }
}

/// Whether a node is the host of a machine.
pub fn is_host(p: &Problem, v: VmId, n: NodeId) -> bool
    requires { IsElement p.now.given (Element.Vm v) }
    ensures { result ≡ hosted_in (state_of p.now.given v.0) (one n.0) }
{
    is_hosted(p, v, &Area::One(n))
}
