//! What is asked of one element of a problem.
ghost use Rattle.std.specs.Prelude.{◌≡◌, ◌↔◌, IsTrue};
ghost use Rattle.slices.specs.Prelude.{is_online, is_place, IsElement, state_of};

use catalogue::Problem;
use cluster::{Element, NodeId, Place, State, VmId};

/// Whether an element is one of the problem.
pub fn has_element(p: &Problem, e: Element) -> bool
    ensures { IsTrue result ↔ IsElement p.now.given e }
{
    match e {
        Element::Vm(v) => (v.0 as usize) < p.cluster().machines().len(),
        Element::Node(n) => (n.0 as usize) < p.cluster().nodes().len(),
    }
}

/// The state of a machine at present.
pub fn state_of(p: &Problem, v: VmId) -> State
    requires { IsElement p.now.given (Element.Vm v) }
    ensures { result ≡ state_of p.now.given v.0 }
{
    p.cluster().machines()[v.0 as usize].state
}

/// Whether a place is one of the instance.
pub(crate) fn is_place(p: &Problem, place: Place) -> bool
    ensures { result ≡ is_place p.now.given place }
{
    match place {
        Place::Nowhere => true,
        Place::At(n) => (n.0 as usize) < p.cluster().nodes().len(),
    }
}

/// Whether a node is online at present.
pub(crate) fn is_online(p: &Problem, n: NodeId) -> bool
    requires { IsElement p.now.given (Element.Node n) }
    ensures { result ≡ is_online p.now.given.nodes n.0 }
{
    p.cluster().nodes()[n.0 as usize].online
}
