//! The host of a machine, and where it is likely to be.
ghost use Rattle.std.specs.Prelude.{◌≡◌, ◌<◌, false, IfNone, IfSome};
ghost use Rattle.rule_constraint.specs.Prelude.{hosted_in, machine_count, Nodes, state_of as the_state_of};

use rule_frame::{Choice, NodeId, Place, Problem, VmId};
use slices::elements::state_of;
use standings::leaves::runs_on;

/// The host of a machine, running or sleeping.
pub fn host(p: &Problem, v: VmId) -> Option<NodeId>
    requires { v.0 < machine_count p.now.given }
    ensures none { IfNone result ((set : Nodes) → hosted_in (the_state_of p.now.given v.0) set ≡ false) }
    ensures some { IfSome result (λ n. (set : Nodes) → hosted_in (the_state_of p.now.given v.0) set ≡ set n.0) }
{
    state_of(p, v).host()
}

/// Where a machine is likely to be under a choice. It may be no node of the problem.
pub fn likely_node(p: &Problem, v: VmId, c: Choice) -> Option<NodeId>
    requires { v.0 < machine_count p.now.given }
{
    match c {
        Choice::Idle => runs_on(p, v),
        Choice::Act { place, start: _ } => match place {
            Place::Nowhere => None,
            Place::At(n) => Some(n),
        },
    }
}
