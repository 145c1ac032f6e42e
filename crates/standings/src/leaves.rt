//! How a running machine leaves its host, told once and not for each place.
ghost use Rattle.std.specs.Prelude.{◌≡◌, ◌≢◌, ℕ, ◌<◌, IfNone, IfSome, false};
ghost use Rattle.standings.specs.Prelude.{AreLeaves, IsElement, leave_of, runs_elsewhere, state_of};

use catalogue::Problem;
use cluster::{Choice, Element, Kind, NodeId, Place, State, VmId};
use slices::actions::{duration, kind_of};

/// How a running machine leaves its host for another node: it keeps the host for so long after the start.
#[derive(Clone, Copy)]
pub struct Leaves {
    pub host: NodeId,
    pub lasts: u64,
}

/// The node on which a machine runs at present, if it runs.
pub fn runs_on(p: &Problem, v: VmId) -> Option<NodeId>
    requires { IsElement p.now.given (Element.Vm v) }
    ensures none { IfNone result ((n : ℕ) → runs_elsewhere (state_of p.now.given v.0) n ≡ false) }
    ensures some { IfSome result (λ h. state_of p.now.given v.0 ≡ State.Running h) }
{
    match p.cluster().machines()[v.0 as usize].state {
        State::Running(h) => Some(h),
        State::Init | State::Ready | State::Sleeping(_) | State::Gone => None,
    }
}

// another node than one, which need not be of the problem
fn other_than(n: NodeId) -> NodeId
    ensures { result.0 ≢ n.0 }
{
    NodeId(if n.0 == 0 { 1 } else { 0 })
}

/// How it leaves, told by the kind of its action at one of the other nodes; None where that is not known so.
#[tactic(auto, using(crate::proofs::LeaveLemmas::are_leaves))]
pub fn leaves_of(p: &Problem, v: VmId) -> Option<Leaves>
    requires { IsElement p.now.given (Element.Vm v) }
    ensures { IfSome result (AreLeaves p.now.given v.0) }
{
    let host = runs_on(p, v)?;
    let other = other_than(host);
    if other.0 as usize >= p.cluster().nodes().len() {
        return None;
    }
    let e = Element::Vm(v);
    match kind_of(p, e, Place::At(other)) {
        Some(Kind::Migrate) => Some(Leaves {
            host,
            lasts: duration(p, e, Kind::Migrate),
        }),
        Some(
            Kind::Forge
            | Kind::Boot
            | Kind::Shutdown
            | Kind::Suspend
            | Kind::Resume
            | Kind::Allocate
            | Kind::Kill
            | Kind::NodeBoot
            | Kind::NodeShutdown,
        )
        | None => None,
    }
}

/// Until when a choice keeps the host, where it goes to another node.
#[inline(always)]
pub fn left_by(p: &Problem, v: VmId, leaves: Leaves, c: Choice) -> Option<u64>
    requires { AreLeaves p.now.given v.0 leaves }
    ensures { IfSome result (λ l. l ≡ leave_of p.now.given v.0 c) }
{
    match c {
        Choice::Idle => None,
        Choice::Act { place, start } => match place {
            Place::Nowhere => None,
            Place::At(n) => {
                if (n.0 as usize) < p.cluster().nodes().len() && n.0 != leaves.host.0 {
                    Some(u64::from(start) + leaves.lasts)
                } else {
                    None
                }
            }
        },
    }
}
