//! What one element has under a choice: the slices of a machine, what it holds at an instant and
//! how far its action is; whether a node is usable and powered.
ghost use Rattle.std.specs.Prelude.{◌≡◌};
ghost use Rattle.slices.specs.Prelude.{action_at, IsElement, IsHoldingAt, powered_at, powered_of, progress_of, slices_of, usable_at, usable_of};

use crate::actions::{kind_of, stage, stage_by};
use crate::elements::{is_online, state_of};
use crate::holding::{Holding, holding_from};
use crate::slice::{Slices, idle_slices, slices_by};
use crate::stage::{Progress, Stage, WAITING};
use catalogue::Problem;
use cluster::{Choice, Element, Instant, NodeId, VmId};

/// All that a machine holds over the action of a choice.
#[tactic(auto, unfolding(crate::specs::Stages::slices_of))]
pub fn slices(p: &Problem, v: VmId, c: Choice) -> Slices
    requires { IsElement p.now.given (Element.Vm v) }
    ensures { result ≡ slices_of p.now.given v.0 c }
{
    let state = state_of(p, v);
    match c {
        Choice::Idle => idle_slices(state),
        Choice::Act { place, start: _ } => slices_by(
            state,
            place,
            kind_of(p, Element::Vm(v), place),
        ),
    }
}

/// All that a machine holds at an instant of a choice.
#[tactic(auto, unfolding(crate::specs::Stages::slices_of, crate::specs::Snapshots::stage_at, crate::specs::Actions::action_duration))]
pub fn holding(p: &Problem, v: VmId, c: Choice, t: Instant) -> Holding
    requires { IsElement p.now.given (Element.Vm v) }
    ensures { IsHoldingAt p.now.given v.0 c t result }
{
    let state = state_of(p, v);
    match c {
        Choice::Idle => holding_from(idle_slices(state), WAITING),
        Choice::Act { place, start } => {
            let e = Element::Vm(v);
            let kind = kind_of(p, e, place);
            holding_from(
                slices_by(state, place, kind),
                stage_by(p, e, kind, start, t),
            )
        }
    }
}

fn usable_of(online: bool, c: Choice, stage: Stage) -> bool
    ensures { result ≡ usable_of online c stage }
{
    match c {
        Choice::Idle => online,
        Choice::Act { place: _, start: _ } => if online { !stage.started } else { stage.ended },
    }
}

fn powered_of(online: bool, c: Choice, now: Stage) -> bool
    ensures { result ≡ powered_of online c now }
{
    match c {
        Choice::Idle => online,
        Choice::Act { place: _, start: _ } => if online { !now.ended } else { now.started },
    }
}

fn progress_of(far: Progress, c: Choice, stage: Stage) -> bool
    ensures { result ≡ progress_of far c stage }
{
    match c {
        Choice::Idle => false,
        Choice::Act { place: _, start: _ } => match far {
            Progress::Started => stage.started,
            Progress::Unended => !stage.ended,
            Progress::Acting => stage.started && !stage.ended,
        },
    }
}

/// Whether a node is usable at an instant of a choice.
#[tactic(auto, unfolding(crate::specs::Snapshots::usable_at))]
pub fn usable(p: &Problem, n: NodeId, c: Choice, t: Instant) -> bool
    requires { IsElement p.now.given (Element.Node n) }
    ensures { result ≡ usable_at p.now.given n.0 t c }
{
    usable_of(is_online(p, n), c, stage(p, Element::Node(n), c, t))
}

/// Whether a node is powered at an instant of a choice.
#[tactic(auto, unfolding(crate::specs::Snapshots::powered_at))]
pub fn powered(p: &Problem, n: NodeId, c: Choice, t: Instant) -> bool
    requires { IsElement p.now.given (Element.Node n) }
    ensures { result ≡ powered_at p.now.given n.0 t c }
{
    powered_of(is_online(p, n), c, stage(p, Element::Node(n), c, t))
}

/// Whether a machine's action is so far at an instant of a choice.
#[tactic(auto, unfolding(crate::specs::Snapshots::action_at))]
pub fn action(p: &Problem, v: VmId, c: Choice, far: Progress, t: Instant) -> bool
    requires { IsElement p.now.given (Element.Vm v) }
    ensures { result ≡ action_at p.now.given v.0 far t c }
{
    progress_of(far, c, stage(p, Element::Vm(v), c, t))
}
