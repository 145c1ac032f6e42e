//! What a machine has on its host at present, what it brings to a node, and what its numbers say of both.
ghost use Rattle.std.specs.Prelude.{◌≡◌, ◌≤◌};
ghost use Rattle.standings.specs.Prelude.{base as the_base, brought as the_brought, comes_by as the_comes_by, gain as the_gain, had_there as the_had_there, IsElement, IsWeight, kept_use as the_kept_use, state_of, weight_if};

use crate::numbers::{Arrival, Standing};
use catalogue::Problem;
use cluster::{Element, Instant, Kind, NodeId, Place, State, VmId};
use relax::is_host;
use slices::Weight;
use slices::actions::kind_of;
use slices::holding::amount;
use slices::slice::What;

fn state(p: &Problem, v: VmId) -> State
    requires { IsElement p.now.given (Element.Vm v) }
    ensures { result ≡ state_of p.now.given v.0 }
{
    p.cluster().machines()[v.0 as usize].state
}

fn had_there(state: State) -> Option<What>
    ensures { result ≡ the_had_there state }
{
    match state {
        State::Running(_) => Some(What::Use),
        State::Sleeping(_) => Some(What::Image),
        State::Init | State::Ready | State::Gone => None,
    }
}

fn brought(kind: Option<Kind>) -> Option<What>
    ensures { result ≡ the_brought kind }
{
    match kind {
        None => None,
        Some(kind) => match kind {
            Kind::Boot | Kind::Resume | Kind::Migrate => Some(What::Demand),
            Kind::Suspend => Some(What::Image),
            Kind::Allocate => Some(What::Raise),
            Kind::Forge | Kind::Shutdown | Kind::Kill | Kind::NodeBoot | Kind::NodeShutdown => None,
        },
    }
}

fn weight_of(p: &Problem, v: VmId, weight: Weight, what: Option<What>) -> u64
    requires machine { IsElement p.now.given (Element.Vm v) }
    requires weight { IsWeight p.now.given weight }
    ensures weight { result ≡ weight_if p.now.given v.0 weight what }
    ensures small { result ≤ 1_000_000_000 }
{
    match what {
        None => 0,
        Some(what) => match weight {
            Weight::Amount(r) => amount(p, v, what, r),
            Weight::Presence => match what {
                What::Use | What::Demand => 1,
                What::Raise | What::Image => 0,
            },
            Weight::Image => match what {
                What::Image => 1,
                What::Use | What::Demand | What::Raise => 0,
            },
        },
    }
}

/// What a machine has on its host until it leaves.
pub fn base(p: &Problem, v: VmId, weight: Weight) -> u64
    requires machine { IsElement p.now.given (Element.Vm v) }
    requires weight { IsWeight p.now.given weight }
    ensures base { result ≡ the_base p.now.given v.0 weight }
    ensures small { result ≤ 1_000_000_000 }
{
    weight_of(p, v, weight, had_there(state(p, v)))
}

/// What a machine brings to a node, at the start of its action there.
pub fn gain(p: &Problem, v: VmId, weight: Weight, n: NodeId) -> u64
    requires machine { IsElement p.now.given (Element.Vm v) }
    requires weight { IsWeight p.now.given weight }
    ensures gain { result ≡ the_gain p.now.given v.0 weight n.0 }
    ensures small { result ≤ 1_000_000_000 }
{
    weight_of(
        p,
        v,
        weight,
        brought(kind_of(p, Element::Vm(v), Place::At(n))),
    )
}

/// Whether an arrival, if there is one, says that all choices have come to a node by an instant.
pub fn comes_by(come: Option<Arrival>, n: NodeId, t: Instant) -> bool
    ensures { result ≡ the_comes_by n.0 t come }
{
    match come {
        None => false,
        Some(a) => a.node.0 == n.0 && a.last <= t,
    }
}

/// What a machine with these numbers surely has on a node at an instant. No row is read.
pub fn kept_use(p: &Problem, v: VmId, weight: Weight, n: NodeId, t: Instant, k: Standing) -> u64
    requires machine { IsElement p.now.given (Element.Vm v) }
    requires weight { IsWeight p.now.given weight }
    ensures { result ≡ the_kept_use p.now.given v.0 weight n.0 t k }
{
    let kept = if is_host(p, v, n) && u64::from(t) < k.leave {
        base(p, v, weight)
    } else {
        0
    };
    let come = if comes_by(k.come, n, t) {
        gain(p, v, weight, n)
    } else {
        0
    };
    kept + come
}
