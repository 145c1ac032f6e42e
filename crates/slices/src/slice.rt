//! Slices: what a machine holds on one node each, over a span of its action.
ghost use Rattle.std.specs.Prelude.{◌≡◌};
ghost use Rattle.slices.specs.Stages.{slice, idle_slices, acting_slices, slices_by, covers};

use crate::stage::Stage;
use cluster::{Kind, NodeId, Place, State};

/// The stretch of an action over which a slice is held.
///
/// What an action gives up is held until its end, what it takes from its start on: the
/// consuming and the demanding slice of BtrPlace.
#[derive(Clone, Copy)]
pub enum Span {
    Always,
    FromStart,
    BeforeEnd,
}

/// What a slice holds: the present use of its machine, its demand, the rise from the one to the
/// other, or its image.
#[derive(Clone, Copy)]
pub enum What {
    Use,
    Demand,
    Raise,
    Image,
}

/// Something that a machine holds on one node over a span of its action.
#[derive(Clone, Copy)]
pub struct Slice {
    pub node: NodeId,
    pub span: Span,
    pub what: What,
}

/// All that a machine holds over its action: where it comes from, where it goes to, its image.
#[derive(Clone, Copy)]
pub struct Slices {
    pub source: Option<Slice>,
    pub target: Option<Slice>,
    pub image: Option<Slice>,
}

/// What is counted of a slice: its amount of a resource, its presence, or its image.
#[derive(Clone, Copy)]
pub enum Weight {
    Amount(u8),
    Presence,
    Image,
}

const NOTHING: Slices = Slices {
    source: None,
    target: None,
    image: None,
};

fn slice_on(node: NodeId, span: Span, what: What) -> Option<Slice>
    ensures { result ≡ slice node span what }
{
    Some(Slice { node, span, what })
}

/// What an idle machine holds.
pub(crate) fn idle_slices(state: State) -> Slices
    ensures { result ≡ idle_slices state }
{
    match state {
        State::Running(h) => Slices {
            source: slice_on(h, Span::Always, What::Use),
            ..NOTHING
        },
        State::Sleeping(h) => Slices {
            image: slice_on(h, Span::Always, What::Image),
            ..NOTHING
        },
        State::Init | State::Ready | State::Gone => NOTHING,
    }
}

/// What a machine that runs on a host holds over its action.
fn running_slices(host: NodeId, kind: Kind, place: Place) -> Slices
    ensures { result ≡ acting_slices (State.Running host) kind place }
{
    let until_end = slice_on(host, Span::BeforeEnd, What::Use);
    match kind {
        Kind::Migrate => match place {
            Place::Nowhere => NOTHING,
            Place::At(n) => Slices {
                source: until_end,
                target: slice_on(n, Span::FromStart, What::Demand),
                ..NOTHING
            },
        },
        Kind::Allocate => Slices {
            source: slice_on(host, Span::Always, What::Use),
            target: slice_on(host, Span::FromStart, What::Raise),
            ..NOTHING
        },
        Kind::Shutdown | Kind::Kill => Slices {
            source: until_end,
            ..NOTHING
        },
        Kind::Suspend => Slices {
            source: slice_on(host, Span::BeforeEnd, What::Use),
            image: slice_on(host, Span::FromStart, What::Image),
            ..NOTHING
        },
        Kind::Forge | Kind::Boot | Kind::Resume | Kind::NodeBoot | Kind::NodeShutdown => NOTHING,
    }
}

/// What a ready machine holds over its action.
fn ready_slices(kind: Kind, place: Place) -> Slices
    ensures { result ≡ acting_slices State.Ready kind place }
{
    match kind {
        Kind::Boot => match place {
            Place::Nowhere => NOTHING,
            Place::At(n) => Slices {
                target: slice_on(n, Span::FromStart, What::Demand),
                ..NOTHING
            },
        },
        Kind::Forge
        | Kind::Shutdown
        | Kind::Suspend
        | Kind::Resume
        | Kind::Migrate
        | Kind::Allocate
        | Kind::Kill
        | Kind::NodeBoot
        | Kind::NodeShutdown => NOTHING,
    }
}

/// What a machine that sleeps on a host holds over its action.
fn sleeping_slices(host: NodeId, kind: Kind, place: Place) -> Slices
    ensures { result ≡ acting_slices (State.Sleeping host) kind place }
{
    let until_end = slice_on(host, Span::BeforeEnd, What::Image);
    match kind {
        Kind::Resume => match place {
            Place::Nowhere => NOTHING,
            Place::At(n) => Slices {
                target: slice_on(n, Span::FromStart, What::Demand),
                image: until_end,
                ..NOTHING
            },
        },
        Kind::Kill => Slices {
            image: until_end,
            ..NOTHING
        },
        Kind::Forge
        | Kind::Boot
        | Kind::Shutdown
        | Kind::Suspend
        | Kind::Migrate
        | Kind::Allocate
        | Kind::NodeBoot
        | Kind::NodeShutdown => NOTHING,
    }
}

/// What a machine in a state holds over its action.
fn acting_slices(state: State, kind: Kind, place: Place) -> Slices
    ensures { result ≡ acting_slices state kind place }
{
    match state {
        State::Running(h) => running_slices(h, kind, place),
        State::Ready => ready_slices(kind, place),
        State::Sleeping(h) => sleeping_slices(h, kind, place),
        State::Init | State::Gone => NOTHING,
    }
}

/// What a machine holds over its action, if there is one.
#[tactic(auto, unfolding(crate::specs::Stages::slices_by))]
pub(crate) fn slices_by(state: State, place: Place, kind: Option<Kind>) -> Slices
    ensures { result ≡ slices_by state place kind }
{
    match kind {
        Some(kind) => acting_slices(state, kind, place),
        None => NOTHING,
    }
}

/// Whether a span has come at a stage, and not passed.
pub fn covers(span: Span, stage: Stage) -> bool
    ensures { result ≡ covers span stage }
{
    match span {
        Span::Always => true,
        Span::FromStart => stage.started,
        Span::BeforeEnd => !stage.ended,
    }
}
