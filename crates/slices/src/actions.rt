//! Which action an element takes, how long it lasts, and which choices are legal.
ghost use Rattle.std.specs.Prelude.{◌≡◌, ◌<◌, ◌≤◌, Bool, Some, length, unwrap_or, IsTrue, IfSome};
ghost use Rattle.slices.specs.Prelude.{amount_at, choice_duration, common_of, demand_of, differs_in, duration_amount, duration_of, end_of, end_wish, is_legal, is_raised, IsElement, kind_duration, kind_of, machine_kind, max_action, max_amount, max_resources, may_idle, may_machine_idle, may_node_idle, node_kind, own_of, stage_at, stage_from, start_of, state_of, use_of, wanted_of, wanted_state};
ghost use Rattle.cluster.proofs.Public.{IsDuration};

use crate::elements::{is_online, is_place, state_of};
use crate::stage::{Stage, WAITING};
use catalogue::Problem;
use catalogue::targets::{Target, Wish};
use cluster::{Choice, Duration, Element, Instant, Kind, NodeId, Place, State, VmId};

/// What is wanted of a machine: without a wish it keeps its state.
fn end_wish(state: State, wish: Wish) -> Wish
    ensures { result ≡ end_wish state wish }
{
    match wish {
        Wish::Keep => match state {
            State::Init => Wish::Keep,
            State::Ready => Wish::To(Target::Ready),
            State::Running(_) => Wish::To(Target::Running),
            State::Sleeping(_) => Wish::To(Target::Sleeping),
            State::Gone => Wish::To(Target::Killed),
        },
        Wish::To(_) | Wish::Clash => wish,
    }
}

/// The present use of a machine.
pub(crate) fn usage(p: &Problem, v: VmId, r: u8) -> u64
    requires machine { IsElement p.now.given (Element.Vm v) }
    requires resource { r < max_resources }
    ensures usage { result ≡ use_of p.now.given.machines v.0 r }
    ensures small { result ≤ max_amount }
{
    p.cluster().machines()[v.0 as usize].usage[r as usize]
}

fn differs(p: &Problem, v: VmId, r: u8) -> bool
    requires machine { IsElement p.now.given (Element.Vm v) }
    requires resource { r < length p.now.given.resources }
    ensures { result ≡ differs_in p.now.given v.0 r }
{
    p.demand(v, r) != usage(p, v, r)
}

/// Whether the demand of a machine differs from its present use in some resource.
#[tactic(auto, using(base::proofs::Ranges::any_rules))]
fn is_raised(p: &Problem, v: VmId) -> bool
    requires { IsElement p.now.given (Element.Vm v) }
    ensures { result ≡ is_raised p.now.given v.0 }
{
    for r in 0..p.cluster().resources().len() {
        if differs(p, v, r as u8) {
            return true;
        }
    }
    false
}

/// The kind of action that makes a machine ready.
fn kind_to_ready(state: State, place: Place) -> Option<Kind>
    ensures { (raised : Bool) → result ≡ machine_kind state (Wish.To Target.Ready) raised place }
{
    match place {
        Place::At(_) => None,
        Place::Nowhere => match state {
            State::Init => Some(Kind::Forge),
            State::Running(_) => Some(Kind::Shutdown),
            State::Ready | State::Sleeping(_) | State::Gone => None,
        },
    }
}

/// The kind of action that makes a machine run on a node.
fn kind_to_running(p: &Problem, v: VmId, state: State, place: Place) -> Option<Kind>
    requires { IsElement p.now.given (Element.Vm v) }
    ensures { result ≡ machine_kind state (Wish.To Target.Running) (is_raised p.now.given v.0) place }
{
    match place {
        Place::Nowhere => None,
        Place::At(n) => match state {
            State::Init | State::Gone => None,
            State::Ready => Some(Kind::Boot),
            State::Sleeping(_) => Some(Kind::Resume),
            State::Running(h) => kind_while_running(p, v, h, n),
        },
    }
}

/// The kind of action that keeps a machine running that runs on a host.
fn kind_while_running(p: &Problem, v: VmId, host: NodeId, n: NodeId) -> Option<Kind>
    requires { IsElement p.now.given (Element.Vm v) }
    ensures { result ≡ machine_kind (State.Running host) (Wish.To Target.Running) (is_raised p.now.given v.0) (Place.At n) }
{
    if n.0 != host.0 {
        Some(Kind::Migrate)
    } else if is_raised(p, v) {
        Some(Kind::Allocate)
    } else {
        None
    }
}

/// The kind of action that puts a machine to sleep.
fn kind_to_sleeping(state: State, place: Place) -> Option<Kind>
    ensures { (raised : Bool) → result ≡ machine_kind state (Wish.To Target.Sleeping) raised place }
{
    match place {
        Place::Nowhere => None,
        Place::At(n) => match state {
            State::Running(h) => if n.0 == h.0 {
                Some(Kind::Suspend)
            } else {
                None
            },
            State::Init | State::Ready | State::Sleeping(_) | State::Gone => None,
        },
    }
}

/// The kind of action that ends a machine.
fn kind_to_killed(state: State, place: Place) -> Option<Kind>
    ensures { (raised : Bool) → result ≡ machine_kind state (Wish.To Target.Killed) raised place }
{
    match place {
        Place::At(_) => None,
        Place::Nowhere => match state {
            State::Ready | State::Running(_) | State::Sleeping(_) => Some(Kind::Kill),
            State::Init | State::Gone => None,
        },
    }
}

/// What is wanted of a machine at the end.
fn wanted_state(p: &Problem, v: VmId) -> Wish
    requires { IsElement p.now.given (Element.Vm v) }
    ensures { result ≡ wanted_state p.now.given v.0 }
{
    end_wish(state_of(p, v), p.wanted(Element::Vm(v)))
}

/// The kind of a machine's action at a place of the instance.
#[inline(always)]
fn machine_kind(p: &Problem, v: VmId, place: Place) -> Option<Kind>
    requires { IsElement p.now.given (Element.Vm v) }
    ensures { result ≡ machine_kind (state_of p.now.given v.0) (wanted_state p.now.given v.0)
        (is_raised p.now.given v.0) place }
{
    let state = state_of(p, v);
    let wish = p.wanted(Element::Vm(v));
    if migrates(state, wish, place) {
        return Some(Kind::Migrate);
    }
    kind_of_state(p, v, state, end_wish(state, wish), place)
}

/// Whether a machine that runs, and is to go on running, moves to another node. Of most kinds that are asked for this is
/// all that has to be told.
#[inline(always)]
fn migrates(state: State, wish: Wish, place: Place) -> bool
    ensures { IsTrue result → (raised : Bool) → machine_kind state (end_wish state wish) raised place ≡ Some Kind.Migrate }
{
    match state {
        State::Running(host) => keeps_running(wish) && is_elsewhere(host, place),
        State::Init | State::Ready | State::Sleeping(_) | State::Gone => false,
    }
}

/// Whether a machine that runs is wanted running at the end.
#[inline(always)]
fn keeps_running(wish: Wish) -> bool
    ensures { IsTrue result → (h : NodeId) → end_wish (State.Running h) wish ≡ Wish.To Target.Running }
{
    match wish {
        Wish::Keep => true,
        Wish::To(target) => matches!(target, Target::Running),
        Wish::Clash => false,
    }
}

/// Whether a place is a node other than a host, to which one moves.
#[inline(always)]
fn is_elsewhere(host: NodeId, place: Place) -> bool
    ensures { IsTrue result → (raised : Bool) → machine_kind (State.Running host) (Wish.To Target.Running) raised place ≡ Some Kind.Migrate }
{
    match place {
        Place::Nowhere => false,
        Place::At(n) => n.0 != host.0,
    }
}

/// The kind of a machine's action at a place of the instance, by its state and what is wanted of it.
#[inline(never)]
fn kind_of_state(p: &Problem, v: VmId, state: State, wanted: Wish, place: Place) -> Option<Kind>
    requires { IsElement p.now.given (Element.Vm v) }
    ensures { result ≡ machine_kind state wanted (is_raised p.now.given v.0) place }
{
    match wanted {
        Wish::Keep | Wish::Clash => None,
        Wish::To(target) => match target {
            Target::Online | Target::Offline => None,
            Target::Running => kind_to_running(p, v, state, place),
            Target::Sleeping => kind_to_sleeping(state, place),
            Target::Ready => kind_to_ready(state, place),
            Target::Killed => kind_to_killed(state, place),
        },
    }
}

/// The kind of a node's action at a place.
fn node_kind(online: bool, wish: Wish, place: Place) -> Option<Kind>
    ensures { result ≡ node_kind online wish place }
{
    match place {
        Place::At(_) => None,
        Place::Nowhere => match wish {
            Wish::Clash => None,
            Wish::To(Target::Online) => if online { None } else { Some(Kind::NodeBoot) },
            Wish::To(Target::Offline) => if online {
                Some(Kind::NodeShutdown)
            } else {
                None
            },
            Wish::Keep
            | Wish::To(Target::Running | Target::Sleeping | Target::Ready | Target::Killed) =>
                if online {
                    Some(Kind::NodeShutdown)
                } else {
                    Some(Kind::NodeBoot)
                },
        },
    }
}

/// The kind of an element's action at a place; None where no legal choice acts there.
#[inline]
#[tactic(auto, unfolding(crate::specs::Actions::kind_of))]
pub fn kind_of(p: &Problem, e: Element, place: Place) -> Option<Kind>
    requires { IsElement p.now.given e }
    ensures { result ≡ kind_of p.now.given e place }
{
    match e {
        Element::Vm(v) => if is_place(p, place) {
            machine_kind(p, v, place)
        } else {
            None
        },
        Element::Node(n) => node_kind(is_online(p, n), p.wanted(e), place),
    }
}

/// Whether a machine may be idle: it is as it is wanted, and if it runs its demand is not raised.
fn may_machine_idle(p: &Problem, v: VmId) -> bool
    requires { IsElement p.now.given (Element.Vm v) }
    ensures { result ≡ may_machine_idle (state_of p.now.given v.0) (wanted_state p.now.given v.0)
        (is_raised p.now.given v.0) }
{
    let wanted = wanted_state(p, v);
    match state_of(p, v) {
        State::Init => matches!(wanted, Wish::Keep),
        State::Ready => matches!(wanted, Wish::To(Target::Ready)),
        State::Running(_) => matches!(wanted, Wish::To(Target::Running)) && !is_raised(p, v),
        State::Sleeping(_) => matches!(wanted, Wish::To(Target::Sleeping)),
        State::Gone => matches!(wanted, Wish::To(Target::Killed)),
    }
}

/// Whether a node may be idle.
fn may_node_idle(online: bool, wish: Wish) -> bool
    ensures { result ≡ may_node_idle online wish }
{
    match wish {
        Wish::Clash => false,
        Wish::To(Target::Online) => online,
        Wish::To(Target::Offline) => !online,
        Wish::Keep
        | Wish::To(Target::Running | Target::Sleeping | Target::Ready | Target::Killed) => true,
    }
}

/// Whether an element may be idle.
#[tactic(auto, unfolding(crate::specs::Actions::may_idle))]
fn may_idle(p: &Problem, e: Element) -> bool
    requires { IsElement p.now.given e }
    ensures { result ≡ may_idle p.now.given e }
{
    match e {
        Element::Vm(v) => may_machine_idle(p, v),
        Element::Node(n) => may_node_idle(is_online(p, n), p.wanted(e)),
    }
}

/// An element's own duration of a kind, if it has one.
fn own(p: &Problem, e: Element, kind: Kind) -> Option<Duration>
    requires { IsElement p.now.given e }
    ensures { result ≡ own_of p.now.given e kind }
{
    match e {
        Element::Vm(v) => p.cluster().machines()[v.0 as usize].own[kind.number()],
        Element::Node(n) => p.cluster().nodes()[n.0 as usize].own[kind.number()],
    }
}

/// The cluster's duration of a kind.
fn common(p: &Problem, kind: Kind) -> Duration
    ensures { result ≡ common_of p.now.given kind }
{
    p.cluster().durations()[kind.number()]
}

/// An element's duration of a kind: its own, or else the cluster's.
fn duration_for(p: &Problem, e: Element, kind: Kind) -> Duration
    requires { IsElement p.now.given e }
    ensures duration { result ≡ unwrap_or (own_of p.now.given e kind) (common_of p.now.given kind) }
    ensures fits { IsDuration (length p.now.given.resources) result }
{
    own(p, e, kind).unwrap_or(common(p, kind))
}

/// The amount that a duration counts: a machine's present use, a node's written capacity.
fn amount_of(p: &Problem, e: Element, resource: Option<u8>) -> u64
    requires element { IsElement p.now.given e }
    requires resource { IfSome resource (λ r. r < length p.now.given.resources) }
    ensures amount { result ≡ amount_at resource (duration_amount p.now.given e) }
    ensures small { result ≤ max_amount }
{
    match resource {
        None => 0,
        Some(r) => match e {
            Element::Vm(v) => usage(p, v, r),
            Element::Node(n) => p.cluster().nodes()[n.0 as usize].capacity[r as usize],
        },
    }
}

/// How long an element's action of a kind lasts: base + per * amount.
#[inline]
#[tactic(auto, unfolding(crate::specs::Actions::duration_of))]
pub fn duration(p: &Problem, e: Element, kind: Kind) -> u64
    requires { IsElement p.now.given e }
    ensures duration { result ≡ duration_of p.now.given e kind }
    ensures lasting { 1 ≤ result }
    ensures small { result ≤ max_action }
{
    let d = duration_for(p, e, kind);
    u64::from(d.base) + u64::from(d.per) * amount_of(p, e, d.resource)
}

/// How long an action lasts, 0 where there is none.
#[tactic(auto, unfolding(crate::specs::Actions::kind_duration))]
fn kind_duration(p: &Problem, e: Element, kind: Option<Kind>) -> u64
    requires { IsElement p.now.given e }
    ensures duration { result ≡ kind_duration p.now.given e kind }
    ensures small { result ≤ max_action }
{
    match kind {
        Some(kind) => duration(p, e, kind),
        None => 0,
    }
}

/// How long the action of a choice lasts, 0 for Idle.
#[tactic(auto, unfolding(crate::specs::Actions::action_duration))]
fn choice_duration(p: &Problem, e: Element, c: Choice) -> u64
    requires { IsElement p.now.given e }
    ensures duration { result ≡ choice_duration p.now.given e c }
    ensures small { result ≤ max_action }
{
    match c {
        Choice::Idle => 0,
        Choice::Act { place, start: _ } => kind_duration(p, e, kind_of(p, e, place)),
    }
}

/// Whether a choice is one that the element's present and wanted state allow, with an action that
/// ends by the horizon.
#[tactic(auto, unfolding(crate::specs::Actions::is_legal, crate::specs::Actions::end_of, crate::specs::Actions::action_duration, crate::specs::Actions::kind_duration))]
pub fn is_legal(p: &Problem, e: Element, c: Choice) -> bool
    requires { IsElement p.now.given e }
    ensures { result ≡ is_legal p.now.given e c }
{
    match c {
        Choice::Idle => may_idle(p, e),
        Choice::Act { place, start } => match kind_of(p, e, place) {
            Some(kind) => u64::from(start) + duration(p, e, kind) <= u64::from(p.horizon()),
            None => false,
        },
    }
}

/// The instant at which the action of a legal choice ends, 0 for Idle.
#[tactic(auto, unfolding(crate::specs::Actions::is_legal, crate::specs::Actions::end_of))]
pub fn end_of(p: &Problem, e: Element, c: Choice) -> Instant
    requires element { IsElement p.now.given e }
    requires legal { IsTrue (is_legal p.now.given e c) }
    ensures end { result ≡ end_of p.now.given e c }
    ensures in_time { result ≤ p.now.given.horizon }
{
    match c {
        Choice::Idle => 0,
        Choice::Act { place: _, start } => (u64::from(start) + choice_duration(p, e, c)) as u32,
    }
}

/// The start of a choice's action, None for Idle.
pub fn start(c: Choice) -> Option<Instant>
    ensures { result ≡ start_of c }
{
    match c {
        Choice::Idle => None,
        Choice::Act { place: _, start } => Some(start),
    }
}

/// How far an action of a kind has come at an instant; how long it lasts is asked only once it has
/// started.
pub(crate) fn stage_by(
    p: &Problem,
    e: Element,
    kind: Option<Kind>,
    start: Instant,
    t: Instant,
) -> Stage
    requires { IsElement p.now.given e }
    ensures { result ≡ stage_from start (kind_duration p.now.given e kind) t }
{
    let started = start <= t;
    Stage {
        started,
        ended: started && u64::from(start) + kind_duration(p, e, kind) <= u64::from(t),
    }
}

/// How far the action of a choice has come at an instant.
#[tactic(auto, unfolding(crate::specs::Snapshots::stage_at, crate::specs::Actions::action_duration))]
pub fn stage(p: &Problem, e: Element, c: Choice, t: Instant) -> Stage
    requires { IsElement p.now.given e }
    ensures { result ≡ stage_at p.now.given e c t }
{
    match c {
        Choice::Idle => WAITING,
        Choice::Act { place, start } => stage_by(p, e, kind_of(p, e, place), start, t),
    }
}
