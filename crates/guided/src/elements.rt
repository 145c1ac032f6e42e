//! What is asked of one element of a problem, for the tables.
ghost use Rattle.catalogue.specs.Instance.{IsElement};

use catalogue::Problem;
use cluster::{Choice, Element, Kind, NodeId, Place, State, VmId};
use relax::measures::end;
use slices::actions::kind_of;

/// What the tables keep of a machine.
#[derive(Clone, Copy)]
pub struct Mover {
    /// The number of its node, if it has one.
    pub host: Option<usize>,
    /// Whether it runs, and so uses its host until it leaves.
    pub runs: bool,
    /// Whether it sleeps, and so has its image on its host until it leaves.
    pub sleeps: bool,
    /// Whether it runs at the end, and so uses the place that it goes to from the start on.
    pub lands: bool,
    /// Whether acting on its host only raises what it uses there.
    pub rises: bool,
    /// How long its action lasts at its host.
    pub lasts_at_host: u64,
    /// How long its action lasts elsewhere.
    pub lasts: u64,
    /// The greatest share of the mean capacity of a resource that it wants, in parts of 2^16.
    pub size: u64,
}

impl Mover {
    /// How long its action lasts at least, wherever it acts.
    pub fn least_lasting(self) -> u64 {
        if self.lasts_at_host > 0 {
            self.lasts.min(self.lasts_at_host)
        } else {
            self.lasts
        }
    }
}

/// What the tables keep of a node.
#[derive(Clone, Copy)]
pub struct Server {
    /// Whether it is online at present.
    pub is_on: bool,
    /// How long its change lasts.
    pub lasts: u64,
}

/// The server at a place, one that is off past the end.
pub fn server_at(nodes: &[Server], n: usize) -> Server {
    nodes.get(n).copied().unwrap_or(Server {
        is_on: false,
        lasts: 0,
    })
}

/// The machine at a place, one that does nothing past the end.
pub fn mover_at(machines: &[Mover], v: usize) -> Mover {
    machines.get(v).copied().unwrap_or(Mover {
        host: None,
        runs: false,
        sleeps: false,
        lands: false,
        rises: false,
        lasts_at_host: 0,
        lasts: 0,
        size: 0,
    })
}

/// What is kept of a machine, but for its size.
pub fn mover_of(p: &Problem, v: VmId) -> Mover
    requires { IsElement p.now.given (Element.Vm v) }
{
    let state = p.cluster().machines()[v.0 as usize].state;
    let host = host_of(state);
    let here = host.map(|n| Place::At(n));
    let there = elsewhere(host);
    Mover {
        host: host.map(|n| n.0 as usize),
        runs: matches!(state, State::Running(_)),
        sleeps: matches!(state, State::Sleeping(_)),
        lands: lands_at(p, v, there) || here_lands(p, v, here),
        rises: rises_at(p, v, here),
        lasts_at_host: lasts_at(p, v, here),
        lasts: lasts_at(p, v, Some(Place::Nowhere)).max(lasts_at(p, v, Some(there))),
        size: 0,
    }
}

/// What is kept of a node.
pub fn server_of(p: &Problem, n: NodeId) -> Server
    requires { IsElement p.now.given (Element.Node n) }
{
    let change = Choice::Act {
        place: Place::Nowhere,
        start: 0,
    };
    Server {
        is_on: p.cluster().nodes()[n.0 as usize].online,
        lasts: end(p, Element::Node(n), change),
    }
}

fn host_of(state: State) -> Option<NodeId> {
    match state {
        State::Running(n) | State::Sleeping(n) => Some(n),
        State::Init | State::Ready | State::Gone => None,
    }
}

// a node that is not the host
fn elsewhere(host: Option<NodeId>) -> Place {
    match host {
        Some(NodeId(0)) => Place::At(NodeId(1)),
        Some(_) | None => Place::At(NodeId(0)),
    }
}

// whether a machine runs at a place after an action there
fn lands_at(p: &Problem, v: VmId, place: Place) -> bool
    requires { IsElement p.now.given (Element.Vm v) }
{
    matches!(
        kind_of(p, Element::Vm(v), place),
        Some(Kind::Boot | Kind::Resume | Kind::Migrate | Kind::Allocate)
    )
}

fn here_lands(p: &Problem, v: VmId, here: Option<Place>) -> bool
    requires { IsElement p.now.given (Element.Vm v) }
{
    match here {
        Some(place) => lands_at(p, v, place),
        None => false,
    }
}

// whether an action at a place only raises what the machine uses there
fn rises_at(p: &Problem, v: VmId, here: Option<Place>) -> bool
    requires { IsElement p.now.given (Element.Vm v) }
{
    match here {
        Some(place) => matches!(kind_of(p, Element::Vm(v), place), Some(Kind::Allocate)),
        None => false,
    }
}

// how long an action at a place lasts
fn lasts_at(p: &Problem, v: VmId, place: Option<Place>) -> u64
    requires { IsElement p.now.given (Element.Vm v) }
{
    match place {
        Some(place) => end(p, Element::Vm(v), Choice::Act { place, start: 0 }),
        None => 0,
    }
}
