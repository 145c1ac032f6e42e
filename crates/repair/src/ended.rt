//! Machines and nodes as they are once their actions have ended.
ghost use Rattle.std.specs.Prelude.{◌≡◌, ◌<◌, length, map, slice_get, Some, option_map, IfOk};
ghost use Rattle.std.specs.List.{range_with_len};
ghost use Rattle.repair.specs.Prelude.{demand_of, in_state, machine_after, max_resources, node_after, runs_at, sleeps_on_host, state_after, state_by, use_after};

use base::Memory;
use catalogue::Problem;
use cluster::limits::MAX_RESOURCES;
use cluster::{Choice, Element, Kind, Machine, Node, NodeId, Place, State, VmId};
use remake::{copy_machine, copy_node};
use slices::actions::kind_of;

/// A machine runs at the place of its action.
fn runs_at(before: State, place: Place) -> State
    ensures { result ≡ runs_at before place }
{
    match place {
        Place::At(n) => State::Running(n),
        Place::Nowhere => before,
    }
}

/// One that runs sleeps on its host.
fn sleeps_on_host(before: State) -> State
    ensures { result ≡ sleeps_on_host before }
{
    match before {
        State::Running(host) => State::Sleeping(host),
        State::Init | State::Ready | State::Sleeping(_) | State::Gone => before,
    }
}

/// The state to which an action of a kind leads.
fn state_by(before: State, kind: Kind, place: Place) -> State
    ensures { result ≡ state_by before kind place }
{
    match kind {
        Kind::Forge | Kind::Shutdown => State::Ready,
        Kind::Boot | Kind::Resume | Kind::Migrate | Kind::Allocate => runs_at(before, place),
        Kind::Suspend => sleeps_on_host(before),
        Kind::Kill => State::Gone,
        Kind::NodeBoot | Kind::NodeShutdown => before,
    }
}

/// The state to which an action leads, if there is one.
fn state_after(before: State, kind: Option<Kind>, place: Place) -> State
    ensures { result ≡ state_after before kind place }
{
    match kind {
        None => before,
        Some(kind) => state_by(before, kind, place),
    }
}

/// What a machine is to use of each resource; past the listed ones it is nothing.
fn demands(p: &Problem, v: VmId) -> [u64; MAX_RESOURCES]
    requires { v.0 < length p.now.given.machines }
    ensures { result ≡ map (demand_of p.now.given v.0) (range_with_len 0 max_resources) }
{
    let mut usage = [0; MAX_RESOURCES];
    for r in 0..p.cluster().resources().len() {
        usage[r] = p.demand(v, r as u8);
    }
    usage
}

/// What a machine in a state uses: its demand if it runs, and otherwise what it used before.
fn use_after(
    p: &Problem,
    v: VmId,
    state: State,
    usage: [u64; MAX_RESOURCES],
) -> [u64; MAX_RESOURCES]
    requires { v.0 < length p.now.given.machines }
    ensures { result ≡ use_after p.now.given v.0 state usage }
{
    match state {
        State::Running(_) => demands(p, v),
        State::Init | State::Ready | State::Sleeping(_) | State::Gone => usage,
    }
}

/// The same machine in another state.
fn in_state(p: &Problem, v: VmId, state: State, machine: Machine) -> Machine
    requires { v.0 < length p.now.given.machines }
    ensures { result ≡ in_state p.now.given v.0 state machine }
{
    let usage = use_after(p, v, state, machine.usage);
    Machine {
        state,
        usage,
        ..machine
    }
}

/// A machine after the action of a choice.
fn changed_machine(p: &Problem, v: VmId, done: Choice, machine: Machine) -> Machine
    requires { v.0 < length p.now.given.machines }
    ensures { result ≡ machine_after p.now.given v.0 done machine }
{
    match done {
        Choice::Idle => machine,
        Choice::Act { place, .. } => {
            let kind = kind_of(p, Element::Vm(v), place);
            in_state(p, v, state_after(machine.state, kind, place), machine)
        }
    }
}

/// The machine of a number after the action of a choice.
pub(crate) fn machine_after(p: &Problem, v: VmId, done: Choice) -> Result<Machine, Memory>
    requires { v.0 < length p.now.given.machines }
    ensures { IfOk result (λ machine. option_map (machine_after p.now.given v.0 done) (slice_get p.now.given.machines v.0) ≡ Some machine) }
{
    let machine = copy_machine(&p.cluster().machines()[v.0 as usize])?;
    Ok(changed_machine(p, v, done, machine))
}

/// A node after the action of a choice.
fn changed_node(done: Choice, node: Node) -> Node
    ensures { result ≡ node_after done node }
{
    match done {
        Choice::Idle => node,
        Choice::Act { .. } => Node {
            online: !node.online,
            ..node
        },
    }
}

/// The node of a number after the action of a choice.
pub(crate) fn node_after(p: &Problem, n: NodeId, done: Choice) -> Result<Node, Memory>
    requires { n.0 < length p.now.given.nodes }
    ensures { IfOk result (λ node. option_map (node_after done) (slice_get p.now.given.nodes n.0) ≡ Some node) }
{
    let node = copy_node(&p.cluster().nodes()[n.0 as usize])?;
    Ok(changed_node(done, node))
}
