//! By what a problem is told from another.
ghost use Rattle.std.specs.Prelude.{◌<◌, ◌≤◌, length};

use catalogue::targets::{Target, Wish};
use catalogue::{Constraint, Problem, Vms};
use cluster::{Element, NodeId, NodeSet, State, VmId};
use slices::form::{Groups, Places, Separation, form_of};
use slices::{Form, Weight};

/// A number for a problem: equal problems have the same, and others hardly ever.
pub fn mark_of(p: &Problem) -> u64 {
    let width = p.cluster().resources().len();
    let mut mark = stir(u64::from(p.horizon()), width as u64);
    for machine in p.cluster().machines() {
        mark = stir(mark, state_number(machine.state));
        mark = stir_amounts(mark, &machine.usage, width);
    }
    for server in p.cluster().nodes() {
        mark = stir(mark, u64::from(server.online));
        mark = stir_amounts(mark, &server.capacity, width);
    }
    for v in 0..p.cluster().machines().len() {
        mark = stir_machine(mark, p, VmId(v as u32), width);
    }
    for n in 0..p.cluster().nodes().len() {
        mark = stir_node(mark, p, NodeId(n as u32), width);
    }
    for constraint in p.constraints() {
        mark = stir_constraint(mark, constraint);
    }
    mark
}

fn stir(mark: u64, number: u64) -> u64 {
    (mark ^ number)
        .wrapping_mul(11_400_714_819_323_198_485)
        .rotate_left(29)
}

// the first so many amounts
fn stir_amounts(mark: u64, amounts: &[u64], width: usize) -> u64 {
    let mut stirred = mark;
    for amount in &amounts[..width.min(amounts.len())] {
        stirred = stir(stirred, *amount);
    }
    stirred
}

fn state_number(state: State) -> u64 {
    match state {
        State::Init => 1,
        State::Ready => 2,
        State::Gone => 3,
        State::Running(n) => 4 + 2 * u64::from(n.0),
        State::Sleeping(n) => 5 + 2 * u64::from(n.0),
    }
}

fn stir_machines(mark: u64, machines: &Vms) -> u64 {
    let mut stirred = mark;
    for v in machines.items() {
        stirred = stir(stirred, u64::from(v.0) + 1);
    }
    stir(stirred, 0)
}

fn stir_nodes(mark: u64, set: &NodeSet) -> u64 {
    let mut stirred = mark;
    let mut from = 0;
    for _ in 0..512 {
        match set.first_from(from) {
            None => break,
            Some(n) => {
                stirred = stir(stirred, u64::from(n.0) + 1);
                from = (n.0 as usize).saturating_add(1);
            }
        }
    }
    stir(stirred, 0)
}

fn stir_separation(mark: u64, separation: &Separation) -> u64 {
    match separation {
        Separation::Each(machines) => stir_machines(stir(mark, 1), machines),
        Separation::Between(parts) => {
            let mut stirred = stir(mark, 2);
            for part in parts.items() {
                stirred = stir_machines(stirred, part);
            }
            stirred
        }
        Separation::FromOthers(machines) => stir_machines(stir(mark, 3), machines),
    }
}

fn stir_places(mark: u64, places: &Places) -> u64 {
    match places {
        Places::Outside(nodes) => stir_nodes(stir(mark, 1), nodes),
        Places::Within(nodes) => stir_nodes(stir(mark, 2), nodes),
        Places::OnHost => stir(mark, 3),
    }
}

fn stir_groups(mark: u64, groups: &Groups) -> u64 {
    match groups {
        Groups::AnyNode => stir(mark, 1),
        Groups::AnyOf(sets) => {
            let mut stirred = stir(mark, 2);
            for set in sets.items() {
                stirred = stir_nodes(stirred, set);
            }
            stirred
        }
    }
}

fn weight_number(weight: Weight) -> u64 {
    match weight {
        Weight::Presence => 1,
        Weight::Image => 2,
        Weight::Amount(resource) => 3 + u64::from(resource),
    }
}

// a constraint with its form, and whether it is to hold at each instant; what is settled is in demands, capacities and wishes
fn stir_constraint(mark: u64, constraint: &Constraint) -> u64 {
    let stirred = stir(mark, u64::from(constraint.is_continuous()));
    match form_of(constraint) {
        Form::Apart(separation) => stir_separation(stir(stirred, 1), &separation),
        Form::Allowed(machines, places) => {
            stir_places(stir_machines(stir(stirred, 2), machines), &places)
        }
        Form::Together(machines, groups) => {
            stir_groups(stir_machines(stir(stirred, 3), machines), &groups)
        }
        Form::Ordered(before, after) => stir(
            stir(stir(stirred, 4), u64::from(before.0)),
            u64::from(after.0),
        ),
        Form::InTurn(machines) => stir_machines(stir(stirred, 5), machines),
        Form::Bounded(weight, nodes, amount) => stir(
            stir_nodes(stir(stir(stirred, 6), weight_number(weight)), nodes),
            amount,
        ),
        Form::Powered(nodes, amount) => stir(stir_nodes(stir(stirred, 7), nodes), amount),
        Form::Settled => stir(stirred, 8),
    }
}

fn wish_number(wish: Wish) -> u64 {
    match wish {
        Wish::Keep => 1,
        Wish::Clash => 2,
        Wish::To(Target::Online) => 3,
        Wish::To(Target::Offline) => 4,
        Wish::To(Target::Running) => 5,
        Wish::To(Target::Sleeping) => 6,
        Wish::To(Target::Ready) => 7,
        Wish::To(Target::Killed) => 8,
    }
}

// what a machine is to be and what it demands
fn stir_machine(mark: u64, p: &Problem, v: VmId, width: usize) -> u64
    requires machine { v.0 < length p.now.given.machines }
    requires width { width ≤ length p.now.given.resources }
{
    let mut stirred = stir(mark, wish_number(p.wanted(Element::Vm(v))));
    for r in 0..width {
        stirred = stir(stirred, p.demand(v, r as u8));
    }
    stirred
}

// what a node is to be and what it can bear
fn stir_node(mark: u64, p: &Problem, n: NodeId, width: usize) -> u64
    requires node { n.0 < length p.now.given.nodes }
    requires width { width ≤ length p.now.given.resources }
{
    let mut stirred = stir(mark, wish_number(p.wanted(Element::Node(n))));
    for r in 0..width {
        stirred = stir(stirred, p.capacity(n, r as u8));
    }
    stirred
}
