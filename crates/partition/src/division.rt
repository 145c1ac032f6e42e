//! The group of each machine: of its host, or of a fence.
ghost use Rattle.std.specs.Prelude.{◌≡◌, ◌<◌, ℕ, Some, None, IfOk, length, map, slice_index_or, if◌then◌else◌, ◌==◌};
ghost use Rattle.std.specs.List.{range_with_len};
ghost use Rattle.std.specs.Option.{option_or};
ghost use Rattle.catalogue.specs.Prelude.{is_member};
ghost use Rattle.cluster.specs.States.{host_of};
ghost use Rattle.slices.specs.Actions.{wanted_state};
ghost use Rattle.slices.specs.Elements.{machine_count, state_of};
ghost use Rattle.slices.specs.Forms.{form_seen};
ghost use Rattle.parts.specs.Groups.{is_to_run as the_is_to_run};
ghost use Rattle.parts.specs.Splits.{is_running};
ghost use Rattle.partition.specs.Division.{group_by, group_of_machine as the_group_of_machine, tie_by, tied_by, to_run_by};

use crate::reach::{Reach, and_nodes, at};
use base::Memory;
use catalogue::targets::{Target, Wish};
use catalogue::{Constraint, Problem};
use cluster::{Element, State, VmId};
use slices::Form;
use slices::elements::state_of as state;
use slices::form::{Places, form_of};
use std::alloc::Global;

/// Ties a machine to a group, where it is not tied yet.
fn tie(ties: &mut [Option<usize>], v: VmId, group: usize)
    ensures { (w : ℕ) → w < length ties.old →
        slice_index_or ties.new w None ≡ option_or (slice_index_or ties.old w None) (if v.0 == w then Some group else None) }
{
    let place = v.0 as usize;
    if place < ties.len() && ties[place].is_none() {
        ties[place] = Some(group);
    }
}

/// Ties machines to a group, where they are not tied yet.
fn tie_all(ties: &mut [Option<usize>], machines: &[VmId], group: usize)
    ensures { (w : ℕ) → w < length ties.old →
        slice_index_or ties.new w None ≡ option_or (slice_index_or ties.old w None) (if is_member machines.now w then Some group else None) }
{
    for v in machines {
        tie(ties, *v, group);
    }
}

/// Ties the machines that a form ties to a group.
fn note_tie(nodes: &[usize], form: &Form, ties: &mut [Option<usize>])
    ensures { (w : ℕ) → w < length ties.old →
        slice_index_or ties.new w None ≡ option_or (slice_index_or ties.old w None) (tie_by nodes.now w (form_seen form.now)) }
{
    match form {
        Form::Allowed(machines, Places::Within(set)) => {
            if let Some(group) = and_nodes(Reach::Nowhere, nodes, set).only() {
                tie_all(ties, machines.items(), group);
            }
        }
        Form::Allowed(_, Places::Outside(_) | Places::OnHost)
        | Form::Apart(_)
        | Form::Together(_, _)
        | Form::Ordered(_, _)
        | Form::InTurn(_)
        | Form::Bounded(_, _, _)
        | Form::Powered(_, _)
        | Form::Settled => {}
    }
}

/// Ties the machines that constraints tie to a group.
fn note_ties(nodes: &[usize], constraints: &[Constraint], ties: &mut [Option<usize>])
    ensures { (w : ℕ) → w < length ties.old →
        slice_index_or ties.new w None ≡ option_or (slice_index_or ties.old w None) (tied_by nodes.now constraints.now w) }
{
    for constraint in constraints {
        note_tie(nodes, &form_of(constraint), ties);
    }
}

/// The group to which the constraints tie each machine.
fn ties(alloc: Global, p: &Problem, nodes: &[usize]) -> Result<Vec<Option<usize>>, Memory>
    ensures ties { IfOk result (λ ties. (w : ℕ) → w < machine_count p.now.given → slice_index_or ties.items w None ≡ tied_by nodes.now p.now.given.constraints w) }
    ensures each { IfOk result (λ ties. length ties.items ≡ machine_count p.now.given) }
{
    let mut ties = Vec::new(alloc);
    ties.resize(p.cluster().machines().len(), None)?;
    note_ties(nodes, p.constraints(), &mut ties);
    Ok(ties)
}

/// Whether a machine runs at present.
pub(crate) fn runs(p: &Problem, v: VmId) -> bool
    ensures { result ≡ is_running (state_of p.now.given v.0) }
{
    match p.cluster().machines().get(v.0 as usize) {
        Some(machine) => match machine.state {
            State::Running(_) => true,
            State::Init | State::Ready | State::Sleeping(_) | State::Gone => false,
        },
        None => false,
    }
}

/// Whether a machine is wanted running, by whether it runs now and by the wish.
fn is_wished_running(runs: bool, wish: Wish) -> bool
    ensures { result ≡ to_run_by runs wish }
{
    match wish {
        Wish::Keep => runs,
        Wish::To(Target::Running) => true,
        Wish::To(
            Target::Online | Target::Offline | Target::Sleeping | Target::Ready | Target::Killed,
        )
        | Wish::Clash => false,
    }
}

/// Whether a machine is wanted running at the end.
#[tactic(auto, using(crate::proofs::TableLemmas::to_run_at_end))]
pub(crate) fn is_to_run(p: &Problem, v: VmId) -> bool
    requires { v.0 < machine_count p.now.given }
    ensures { result ≡ the_is_to_run (wanted_state p.now.given v.0) }
{
    is_wished_running(runs(p, v), p.wanted(Element::Vm(v)))
}

/// The group of a machine, by that to which it is tied.
fn group_of_machine(p: &Problem, nodes: &[usize], tie: Option<usize>, v: VmId) -> usize
    requires { v.0 < machine_count p.now.given }
    ensures { result ≡ the_group_of_machine p.now.given nodes.now v.0 tie (host_of (state_of p.now.given v.0)) }
{
    match state(p, v).host() {
        Some(host) => at(nodes, host.0 as usize),
        None => if is_to_run(p, v) { tie.unwrap_or(0) } else { 0 },
    }
}

/// The group of each machine.
#[tactic(auto, using(crate::proofs::TableLemmas::group_more))]
pub(crate) fn machine_groups(
    alloc: Global,
    p: &Problem,
    nodes: &[usize],
) -> Result<Vec<usize>, Memory>
    ensures { IfOk result (λ table. table.items ≡ map (group_by p.now.given nodes.now) (range_with_len 0 (machine_count p.now.given))) }
{
    let ties = ties(alloc, p, nodes)?;
    let mut groups = Vec::new(alloc);
    for v in 0..p.cluster().machines().len() {
        groups.push(group_of_machine(p, nodes, ties[v], VmId(v as u32)))?;
    }
    Ok(groups)
}
