//! Machines that a fence keeps in their group, or a root on their host.
ghost use Rattle.std.specs.Prelude.{◌≡◌, ◌<◌, ℕ, false, not, ◌&&◌, ◌||◌, ◌==◌, IfOk, length, slice_index_or};
ghost use Rattle.std.specs.List.{find, range_with_len};
ghost use Rattle.slices.specs.Actions.{wanted_state};
ghost use Rattle.slices.specs.Elements.{machine_count, state_of};
ghost use Rattle.slices.specs.Forms.{form_seen};
ghost use Rattle.parts.specs.Groups.{is_to_run as the_is_to_run};
ghost use Rattle.parts.specs.Splits.{is_running};
ghost use Rattle.partition.specs.Division.{is_free_by, is_kept_by, is_marked, keeps_by};
ghost use Rattle.partition.specs.Reach.{at as the_at, fits};

use crate::division::{is_to_run, runs};
use crate::reach::{Reach, and_nodes, at};
use base::Memory;
use catalogue::Problem;
use cluster::VmId;
use slices::Form;
use slices::form::{Places, form_of};
use std::alloc::Global;

/// Marks a machine, where there is something to mark.
fn mark(kept: &mut [bool], v: VmId, on: bool)
    ensures { (w : ℕ) → w < length kept.old →
        slice_index_or kept.new w false ≡ (slice_index_or kept.old w false || ((v.0 == w) && on)) }
{
    let place = v.0 as usize;
    if on && place < kept.len() {
        kept[place] = true;
    }
}

/// Marks the members of a fence that are in the group of its nodes.
fn mark_fenced(kept: &mut [bool], members: &[VmId], machines: &[usize], reach: Reach)
    ensures { (w : ℕ) → w < length kept.old →
        slice_index_or kept.new w false ≡ (slice_index_or kept.old w false || is_marked members.now (λ v. fits reach (the_at machines.now v)) w) }
{
    for v in members {
        mark(kept, *v, reach.fits(at(machines, v.0 as usize)));
    }
}

/// Marks the members of a root that run.
fn mark_rooted(kept: &mut [bool], members: &[VmId], p: &Problem)
    ensures { (w : ℕ) → w < length kept.old →
        slice_index_or kept.new w false ≡ (slice_index_or kept.old w false || is_marked members.now (λ v. is_running (state_of p.now.given v)) w) }
{
    for v in members {
        mark(kept, *v, runs(p, *v));
    }
}

/// Marks the machines that a form keeps in their group.
fn mark_kept(p: &Problem, nodes: &[usize], machines: &[usize], form: &Form, kept: &mut [bool])
    ensures { (w : ℕ) → w < length kept.old →
        slice_index_or kept.new w false ≡ (slice_index_or kept.old w false || keeps_by p.now.given nodes.now machines.now w (form_seen form.now)) }
{
    match form {
        Form::Allowed(members, Places::Within(set)) => mark_fenced(
            kept,
            members.items(),
            machines,
            and_nodes(Reach::Nowhere, nodes, set),
        ),
        Form::Allowed(members, Places::OnHost) => mark_rooted(kept, members.items(), p),
        Form::Allowed(_, Places::Outside(_))
        | Form::Apart(_)
        | Form::Together(_, _)
        | Form::Ordered(_, _)
        | Form::InTurn(_)
        | Form::Bounded(_, _, _)
        | Form::Powered(_, _)
        | Form::Settled => {}
    }
}

/// Which machines are kept in their group.
fn kept(
    alloc: Global,
    p: &Problem,
    nodes: &[usize],
    machines: &[usize],
) -> Result<Vec<bool>, Memory>
    ensures kept { IfOk result (λ kept. (w : ℕ) → w < machine_count p.now.given →
        slice_index_or kept.items w false ≡ is_kept_by p.now.given nodes.now machines.now p.now.given.constraints w) }
    ensures each { IfOk result (λ kept. length kept.items ≡ machine_count p.now.given) }
{
    let mut kept = Vec::new(alloc);
    kept.resize(p.cluster().machines().len(), false)?;
    for constraint in p.constraints() {
        mark_kept(p, nodes, machines, &form_of(constraint), &mut kept);
    }
    Ok(kept)
}

/// The number of the first machine that is wanted running and that nothing keeps in its group.
#[tactic(auto, using(base::proofs::Ranges::find_rules))]
fn first_unkept(p: &Problem, kept: &[bool]) -> Option<u32>
    requires { length kept.now ≡ machine_count p.now.given }
    ensures { result ≡ find (λ v. the_is_to_run (wanted_state p.now.given v) && not (slice_index_or kept.now v false)) (range_with_len 0 (machine_count p.now.given)) }
{
    for v in 0..p.cluster().machines().len() {
        if is_to_run(p, VmId(v as u32)) && !kept[v] {
            return Some(v as u32);
        }
    }
    None
}

/// The number of the first machine that may leave its group.
pub(crate) fn first_free(
    alloc: Global,
    p: &Problem,
    nodes: &[usize],
    machines: &[usize],
) -> Result<Option<u32>, Memory>
    ensures { IfOk result (λ v. v ≡ find (is_free_by p.now.given nodes.now machines.now) (range_with_len 0 (machine_count p.now.given))) }
{
    let kept = kept(alloc, p, nodes, machines)?;
    Ok(first_unkept(p, &kept))
}
