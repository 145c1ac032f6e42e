//! Whether groups that cover all nodes split a problem, and if not, why.
ghost use Rattle.std.specs.Prelude.{◌≡◌, ◌<◌, None, IfOk, IfSome, length, map, nat_lt, option_map, if◌then◌else◌};
ghost use Rattle.std.specs.List.{find, position, range_with_len};
ghost use Rattle.std.specs.Option.{option_or};
ghost use Rattle.slices.specs.Elements.{machine_count};
ghost use Rattle.parts.specs.Groups.{AreGroups};
ghost use Rattle.parts.specs.Splits.{first_uncovered as the_first_uncovered, split_fault};
ghost use Rattle.parts.specs.declared.fault.SplitFault.TheVariants.{Free, Spans};
ghost use Rattle.partition.specs.Division.{Divides, is_free_by, spans_by};

use crate::covering::{first_uncovered, node_groups};
use crate::division::machine_groups;
use crate::kept::first_free;
use crate::reach::form_reach;
use base::Memory;
use catalogue::{Constraint, Problem};
use cluster::{NodeId, NodeSet, VmId};
use parts::SplitFault;
use slices::form::form_of;
use std::alloc::Global;

/// The group of each node and of each machine.
#[derive(Drop)]
pub(crate) struct Division {
    pub(crate) nodes: Vec<usize>,
    pub(crate) machines: Vec<usize>,
}

/// The division by groups that cover all nodes.
#[tactic(auto, using(crate::proofs::DivisionLemmas::divides))]
pub(crate) fn divide(alloc: Global, p: &Problem, groups: &[NodeSet]) -> Result<Division, Memory>
    requires groups { AreGroups p.now.given groups.now }
    requires covered { the_first_uncovered p.now.given groups.now ≡ None }
    ensures { IfOk result (λ d. Divides p.now.given groups.now d.nodes.items d.machines.items) }
{
    let nodes = node_groups(alloc, p, groups)?;
    let machines = machine_groups(alloc, p, &nodes)?;
    Ok(Division { nodes, machines })
}

/// The number of the first machine that may leave its group; there is none where there is one group alone.
fn free_machine(
    alloc: Global,
    p: &Problem,
    groups: &[NodeSet],
    d: &Division,
) -> Result<Option<u32>, Memory>
    ensures { IfOk result (λ v. v ≡ (if nat_lt 1 (length groups.now)
        then find (is_free_by p.now.given d.now.nodes.items d.now.machines.items) (range_with_len 0 (machine_count p.now.given))
        else None)) }
{
    if groups.len() > 1 {
        first_free(alloc, p, &d.nodes, &d.machines)
    } else {
        Ok(None)
    }
}

/// Whether a constraint names several groups, and speaks of all that it names together.
fn spans(d: &Division, constraint: &Constraint) -> bool
    ensures { result ≡ spans_by d.now.nodes.items d.now.machines.items constraint.now }
{
    form_reach(&d.machines, &d.nodes, &form_of(constraint)).is_several()
}

/// The place of the first constraint that does.
fn first_spanning(p: &Problem, d: &Division) -> Option<usize>
    ensures place { result ≡ position (spans_by d.now.nodes.items d.now.machines.items) p.now.given.constraints }
    ensures within { IfSome result (λ c. c < length p.now.given.constraints) }
{
    p.constraints().iter().position(|c| spans(d, c))
}

/// Its number.
fn spanning_constraint(p: &Problem, d: &Division) -> Option<u32>
    ensures { result ≡ position (spans_by d.now.nodes.items d.now.machines.items) p.now.given.constraints }
{
    match first_spanning(p, d) {
        Some(c) => Some(c as u32),
        None => None,
    }
}

/// The first fault, of a free machine and a constraint that spans groups.
fn first_of(free: Option<u32>, spanning: Option<u32>) -> Option<SplitFault>
    ensures { result ≡ option_or (option_map (λ v. Free (record { 0 = v })) free) (option_map Spans spanning) }
{
    match free {
        Some(v) => Some(SplitFault::Free(VmId(v))),
        None => match spanning {
            Some(c) => Some(SplitFault::Spans(c)),
            None => None,
        },
    }
}

/// Why groups that cover all nodes do not split a problem.
#[tactic(auto, using(crate::proofs::FaultLemmas::fault_is))]
pub(crate) fn fault_of(
    alloc: Global,
    p: &Problem,
    groups: &[NodeSet],
    d: &Division,
) -> Result<Option<SplitFault>, Memory>
    requires { Divides p.now.given groups.now d.now.nodes.items d.now.machines.items }
    ensures { IfOk result (λ fault. fault ≡ split_fault p.now.given groups.now) }
{
    let free = free_machine(alloc, p, groups, d)?;
    Ok(first_of(free, spanning_constraint(p, d)))
}

/// Why groups of nodes do not split a problem, if they do not; want of memory is the only error.
///
/// The groups share no node, have nodes of the problem alone, and there is one. The first fault, in the order of
/// `SplitFault`, is the answer.
#[tactic(auto, using(crate::proofs::FaultLemmas::uncovered_first))]
pub fn find_fault(
    alloc: Global,
    p: &Problem,
    groups: &[NodeSet],
) -> Result<Option<SplitFault>, Memory>
    requires { AreGroups p.now.given groups.now }
    ensures { IfOk result (λ fault. fault ≡ split_fault p.now.given groups.now) }
{
    if let Some(n) = first_uncovered(p, groups) {
        return Ok(Some(SplitFault::Uncovered(NodeId(n))));
    }
    let d = divide(alloc, p, groups)?;
    fault_of(alloc, p, groups, &d)
}
