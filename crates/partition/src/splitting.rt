//! The parts of a problem.
ghost use Rattle.std.specs.Prelude.{◌≡◌, ◌≢◌, None, Some, IfErr, IfOk, OnOk, length, map};
ghost use Rattle.std.specs.List.{range_with_len};
ghost use Rattle.parts.specs.Groups.{AreGroups};
ghost use Rattle.parts.specs.Parts.{part_of};
ghost use Rattle.parts.specs.Splits.{split_fault};
ghost use Rattle.partition.specs.Division.{Divides};
ghost use Rattle.partition.specs.Numbering.{AreNumbers};
ghost use Rattle.partition.specs.SplitProblems.{IsSplitBy};

use crate::building::parts_with;
use crate::covering::first_uncovered;
use crate::dealing::deal;
use crate::faults::{Division, divide, fault_of};
use crate::numbering::{Numbers, number};
use crate::split_problem::SplitProblem;
use base::Memory;
use catalogue::Problem;
use cluster::{NodeId, NodeSet};
use parts::SplitFault;
use std::alloc::Global;

/// The division by groups that split the problem, or their first fault.
#[tactic(auto, using(crate::proofs::FaultLemmas::uncovered_first))]
fn divide_or_fault(alloc: Global, p: &Problem, groups: &[NodeSet]) -> Result<Division, SplitFault>
    requires { AreGroups p.now.given groups.now }
    ensures divides { IfOk result (λ d. Divides p.now.given groups.now d.nodes.items d.machines.items) }
    ensures faultless { OnOk result (split_fault p.now.given groups.now ≡ None) }
    ensures fault { IfErr result (λ f. f ≢ SplitFault.Memory → split_fault p.now.given groups.now ≡ Some f) }
{
    if let Some(n) = first_uncovered(p, groups) {
        return Err(SplitFault::Uncovered(NodeId(n)));
    }
    let d = divide(alloc, p, groups)?;
    match fault_of(alloc, p, groups, &d)? {
        Some(fault) => Err(fault),
        None => Ok(d),
    }
}

/// The parts by a division and by numbers.
fn parts_by(
    alloc: Global,
    p: &Problem,
    groups: &[NodeSet],
    d: &Division,
    numbers: &Numbers,
) -> Result<Vec<Problem>, Memory>
    requires divides { Divides p.now.given groups.now d.now.nodes.items d.now.machines.items }
    requires numbers { AreNumbers p.now.given groups.now numbers.now.nodes.items numbers.now.machines.items }
    requires faultless { split_fault p.now.given groups.now ≡ None }
    ensures { IfOk result (λ parts. map (λ q. q.given) parts.items ≡ map (part_of p.now.given groups.now) (range_with_len 0 (length groups.now))) }
{
    let lists = deal(alloc, p, d, numbers, groups.len())?;
    let parts = parts_with(alloc, p, d, numbers, lists)?;
    Ok(parts)
}

/// The parts by a division, with their tables.
fn split_by(
    alloc: Global,
    p: &Problem,
    groups: &[NodeSet],
    d: Division,
) -> Result<SplitProblem, Memory>
    requires divides { Divides p.now.given groups.now d.nodes.items d.machines.items }
    requires faultless { split_fault p.now.given groups.now ≡ None }
    ensures { IfOk result (IsSplitBy p.now.given groups.now) }
{
    let numbers = number(alloc, p, groups, &d)?;
    let parts = parts_by(alloc, p, groups, &d, &numbers)?;
    Ok(SplitProblem::new(d, numbers, parts))
}

/// The parts of a problem, one for each group of nodes, or why the groups do not split it.
///
/// The groups share no node, have nodes of the problem alone, and there is one. A part has the nodes of its group and the
/// machines that stay there, in their order and with new numbers, and each constraint that speaks of them, cut down to
/// them. Of several faults the first, in the order of `SplitFault`, is the answer; want of memory may come before it.
pub fn split(alloc: Global, p: &Problem, groups: &[NodeSet]) -> Result<SplitProblem, SplitFault>
    requires groups { AreGroups p.now.given groups.now }
    ensures parts { IfOk result (IsSplitBy p.now.given groups.now) }
    ensures faultless { OnOk result (split_fault p.now.given groups.now ≡ None) }
    ensures fault { IfErr result (λ f. f ≢ SplitFault.Memory → split_fault p.now.given groups.now ≡ Some f) }
{
    let d = divide_or_fault(alloc, p, groups)?;
    let s = split_by(alloc, p, groups, d)?;
    Ok(s)
}
