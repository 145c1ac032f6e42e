//! The groups of nodes that a command reads, and the problem that they split.

ghost use Rattle.std.specs.Prelude.{◌≡◌, ◌≢◌, Result, Some, IsTrue, IfErr, IfOk, Err, string_bytes};
ghost use Rattle.command_groups.specs.Prelude.{AreGroups, fault_said, groups_line, IsOfReading, IsRefusal, IsSplitBy, OnlyReads, Reads, split_by, split_fault, split_in};

use crate::groups_input::groups_at;
use base::Memory;
use catalogue::Problem;
use cluster::{Element, NodeId, NodeSet, VmId};
use command_frame::fault::Fault;
use command_frame::inputs::refusal;
use partition::{SplitProblem, split};
use parts::SplitFault;
use plan_io::Desk;
use std::alloc::Global;

/// Groups of nodes, and the problem that they split.
#[derive(Drop)]
pub struct SplitGroups {
    pub groups: Vec<NodeSet>,
    pub split: SplitProblem,
}

/// What is wrong with a node in no group.
#[tactic(auto, using(crate::proofs::SplitReadings::uncovered_is_listed), unfolding(crate::specs::Splitting::fault_said))]
fn uncovered_text(
    alloc: Global,
    p: &Problem,
    groups: &[NodeSet],
    n: NodeId,
) -> Result<String, Memory>
    requires { split_fault p.now.given groups.now ≡ Some (SplitFault.Uncovered n) }
    ensures { IfOk result (λ text. string_bytes text ≡ fault_said p.now.given (SplitFault.Uncovered n)) }
{
    let name = p.cluster().name(Element::Node(n));
    Ok(format!(in alloc; "node {name} uncovered")?)
}

/// What is wrong with a machine that may leave its group.
#[tactic(auto, using(crate::proofs::SplitReadings::free_is_listed), unfolding(crate::specs::Splitting::fault_said))]
fn free_text(alloc: Global, p: &Problem, groups: &[NodeSet], v: VmId) -> Result<String, Memory>
    requires { split_fault p.now.given groups.now ≡ Some (SplitFault.Free v) }
    ensures { IfOk result (λ text. string_bytes text ≡ fault_said p.now.given (SplitFault.Free v)) }
{
    let name = p.cluster().name(Element::Vm(v));
    Ok(format!(in alloc; "machine {name} free")?)
}

/// Why groups do not split a problem.
#[tactic(auto, unfolding(crate::specs::Splitting::fault_said))]
fn fault_text(
    alloc: Global,
    p: &Problem,
    groups: &[NodeSet],
    fault: SplitFault,
) -> Result<String, Memory>
    requires { split_fault p.now.given groups.now ≡ Some fault }
    ensures { IfOk result (λ text. string_bytes text ≡ fault_said p.now.given fault) }
{
    match fault {
        SplitFault::Uncovered(n) => uncovered_text(alloc, p, groups, n),
        SplitFault::Free(v) => free_text(alloc, p, groups, v),
        SplitFault::Spans(c) => Ok(format!(in alloc; "constraint {c} spans")?),
        SplitFault::Memory => Ok(format!(in alloc; "out of memory")?),
    }
}

/// The fault with the line that says why groups do not split a problem.
fn refusal_of(alloc: Global, p: &Problem, groups: &[NodeSet], fault: SplitFault) -> Fault
    requires { split_fault p.now.given groups.now ≡ Some fault }
    ensures { IsRefusal result (groups_line (fault_said p.now.given fault)) }
{
    match fault_text(alloc, p, groups, fault) {
        Ok(text) => refusal(alloc, "groups", &text),
        Err(Memory) => Fault::Memory,
    }
}

/// The problem that groups split, or the line that says why they do not.
#[tactic(auto, using(crate::proofs::SplitReadings::the_split, crate::proofs::SplitReadings::first_fault))]
fn split_problem(alloc: Global, p: &Problem, groups: &[NodeSet]) -> Result<SplitProblem, Fault>
    requires { AreGroups p.now.given groups.now }
    ensures reading { Reads (λ _. groups.now) result (split_by p.now.given groups.now) }
    ensures split { IfOk result (IsSplitBy p.now.given groups.now) }
    ensures kind { IfErr result IsOfReading }
{
    match split(alloc, p, groups) {
        Ok(split) => Ok(split),
        Err(SplitFault::Memory) => Err(Fault::Memory),
        Err(fault) => Err(refusal_of(alloc, p, groups, fault)),
    }
}

/// The groups of nodes in the file of this name, with the problem that they split, or the line that refuses them.
#[tactic(auto, using(crate::proofs::SplitReadings::good_groups, crate::proofs::SplitReadings::bad_groups))]
pub fn split_at<D: Desk>(
    alloc: Global,
    desk: &mut D,
    p: &Problem,
    name: &str,
) -> Result<SplitGroups, Fault>
    requires { IsTrue (D.reads name.now) }
    ensures reading { IsTrue D.tells → result ≢ Err Fault.ReadFault
        → Reads (λ g. g.groups.items) result (split_in p.now.given (D.files desk.old) name.now) }
    ensures split { IfOk result (λ g. IsSplitBy p.now.given g.groups.items g.split) }
    ensures desk { OnlyReads D.tells D.files D.read_faults D.write_faults desk.old desk.new result }
{
    let groups = groups_at(alloc, desk, p, name)?;
    let split = split_problem(alloc, p, &groups)?;
    Ok(SplitGroups { groups, split })
}
