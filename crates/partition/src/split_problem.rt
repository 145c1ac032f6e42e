//! A problem that groups of nodes split.
use crate::faults::Division;
use crate::numbering::Numbers;
use crate::plans;
use base::Memory;
use catalogue::Problem;
use cluster::NodeSet;
use slices::Plan;
use std::alloc::Global;
use std::marker::Model;

/// A problem that groups of nodes split: its parts, and the tables by which plans are taken apart and put together.
///
/// Contracts see it as both.
#[derive(Drop)]
pub struct SplitProblem {
    division: Division,
    numbers: Numbers,
    parts: Vec<Problem>,
}

impl Model for SplitProblem {
    ghost use Rattle.partition.specs.SplitProblems.{SplitView};

    ghost Value = { SplitView };

    ghost view = { λ a. record { parts = a.parts.items; tables = record { nodes = a.division.nodes.items; machines = a.division.machines.items; node_numbers = a.numbers.nodes.items; machine_numbers = a.numbers.machines.items } } };
}

impl SplitProblem {
    ghost use Rattle.std.specs.Prelude.{◌≡◌, ◌<◌, IfOk, IfSome, IfNone, length};
    ghost use Rattle.slices.specs.Plans.{choices_of, IsPlanOf};
    ghost use Rattle.partition.specs.Plans.{ArePartPlans, IsPartPlan, IsUnion, PartLeaves};
    ghost use Rattle.partition.specs.SplitProblems.{IsSplitBy};

    /// These parts, with their tables.
    pub(crate) fn new(division: Division, numbers: Numbers, parts: Vec<Problem>) -> SplitProblem
        ensures parts { result.parts ≡ parts.items }
        ensures tables { result.tables ≡ record { nodes = division.nodes.items; machines = division.machines.items; node_numbers = numbers.nodes.items; machine_numbers = numbers.machines.items } }
    {
        SplitProblem {
            division,
            numbers,
            parts,
        }
    }

    /// The problem of each part, in the order of the groups.
    pub fn parts(&self) -> &[Problem]
        ensures { result.now ≡ self.now.parts }
    {
        &self.parts
    }

    /// The plan of the part of group `i`, taken from a plan of the whole; nothing where a machine of the part does not
    /// stay there. Its one error is want of memory.
    pub fn part_plan(
        &self,
        alloc: Global,
        p: &Problem,
        groups: &[NodeSet],
        i: usize,
        plan: &Plan,
    ) -> Result<Option<Plan>, Memory>
        requires split { IsSplitBy p.now.given groups.now self.now }
        requires within { i < length groups.now }
        requires plan { IsPlanOf p.now.given plan.now }
        ensures plan { IfOk result (λ found. IfSome found (λ q. IsPartPlan p.now.given groups.now i (choices_of plan.now) q)) }
        ensures leaves { IfOk result (λ found. IfNone found (PartLeaves p.now.given groups.now i (choices_of plan.now))) }
    {
        plans::part_plan(
            alloc,
            p,
            &self.parts[i],
            groups,
            &self.division,
            &self.numbers,
            i,
            plan,
        )
    }

    /// The union of plans, one for each part, in the order of the groups. Its one error is want of memory.
    pub fn union(
        &self,
        alloc: Global,
        p: &Problem,
        groups: &[NodeSet],
        plans: &[Plan],
    ) -> Result<Plan, Memory>
        requires split { IsSplitBy p.now.given groups.now self.now }
        requires plans { ArePartPlans p.now.given groups.now plans.now }
        ensures { IfOk result (IsUnion p.now.given groups.now plans.now) }
    {
        plans::union(alloc, p, groups, &self.division, &self.numbers, plans)
    }
}
