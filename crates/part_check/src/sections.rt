//! The verdict on the section of a part, and on all sections in order.

ghost use Rattle.std.specs.Prelude.{◌≡◌, ◌≢◌, ◌<◌, ℕ, Err, Some, IfErr, IfOk, IfSome, length, slice_index_or, Ok as Is};
ghost use Rattle.std.specs.Option.{option_copied};
ghost use Rattle.slices.specs.Plans.{IsPlanOf};
ghost use Rattle.cert_parts.specs.Sections.{section_of};
ghost use Rattle.partition.specs.Prelude.{IsSplitBy};
ghost use Rattle.cert_check.specs.declared.verdict.CheckFault.{CheckFault as AnyFault};
ghost use Rattle.cert_check.specs.declared.verdict.Verdict.TheVariants.{No};
ghost use Rattle.cert_read.specs.declared.line.LineFault.{LineFault as AnyLineFault};
ghost use Rattle.cert_model.specs.declared.why.Why.TheVariants.{Plan as NoPlan};
ghost use Rattle.part_check.specs.declared.verdict.PartsFault.{PartsFault as AnyPartsFault};
ghost use Rattle.part_check.specs.Judging.{FaultGives, IsSoundOfPart};
ghost use Rattle.part_check.specs.Verdicts.{AreWanted, IsSoundOfWhole, SectionGives, SectionsGive};

use crate::seen::{Seen, whole_goal};
use crate::verdict::{PartsFault, PartsVerdict};
use catalogue::Problem;
use cert_check::{CheckFault, Verdict};
use cert_model::why::Why;
use cert_parts::Section;
use cluster::NodeSet;
use partition::SplitProblem;
use slices::Plan;
use solver::{Solver, check_text};
use std::alloc::Global;

/// The part of that number.
fn part_at<'a>(split: &'a SplitProblem, i: usize) -> &'a Problem
    requires { i < length split.now.parts }
    ensures { result.now ≡ slice_index_or split.now.parts i result.now }
{
    &split.parts()[i]
}

/// The verdict where a machine of the part leaves its group.
fn left() -> Verdict
    ensures { result ≡ No 0 NoPlan }
{
    Verdict::No {
        line: 0,
        why: Why::Plan,
    }
}

/// The verdict on the bytes of a section, for the plan that its part has of a plan of the whole.
fn judge_planned<S: Solver>(
    alloc: Global,
    solver: &S,
    p: &Problem,
    groups: &[NodeSet],
    split: &SplitProblem,
    plan: &Plan,
    i: usize,
    body: &[u8],
) -> Result<Verdict, CheckFault>
    requires split { IsSplitBy p.now.given groups.now split.now }
    requires plan { IsPlanOf p.now.given plan.now }
    requires part { i < length groups.now }
    ensures gives { result ≢ Err AnyFault.Memory
        → SectionGives p.now.given groups.now (Some plan.now) (section_of i body.now) result }
    ensures sound { IfOk result (IsSoundOfPart p.now.given groups.now (Some plan.now) i) }
    ensures no_read_fault { result ≢ Err (AnyFault.Line AnyLineFault.ReadFault) }
{
    match split.part_plan(alloc, p, groups, i, plan)? {
        Some(own) => check_text(alloc, solver, part_at(split, i), Some(&own), body, false),
        None => Ok(left()),
    }
}

/// The verdict on the bytes of a section, for a plan of the whole, or for none.
fn judge_body<S: Solver>(
    alloc: Global,
    solver: &S,
    p: &Problem,
    groups: &[NodeSet],
    split: &SplitProblem,
    plan: Option<&Plan>,
    i: usize,
    body: &[u8],
) -> Result<Verdict, CheckFault>
    requires split { IsSplitBy p.now.given groups.now split.now }
    requires plan { IfSome plan (λ a. IsPlanOf p.now.given a.now) }
    requires part { i < length groups.now }
    ensures gives { result ≢ Err AnyFault.Memory
        → SectionGives p.now.given groups.now (option_copied plan.entry) (section_of i body.now) result }
    ensures sound { IfOk result (IsSoundOfPart p.now.given groups.now (option_copied plan.entry) i) }
    ensures no_read_fault { result ≢ Err (AnyFault.Line AnyLineFault.ReadFault) }
{
    match plan {
        Some(plan) => judge_planned(alloc, solver, p, groups, split, plan, i, body),
        None => check_text(alloc, solver, part_at(split, i), None, body, false),
    }
}

/// The verdict on a section; a line that cannot be read is told with the number of the part.
fn judge_section<S: Solver>(
    alloc: Global,
    solver: &S,
    p: &Problem,
    groups: &[NodeSet],
    split: &SplitProblem,
    plan: Option<&Plan>,
    section: &Section,
) -> Result<Verdict, PartsFault>
    requires split { IsSplitBy p.now.given groups.now split.now }
    requires plan { IfSome plan (λ a. IsPlanOf p.now.given a.now) }
    requires part { section.now.part < length groups.now }
    ensures gives { IfOk result (λ verdict. SectionGives p.now.given groups.now (option_copied plan.entry) section.now (Is verdict)) }
    ensures fault { IfErr result (FaultGives p.now.given groups.now (option_copied plan.entry) section.now) }
    ensures sound { IfOk result (IsSoundOfPart p.now.given groups.now (option_copied plan.entry) section.now.part) }
    ensures no_read_fault { (part : ℕ) → result ≢ Err (AnyPartsFault.Line part AnyLineFault.ReadFault) }
{
    let part = section.part() as usize;
    match judge_body(alloc, solver, p, groups, split, plan, part, section.body()) {
        Ok(verdict) => Ok(verdict),
        Err(CheckFault::Line(fault)) => Err(PartsFault::Line { part, fault }),
        Err(CheckFault::Memory) => Err(PartsFault::Memory),
    }
}

/// The verdict on all sections, which are those that are wanted: the first that does not say yes decides.
pub(crate) fn judge_sections<S: Solver>(
    alloc: Global,
    solver: &S,
    p: &Problem,
    groups: &[NodeSet],
    split: &SplitProblem,
    plan: Option<&Plan>,
    sections: &[Section],
) -> Result<PartsVerdict, PartsFault>
    requires split { IsSplitBy p.now.given groups.now split.now }
    requires plan { IfSome plan (λ a. IsPlanOf p.now.given a.now) }
    requires wanted { AreWanted groups.now (option_copied plan) sections.now }
    ensures give { SectionsGive p.now.given groups.now (option_copied plan.entry) sections.now result }
    ensures sound { IfOk result (IsSoundOfWhole p.now.given (option_copied plan.entry)) }
    ensures no_read_fault { (part : ℕ) → result ≢ Err (AnyPartsFault.Line part AnyLineFault.ReadFault) }
{
    let mut seen = Seen::none();
    'sections: for section in sections {
        match judge_section(alloc, solver, p, groups, split, plan, section)? {
            Verdict::Yes { goal, .. } => seen = seen.with(goal),
            Verdict::No { line, why } => {
                return Ok(PartsVerdict::No {
                    part: section.part() as usize,
                    line,
                    why,
                });
            }
        }
    }
    Ok(PartsVerdict::Yes(whole_goal(p, plan, seen)))
}
