//! The verdict on a text with the certificates of parts.

ghost use Rattle.std.specs.Prelude.{◌≡◌, ◌≢◌, ℕ, Err, IfOk, IfSome};
ghost use Rattle.std.specs.Option.{option_copied};
ghost use Rattle.slices.specs.Plans.{IsPlanOf};
ghost use Rattle.partition.specs.Prelude.{IsSplitBy};
ghost use Rattle.cert_read.specs.declared.line.LineFault.{LineFault as AnyLineFault};
ghost use Rattle.part_check.specs.declared.verdict.PartsFault.{PartsFault as AnyPartsFault};
ghost use Rattle.part_check.specs.Verdicts.{GivesOfParts, IsSoundOfWhole};

use crate::sections::judge_sections;
use crate::verdict::{PartsFault, PartsVerdict};
use crate::wanted::are_wanted;
use catalogue::Problem;
use cert_parts::cut_sections;
use cluster::NodeSet;
use partition::SplitProblem;
use slices::Plan;
use solver::Solver;
use std::alloc::Global;

/// The verdict on a text with the certificates of the parts of a problem, for a plan of the whole, or for none.
///
/// With a plan the text has a section for each part, in order; without one it has a single section, of any part. Each
/// section is checked, not strictly, for its part and for the plan of its part; one whose part has a machine that leaves
/// its group is refused at line 0. The first that does not say yes decides: `No` with its line, or `Line` where the line
/// that decides cannot be read. Lines count from 1 in each section. `NoSections` where the text has not the sections that
/// are wanted. `Memory`, or `Line` with `LineFault::Memory`, for want of memory; no other fault comes but those of lines.
pub fn check_parts<S: Solver>(
    alloc: Global,
    solver: &S,
    p: &Problem,
    groups: &[NodeSet],
    split: &SplitProblem,
    plan: Option<&Plan>,
    text: &[u8],
) -> Result<PartsVerdict, PartsFault>
    requires split { IsSplitBy p.now.given groups.now split.now }
    requires plan { IfSome plan (λ a. IsPlanOf p.now.given a.now) }
    ensures verdict { result ≢ Err AnyPartsFault.Memory
        → GivesOfParts p.now.given groups.now (option_copied plan.entry) text.now result }
    ensures sound { IfOk result (IsSoundOfWhole p.now.given (option_copied plan.entry)) }
    ensures no_read_fault { (part : ℕ) → result ≢ Err (AnyPartsFault.Line part AnyLineFault.ReadFault) }
{
    let sections = match cut_sections(alloc, text)? {
        Some(sections) => sections,
        None => return Ok(PartsVerdict::NoSections),
    };
    if !are_wanted(groups, plan, &sections) {
        return Ok(PartsVerdict::NoSections);
    }
    judge_sections(alloc, solver, p, groups, split, plan, &sections)
}
