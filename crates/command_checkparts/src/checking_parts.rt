//! The command `checkparts`.

ghost use Rattle.std.specs.Prelude.{◌≡◌, ◌≢◌, ℕ, List, Option, Some, Err, IsTrue, IfErr, IfSome, option_map};
ghost use Rattle.std.specs.Option.{option_copied};
ghost use Rattle.command_checkparts.specs.Prelude.{AnswersFrom, certificates_in, ChecksGroups, ChecksParts, ChecksPlan, choices_of, Ends, Files, instance_in, IsCheckedByParts, IsOfReading, IsPlanOf, IsSplitBy, OnlyReads, outside, PartCauses, Reads};

use crate::verdict_lines::{refusal_of, say_verdict};
use catalogue::Problem;
use command_frame::fault::{Ending, Fault};
use command_frame::inputs::bytes_at;
use command_frame::inputs::instance::problem_at;
use command_frame::inputs::plan::any_plan_at;
use command_groups::split_input::{SplitGroups, split_at};
use part_check::check_parts;
use plan_io::Desk;
use slices::Plan;
use solver::Solver;
use std::alloc::Global;

/// Checks certificates of parts, for a plan of the whole that is handed in, or for none, and says what they give.
#[tactic(auto, using(crate::proofs::CheckPartsAnswers::verdict_ends, crate::proofs::CheckPartsAnswers::fault_ends, crate::proofs::CheckPartsAnswers::last_kind, crate::proofs::CheckPartsAnswers::last_reads, crate::proofs::CheckPartsAnswers::fault_kind, crate::proofs::CheckPartsAnswers::fault_reads))]
fn judge<S: Solver>(
    alloc: Global,
    solver: &S,
    p: &Problem,
    g: &SplitGroups,
    plan: Option<&Plan>,
    text: &[u8],
) -> Result<Ending, Fault>
    requires split { IsSplitBy p.now.given g.now.groups.items g.now.split }
    requires plan { IfSome plan (λ a. IsPlanOf p.now.given a.now) }
    ensures ends { let checks = ChecksParts p.now.given g.now.groups.items (option_map choices_of (option_copied plan.entry)) text.now in
        (files : Files) (printed : List ℕ) → Ends (checks (outside files printed)) (outside files printed) result }
    ensures kind { IfErr result IsOfReading }
    ensures no_read { result ≢ Err Fault.ReadFault }
{
    match check_parts(alloc, solver, p, &g.groups, &g.split, plan, text) {
        Ok(verdict) => say_verdict(alloc, verdict),
        Err(fault) => Err(refusal_of(alloc, fault)),
    }
}

/// The certificates of parts in the file of this name, or the line that refuses more bytes than the most.
fn certificates_at<D: Desk>(alloc: Global, desk: &mut D, name: &str) -> Result<Vec<u8>, Fault>
    requires { IsTrue (D.reads name.now) }
    ensures reading { IsTrue D.tells → result ≢ Err Fault.ReadFault
        → Reads (λ text. text.items) result (certificates_in (D.files desk.old) name.now) }
    ensures desk { OnlyReads D.tells D.files D.read_faults D.write_faults desk.old desk.new result }
{
    bytes_at(alloc, desk, name, "certificate")
}

/// Checks the certificates of parts in a file, for a plan of the whole that is handed in, or for none.
#[tactic(auto, using(crate::proofs::CheckPartsAnswers::refused_certificates), unfolding(command_frame::specs::Endings::Ends))]
fn check_certificates<D: Desk, S: Solver>(
    alloc: Global,
    desk: &mut D,
    solver: &S,
    p: &Problem,
    g: &SplitGroups,
    plan: Option<&Plan>,
    certificate: &str,
) -> Result<Ending, Fault>
    requires split { IsSplitBy p.now.given g.now.groups.items g.now.split }
    requires plan { IfSome plan (λ a. IsPlanOf p.now.given a.now) }
    requires reads { IsTrue (D.reads certificate.now) }
    ensures ends { let checks = ChecksPlan certificate.now p.now.given g.now.groups.items (option_map choices_of (option_copied plan.entry)) in
        IsTrue D.tells → (printed : List ℕ) → Ends (checks (outside (D.files desk.old) printed))
        (outside (D.files desk.new) printed) result }
    ensures desk { OnlyReads D.tells D.files D.read_faults D.write_faults desk.old desk.new result }
{
    let text = certificates_at(alloc, desk, certificate)?;
    judge(alloc, solver, p, g, plan, &text)
}

/// Checks the certificates of the parts of a problem that groups split. It reads the plan of the whole, and then the
/// certificates.
#[tactic(auto, using(crate::proofs::CheckPartsAnswers::refused_plan), unfolding(command_frame::specs::Endings::Ends))]
fn check_plan<D: Desk, S: Solver>(
    alloc: Global,
    desk: &mut D,
    solver: &S,
    p: &Problem,
    g: &SplitGroups,
    plan_file: &str,
    certificate: &str,
) -> Result<Ending, Fault>
    requires split { IsSplitBy p.now.given g.now.groups.items g.now.split }
    requires reads_plan { IsTrue (D.reads plan_file.now) }
    requires reads_certificate { IsTrue (D.reads certificate.now) }
    ensures ends { let checks = ChecksGroups plan_file.now certificate.now p.now.given g.now.groups.items in
        IsTrue D.tells → (printed : List ℕ) → Ends (checks (outside (D.files desk.old) printed))
        (outside (D.files desk.new) printed) result }
    ensures desk { OnlyReads D.tells D.files D.read_faults D.write_faults desk.old desk.new result }
{
    let plan = any_plan_at(alloc, desk, p, plan_file)?;
    check_certificates(alloc, desk, solver, p, g, plan.as_ref(), certificate)
}

/// Checks the certificates of the parts of a problem. It reads the groups, and then as `check_plan` does.
#[tactic(auto, using(crate::proofs::CheckPartsAnswers::refused_groups), unfolding(command_frame::specs::Endings::Ends))]
fn check_problem<D: Desk, S: Solver>(
    alloc: Global,
    desk: &mut D,
    solver: &S,
    p: &Problem,
    groups_file: &str,
    plan_file: &str,
    certificate: &str,
) -> Result<Ending, Fault>
    requires reads_groups { IsTrue (D.reads groups_file.now) }
    requires reads_plan { IsTrue (D.reads plan_file.now) }
    requires reads_certificate { IsTrue (D.reads certificate.now) }
    ensures ends { let checked = IsCheckedByParts groups_file.now plan_file.now certificate.now p.now.given in
        IsTrue D.tells → (printed : List ℕ) → Ends (checked (outside (D.files desk.old) printed))
        (outside (D.files desk.new) printed) result }
    ensures desk { OnlyReads D.tells D.files D.read_faults D.write_faults desk.old desk.new result }
{
    let g = split_at(alloc, desk, p, groups_file)?;
    check_plan(alloc, desk, solver, p, &g, plan_file, certificate)
}

/// Checks the certificates of the parts of an instance, which the groups in a file split, for a plan of the whole, or for
/// none, as a `null` in the plan's file says. It reads the instance, the groups, the plan and the certificates, each only
/// where it is due, and the certificates whole.
#[tactic(auto, using(command_frame::proofs::Public::refused_instance), unfolding(command_frame::specs::Endings::Ends))]
pub fn checkparts<D: Desk, S: Solver>(
    alloc: Global,
    desk: &mut D,
    solver: &S,
    instance: &str,
    groups_file: &str,
    plan_file: &str,
    certificate: &str,
) -> Result<Ending, Fault>
    requires instance { IsTrue (D.reads instance.now) }
    requires groups { IsTrue (D.reads groups_file.now) }
    requires plan { IsTrue (D.reads plan_file.now) }
    requires certificate { IsTrue (D.reads certificate.now) }
    ensures ends { let answers = AnswersFrom (IsCheckedByParts groups_file.now plan_file.now certificate.now) instance.now in
        IsTrue D.tells → (printed : List ℕ) → Ends (answers (outside (D.files desk.old) printed))
        (outside (D.files desk.new) printed) result }
    ensures files { IsTrue D.tells → D.files desk.new ≡ D.files desk.old }
    ensures causes { PartCauses (D.read_faults desk.old) (D.read_faults desk.new)
        (D.write_faults desk.old) (D.write_faults desk.new) result }
    ensures desk_writes { D.write_faults desk.new ≡ D.write_faults desk.old }
    ensures words { result ≢ Err Fault.Words }
{
    let problem = problem_at(alloc, desk, instance)?;
    check_problem(
        alloc,
        desk,
        solver,
        &problem,
        groups_file,
        plan_file,
        certificate,
    )
}
