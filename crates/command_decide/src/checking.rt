//! The command `check`.

ghost use Rattle.std.specs.Prelude.{◌≡◌, ◌≢◌, ℕ, List, Option, Some, Err, IsTrue, IfErr, IfOk, IfSome, string_bytes};
ghost use Rattle.std.specs.Option.{option_copied};
ghost use Rattle.command_decide.specs.Prelude.{AnswersFrom, Checks, choices_handed, Ends, IsChecked, IsLastLine, IsLineRefusal, IsPlanOf, IsRefusal, no_line, not_a_line, OnlyReads, outcome_status, outside, PartCauses, too_long_line, undecided_line, verdict_line, verdict_status, why_text};

use base::Memory;
use catalogue::Problem;
use cert_check::{CheckFault, Verdict};
use cert_model::why::Why;
use cert_read::LineFault;
use command_frame::fault::{Ending, Fault, Outcome};
use command_frame::inputs::instance::problem_at;
use command_frame::inputs::plan::any_plan_at;
use command_frame::inputs::refusal;
use plan_io::Desk;
use slices::Plan;
use solver::Solver;
use std::alloc::Global;
use trees::Goal;

/// Why a line does not hold, in a word.
pub fn why_text(why: Why) -> &'static str
    ensures { result.now ≡ why_text why }
{
    match why {
        Why::Structure => "structure",
        Why::Name => "name",
        Why::Part => "part",
        Why::Reason => "reason",
        Why::Plan => "plan",
        Why::Goal => "goal",
        Why::Lean => "lean",
    }
}

/// The line of a yes to what is undecided.
fn undecided_line(alloc: Global, count: u64, least: Option<u64>) -> Result<String, Memory>
    ensures { IfOk result (λ line. string_bytes line ≡ undecided_line count least) }
{
    match least {
        None => Ok(format!(in alloc; "yes undecided {count}\n")?),
        Some(least) => Ok(format!(in alloc; "yes undecided {count} least {least}\n")?),
    }
}

/// The line of a no.
fn no_line(alloc: Global, number: u64, why: Why) -> Result<String, Memory>
    ensures { IfOk result (λ line. string_bytes line ≡ no_line number why) }
{
    let why = why_text(why);
    Ok(format!(in alloc; "no {number} {why}\n")?)
}

/// The line of a verdict.
#[tactic(auto, unfolding(crate::specs::Checking::verdict_line))]
fn verdict_line(alloc: Global, verdict: Verdict) -> Result<String, Memory>
    ensures { IfOk result (λ line. string_bytes line ≡ verdict_line verdict) }
{
    match verdict {
        Verdict::Yes {
            goal: Goal::Optimal(cost),
            ..
        } => Ok(format!(in alloc; "yes optimal {cost}\n")?),
        Verdict::Yes {
            goal: Goal::Infeasible,
            ..
        } => Ok(format!(in alloc; "yes infeasible\n")?),
        Verdict::Yes {
            goal: Goal::Undecided(count),
            least,
        } => undecided_line(alloc, count, least),
        Verdict::No { line, why } => no_line(alloc, line, why),
    }
}

/// What the command answers by the verdict.
fn outcome_of(verdict: Verdict) -> Outcome
    ensures { outcome_status result ≡ verdict_status verdict }
{
    match verdict {
        Verdict::Yes { .. } => Outcome::Good,
        Verdict::No { .. } => Outcome::Negative,
    }
}

/// The last line of a check that has a verdict.
fn say_verdict(alloc: Global, verdict: Verdict) -> Result<Ending, Fault>
    ensures { IsLastLine result (verdict_line verdict) (verdict_status verdict) }
{
    let line = verdict_line(alloc, verdict)?;
    Ok(Ending {
        line: Some(line),
        outcome: outcome_of(verdict),
    })
}

/// The fault of a line that is none of a certificate's.
fn not_a_line(alloc: Global, number: u64) -> Fault
    ensures { IsRefusal result (not_a_line number) }
{
    match format!(in alloc; "line {number}") {
        Ok(text) => refusal(alloc, "certificate", &text),
        Err(_) => Fault::Memory,
    }
}

/// The fault of a line with too many bytes.
fn too_long(alloc: Global, number: u64) -> Fault
    ensures { IsRefusal result (too_long_line number) }
{
    match format!(in alloc; "line {number} too long") {
        Ok(text) => refusal(alloc, "certificate", &text),
        Err(_) => Fault::Memory,
    }
}

/// The fault of a certificate's line that cannot be read.
fn refusal_of(alloc: Global, fault: LineFault) -> Fault
    ensures { IsLineRefusal result fault }
{
    match fault {
        LineFault::NotALine(number) => not_a_line(alloc, number),
        LineFault::TooLong(number) => too_long(alloc, number),
        LineFault::Short => refusal(alloc, "certificate", "short"),
        LineFault::ReadFault => Fault::ReadFault,
        LineFault::Memory => Fault::Memory,
    }
}

/// Checks the certificate in a file, for the plan that is handed in, or for none.
#[tactic(auto, using(crate::proofs::CheckAnswers::verdict_ends, crate::proofs::CheckAnswers::verdict_causes, crate::proofs::CheckAnswers::verdict_kind, crate::proofs::CheckAnswers::line_ends, crate::proofs::CheckAnswers::line_causes, crate::proofs::CheckAnswers::line_kind), unfolding(command_frame::specs::Endings::Ends))]
fn check_certificate<D: Desk, S: Solver>(
    alloc: Global,
    desk: &mut D,
    solver: &S,
    p: &Problem,
    plan: Option<&Plan>,
    certificate: &str,
    strict: bool,
) -> Result<Ending, Fault>
    requires plan { IfSome plan (λ a. IsPlanOf p.now.given a.now) }
    requires reads { IsTrue (D.reads certificate.now) }
    ensures ends { let checks = Checks p.now.given certificate.now strict (choices_handed (option_copied plan.entry)) in
        IsTrue D.tells → (printed : List ℕ)
        → Ends (checks (outside (D.files desk.old) printed)) (outside (D.files desk.new) printed) result }
    ensures desk { OnlyReads D.tells D.files D.read_faults D.write_faults desk.old desk.new result }
{
    match solver.check(alloc, p, plan, desk, certificate, strict) {
        Ok(verdict) => say_verdict(alloc, verdict),
        Err(CheckFault::Line(fault)) => Err(refusal_of(alloc, fault)),
        Err(CheckFault::Memory) => Err(Fault::Memory),
    }
}

/// Checks the certificate of a plan of a problem, or of none, as a `null` in the plan's file says.
/// It reads the plan, then the certificate line by line, each only where it is due.
#[tactic(auto, using(crate::proofs::CheckAnswers::refused_plan), unfolding(command_frame::specs::Endings::Ends))]
pub fn check_problem<D: Desk, S: Solver>(
    alloc: Global,
    desk: &mut D,
    solver: &S,
    p: &Problem,
    plan_file: &str,
    certificate: &str,
    strict: bool,
) -> Result<Ending, Fault>
    requires reads_plan { IsTrue (D.reads plan_file.now) }
    requires reads_certificate { IsTrue (D.reads certificate.now) }
    ensures ends { let checked = IsChecked plan_file.now certificate.now strict p.now.given in
        IsTrue D.tells → (printed : List ℕ)
        → Ends (checked (outside (D.files desk.old) printed)) (outside (D.files desk.new) printed) result }
    ensures desk { OnlyReads D.tells D.files D.read_faults D.write_faults desk.old desk.new result }
{
    let plan = any_plan_at(alloc, desk, p, plan_file)?;
    check_certificate(alloc, desk, solver, p, plan.as_ref(), certificate, strict)
}

/// Checks the certificate of a plan of an instance, or of none. It reads the instance, and then as
/// `check_problem` does.
#[tactic(auto, using(command_frame::proofs::Public::refused_instance), unfolding(command_frame::specs::Endings::Ends))]
pub fn check<D: Desk, S: Solver>(
    alloc: Global,
    desk: &mut D,
    solver: &S,
    instance: &str,
    plan_file: &str,
    certificate: &str,
    strict: bool,
) -> Result<Ending, Fault>
    requires instance { IsTrue (D.reads instance.now) }
    requires plan { IsTrue (D.reads plan_file.now) }
    requires certificate { IsTrue (D.reads certificate.now) }
    ensures ends { let answers = AnswersFrom (IsChecked plan_file.now certificate.now strict) instance.now in
        IsTrue D.tells → (printed : List ℕ) → Ends (answers (outside (D.files desk.old) printed))
        (outside (D.files desk.new) printed) result }
    ensures files { IsTrue D.tells → D.files desk.new ≡ D.files desk.old }
    ensures causes { PartCauses (D.read_faults desk.old) (D.read_faults desk.new)
        (D.write_faults desk.old) (D.write_faults desk.new) result }
    ensures desk_writes { D.write_faults desk.new ≡ D.write_faults desk.old }
    ensures words { result ≢ Err Fault.Words }
{
    let problem = problem_at(alloc, desk, instance)?;
    check_problem(
        alloc,
        desk,
        solver,
        &problem,
        plan_file,
        certificate,
        strict,
    )
}
