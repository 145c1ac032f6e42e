//! The command `plan`.

ghost use Rattle.std.specs.Prelude.{◌≡◌, ◌≢◌, ℕ, List, Option, Some, Ok, Err, IsTrue, IfOk, IfErr, IfSome, OnOk, string_bytes};
ghost use Rattle.std.specs.Option.{option_copied};
ghost use Rattle.command_decide.specs.Prelude.{AnswersFrom, CountsWrites, Ends, found_line, found_status, instance_in, IsCut, IsOfWriting, IsPlanned, IsPlanOf, IsWritten, LeavesBy, LeavesPlanned, OthersStay, outcome_status, outside, PartCauses, plan_of as plan_read, plan_text, WriteCauses};
ghost use Rattle.search.specs.Answers.{plan_in};
ghost use Rattle.command_decide.specs.Planning.{undecided_line};

use base::Memory;
use catalogue::Problem;
use command_frame::fault::{Ending, Fault, Outcome};
use command_frame::inputs::instance::problem_at;
use plan_io::{Desk, OutFault, write_whole};
use plan_json::print_plan;
use search::Found;
use slices::Plan;
use slices::plan::cost;
use solver::Solver;
use std::alloc::Global;

/// The plan of an answer, if it has one.
fn plan_of(found: &Found) -> Option<&Plan>
    ensures { option_copied result ≡ plan_in found.now }
{
    match found {
        Found::Optimal(plan) => Some(plan),
        Found::Infeasible => None,
        Found::Undecided { best, .. } => best.as_ref(),
    }
}

/// The line of what stayed undecided, with the cost of the best plan, if one was met.
#[tactic(auto, using(crate::proofs::PlanAnswers::line_with_best))]
fn undecided_line(alloc: Global, best: Option<u64>, least: u64) -> Result<String, Memory>
    ensures { IfOk result (λ line. string_bytes line ≡ undecided_line best least) }
{
    match best {
        None => Ok(format!(in alloc; "undecided least {least}\n")?),
        Some(cost) => Ok(format!(in alloc; "undecided best {cost} least {least}\n")?),
    }
}

/// The line of an answer.
#[tactic(auto, unfolding(crate::specs::Planning::found_line))]
pub fn found_line(alloc: Global, p: &Problem, found: &Found) -> Result<String, Memory>
    requires { IfSome (plan_in found.now) (IsPlanOf p.now.given) }
    ensures { IfOk result (λ line. string_bytes line ≡ found_line p.now.given found.now) }
{
    match found {
        Found::Optimal(plan) => Ok(format!(in alloc; "optimal {}\n", cost(p, plan))?),
        Found::Infeasible => Ok(format!(in alloc; "infeasible\n")?),
        Found::Undecided { best: None, least } => undecided_line(alloc, None, *least),
        Found::Undecided {
            best: Some(plan),
            least,
        } => undecided_line(alloc, Some(cost(p, plan)), *least),
    }
}

/// How the command ends with an answer.
pub fn outcome_of(found: &Found) -> Outcome
    ensures { outcome_status result ≡ found_status found.now }
{
    match found {
        Found::Optimal(_) => Outcome::Good,
        Found::Infeasible => Outcome::Negative,
        Found::Undecided { .. } => Outcome::Undecided,
    }
}

/// Writes the plan of an answer, or that there is none.
fn write_plan<D: Desk>(
    alloc: Global,
    desk: &mut D,
    p: &Problem,
    found: &Found,
    plan_file: &str,
) -> Result<(), OutFault>
    requires writes { IsTrue (D.writes plan_file.now) }
    requires plan { IfSome (plan_in found.now) (IsPlanOf p.now.given) }
    ensures written { let text = plan_text p.now.given (plan_in found.now) in
        IsTrue D.tells → OnOk result (D.files desk.new plan_file.now ≡ Some text) }
    ensures reads { let text = plan_text p.now.given (plan_in found.now) in
        OnOk result (plan_read p.now.given text ≡ Ok (plan_in found.now)) }
    ensures cut { let text = plan_text p.now.given (plan_in found.now) in
        IsTrue D.tells
        → IsCut (D.files desk.old plan_file.now) text (D.files desk.new plan_file.now) }
    ensures others { IsTrue D.tells
        → OthersStay plan_file.now (D.files desk.old) (D.files desk.new) }
    ensures cause { CountsWrites (D.write_faults desk.old) (D.write_faults desk.new) result }
    ensures reads_kept { D.read_faults desk.new ≡ D.read_faults desk.old }
{
    let text = print_plan(alloc, p, plan_of(found))?;
    write_whole(desk, plan_file, &text)
}

/// Decides on a problem, and writes the certificate and then the plan.
#[tactic(auto, using(solver::proofs::Public::whole_plan, crate::proofs::PlanAnswers::leaves_certificate, crate::proofs::PlanAnswers::leaves_plan, crate::proofs::PlanAnswers::written))]
pub fn write_found<D: Desk, S: Solver>(
    alloc: Global,
    desk: &mut D,
    p: &Problem,
    budget: u64,
    solver: &S,
    plan_file: &str,
    certificate: &str,
) -> Result<Found, OutFault>
    requires plan_file { IsTrue (D.writes plan_file.now) }
    requires certificate { IsTrue (D.writes certificate.now) }
    requires apart { plan_file.now ≢ certificate.now }
    ensures written { let written = IsWritten plan_file.now certificate.now budget p.now.given in
        IsTrue D.tells → IfOk result (written (D.files desk.old) (D.files desk.new)) }
    ensures left { let leaves = LeavesPlanned plan_file.now certificate.now budget p.now.given in
        IsTrue D.tells → leaves (D.files desk.old) (D.files desk.new) }
    ensures plan { IfOk result (λ found. IfSome (plan_in found) (IsPlanOf p.now.given)) }
    ensures cause { CountsWrites (D.write_faults desk.old) (D.write_faults desk.new) result }
    ensures reads_kept { D.read_faults desk.new ≡ D.read_faults desk.old }
{
    let found = solver.certify(alloc, desk, p, budget, certificate)?;
    write_plan(alloc, desk, p, &found, plan_file)?;
    Ok(found)
}

/// Decides on a problem, and writes the answer.
#[tactic(auto, using(crate::proofs::PlanAnswers::planned, command_frame::proofs::Public::refused_write), unfolding(command_frame::specs::Endings::Ends))]
fn write_answer<D: Desk, S: Solver>(
    alloc: Global,
    desk: &mut D,
    p: &Problem,
    budget: u64,
    solver: &S,
    plan_file: &str,
    certificate: &str,
) -> Result<Ending, Fault>
    requires plan_file { IsTrue (D.writes plan_file.now) }
    requires certificate { IsTrue (D.writes certificate.now) }
    requires apart { plan_file.now ≢ certificate.now }
    ensures ends { let planned = IsPlanned plan_file.now certificate.now budget p.now.given in
        IsTrue D.tells → (printed : List ℕ) → Ends (planned (outside (D.files desk.old) printed))
        (outside (D.files desk.new) printed) result }
    ensures left { let leaves = LeavesPlanned plan_file.now certificate.now budget p.now.given in
        IsTrue D.tells → leaves (D.files desk.old) (D.files desk.new) }
    ensures causes { WriteCauses (D.write_faults desk.old) (D.write_faults desk.new) result }
    ensures reads_kept { D.read_faults desk.new ≡ D.read_faults desk.old }
    ensures kind { IfErr result IsOfWriting }
{
    let found = write_found(alloc, desk, p, budget, solver, plan_file, certificate)?;
    let line = found_line(alloc, p, &found)?;
    Ok(Ending {
        line: Some(line),
        outcome: outcome_of(&found),
    })
}

/// Plans the instance in a file with at most so many decisions: writes the certificate as it searches, and
/// then the plan, or that there is none.
#[tactic(auto, using(command_frame::proofs::Public::refused_instance, crate::proofs::PlanAnswers::leaves_well), unfolding(command_frame::specs::Endings::Ends))]
pub fn plan<D: Desk, S: Solver>(
    alloc: Global,
    desk: &mut D,
    solver: &S,
    instance: &str,
    plan_file: &str,
    certificate: &str,
    budget: u64,
) -> Result<Ending, Fault>
    requires instance { IsTrue (D.reads instance.now) }
    requires plan_file { IsTrue (D.writes plan_file.now) }
    requires certificate { IsTrue (D.writes certificate.now) }
    requires apart { plan_file.now ≢ certificate.now }
    ensures ends { let answers = AnswersFrom (IsPlanned plan_file.now certificate.now budget) instance.now in
        IsTrue D.tells → (printed : List ℕ) → Ends (answers (outside (D.files desk.old) printed))
        (outside (D.files desk.new) printed) result }
    ensures left { let reading = instance_in (D.files desk.old) instance.now in
        let leaves = LeavesBy (LeavesPlanned plan_file.now certificate.now budget) reading in
        IsTrue D.tells → leaves (D.files desk.old) (D.files desk.new) }
    ensures failed_read { IsTrue D.tells → result ≡ Err Fault.ReadFault
        → D.files desk.new ≡ D.files desk.old }
    ensures causes { PartCauses (D.read_faults desk.old) (D.read_faults desk.new)
        (D.write_faults desk.old) (D.write_faults desk.new) result }
    ensures words { result ≢ Err Fault.Words }
{
    let problem = problem_at(alloc, desk, instance)?;
    write_answer(
        alloc,
        desk,
        &problem,
        budget,
        solver,
        plan_file,
        certificate,
    )
}
