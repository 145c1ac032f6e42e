//! The command `parts`.

ghost use Rattle.std.specs.Prelude.{◌≡◌, ◌≢◌, ℕ, length, List, Err, Ok, IsTrue, IfErr, IfOk, IfSome, OnOk, string_bytes};
ghost use Rattle.std.specs.Option.{option_copied};
ghost use Rattle.command_parts.specs.Prelude.{AnswersFrom, AreTextsCut, CountsWrites, Ends, HasTexts, Instance, instance_in, IsAnswered, IsOfWriting, IsPlannedByParts, IsPlanOf, IsSplitBy, IsTrueOfWhole, LeavesBy, LeavesPlans, LeavesPlannedByParts, NodeSet, outcome_status, outside, PartCauses, plan_of, plan_text, PlansParts, Split, WholeAnswer as AnyAnswer, whole_line, plan_answered, whole_status, WriteCauses};

use base::Memory;
use catalogue::Problem;
use command_frame::fault::{Ending, Fault, Outcome};
use command_frame::inputs::instance::problem_at;
use command_frame::outputs::write_two;
use command_groups::split_input::{SplitGroups, split_at};
use part_solver::{PartsAnswer, WholeAnswer, solve_parts};
use plan_io::{Desk, OutFault};
use plan_json::print_plan;
use slices::Plan;
use slices::plan::cost;
use solver::Solver;
use std::alloc::Global;

/// The plan of an answer, if it has one.
fn plan_in(whole: &WholeAnswer) -> Option<&Plan>
    ensures { option_copied result ≡ plan_answered whole.now }
{
    match whole {
        WholeAnswer::Infeasible(_) | WholeAnswer::Unmet(_) => None,
        WholeAnswer::Optimal(plan) | WholeAnswer::Valid(plan) => Some(plan),
    }
}

/// The line of an answer.
#[tactic(auto, unfolding(crate::specs::PlanningParts::whole_line))]
fn whole_line(alloc: Global, p: &Problem, whole: &WholeAnswer) -> Result<String, Memory>
    requires { IfSome (plan_answered whole.now) (IsPlanOf p.now.given) }
    ensures { IfOk result (λ line. string_bytes line ≡ whole_line p.now.given whole.now) }
{
    match whole {
        WholeAnswer::Infeasible(_) => Ok(format!(in alloc; "infeasible\n")?),
        WholeAnswer::Unmet(_) => Ok(format!(in alloc; "undecided\n")?),
        WholeAnswer::Optimal(plan) => Ok(format!(in alloc; "optimal {}\n", cost(p, plan))?),
        WholeAnswer::Valid(plan) => Ok(format!(in alloc; "undecided best {}\n", cost(p, plan))?),
    }
}

/// How the command ends with an answer.
fn outcome_of(whole: &WholeAnswer) -> Outcome
    ensures { outcome_status result ≡ whole_status whole.now }
{
    match whole {
        WholeAnswer::Infeasible(_) => Outcome::Negative,
        WholeAnswer::Optimal(_) => Outcome::Good,
        WholeAnswer::Unmet(_) | WholeAnswer::Valid(_) => Outcome::Undecided,
    }
}

/// Writes the certificates of an answer, and then its plan, or that there is none. Both texts are there before a file is
/// touched.
#[tactic(auto, using(command_frame::proofs::Public::cut_in_none))]
fn write_answer<D: Desk>(
    alloc: Global,
    desk: &mut D,
    p: &Problem,
    answer: &PartsAnswer,
    plan_file: &str,
    certificate: &str,
) -> Result<(), OutFault>
    requires plan_file { IsTrue (D.writes plan_file.now) }
    requires certificate { IsTrue (D.writes certificate.now) }
    requires apart { plan_file.now ≢ certificate.now }
    requires plan { IfSome (plan_answered answer.now.whole) (IsPlanOf p.now.given) }
    ensures written { let text = plan_text p.now.given (plan_answered answer.now.whole) in
        let has = HasTexts certificate.now answer.now.certificate.items plan_file.now text in
        IsTrue D.tells → OnOk result (has (D.files desk.old) (D.files desk.new)) }
    ensures reads_back { let text = plan_text p.now.given (plan_answered answer.now.whole) in
        OnOk result (plan_of p.now.given text ≡ Ok (plan_answered answer.now.whole)) }
    ensures cut { let text = plan_text p.now.given (plan_answered answer.now.whole) in
        let cut = AreTextsCut certificate.now answer.now.certificate.items plan_file.now text in
        IsTrue D.tells → cut (D.files desk.old) (D.files desk.new) }
    ensures cause { CountsWrites (D.write_faults desk.old) (D.write_faults desk.new) result }
    ensures reads_kept { D.read_faults desk.new ≡ D.read_faults desk.old }
{
    let text = print_plan(alloc, p, plan_in(&answer.whole))?;
    write_two(desk, certificate, &answer.certificate, plan_file, &text)
}

/// Writes an answer, and says it.
#[tactic(auto, using(command_frame::proofs::Public::refused_write), unfolding(command_frame::specs::Endings::Ends))]
fn end_answer<D: Desk>(
    alloc: Global,
    desk: &mut D,
    p: &Problem,
    answer: &PartsAnswer,
    plan_file: &str,
    certificate: &str,
) -> Result<Ending, Fault>
    requires plan_file { IsTrue (D.writes plan_file.now) }
    requires certificate { IsTrue (D.writes certificate.now) }
    requires apart { plan_file.now ≢ certificate.now }
    requires plan { IfSome (plan_answered answer.now.whole) (IsPlanOf p.now.given) }
    ensures ends { IsTrue D.tells → (groups : List NodeSet) (budget : ℕ) → Split p.now.given groups
        → IsAnswered p.now.given groups budget answer.now.whole answer.now.certificate.items
        → IsTrueOfWhole p.now.given answer.now.whole → (printed : List ℕ)
        → Ends (PlansParts plan_file.now certificate.now budget p.now.given groups (outside (D.files desk.old) printed))
        (outside (D.files desk.new) printed) result }
    ensures left { let text = plan_text p.now.given (plan_answered answer.now.whole) in
        let cut = AreTextsCut certificate.now answer.now.certificate.items plan_file.now text in
        IsTrue D.tells → cut (D.files desk.old) (D.files desk.new) }
    ensures causes { WriteCauses (D.write_faults desk.old) (D.write_faults desk.new) result }
    ensures reads_kept { D.read_faults desk.new ≡ D.read_faults desk.old }
    ensures kind { IfErr result IsOfWriting }
{
    write_answer(alloc, desk, p, answer, plan_file, certificate)?;
    let line = whole_line(alloc, p, &answer.whole)?;
    Ok(Ending {
        line: Some(line),
        outcome: outcome_of(&answer.whole),
    })
}

/// Solves the parts of a problem that groups split, each with at most so many decisions, and writes the answer.
#[tactic(auto, using(crate::proofs::PartsAnswers::answered_plan, crate::proofs::PartsAnswers::leaves_answer), unfolding(command_frame::specs::Endings::Ends))]
fn plan_parts<D: Desk, S: Solver>(
    alloc: Global,
    desk: &mut D,
    solver: &S,
    p: &Problem,
    g: &SplitGroups,
    plan_file: &str,
    certificate: &str,
    budget: u64,
) -> Result<Ending, Fault>
    requires split { IsSplitBy p.now.given g.now.groups.items g.now.split }
    requires plan_file { IsTrue (D.writes plan_file.now) }
    requires certificate { IsTrue (D.writes certificate.now) }
    requires apart { plan_file.now ≢ certificate.now }
    ensures ends { let plans = PlansParts plan_file.now certificate.now budget p.now.given g.now.groups.items in
        IsTrue D.tells → (printed : List ℕ) → Ends (plans (outside (D.files desk.old) printed))
        (outside (D.files desk.new) printed) result }
    ensures left { let leaves = LeavesPlans plan_file.now certificate.now budget p.now.given g.now.groups.items in
        IsTrue D.tells → leaves (D.files desk.old) (D.files desk.new) }
    ensures causes { WriteCauses (D.write_faults desk.old) (D.write_faults desk.new) result }
    ensures reads_kept { D.read_faults desk.new ≡ D.read_faults desk.old }
    ensures kind { IfErr result IsOfWriting }
{
    let answer = solve_parts(alloc, solver, p, &g.groups, &g.split, budget)?;
    end_answer(alloc, desk, p, &answer, plan_file, certificate)
}

/// Solves the parts of a problem, which the groups in a file split.
#[tactic(auto, using(crate::proofs::PartsAnswers::refused_groups), unfolding(command_frame::specs::Endings::Ends))]
fn plan_problem<D: Desk, S: Solver>(
    alloc: Global,
    desk: &mut D,
    solver: &S,
    p: &Problem,
    groups_file: &str,
    plan_file: &str,
    certificate: &str,
    budget: u64,
) -> Result<Ending, Fault>
    requires reads { IsTrue (D.reads groups_file.now) }
    requires plan_file { IsTrue (D.writes plan_file.now) }
    requires certificate { IsTrue (D.writes certificate.now) }
    requires apart { plan_file.now ≢ certificate.now }
    ensures ends { let planned = IsPlannedByParts groups_file.now plan_file.now certificate.now budget p.now.given in
        IsTrue D.tells → (printed : List ℕ) → Ends (planned (outside (D.files desk.old) printed))
        (outside (D.files desk.new) printed) result }
    ensures left { let leaves = LeavesPlannedByParts groups_file.now plan_file.now certificate.now budget p.now.given in
        IsTrue D.tells → leaves (D.files desk.old) (D.files desk.new) }
    ensures failed_read { IsTrue D.tells → result ≡ Err Fault.ReadFault
        → D.files desk.new ≡ D.files desk.old }
    ensures causes { PartCauses (D.read_faults desk.old) (D.read_faults desk.new)
        (D.write_faults desk.old) (D.write_faults desk.new) result }
    ensures words { result ≢ Err Fault.Words }
{
    let g = split_at(alloc, desk, p, groups_file)?;
    plan_parts(alloc, desk, solver, p, &g, plan_file, certificate, budget)
}

/// Plans the instance in a file part after part, as the groups in another file split it, each part with at most so many
/// decisions. It writes the certificates, and then the plan of the whole, or that there is none.
#[tactic(auto, using(command_frame::proofs::Public::refused_instance), unfolding(command_frame::specs::Endings::Ends))]
pub fn parts<D: Desk, S: Solver>(
    alloc: Global,
    desk: &mut D,
    solver: &S,
    instance: &str,
    groups_file: &str,
    plan_file: &str,
    certificate: &str,
    budget: u64,
) -> Result<Ending, Fault>
    requires instance { IsTrue (D.reads instance.now) }
    requires groups { IsTrue (D.reads groups_file.now) }
    requires plan_file { IsTrue (D.writes plan_file.now) }
    requires certificate { IsTrue (D.writes certificate.now) }
    requires apart { plan_file.now ≢ certificate.now }
    ensures ends { let planned = IsPlannedByParts groups_file.now plan_file.now certificate.now budget in
        let answers = AnswersFrom planned instance.now in
        IsTrue D.tells → (printed : List ℕ) → Ends (answers (outside (D.files desk.old) printed))
        (outside (D.files desk.new) printed) result }
    ensures left { let reading = instance_in (D.files desk.old) instance.now in
        let leaves = LeavesBy (LeavesPlannedByParts groups_file.now plan_file.now certificate.now budget) reading in
        IsTrue D.tells → leaves (D.files desk.old) (D.files desk.new) }
    ensures failed_read { IsTrue D.tells → result ≡ Err Fault.ReadFault
        → D.files desk.new ≡ D.files desk.old }
    ensures causes { PartCauses (D.read_faults desk.old) (D.read_faults desk.new)
        (D.write_faults desk.old) (D.write_faults desk.new) result }
    ensures words { result ≢ Err Fault.Words }
{
    let problem = problem_at(alloc, desk, instance)?;
    plan_problem(
        alloc,
        desk,
        solver,
        &problem,
        groups_file,
        plan_file,
        certificate,
        budget,
    )
}
