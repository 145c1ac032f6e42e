//! The command `replay`.

ghost use Rattle.std.specs.Prelude.{◌≡◌, ◌≢◌, Err, IsTrue, IfErr};
ghost use Rattle.command_report.specs.Prelude.{AnswersFromPlan, choices_of, Ends, Files, IsOfWriting, IsPlanOf, outcome_status, outside, PartCauses, PrintsPrefixOf, Replays, verdict_status, WriteCauses};

use catalogue::Problem;
use command_frame::fault::{Ending, Fault, Outcome};
use command_frame::inputs::instance::problem_at;
use command_frame::inputs::plan::plan_at;
use plan_io::{Desk, Sink};
use replay::report;
use slices::Plan;
use slices::rule::Broken;
use std::alloc::Global;

/// What the command answers by the verdict on the plan.
pub fn outcome_of(verdict: &Option<Broken>) -> Outcome
    ensures { outcome_status result ≡ verdict_status verdict.now }
{
    match verdict {
        None => Outcome::Good,
        Some(_) => Outcome::Negative,
    }
}

/// Prints the report on a plan, and ends with its verdict.
#[tactic(auto, using(crate::proofs::ReplayAnswers::prefix_of_report, command_frame::proofs::Public::refused_write), unfolding(command_frame::specs::Endings::Ends))]
fn end_report<O: Sink>(
    alloc: Global,
    p: &Problem,
    plan: &Plan,
    out: &mut O,
) -> Result<Ending, Fault>
    requires { IsPlanOf p.now.given plan.now }
    ensures ends { IsTrue O.tells → (files : Files)
        → Ends (Replays p.now.given (choices_of plan.now) (outside files (O.written out.old)))
        (outside files (O.written out.new)) result }
    ensures printed { let prints = Replays p.now.given (choices_of plan.now) in
        IsTrue O.tells → (files : Files)
        → PrintsPrefixOf (prints (outside files (O.written out.old))) (outside files (O.written out.old))
        (outside files (O.written out.new)) }
    ensures causes { WriteCauses (O.faults out.old) (O.faults out.new) result }
    ensures kind { IfErr result IsOfWriting }
{
    let verdict = report(alloc, p, plan, out)?;
    Ok(Ending {
        line: None,
        outcome: outcome_of(&verdict),
    })
}

/// Replays a plan of an instance: prints its report with the verdict on it.
#[tactic(auto, using(command_frame::proofs::Public::refused_problem, command_frame::proofs::Public::refused_plan, command_frame::proofs::Public::prints_nothing), unfolding(command_frame::specs::Endings::Ends))]
pub fn replay<D: Desk, O: Sink>(
    alloc: Global,
    desk: &mut D,
    out: &mut O,
    instance: &str,
    plan_file: &str,
) -> Result<Ending, Fault>
    requires instance { IsTrue (D.reads instance.now) }
    requires plan { IsTrue (D.reads plan_file.now) }
    ensures ends { let before = outside (D.files desk.old) (O.written out.old) in
        let after = outside (D.files desk.new) (O.written out.new) in
        let answers = AnswersFromPlan Replays instance.now plan_file.now in
        IsTrue D.tells → IsTrue O.tells → Ends (answers before) after result }
    ensures files { IsTrue D.tells → D.files desk.new ≡ D.files desk.old }
    ensures printed { let before = outside (D.files desk.old) (O.written out.old) in
        let after = outside (D.files desk.new) (O.written out.new) in
        let answers = AnswersFromPlan Replays instance.now plan_file.now in
        IsTrue D.tells → IsTrue O.tells → PrintsPrefixOf (answers before) before after }
    ensures causes { PartCauses (D.read_faults desk.old) (D.read_faults desk.new)
        (O.faults out.old) (O.faults out.new) result }
    ensures desk_writes { D.write_faults desk.new ≡ D.write_faults desk.old }
    ensures words { result ≢ Err Fault.Words }
{
    let problem = problem_at(alloc, desk, instance)?;
    let plan = plan_at(alloc, desk, &problem, plan_file)?;
    end_report(alloc, &problem, &plan, out)
}
