//! The command `show`.

ghost use Rattle.std.specs.Prelude.{◌≡◌, ◌≢◌, Err, IsTrue, IfErr};
ghost use Rattle.command_report.specs.Prelude.{AnswersFromPlan, choices_of, Ends, Files, IsOfWriting, IsPlanOf, Lists, outside, PartCauses, PrintsPrefixOf, WriteCauses};

use crate::replaying::outcome_of;
use catalogue::Problem;
use command_frame::fault::{Ending, Fault};
use command_frame::inputs::instance::problem_at;
use command_frame::inputs::plan::plan_at;
use plan_io::{Desk, Sink};
use show::show_plan;
use slices::Plan;
use std::alloc::Global;

/// Prints the listing of a plan, and ends with its verdict.
#[tactic(auto, using(crate::proofs::ShowAnswers::part_of_listing, command_frame::proofs::Public::refused_write), unfolding(command_frame::specs::Endings::Ends))]
fn end_listing<O: Sink>(
    alloc: Global,
    p: &Problem,
    plan: &Plan,
    out: &mut O,
) -> Result<Ending, Fault>
    requires { IsPlanOf p.now.given plan.now }
    ensures ends { IsTrue O.tells → (files : Files)
        → Ends (Lists p.now.given (choices_of plan.now) (outside files (O.written out.old)))
        (outside files (O.written out.new)) result }
    ensures printed { let prints = Lists p.now.given (choices_of plan.now) in
        IsTrue O.tells → (files : Files)
        → PrintsPrefixOf (prints (outside files (O.written out.old))) (outside files (O.written out.old))
        (outside files (O.written out.new)) }
    ensures causes { WriteCauses (O.faults out.old) (O.faults out.new) result }
    ensures kind { IfErr result IsOfWriting }
{
    let verdict = show_plan(alloc, p, plan, out)?;
    Ok(Ending {
        line: None,
        outcome: outcome_of(&verdict),
    })
}

/// Lists a plan of an instance, also one that is not valid.
#[tactic(auto, using(command_frame::proofs::Public::refused_problem, command_frame::proofs::Public::refused_plan, command_frame::proofs::Public::prints_nothing), unfolding(command_frame::specs::Endings::Ends))]
pub fn show<D: Desk, O: Sink>(
    alloc: Global,
    desk: &mut D,
    out: &mut O,
    instance: &str,
    plan_file: &str,
) -> Result<Ending, Fault>
    requires instance { IsTrue (D.reads instance.now) }
    requires plan { IsTrue (D.reads plan_file.now) }
    ensures ends { let before = outside (D.files desk.old) (O.written out.old) in
        let after = outside (D.files desk.new) (O.written out.new) in
        let answers = AnswersFromPlan Lists instance.now plan_file.now in
        IsTrue D.tells → IsTrue O.tells → Ends (answers before) after result }
    ensures files { IsTrue D.tells → D.files desk.new ≡ D.files desk.old }
    ensures printed { let before = outside (D.files desk.old) (O.written out.old) in
        let after = outside (D.files desk.new) (O.written out.new) in
        let answers = AnswersFromPlan Lists instance.now plan_file.now in
        IsTrue D.tells → IsTrue O.tells → PrintsPrefixOf (answers before) before after }
    ensures causes { PartCauses (D.read_faults desk.old) (D.read_faults desk.new)
        (O.faults out.old) (O.faults out.new) result }
    ensures desk_writes { D.write_faults desk.new ≡ D.write_faults desk.old }
    ensures words { result ≢ Err Fault.Words }
{
    let problem = problem_at(alloc, desk, instance)?;
    let plan = plan_at(alloc, desk, &problem, plan_file)?;
    end_listing(alloc, &problem, &plan, out)
}
