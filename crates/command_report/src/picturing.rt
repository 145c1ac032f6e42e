//! The command `picture`.

ghost use Rattle.std.specs.Prelude.{◌≡◌, ◌≢◌, ℕ, List, Err, IsTrue, IfErr, IfOk, IfSome, OnOk, string_bytes};
ghost use Rattle.command_report.specs.Prelude.{AnswersFromPlan, choices_of, CountsWrites, Ends, HasPicture, InRange, IsOfWriting, IsPlanOf, LeavesFromPlan, LeavesPictured, outside, PartCauses, Pictures, verdict_line, WriteCauses};

use crate::replaying::outcome_of;
use base::Memory;
use catalogue::Problem;
use command_frame::fault::{Ending, Fault};
use command_frame::inputs::instance::problem_at;
use command_frame::inputs::plan::plan_at;
use judge::judge;
use picture::draw_plan;
use plan_io::{Desk, OutFault, write_whole};
use replay::broken_line;
use slices::Plan;
use slices::plan::cost;
use slices::rule::Broken;
use std::alloc::Global;

/// The line of the verdict on a plan, as in a report.
#[tactic(auto, unfolding(replay::specs::Lines::verdict_line))]
fn verdict_line(
    alloc: Global,
    p: &Problem,
    plan: &Plan,
    answer: Option<Broken>,
) -> Result<String, Memory>
    requires plan { IsPlanOf p.now.given plan.now }
    requires rule { IfSome answer (λ b. InRange p.now.given b.rule) }
    ensures { IfOk result (λ line. string_bytes line ≡ verdict_line p.now.given (choices_of plan.now) answer) }
{
    match answer {
        Some(broken) => broken_line(alloc, p, broken),
        None => Ok(format!(in alloc; "valid {}\n", cost(p, plan))?),
    }
}

/// Writes the picture of a plan.
fn write_picture<D: Desk>(
    alloc: Global,
    desk: &mut D,
    p: &Problem,
    plan: &Plan,
    answer: Option<Broken>,
    picture_file: &str,
) -> Result<(), OutFault>
    requires writes { IsTrue (D.writes picture_file.now) }
    requires plan { IsPlanOf p.now.given plan.now }
    requires rule { IfSome answer (λ b. InRange p.now.given b.rule) }
    ensures written { let has = HasPicture picture_file.now p.now.given (choices_of plan.now) in
        IsTrue D.tells → OnOk result (has (D.files desk.old) (D.files desk.new)) }
    ensures left { let leaves = LeavesPictured picture_file.now p.now.given (choices_of plan.now) in
        IsTrue D.tells → leaves (D.files desk.old) (D.files desk.new) }
    ensures cause { CountsWrites (D.write_faults desk.old) (D.write_faults desk.new) result }
    ensures reads_kept { D.read_faults desk.new ≡ D.read_faults desk.old }
{
    let text = draw_plan(alloc, p, plan, answer)?;
    write_whole(desk, picture_file, &text)
}

/// Draws a plan into a file, and ends with the verdict on it.
#[tactic(auto, using(crate::proofs::PictureAnswers::pictured, command_frame::proofs::Public::refused_write), unfolding(command_frame::specs::Endings::Ends))]
fn end_picture<D: Desk>(
    alloc: Global,
    desk: &mut D,
    p: &Problem,
    plan: &Plan,
    picture_file: &str,
) -> Result<Ending, Fault>
    requires writes { IsTrue (D.writes picture_file.now) }
    requires plan { IsPlanOf p.now.given plan.now }
    ensures ends { let pictures = Pictures picture_file.now p.now.given (choices_of plan.now) in
        IsTrue D.tells → (printed : List ℕ) → Ends (pictures (outside (D.files desk.old) printed))
        (outside (D.files desk.new) printed) result }
    ensures left { let leaves = LeavesPictured picture_file.now p.now.given (choices_of plan.now) in
        IsTrue D.tells → leaves (D.files desk.old) (D.files desk.new) }
    ensures causes { WriteCauses (D.write_faults desk.old) (D.write_faults desk.new) result }
    ensures reads_kept { D.read_faults desk.new ≡ D.read_faults desk.old }
    ensures kind { IfErr result IsOfWriting }
{
    let answer = judge(p, plan);
    write_picture(alloc, desk, p, plan, answer, picture_file)?;
    let line = verdict_line(alloc, p, plan, answer)?;
    Ok(Ending {
        line: Some(line),
        outcome: outcome_of(&answer),
    })
}

/// Draws a plan of an instance, also one that is not valid, and says its verdict.
#[tactic(auto, using(command_frame::proofs::Public::refused_problem, command_frame::proofs::Public::refused_plan, crate::proofs::PictureAnswers::leaves_nothing), unfolding(command_frame::specs::Endings::Ends))]
pub fn picture<D: Desk>(
    alloc: Global,
    desk: &mut D,
    instance: &str,
    plan_file: &str,
    picture_file: &str,
) -> Result<Ending, Fault>
    requires instance { IsTrue (D.reads instance.now) }
    requires plan { IsTrue (D.reads plan_file.now) }
    requires writes { IsTrue (D.writes picture_file.now) }
    ensures ends { let answers = AnswersFromPlan (Pictures picture_file.now) instance.now plan_file.now in
        IsTrue D.tells → (printed : List ℕ) → Ends (answers (outside (D.files desk.old) printed))
        (outside (D.files desk.new) printed) result }
    ensures left { let leaves = LeavesFromPlan (LeavesPictured picture_file.now) instance.now plan_file.now in
        IsTrue D.tells → leaves (D.files desk.old) (D.files desk.new) }
    ensures failed_read { IsTrue D.tells → result ≡ Err Fault.ReadFault
        → D.files desk.new ≡ D.files desk.old }
    ensures causes { PartCauses (D.read_faults desk.old) (D.read_faults desk.new)
        (D.write_faults desk.old) (D.write_faults desk.new) result }
    ensures words { result ≢ Err Fault.Words }
{
    let problem = problem_at(alloc, desk, instance)?;
    let plan = plan_at(alloc, desk, &problem, plan_file)?;
    end_picture(alloc, desk, &problem, &plan, picture_file)
}
