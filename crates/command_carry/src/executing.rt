//! The command `execute`.

ghost use Rattle.std.specs.Prelude.{◌≡◌, ◌≢◌, Err, IsTrue, IfErr};
ghost use Rattle.std.specs.Io.{StartsWith};
ghost use Rattle.command_carry.specs.Prelude.{AnswersFromPlan, choices_of, CommandCauses, conclusion_line, conclusion_status, counts, Ends, EndsAnyhow, Executes, Files, IsLastLine, IsOfExecuting, IsPartOfAnswer, IsPlanOf, IsValid, NamesListed, outside, PartCauses, PrintsPrefixOf, Starts, TakesRead, taking, told, TookBy};

use crate::events::{refused_event, say_broken};
use catalogue::Problem;
use command_frame::fault::{Ending, Fault, Outcome};
use command_frame::inputs::instance::problem_at;
use command_frame::inputs::plan::plan_at;
use plan_io::{Desk, Sink, Source};
use slices::Plan;
use std::alloc::Global;
use transcript::{Conclusion, ExecuteFault};

/// The last line of an execution.
#[tactic(auto, unfolding(crate::specs::Executing::conclusion_line))]
fn conclude(alloc: Global, p: &Problem, conclusion: Conclusion) -> Result<Ending, Fault>
    requires { NamesListed p.now.given conclusion }
    ensures { let line = conclusion_line p.now.given conclusion in
        IsLastLine result line (conclusion_status conclusion) }
{
    let (line, outcome) = match conclusion {
        Conclusion::Done => (format!(in alloc; "done\n")?, Outcome::Good),
        Conclusion::StoppedFail(e) => (
            format!(in alloc; "stopped fail {}\n", p.cluster().name(e))?,
            Outcome::Negative,
        ),
        Conclusion::StoppedEnd => (format!(in alloc; "stopped end\n")?, Outcome::Negative),
        Conclusion::Refused(number, fault) => return Err(refused_event(alloc, number, fault)),
    };
    Ok(Ending {
        line: Some(line),
        outcome,
    })
}

/// Executes a plan, and ends with the last line of its transcript.
#[tactic(auto, unfolding(command_frame::specs::Endings::Ends))]
fn end_execution<I: Source, O: Sink>(
    alloc: Global,
    p: &Problem,
    plan: &Plan,
    input: &mut I,
    out: &mut O,
) -> Result<Ending, Fault>
    requires { IsPlanOf p.now.given plan.now }
    ensures ends { let source = told I.tells (I.rest input.old) in
        let executes = Executes source p.now.given (choices_of plan.now) in
        IsTrue O.tells → (files : Files)
        → Ends (executes (outside files (O.written out.old))) (outside files (O.written out.new)) result }
    ensures part { let source = told I.tells (I.rest input.old) in
        let part = IsPartOfAnswer source p.now.given (choices_of plan.now) in
        IsTrue O.tells → (files : Files) → part files (O.written out.old) (O.written out.new) }
    ensures stays { IsTrue O.tells → StartsWith (O.written out.new) (O.written out.old) }
    ensures took { let taking = taking (I.rest input.old) (I.rest input.new)
        (I.faults input.old) (I.faults input.new) in
        let took = TookBy p.now.given (choices_of plan.now) taking (O.written out.old) in
        IsTrue I.tells → IsTrue O.tells → (files : Files)
        → EndsAnyhow took (outside files (O.written out.new)) result }
    ensures source { ¬ IsValid p.now.given (choices_of plan.now) → input.new ≡ input.old }
    ensures causes { PartCauses (I.faults input.old) (I.faults input.new)
        (O.faults out.old) (O.faults out.new) result }
    ensures kind { IfErr result IsOfExecuting }
{
    match transcript::execute(alloc, p, plan, input, out) {
        Ok(conclusion) => conclude(alloc, p, conclusion),
        Err(ExecuteFault::NotValid(broken)) => say_broken(alloc, p, broken),
        Err(ExecuteFault::ReadFault) => Err(Fault::ReadFault),
        Err(ExecuteFault::WriteFault) => Err(Fault::WriteFault),
        Err(ExecuteFault::Memory) => Err(Fault::Memory),
    }
}

/// Executes a plan of an instance: what may start is printed, and event lines are read from the source.
#[tactic(auto, using(command_frame::proofs::Public::refused_problem, command_frame::proofs::Public::refused_plan, crate::proofs::ExecuteAnswers::takes_unread, crate::proofs::ExecuteAnswers::no_instance, crate::proofs::ExecuteAnswers::no_plan, command_frame::proofs::Public::prints_nothing), unfolding(command_frame::specs::Endings::Ends))]
pub fn execute<D: Desk, I: Source, O: Sink>(
    alloc: Global,
    desk: &mut D,
    input: &mut I,
    out: &mut O,
    instance: &str,
    plan_file: &str,
) -> Result<Ending, Fault>
    requires instance { IsTrue (D.reads instance.now) }
    requires plan { IsTrue (D.reads plan_file.now) }
    ensures ends { let source = told I.tells (I.rest input.old) in
        let before = outside (D.files desk.old) (O.written out.old) in
        let after = outside (D.files desk.new) (O.written out.new) in
        let answers = AnswersFromPlan (Executes source) instance.now plan_file.now in
        IsTrue D.tells → IsTrue O.tells → Ends (answers before) after result }
    ensures files { IsTrue D.tells → D.files desk.new ≡ D.files desk.old }
    ensures printed { let source = told I.tells (I.rest input.old) in
        let before = outside (D.files desk.old) (O.written out.old) in
        let after = outside (D.files desk.new) (O.written out.new) in
        let answers = AnswersFromPlan (Executes source) instance.now plan_file.now in
        IsTrue D.tells → IsTrue O.tells → PrintsPrefixOf (answers before) before after }
    ensures takes { let taking = taking (I.rest input.old) (I.rest input.new)
        (I.faults input.old) (I.faults input.new) in
        let before = outside (D.files desk.old) (O.written out.old) in
        let after = outside (D.files desk.new) (O.written out.new) in
        IsTrue D.tells → IsTrue I.tells → IsTrue O.tells
        → EndsAnyhow (TakesRead instance.now plan_file.now taking before) after result }
    ensures source { IsTrue D.tells → ¬ Starts (D.files desk.old) instance.now plan_file.now
        → input.new ≡ input.old }
    ensures causes { let before = counts (D.read_faults desk.old) (I.faults input.old)
        (D.write_faults desk.old) (O.faults out.old) in
        let after = counts (D.read_faults desk.new) (I.faults input.new)
        (D.write_faults desk.new) (O.faults out.new) in
        CommandCauses before after result }
    ensures desk_writes { D.write_faults desk.new ≡ D.write_faults desk.old }
    ensures words { result ≢ Err Fault.Words }
{
    let problem = problem_at(alloc, desk, instance)?;
    let plan = plan_at(alloc, desk, &problem, plan_file)?;
    end_execution(alloc, &problem, &plan, input, out)
}
