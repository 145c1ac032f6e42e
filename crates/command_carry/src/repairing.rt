//! The command `repair`.

ghost use Rattle.std.specs.Prelude.{◌≡◌, ◌≢◌, ◌≤◌, ℕ, length, List, Some, Ok, Err, IsTrue, IfErr, IfOk, OnOk, string_bytes};
ghost use Rattle.cluster.specs.declared.ids.Element.{Element as AnElement};
ghost use Rattle.event_lines.specs.Reading.{LineCauses};
ghost use Rattle.executor.specs.Prelude.{IsElement};
ghost use Rattle.executor.specs.declared.phase.Phase.TheVariants as Phase;
ghost use Rattle.command_carry.specs.Prelude.{AnswersFromPlan, AreTextsCut, Choices, choices_of, CommandCauses, counts, CountsWrites, Ends, EndsAnyhow, first_event, first_phases, FollowGives, HasTexts, Instance, instance_of, instance_text, IsExecution, IsGoingOn, IsLastLine, IsOfExecuting, IsOfWriting, IsPlanOf, IsValid, LeavesFromPlan, LeavesRepaired, LeavesRest, max_text_bytes, outside, PartCauses, Phases, phases_of, plan_of, plan_text, repaired_line, Repairs, RepairsPlan, RepairsTold, running_line, SaysRest, Starts, TakesEvents, taking, told, TookEvents, TookEventsBy, WriteCauses};
ghost use Rattle.command_frame.specs.declared.status.Status.TheVariants as Status;

use crate::events::{refused_event, say_broken};
use base::Memory;
use catalogue::Problem;
use cluster::Element;
use command_frame::fault::{Ending, Fault, Outcome};
use command_frame::inputs::instance::problem_at;
use command_frame::inputs::plan::plan_at;
use command_frame::outputs::write_two;
use event_lines::LineFault;
use executor::{Monitor, NewFault};
use instance_make::print_instance;
use plan_io::{Desk, OutFault, Source};
use plan_json::print_plan;
use repair::{Ending as Followed, RestFault, follow, rest};
use slices::Plan;
use slices::plan::cost;
use std::alloc::Global;

/// The line that says what the new plan costs.
#[tactic(auto, unfolding(crate::specs::Repairing::repaired_line))]
fn repaired_line(alloc: Global, cost: u64) -> Result<String, Memory>
    ensures { IfOk result (λ line. string_bytes line ≡ repaired_line cost) }
{
    Ok(format!(in alloc; "repaired {cost}\n")?)
}

/// The last line where the action of an element runs.
#[tactic(auto, unfolding(crate::specs::Repairing::running_line))]
fn say_running(alloc: Global, p: &Problem, e: Element) -> Result<Ending, Fault>
    requires { IsElement p.now.given e }
    ensures { IsLastLine result (running_line p.now.given e) Status.Negative }
{
    let line = format!(in alloc; "running {}\n", p.cluster().name(e))?;
    Ok(Ending {
        line: Some(line),
        outcome: Outcome::Negative,
    })
}

/// Writes a problem and then a plan of it. Both texts are made before a file is touched.
#[tactic(auto, using(command_frame::proofs::Public::cut_in_none))]
fn write_left<D: Desk>(
    alloc: Global,
    desk: &mut D,
    problem: &Problem,
    kept: &Plan,
    new_instance: &str,
    new_plan: &str,
) -> Result<(), OutFault>
    requires new_instance { IsTrue (D.writes new_instance.now) }
    requires new_plan { IsTrue (D.writes new_plan.now) }
    requires apart { new_instance.now ≢ new_plan.now }
    requires plan { IsPlanOf problem.now.given kept.now }
    ensures written { let plan = plan_text problem.now.given (Some kept.now) in
        let has = HasTexts new_instance.now (instance_text problem.now.given) new_plan.now plan in
        IsTrue D.tells → OnOk result (has (D.files desk.old) (D.files desk.new)) }
    ensures instance_reads { let text = instance_text problem.now.given in
        OnOk result (length text ≤ max_text_bytes → instance_of text ≡ Ok problem.now.given) }
    ensures plan_reads { let text = plan_text problem.now.given (Some kept.now) in
        OnOk result (plan_of problem.now.given text ≡ Ok (Some kept.now)) }
    ensures cut { let plan = plan_text problem.now.given (Some kept.now) in
        let cut = AreTextsCut new_instance.now (instance_text problem.now.given) new_plan.now plan in
        IsTrue D.tells → cut (D.files desk.old) (D.files desk.new) }
    ensures cause { CountsWrites (D.write_faults desk.old) (D.write_faults desk.new) result }
    ensures reads_kept { D.read_faults desk.new ≡ D.read_faults desk.old }
{
    let instance_text = print_instance(alloc, problem)?;
    let plan_text = print_plan(alloc, problem, Some(kept))?;
    write_two(desk, new_instance, &instance_text, new_plan, &plan_text)
}

/// Writes the problem and the plan that are left, and says what the plan costs.
#[tactic(auto, using(command_frame::proofs::Public::refused_write), unfolding(command_frame::specs::Endings::Ends))]
fn end_left<D: Desk>(
    alloc: Global,
    desk: &mut D,
    problem: &Problem,
    kept: &Plan,
    new_instance: &str,
    new_plan: &str,
) -> Result<Ending, Fault>
    requires new_instance { IsTrue (D.writes new_instance.now) }
    requires new_plan { IsTrue (D.writes new_plan.now) }
    requires apart { new_instance.now ≢ new_plan.now }
    requires plan { IsPlanOf problem.now.given kept.now }
    ensures ends { IsTrue D.tells → (p : Instance) (plan : Choices) (phases : Phases)
        → ((e : AnElement) → phases e ≢ Phase.Running)
        → IsGoingOn p plan phases problem.now.given kept.now → (printed : List ℕ)
        → Ends (Repairs p plan phases new_instance.now new_plan.now (outside (D.files desk.old) printed))
        (outside (D.files desk.new) printed) result }
    ensures left { let plan = plan_text problem.now.given (Some kept.now) in
        let cut = AreTextsCut new_instance.now (instance_text problem.now.given) new_plan.now plan in
        IsTrue D.tells → cut (D.files desk.old) (D.files desk.new) }
    ensures causes { WriteCauses (D.write_faults desk.old) (D.write_faults desk.new) result }
    ensures reads_kept { D.read_faults desk.new ≡ D.read_faults desk.old }
    ensures kind { IfErr result IsOfWriting }
{
    write_left(alloc, desk, problem, kept, new_instance, new_plan)?;
    let line = repaired_line(alloc, cost(problem, kept))?;
    Ok(Ending {
        line: Some(line),
        outcome: Outcome::Good,
    })
}

/// Says which action runs, or writes what is left where none does.
#[tactic(auto, unfolding(command_frame::specs::Endings::Ends))]
fn end_repair<D: Desk>(
    alloc: Global,
    desk: &mut D,
    p: &Problem,
    plan: &Plan,
    m: &Monitor<'_>,
    new_instance: &str,
    new_plan: &str,
) -> Result<Ending, Fault>
    requires problem { m.now.problem ≡ p.now }
    requires plan { m.now.plan ≡ plan.now }
    requires new_instance { IsTrue (D.writes new_instance.now) }
    requires new_plan { IsTrue (D.writes new_plan.now) }
    requires apart { new_instance.now ≢ new_plan.now }
    ensures ends { let says = SaysRest p.now.given (choices_of plan.now) (phases_of m.now) new_instance.now new_plan.now in
        IsTrue D.tells → (printed : List ℕ) → Ends (says (outside (D.files desk.old) printed))
        (outside (D.files desk.new) printed) result }
    ensures left { let leaves = LeavesRest p.now.given (choices_of plan.now) (phases_of m.now) new_instance.now new_plan.now in
        IsTrue D.tells → leaves (D.files desk.old) (D.files desk.new) }
    ensures causes { WriteCauses (D.write_faults desk.old) (D.write_faults desk.new) result }
    ensures reads_kept { D.read_faults desk.new ≡ D.read_faults desk.old }
    ensures kind { IfErr result IsOfExecuting }
    ensures read { result ≢ Err Fault.ReadFault }
{
    match rest(alloc, p, plan, m) {
        Ok((problem, kept)) => end_left(alloc, desk, &problem, &kept, new_instance, new_plan),
        Err(RestFault::Running(e)) => say_running(alloc, p, e),
        Err(RestFault::Memory) => Err(Fault::Memory),
    }
}

/// Follows the events of a source from the first one on.
fn follow_all<I: Source>(
    alloc: Global,
    input: &mut I,
    p: &Problem,
    plan: &Plan,
    m: &mut Monitor<'_>,
) -> Result<Followed, LineFault>
    requires problem { m.old.problem ≡ p.now }
    requires plan { m.old.plan ≡ plan.now }
    requires first { phases_of m.old ≡ first_phases (choices_of plan.now) }
    ensures follows { let first = first_event (choices_of plan.now) (I.rest input.old) in
        IsTrue I.tells → FollowGives p.now.given (choices_of plan.now) first result (phases_of m.new) (I.rest input.new) }
    ensures execution { IsExecution p.now.given (choices_of plan.now) (phases_of m.new) }
    ensures problem { m.new.problem ≡ p.now }
    ensures plan { m.new.plan ≡ plan.now }
    ensures causes { LineCauses (I.faults input.old) (I.faults input.new) result }
{
    let followed = follow(alloc, p, m, input);
    m.known();
    followed
}

/// Follows the events of a valid plan, and ends with what is left.
#[tactic(auto, unfolding(command_frame::specs::Endings::Ends))]
fn follow_events<D: Desk, I: Source>(
    alloc: Global,
    desk: &mut D,
    input: &mut I,
    p: &Problem,
    plan: &Plan,
    m: &mut Monitor<'_>,
    new_instance: &str,
    new_plan: &str,
) -> Result<Ending, Fault>
    requires problem { m.old.problem ≡ p.now }
    requires plan { m.old.plan ≡ plan.now }
    requires first { phases_of m.old ≡ first_phases (choices_of plan.now) }
    requires valid { IsValid p.now.given (choices_of plan.now) }
    requires new_instance { IsTrue (D.writes new_instance.now) }
    requires new_plan { IsTrue (D.writes new_plan.now) }
    requires apart { new_instance.now ≢ new_plan.now }
    ensures ends { let source = told I.tells (I.rest input.old) in
        let repairs = RepairsTold p.now.given (choices_of plan.now) new_instance.now new_plan.now source in
        IsTrue D.tells → (printed : List ℕ) → Ends (repairs (outside (D.files desk.old) printed))
        (outside (D.files desk.new) printed) result }
    ensures left { let leaves = LeavesRepaired new_instance.now new_plan.now p.now.given (choices_of plan.now) in
        IsTrue D.tells → leaves (D.files desk.old) (D.files desk.new) }
    ensures failed_read { IsTrue D.tells → result ≡ Err Fault.ReadFault → D.files desk.new ≡ D.files desk.old }
    ensures took { let taking = taking (I.rest input.old) (I.rest input.new)
        (I.faults input.old) (I.faults input.new) in
        let took = TookEvents p.now.given (choices_of plan.now) new_instance.now new_plan.now taking in
        IsTrue D.tells → IsTrue I.tells → (printed : List ℕ)
        → EndsAnyhow (took (outside (D.files desk.old) printed)) (outside (D.files desk.new) printed) result }
    ensures causes { PartCauses (I.faults input.old) (I.faults input.new)
        (D.write_faults desk.old) (D.write_faults desk.new) result }
    ensures reads_kept { D.read_faults desk.new ≡ D.read_faults desk.old }
    ensures kind { IfErr result IsOfExecuting }
{
    match follow_all(alloc, input, p, plan, m) {
        Ok(Followed::AllRead) => end_repair(alloc, desk, p, plan, m, new_instance, new_plan),
        Ok(Followed::Refused(number, fault)) => Err(refused_event(alloc, number, fault)),
        Err(LineFault::ReadFault) => Err(Fault::ReadFault),
        Err(LineFault::Memory) => Err(Fault::Memory),
    }
}

/// Says why a plan is not valid, or follows its events and ends with what is left.
#[tactic(auto, unfolding(command_frame::specs::Endings::Ends))]
fn end_events<D: Desk, I: Source>(
    alloc: Global,
    desk: &mut D,
    input: &mut I,
    p: &Problem,
    plan: &Plan,
    new_instance: &str,
    new_plan: &str,
) -> Result<Ending, Fault>
    requires plan { IsPlanOf p.now.given plan.now }
    requires new_instance { IsTrue (D.writes new_instance.now) }
    requires new_plan { IsTrue (D.writes new_plan.now) }
    requires apart { new_instance.now ≢ new_plan.now }
    ensures ends { let source = told I.tells (I.rest input.old) in
        let repairs = RepairsPlan source new_instance.now new_plan.now p.now.given (choices_of plan.now) in
        IsTrue D.tells → (printed : List ℕ) → Ends (repairs (outside (D.files desk.old) printed))
        (outside (D.files desk.new) printed) result }
    ensures left { let leaves = LeavesRepaired new_instance.now new_plan.now p.now.given (choices_of plan.now) in
        IsTrue D.tells → leaves (D.files desk.old) (D.files desk.new) }
    ensures failed_read { IsTrue D.tells → result ≡ Err Fault.ReadFault → D.files desk.new ≡ D.files desk.old }
    ensures took { let taking = taking (I.rest input.old) (I.rest input.new)
        (I.faults input.old) (I.faults input.new) in
        let took = TookEventsBy p.now.given (choices_of plan.now) new_instance.now new_plan.now taking in
        IsTrue D.tells → IsTrue I.tells → (printed : List ℕ)
        → EndsAnyhow (took (outside (D.files desk.old) printed)) (outside (D.files desk.new) printed) result }
    ensures source { ¬ IsValid p.now.given (choices_of plan.now) → input.new ≡ input.old }
    ensures causes { PartCauses (I.faults input.old) (I.faults input.new)
        (D.write_faults desk.old) (D.write_faults desk.new) result }
    ensures reads_kept { D.read_faults desk.new ≡ D.read_faults desk.old }
    ensures kind { IfErr result IsOfExecuting }
{
    match Monitor::new(alloc, p, plan) {
        Ok(mut m) => follow_events(alloc, desk, input, p, plan, &mut m, new_instance, new_plan),
        Err(NewFault::NotValid(broken)) => say_broken(alloc, p, broken),
        Err(NewFault::Memory) => Err(Fault::Memory),
    }
}

/// Goes on after a failure: reads what became of a plan of an instance from the source, and writes the problem and
/// the plan that are left.
#[tactic(auto, using(command_frame::proofs::Public::refused_problem, command_frame::proofs::Public::refused_plan, crate::proofs::RepairAnswers::leaves_nothing, crate::proofs::RepairAnswers::takes_unread, crate::proofs::ExecuteAnswers::no_instance), unfolding(command_frame::specs::Endings::Ends))]
pub fn repair<D: Desk, I: Source>(
    alloc: Global,
    desk: &mut D,
    input: &mut I,
    instance: &str,
    plan_file: &str,
    new_instance: &str,
    new_plan: &str,
) -> Result<Ending, Fault>
    requires instance { IsTrue (D.reads instance.now) }
    requires plan { IsTrue (D.reads plan_file.now) }
    requires new_instance { IsTrue (D.writes new_instance.now) }
    requires new_plan { IsTrue (D.writes new_plan.now) }
    requires apart { new_instance.now ≢ new_plan.now }
    ensures ends { let source = told I.tells (I.rest input.old) in
        let repairs = RepairsPlan source new_instance.now new_plan.now in
        let answers = AnswersFromPlan repairs instance.now plan_file.now in
        IsTrue D.tells → (printed : List ℕ) → Ends (answers (outside (D.files desk.old) printed))
        (outside (D.files desk.new) printed) result }
    ensures left { let leaves = LeavesRepaired new_instance.now new_plan.now in
        let left = LeavesFromPlan leaves instance.now plan_file.now in
        IsTrue D.tells → left (D.files desk.old) (D.files desk.new) }
    ensures failed_read { IsTrue D.tells → result ≡ Err Fault.ReadFault
        → D.files desk.new ≡ D.files desk.old }
    ensures takes { let taking = taking (I.rest input.old) (I.rest input.new)
        (I.faults input.old) (I.faults input.new) in
        let takes = TakesEvents instance.now plan_file.now new_instance.now new_plan.now taking in
        IsTrue D.tells → IsTrue I.tells → (printed : List ℕ)
        → EndsAnyhow (takes (outside (D.files desk.old) printed)) (outside (D.files desk.new) printed) result }
    ensures source { IsTrue D.tells → ¬ Starts (D.files desk.old) instance.now plan_file.now
        → input.new ≡ input.old }
    ensures causes { (sink : ℕ) → let before = counts (D.read_faults desk.old) (I.faults input.old)
        (D.write_faults desk.old) sink in
        let after = counts (D.read_faults desk.new) (I.faults input.new) (D.write_faults desk.new) sink in
        CommandCauses before after result }
    ensures words { result ≢ Err Fault.Words }
{
    let problem = problem_at(alloc, desk, instance)?;
    let plan = plan_at(alloc, desk, &problem, plan_file)?;
    end_events(alloc, desk, input, &problem, &plan, new_instance, new_plan)
}
