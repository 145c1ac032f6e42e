//! The command `demo`.

ghost use Rattle.std.specs.Prelude.{◌≡◌, ◌≢◌, ℕ, false, List, Ok, Err, IsTrue, IfErr, IfOk, IfSome, string_bytes};
ghost use Rattle.command_demo.specs.Prelude.{demo_certificate, demo_decisions, demo_instance, demo_plan, Ends, Found as AnyFound, generated, HasAnswer, IsChecked, IsConcluded, IsDemonstrated, IsOfReading, IsPlannedAndChecked, IsPlanOf, LeavesDemo, LeavesDemoUnread, LeavesPlanned, OnlyReads, optimal_line, Outside, outside, PartCauses, SaysDemo, unsettled_line};
ghost use Rattle.search.specs.Answers.{plan_in};

use base::Memory;
use catalogue::Problem;
use command_decide::checking::check_problem;
use command_decide::planning::{found_line, outcome_of, write_found};
use command_frame::fault::{Ending, Fault, Outcome};
use command_frame::inputs::instance::problem_at;
use command_make::generating::write_generated;
use plan_io::Desk;
use search::Found;
use slices::plan::cost;
use solver::Solver;
use std::alloc::Global;

/// The file of the generated instance.
const DEMO_INSTANCE: &str = "demo-instance.json";

/// The file of its plan.
const DEMO_PLAN: &str = "demo-plan.json";

/// The file of the certificate.
const DEMO_CERTIFICATE: &str = "demo-cert.txt";

/// How many decisions the plan may take.
pub const DEMO_BUDGET: u64 = 10_000;

/// The line of an optimal plan.
#[tactic(auto, using(crate::proofs::DemoAnswers::optimal_text))]
fn optimal_line(alloc: Global, seed: u64, cost: u64) -> Result<String, Memory>
    ensures { IfOk result (λ line. string_bytes line ≡ optimal_line seed cost) }
{
    Ok(format!(in alloc; "demo {seed} optimal {cost} yes\n")?)
}

/// The line of what stayed undecided.
fn unsettled_line(alloc: Global, seed: u64) -> Result<String, Memory>
    ensures { IfOk result (λ line. string_bytes line ≡ unsettled_line seed) }
{
    Ok(format!(in alloc; "demo {seed} undecided\n")?)
}

/// How the demonstration ends where the check of what was found said yes. That there is no plan is
/// not checked.
#[tactic(auto, using(crate::proofs::DemoAnswers::optimal_said, crate::proofs::DemoAnswers::unsettled_said), unfolding(command_frame::specs::Endings::Ends))]
fn ending_of(alloc: Global, p: &Problem, found: &Found, seed: u64) -> Result<Ending, Memory>
    requires plan { IfSome (plan_in found.now) (IsPlanOf p.now.given) }
    requires some { found.now ≢ AnyFound.Infeasible }
    ensures { let says = SaysDemo seed p.now.given found.now in
        IfOk result (λ ending. (before : Outside) → Ends (says before) before (Ok ending)) }
{
    match found {
        Found::Optimal(plan) => {
            let line = optimal_line(alloc, seed, cost(p, plan))?;
            Ok(Ending {
                line: Some(line),
                outcome: Outcome::Good,
            })
        }
        Found::Infeasible => unreachable!(),
        Found::Undecided { .. } => {
            let line = unsettled_line(alloc, seed)?;
            Ok(Ending {
                line: Some(line),
                outcome: Outcome::Undecided,
            })
        }
    }
}

/// How the demonstration ends, by how the check of what was found ended.
#[tactic(auto, using(crate::proofs::DemoAnswers::said_yes, crate::proofs::DemoAnswers::said_other, crate::proofs::DemoAnswers::said_fault), unfolding(command_frame::specs::Endings::Ends))]
fn conclude(
    alloc: Global,
    p: &Problem,
    found: &Found,
    seed: u64,
    checked: Result<Ending, Fault>,
) -> Result<Ending, Fault>
    requires plan { IfSome (plan_in found.now) (IsPlanOf p.now.given) }
    requires some { found.now ≢ AnyFound.Infeasible }
    requires kind { IfErr checked IsOfReading }
    ensures ends { (before after : Outside) → after ≡ before
        → Ends (IsChecked demo_plan demo_certificate false p.now.given before) after checked
        → Ends (IsConcluded seed p.now.given found.now before) after result }
    ensures read { result ≡ Err Fault.ReadFault → checked ≡ Err Fault.ReadFault }
    ensures unread { checked ≡ Err Fault.ReadFault → result ≡ Err Fault.ReadFault }
    ensures kind { IfErr result IsOfReading }
{
    match checked {
        Ok(ending) => match ending.outcome {
            Outcome::Good => Ok(ending_of(alloc, p, found, seed)?),
            Outcome::Negative | Outcome::Undecided => Ok(ending),
        },
        Err(fault) => Err(fault),
    }
}

/// Checks what was found, and says what follows.
fn check_found<D: Desk, S: Solver>(
    alloc: Global,
    desk: &mut D,
    solver: &S,
    p: &Problem,
    found: &Found,
    seed: u64,
) -> Result<Ending, Fault>
    requires plan { IfSome (plan_in found.now) (IsPlanOf p.now.given) }
    requires some { found.now ≢ AnyFound.Infeasible }
    requires reads_plan { IsTrue (D.reads demo_plan) }
    requires reads_certificate { IsTrue (D.reads demo_certificate) }
    ensures ends { let concluded = IsConcluded seed p.now.given found.now in
        IsTrue D.tells → (printed : List ℕ) → Ends (concluded (outside (D.files desk.old) printed))
        (outside (D.files desk.new) printed) result }
    ensures desk { OnlyReads D.tells D.files D.read_faults D.write_faults desk.old desk.new result }
{
    let checked = check_problem(alloc, desk, solver, p, DEMO_PLAN, DEMO_CERTIFICATE, false);
    conclude(alloc, p, found, seed, checked)
}

// whether it was found that there is no plan
fn is_infeasible(found: &Found) -> bool
    ensures yes { IsTrue result → found.now ≡ AnyFound.Infeasible }
    ensures no { result ≡ false → found.now ≢ AnyFound.Infeasible }
{
    match found {
        Found::Infeasible => true,
        Found::Optimal(_) | Found::Undecided { .. } => false,
    }
}

/// Plans the problem of a seed, and checks what was found, if it is not that there is no plan.
#[tactic(auto, using(crate::proofs::DemoAnswers::files_apart, crate::proofs::DemoAnswers::no_read, command_frame::proofs::Public::refused_write), unfolding(command_frame::specs::Endings::Ends))]
fn plan_and_check<D: Desk, S: Solver>(
    alloc: Global,
    desk: &mut D,
    solver: &S,
    p: &Problem,
    seed: u64,
) -> Result<Ending, Fault>
    requires writes_plan { IsTrue (D.writes demo_plan) }
    requires reads_plan { IsTrue (D.reads demo_plan) }
    requires writes_certificate { IsTrue (D.writes demo_certificate) }
    requires reads_certificate { IsTrue (D.reads demo_certificate) }
    ensures ends { let planned = IsPlannedAndChecked seed in
        IsTrue D.tells → p.now.given ≡ generated seed → (printed : List ℕ)
        → Ends (planned (outside (D.files desk.old) printed)) (outside (D.files desk.new) printed) result }
    ensures left { let leaves = LeavesPlanned demo_plan demo_certificate demo_decisions p.now.given in
        IsTrue D.tells → leaves (D.files desk.old) (D.files desk.new) }
    ensures failed_read { let has = HasAnswer p.now.given in
        IsTrue D.tells → result ≡ Err Fault.ReadFault → has (D.files desk.old) (D.files desk.new) }
    ensures causes { PartCauses (D.read_faults desk.old) (D.read_faults desk.new)
        (D.write_faults desk.old) (D.write_faults desk.new) result }
    ensures words { result ≢ Err Fault.Words }
{
    let found = write_found(
        alloc,
        desk,
        p,
        DEMO_BUDGET,
        solver,
        DEMO_PLAN,
        DEMO_CERTIFICATE,
    )?;
    if is_infeasible(&found) {
        let line = found_line(alloc, p, &found)?;
        return Ok(Ending {
            line: Some(line),
            outcome: outcome_of(&found),
        });
    }
    check_found(alloc, desk, solver, p, &found, seed)
}

/// Generates the problem of a seed, plans it, and checks the certificate, over the three files of the
/// demonstration. The instance is read back from its file, and so are the plan and the certificate.
#[tactic(auto, using(crate::proofs::DemoAnswers::leaves_generated, crate::proofs::DemoAnswers::leaves_unread, crate::proofs::DemoAnswers::leaves_planned, crate::proofs::DemoAnswers::unread, crate::proofs::DemoAnswers::unread_planned, crate::proofs::DemoAnswers::no_read, command_frame::proofs::Public::refused_write), unfolding(command_frame::specs::Endings::Ends))]
pub fn demo<D: Desk, S: Solver>(
    alloc: Global,
    desk: &mut D,
    solver: &S,
    seed: u64,
) -> Result<Ending, Fault>
    requires writes_instance { IsTrue (D.writes demo_instance) }
    requires reads_instance { IsTrue (D.reads demo_instance) }
    requires writes_plan { IsTrue (D.writes demo_plan) }
    requires reads_plan { IsTrue (D.reads demo_plan) }
    requires writes_certificate { IsTrue (D.writes demo_certificate) }
    requires reads_certificate { IsTrue (D.reads demo_certificate) }
    ensures ends { IsTrue D.tells → (printed : List ℕ)
        → Ends (IsDemonstrated seed (outside (D.files desk.old) printed))
        (outside (D.files desk.new) printed) result }
    ensures left { IsTrue D.tells → LeavesDemo seed (D.files desk.old) (D.files desk.new) }
    ensures failed_read { IsTrue D.tells → result ≡ Err Fault.ReadFault
        → LeavesDemoUnread seed (D.files desk.old) (D.files desk.new) }
    ensures causes { PartCauses (D.read_faults desk.old) (D.read_faults desk.new)
        (D.write_faults desk.old) (D.write_faults desk.new) result }
    ensures words { result ≢ Err Fault.Words }
{
    write_generated(alloc, desk, seed, DEMO_INSTANCE)?;
    let problem = problem_at(alloc, desk, DEMO_INSTANCE)?;
    plan_and_check(alloc, desk, solver, &problem, seed)
}
