//! The command `explain`.

ghost use Rattle.std.specs.Prelude.{◌≡◌, ◌≢◌, ◌++◌, ℕ, List, Err, IsTrue, IfErr, IfOk, OnOk, string_bytes};
ghost use Rattle.command_explain.specs.Prelude.{AnswersFrom, AreNumbers, AreTextsCut, core_lines, CountsWrites, Ends, feasible_line, Files, instance_in, instance_text, IsCore, IsExplained, IsLeftOpen, IsOfWriting, IsValidPlan, LeavesBy, LeavesExplained, needed_line, needed_lines, open_line, outside, PartCauses, SaysCore, SaysFeasible, SaysOpen, sub, WriteCauses, WritesKept};

use base::Memory;
use catalogue::Problem;
use command_frame::fault::{Ending, Fault, Outcome};
use command_frame::inputs::instance::problem_at;
use command_frame::outputs::write_two;
use explain::{Explained, explain as explain_problem, sub_problem};
use instance_make::print_instance;
use plan_io::{Desk, OutFault};
use slices::Plan;
use slices::plan::cost;
use solver::Solver;
use std::alloc::Global;

/// Adds the line of a constraint that is needed.
fn push_needed(lines: &mut String, number: u32, cost: u64) -> Result<(), Memory>
    ensures { OnOk result (string_bytes lines.new ≡ string_bytes lines.old ++ needed_line number cost) }
{
    write!(lines, "needed {number} cost {cost}\n")?;
    Ok(())
}

/// The lines of constraints that are needed.
fn needed_lines(alloc: Global, kept: &[u32], costs: &[u64]) -> Result<String, Memory>
    ensures { IfOk result (λ lines. string_bytes lines ≡ needed_lines kept.now costs.now) }
{
    let mut lines = String::new(alloc);
    for (number, cost) in kept.iter().zip(costs) {
        push_needed(&mut lines, *number, *cost)?;
    }
    Ok(lines)
}

/// The lines of a core.
#[tactic(auto, unfolding(crate::specs::Explaining::core_lines))]
fn core_lines(alloc: Global, kept: &[u32], costs: &[u64]) -> Result<String, Memory>
    ensures { IfOk result (λ lines. string_bytes lines ≡ core_lines kept.now costs.now) }
{
    let mut lines = needed_lines(alloc, kept, costs)?;
    write!(lines, "explained {}\n", kept.len())?;
    Ok(lines)
}

/// The line where there is a valid plan.
#[tactic(auto, unfolding(crate::specs::Explaining::feasible_line))]
fn feasible_line(alloc: Global, cost: u64) -> Result<String, Memory>
    ensures { IfOk result (λ line. string_bytes line ≡ feasible_line cost) }
{
    Ok(format!(in alloc; "feasible {cost}\n")?)
}

/// The line where a search stayed undecided.
#[tactic(auto, unfolding(crate::specs::Explaining::open_line))]
fn open_line(alloc: Global, count: usize) -> Result<String, Memory>
    ensures { IfOk result (λ line. string_bytes line ≡ open_line count) }
{
    Ok(format!(in alloc; "undecided {count}\n")?)
}

/// Writes the problem of the constraints that are kept, and then the text of a certificate of it. Both texts are
/// there before a file is touched.
#[tactic(auto, using(command_frame::proofs::Public::cut_in_none))]
fn write_kept<D: Desk>(
    alloc: Global,
    desk: &mut D,
    p: &Problem,
    kept: &[u32],
    text: &[u8],
    core: &str,
    certificate: &str,
) -> Result<(), OutFault>
    requires numbers { AreNumbers p.now.given kept.now }
    requires core { IsTrue (D.writes core.now) }
    requires certificate { IsTrue (D.writes certificate.now) }
    requires apart { core.now ≢ certificate.now }
    ensures written { let writes = WritesKept core.now certificate.now p.now.given kept.now text.now in
        IsTrue D.tells → OnOk result (writes (D.files desk.old) (D.files desk.new)) }
    ensures cut { let cut = AreTextsCut core.now (instance_text (sub p.now.given kept.now)) certificate.now text.now in
        IsTrue D.tells → cut (D.files desk.old) (D.files desk.new) }
    ensures cause { CountsWrites (D.write_faults desk.old) (D.write_faults desk.new) result }
    ensures reads_kept { D.read_faults desk.new ≡ D.read_faults desk.old }
{
    let problem = sub_problem(alloc, p, kept)?;
    let core_text = print_instance(alloc, &problem)?;
    write_two(desk, core, &core_text, certificate, text)
}

/// Says that there is a valid plan.
#[tactic(auto, unfolding(command_frame::specs::Endings::Ends))]
fn say_feasible(alloc: Global, p: &Problem, plan: &Plan) -> Result<Ending, Fault>
    requires { IsValidPlan p.now.given plan.now }
    ensures ends { (files : Files) (printed : List ℕ)
        → Ends (SaysFeasible p.now.given (outside files printed)) (outside files printed) result }
    ensures memory { IfErr result (λ fault. fault ≡ Fault.Memory) }
{
    let line = feasible_line(alloc, cost(p, plan))?;
    Ok(Ending {
        line: Some(line),
        outcome: Outcome::Negative,
    })
}

/// Writes a core, and says which constraints it has.
#[tactic(auto, using(command_frame::proofs::Public::refused_write), unfolding(command_frame::specs::Endings::Ends))]
fn end_core<D: Desk>(
    alloc: Global,
    desk: &mut D,
    p: &Problem,
    kept: &[u32],
    text: &[u8],
    costs: &[u64],
    core: &str,
    certificate: &str,
) -> Result<Ending, Fault>
    requires numbers { AreNumbers p.now.given kept.now }
    requires core { IsTrue (D.writes core.now) }
    requires certificate { IsTrue (D.writes certificate.now) }
    requires apart { core.now ≢ certificate.now }
    ensures ends { IsTrue D.tells → (budget : ℕ) → IsCore p.now.given budget kept.now text.now costs.now → (printed : List ℕ)
        → Ends (SaysCore core.now certificate.now budget p.now.given (outside (D.files desk.old) printed))
        (outside (D.files desk.new) printed) result }
    ensures left { let cut = AreTextsCut core.now (instance_text (sub p.now.given kept.now)) certificate.now text.now in
        IsTrue D.tells → cut (D.files desk.old) (D.files desk.new) }
    ensures causes { WriteCauses (D.write_faults desk.old) (D.write_faults desk.new) result }
    ensures reads_kept { D.read_faults desk.new ≡ D.read_faults desk.old }
    ensures kind { IfErr result IsOfWriting }
{
    write_kept(alloc, desk, p, kept, text, core, certificate)?;
    let lines = core_lines(alloc, kept, costs)?;
    Ok(Ending {
        line: Some(lines),
        outcome: Outcome::Good,
    })
}

/// Writes the constraints by which a search stayed undecided, and says how many they are.
#[tactic(auto, using(command_frame::proofs::Public::refused_write), unfolding(command_frame::specs::Endings::Ends))]
fn end_open<D: Desk>(
    alloc: Global,
    desk: &mut D,
    p: &Problem,
    kept: &[u32],
    text: &[u8],
    core: &str,
    certificate: &str,
) -> Result<Ending, Fault>
    requires numbers { AreNumbers p.now.given kept.now }
    requires core { IsTrue (D.writes core.now) }
    requires certificate { IsTrue (D.writes certificate.now) }
    requires apart { core.now ≢ certificate.now }
    ensures ends { IsTrue D.tells → (budget : ℕ) → IsLeftOpen p.now.given budget kept.now text.now → (printed : List ℕ)
        → Ends (SaysOpen core.now certificate.now budget p.now.given (outside (D.files desk.old) printed))
        (outside (D.files desk.new) printed) result }
    ensures left { let cut = AreTextsCut core.now (instance_text (sub p.now.given kept.now)) certificate.now text.now in
        IsTrue D.tells → cut (D.files desk.old) (D.files desk.new) }
    ensures causes { WriteCauses (D.write_faults desk.old) (D.write_faults desk.new) result }
    ensures reads_kept { D.read_faults desk.new ≡ D.read_faults desk.old }
    ensures kind { IfErr result IsOfWriting }
{
    write_kept(alloc, desk, p, kept, text, core, certificate)?;
    let line = open_line(alloc, kept.len())?;
    Ok(Ending {
        line: Some(line),
        outcome: Outcome::Undecided,
    })
}

/// Explains a problem: searches with at most so many decisions each time, and says or writes what is found.
#[tactic(auto, using(crate::proofs::ExplainAnswers::memory_kind), unfolding(command_frame::specs::Endings::Ends))]
fn end_explained<D: Desk, S: Solver>(
    alloc: Global,
    desk: &mut D,
    solver: &S,
    p: &Problem,
    budget: u64,
    core: &str,
    certificate: &str,
) -> Result<Ending, Fault>
    requires core { IsTrue (D.writes core.now) }
    requires certificate { IsTrue (D.writes certificate.now) }
    requires apart { core.now ≢ certificate.now }
    ensures ends { let explained = IsExplained core.now certificate.now budget p.now.given in
        IsTrue D.tells → (printed : List ℕ) → Ends (explained (outside (D.files desk.old) printed))
        (outside (D.files desk.new) printed) result }
    ensures left { let leaves = LeavesExplained core.now certificate.now budget p.now.given in
        IsTrue D.tells → leaves (D.files desk.old) (D.files desk.new) }
    ensures causes { WriteCauses (D.write_faults desk.old) (D.write_faults desk.new) result }
    ensures reads_kept { D.read_faults desk.new ≡ D.read_faults desk.old }
    ensures kind { IfErr result IsOfWriting }
{
    let explained = explain_problem(alloc, solver, p, budget)?;
    match explained {
        Explained::Feasible(plan) => say_feasible(alloc, p, &plan),
        Explained::Core {
            kept,
            certificate: text,
            costs,
        } => end_core(alloc, desk, p, &kept, &text, &costs, core, certificate),
        Explained::Undecided {
            kept,
            certificate: text,
        } => end_open(alloc, desk, p, &kept, &text, core, certificate),
    }
}

/// Explains why the instance in a file has no valid plan. Each search makes at most so many decisions. The constraints
/// that are needed are written as an instance of their own, and then the certificate that these alone admit no plan.
#[tactic(auto, using(command_frame::proofs::Public::refused_instance, crate::proofs::ExplainAnswers::leaves_well), unfolding(command_frame::specs::Endings::Ends))]
pub fn explain<D: Desk, S: Solver>(
    alloc: Global,
    desk: &mut D,
    solver: &S,
    instance: &str,
    core: &str,
    certificate: &str,
    budget: u64,
) -> Result<Ending, Fault>
    requires instance { IsTrue (D.reads instance.now) }
    requires core { IsTrue (D.writes core.now) }
    requires certificate { IsTrue (D.writes certificate.now) }
    requires apart { core.now ≢ certificate.now }
    ensures ends { let answers = AnswersFrom (IsExplained core.now certificate.now budget) instance.now in
        IsTrue D.tells → (printed : List ℕ) → Ends (answers (outside (D.files desk.old) printed))
        (outside (D.files desk.new) printed) result }
    ensures left { let reading = instance_in (D.files desk.old) instance.now in
        let leaves = LeavesBy (LeavesExplained core.now certificate.now budget) reading in
        IsTrue D.tells → leaves (D.files desk.old) (D.files desk.new) }
    ensures failed_read { IsTrue D.tells → result ≡ Err Fault.ReadFault
        → D.files desk.new ≡ D.files desk.old }
    ensures causes { PartCauses (D.read_faults desk.old) (D.read_faults desk.new)
        (D.write_faults desk.old) (D.write_faults desk.new) result }
    ensures words { result ≢ Err Fault.Words }
{
    let problem = problem_at(alloc, desk, instance)?;
    end_explained(alloc, desk, solver, &problem, budget, core, certificate)
}
