//! The command `script`.

ghost use Rattle.std.specs.Prelude.{◌≡◌, ◌≢◌, ℕ, length, List, Err, IsTrue, IfErr, IfOk, string_bytes};
ghost use Rattle.command_make.specs.Prelude.{AddsTo, AnswersFrom, Ends, Instance, instance_in, instance_text, IsOfWriting, IsScripted, IsTextCut, LeavesBy, LeavesScripted, outside, PartCauses, scripted_line, Scripts, WriteCauses};

use crate::outputs::write_problem;
use crate::script_input::script_at;
use base::Memory;
use catalogue::Problem;
use command_frame::fault::{Ending, Fault, Outcome};
use command_frame::inputs::instance::problem_at;
use plan_io::Desk;
use std::alloc::Global;

/// The line that says how many constraints a script added.
#[tactic(auto, unfolding(crate::specs::Scripting::scripted_line))]
fn scripted_line(alloc: Global, count: usize) -> Result<String, Memory>
    ensures { IfOk result (λ line. string_bytes line ≡ scripted_line count) }
{
    Ok(format!(in alloc; "scripted {count}\n")?)
}

/// Writes a problem to which a script added so many constraints, and says how many.
#[tactic(auto, using(crate::proofs::ScriptAnswers::scripted, command_frame::proofs::Public::refused_write), unfolding(command_frame::specs::Endings::Ends))]
fn end_script<D: Desk>(
    alloc: Global,
    desk: &mut D,
    problem: &Problem,
    count: usize,
    out_file: &str,
) -> Result<Ending, Fault>
    requires { IsTrue (D.writes out_file.now) }
    ensures ends { IsTrue D.tells → (p : Instance) → (adds : AddsTo p problem.now.given)
        → count ≡ length adds.more → (printed : List ℕ)
        → Ends (Scripts out_file.now p problem.now.given (outside (D.files desk.old) printed))
        (outside (D.files desk.new) printed) result }
    ensures left { let cut = IsTextCut out_file.now (instance_text problem.now.given) in
        IsTrue D.tells → cut (D.files desk.old) (D.files desk.new) }
    ensures causes { WriteCauses (D.write_faults desk.old) (D.write_faults desk.new) result }
    ensures reads_kept { D.read_faults desk.new ≡ D.read_faults desk.old }
    ensures kind { IfErr result IsOfWriting }
{
    write_problem(alloc, desk, problem, out_file)?;
    let line = scripted_line(alloc, count)?;
    Ok(Ending {
        line: Some(line),
        outcome: Outcome::Good,
    })
}

/// Adds the constraints of a script to a problem, and writes the whole.
#[tactic(auto, using(crate::proofs::ScriptAnswers::refused_script), unfolding(command_frame::specs::Endings::Ends))]
fn add_script<D: Desk>(
    alloc: Global,
    desk: &mut D,
    p: Problem,
    script_file: &str,
    out_file: &str,
) -> Result<Ending, Fault>
    requires reads { IsTrue (D.reads script_file.now) }
    requires writes { IsTrue (D.writes out_file.now) }
    ensures ends { let scripted = IsScripted script_file.now out_file.now p.given in
        IsTrue D.tells → (printed : List ℕ) → Ends (scripted (outside (D.files desk.old) printed))
        (outside (D.files desk.new) printed) result }
    ensures left { let leaves = LeavesScripted script_file.now out_file.now p.given in
        IsTrue D.tells → leaves (D.files desk.old) (D.files desk.new) }
    ensures failed_read { IsTrue D.tells → result ≡ Err Fault.ReadFault
        → D.files desk.new ≡ D.files desk.old }
    ensures causes { PartCauses (D.read_faults desk.old) (D.read_faults desk.new)
        (D.write_faults desk.old) (D.write_faults desk.new) result }
    ensures words { result ≢ Err Fault.Words }
{
    let own = p.constraints().len();
    let scripted = script_at(alloc, desk, p, script_file)?;
    let count = scripted.constraints().len() - own;
    end_script(alloc, desk, &scripted, count, out_file)
}

/// Adds the constraints of a script to an instance, and writes the whole into a file.
#[tactic(auto, using(command_frame::proofs::Public::refused_instance), unfolding(command_frame::specs::Endings::Ends))]
pub fn script<D: Desk>(
    alloc: Global,
    desk: &mut D,
    instance: &str,
    script_file: &str,
    out_file: &str,
) -> Result<Ending, Fault>
    requires instance { IsTrue (D.reads instance.now) }
    requires script { IsTrue (D.reads script_file.now) }
    requires writes { IsTrue (D.writes out_file.now) }
    ensures ends { let answers = AnswersFrom (IsScripted script_file.now out_file.now) instance.now in
        IsTrue D.tells → (printed : List ℕ) → Ends (answers (outside (D.files desk.old) printed))
        (outside (D.files desk.new) printed) result }
    ensures left { let reading = instance_in (D.files desk.old) instance.now in
        let leaves = LeavesBy (LeavesScripted script_file.now out_file.now) reading in
        IsTrue D.tells → leaves (D.files desk.old) (D.files desk.new) }
    ensures failed_read { IsTrue D.tells → result ≡ Err Fault.ReadFault
        → D.files desk.new ≡ D.files desk.old }
    ensures causes { PartCauses (D.read_faults desk.old) (D.read_faults desk.new)
        (D.write_faults desk.old) (D.write_faults desk.new) result }
    ensures words { result ≢ Err Fault.Words }
{
    let problem = problem_at(alloc, desk, instance)?;
    add_script(alloc, desk, problem, script_file, out_file)
}
