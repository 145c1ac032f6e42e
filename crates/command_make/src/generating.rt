//! The command `generate`.

ghost use Rattle.std.specs.Prelude.{◌≡◌, ◌≢◌, ℕ, List, Ok, Err, IsTrue, IfOk, OnOk, string_bytes};
ghost use Rattle.command_make.specs.Prelude.{CountsWrites, Ends, generated, generated_line, HasGenerated, instance_of, instance_text, IsGenerated, LeavesGenerated, outside, PartCauses};

use crate::outputs::write_problem;
use base::Memory;
use command_frame::fault::{Ending, Fault, Outcome};
use plan_io::{Desk, OutFault};
use std::alloc::Global;

/// The line that says what was generated.
#[tactic(auto, unfolding(crate::specs::Generating::generated_line))]
fn generated_line(alloc: Global, seed: u64) -> Result<String, Memory>
    ensures { IfOk result (λ line. string_bytes line ≡ generated_line seed) }
{
    Ok(format!(in alloc; "generated {seed}\n")?)
}

/// Writes the text of the generated problem of a seed.
#[tactic(auto, using(crate::proofs::GenerateAnswers::reads_back))]
pub fn write_generated<D: Desk>(
    alloc: Global,
    desk: &mut D,
    seed: u64,
    instance: &str,
) -> Result<(), OutFault>
    requires { IsTrue (D.writes instance.now) }
    ensures written { IsTrue D.tells
        → OnOk result (HasGenerated seed instance.now (D.files desk.old) (D.files desk.new)) }
    ensures cut { IsTrue D.tells
        → LeavesGenerated seed instance.now (D.files desk.old) (D.files desk.new) }
    ensures reads_back { OnOk result (instance_of (instance_text (generated seed)) ≡ Ok (generated seed)) }
    ensures cause { CountsWrites (D.write_faults desk.old) (D.write_faults desk.new) result }
    ensures reads_kept { D.read_faults desk.new ≡ D.read_faults desk.old }
{
    let problem = instance_make::generate(alloc, seed)?;
    write_problem(alloc, desk, &problem, instance)
}

/// Generates the problem of a seed, and writes it to a file.
#[tactic(auto, using(crate::proofs::GenerateAnswers::answered, command_frame::proofs::Public::refused_write), unfolding(command_frame::specs::Endings::Ends))]
pub fn generate<D: Desk>(
    alloc: Global,
    desk: &mut D,
    seed: u64,
    instance: &str,
) -> Result<Ending, Fault>
    requires { IsTrue (D.writes instance.now) }
    ensures ends { IsTrue D.tells → (printed : List ℕ)
        → Ends (IsGenerated seed instance.now (outside (D.files desk.old) printed))
        (outside (D.files desk.new) printed) result }
    ensures left { IsTrue D.tells
        → LeavesGenerated seed instance.now (D.files desk.old) (D.files desk.new) }
    ensures causes { PartCauses (D.read_faults desk.old) (D.read_faults desk.new)
        (D.write_faults desk.old) (D.write_faults desk.new) result }
    ensures reads_kept { D.read_faults desk.new ≡ D.read_faults desk.old }
    ensures no_read { result ≢ Err Fault.ReadFault }
    ensures words { result ≢ Err Fault.Words }
{
    write_generated(alloc, desk, seed, instance)?;
    let line = generated_line(alloc, seed)?;
    Ok(Ending {
        line: Some(line),
        outcome: Outcome::Good,
    })
}
