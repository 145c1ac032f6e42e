//! The instance that a command reads.

ghost use Rattle.std.specs.Prelude.{◌≡◌, ◌≢◌, Result, IsTrue, IfErr, Err};
ghost use Rattle.command_frame.specs.Prelude.{instance_in, instance_line, IsOfReading, IsRefusal, OnlyReads, reading_of, Reads};
ghost use Rattle.instance_json.specs.Texts.{fault_text};

use crate::fault::Fault;
use crate::inputs::{bytes_at, refusal};
use base::Memory;
use catalogue::Problem;
use instance_json::{InstanceFault, read_instance};
use plan_io::Desk;
use std::alloc::Global;

/// The fault with the line of an instance's fault.
fn refusal_of(alloc: Global, fault: &InstanceFault) -> Fault
    ensures { IsRefusal result (instance_line (fault_text fault.now)) }
{
    match fault.text(alloc) {
        Ok(text) => refusal(alloc, "instance", &text),
        Err(Memory) => Fault::Memory,
    }
}

/// The problem of these bytes, or the line that refuses them.
#[tactic(auto, using(crate::proofs::Readings::first_instance_fault), unfolding(crate::specs::Inputs::Instance::reading_of))]
fn problem_of(alloc: Global, bytes: &[u8]) -> Result<Problem, Fault>
    ensures reading { Reads (λ p. p.given) result (reading_of bytes.now) }
    ensures kind { IfErr result IsOfReading }
{
    match read_instance(alloc, bytes) {
        Ok(problem) => Ok(problem),
        Err(InstanceFault::Memory) => Err(Fault::Memory),
        Err(fault) => Err(refusal_of(alloc, &fault)),
    }
}

/// The problem in the file of this name, or the line that refuses it.
#[tactic(auto, using(crate::proofs::Readings::long_instance))]
pub fn problem_at<D: Desk>(alloc: Global, desk: &mut D, name: &str) -> Result<Problem, Fault>
    requires { IsTrue (D.reads name.now) }
    ensures reading { IsTrue D.tells → result ≢ Err Fault.ReadFault
        → Reads (λ p. p.given) result (instance_in (D.files desk.old) name.now) }
    ensures desk { OnlyReads D.tells D.files D.read_faults D.write_faults desk.old desk.new result }
{
    let bytes = bytes_at(alloc, desk, name, "instance")?;
    problem_of(alloc, &bytes)
}
