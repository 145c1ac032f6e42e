//! The script of rules that `script` reads.

ghost use Rattle.std.specs.Prelude.{◌≡◌, ◌≢◌, Result, IsTrue, IfOk, IfErr, Err, Ok, string_bytes};
ghost use Rattle.command_make.specs.Prelude.{AddsTo, IsOfReading, IsRefusal, OnlyReads, Reads, script_in, script_line, script_reading_of, wrong_text};

use base::Memory;
use catalogue::Problem;
use command_frame::fault::Fault;
use command_frame::inputs::{bytes_at, refusal};
use plan_io::Desk;
use rule_script::faults::{Mistake, ScriptFault};
use rule_script::script::read_script;
use std::alloc::Global;

/// The number of a wrong line, and what is wrong with it.
fn wrong_text(alloc: Global, number: u64, mistake: Mistake) -> Result<String, Memory>
    ensures { IfOk result (λ text. string_bytes text ≡ wrong_text number mistake) }
{
    let what = mistake.text();
    Ok(format!(in alloc; "{number} {what}")?)
}

/// The fault with the line that tells a wrong line of a script.
fn refusal_of(alloc: Global, number: u64, mistake: Mistake) -> Fault
    ensures { IsRefusal result (script_line (wrong_text number mistake)) }
{
    match wrong_text(alloc, number, mistake) {
        Ok(text) => refusal(alloc, "script", &text),
        Err(Memory) => Fault::Memory,
    }
}

/// The problem that these bytes make of one, or the line that refuses them.
#[tactic(auto, using(crate::proofs::ScriptReadings::the_script, crate::proofs::ScriptReadings::first_wrong_line))]
fn scripted(alloc: Global, p: Problem, bytes: &[u8]) -> Result<Problem, Fault>
    ensures reading { Reads (λ q. q.given) result (script_reading_of p.given (Ok bytes.now)) }
    ensures adds { IfOk result (λ q. AddsTo p.given q.given) }
    ensures kind { IfErr result IsOfReading }
{
    match read_script(alloc, p, bytes) {
        Ok(problem) => Ok(problem),
        Err(ScriptFault::Line(number, mistake)) => Err(refusal_of(alloc, number, mistake)),
        Err(ScriptFault::Memory) => Err(Fault::Memory),
    }
}

/// The problem that the script in the file of this name makes of one, or the line that refuses it. The
/// constraints of the script stand after its own.
#[tactic(auto, using(crate::proofs::ScriptReadings::long_script, crate::proofs::ScriptReadings::short_script))]
pub fn script_at<D: Desk>(
    alloc: Global,
    desk: &mut D,
    p: Problem,
    name: &str,
) -> Result<Problem, Fault>
    requires { IsTrue (D.reads name.now) }
    ensures reading { IsTrue D.tells → result ≢ Err Fault.ReadFault
        → Reads (λ q. q.given) result (script_in p.given (D.files desk.old) name.now) }
    ensures adds { IfOk result (λ q. AddsTo p.given q.given) }
    ensures desk { OnlyReads D.tells D.files D.read_faults D.write_faults desk.old desk.new result }
{
    let bytes = bytes_at(alloc, desk, name, "script")?;
    scripted(alloc, p, &bytes)
}
