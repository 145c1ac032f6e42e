//! What is said of event lines, and of a plan that is not valid, by the commands that carry one out.

ghost use Rattle.std.specs.Prelude.{◌≡◌, ◌++◌, IfOk, codes, string_bytes};
ghost use Rattle.std.specs.Fmt.{decimal};
ghost use Rattle.command_carry.specs.Prelude.{broken_line, InRange, IsLastLine, IsRefusal, refused_line};
ghost use Rattle.transcript.specs.Lines.{fault_text};
ghost use Rattle.command_frame.specs.declared.status.Status.TheVariants as Status;

use base::Memory;
use catalogue::Problem;
use command_frame::fault::{Ending, Fault, Outcome};
use command_frame::inputs::refusal;
use event_lines::EventFault;
use replay::broken_line;
use slices::rule::Broken;
use std::alloc::Global;

/// What is wrong with an event line, after its number.
fn event_text(alloc: Global, number: u32, fault: EventFault) -> Result<String, Memory>
    ensures { IfOk result (λ text. string_bytes text ≡ decimal number ++ codes " " ++ fault_text fault) }
{
    let what = fault.text();
    Ok(format!(in alloc; "{number} {what}")?)
}

/// The fault of a refused event line.
pub fn refused_event(alloc: Global, number: u32, fault: EventFault) -> Fault
    ensures { IsRefusal result (refused_line number fault) }
{
    match event_text(alloc, number, fault) {
        Ok(text) => refusal(alloc, "events", &text),
        Err(Memory) => Fault::Memory,
    }
}

/// The last line of a plan that is not valid.
pub fn say_broken(alloc: Global, p: &Problem, broken: Broken) -> Result<Ending, Fault>
    requires { InRange p.now.given broken.rule }
    ensures { IsLastLine result (broken_line p.now.given broken) Status.Negative }
{
    let line = broken_line(alloc, p, broken)?;
    Ok(Ending {
        line: Some(line),
        outcome: Outcome::Negative,
    })
}
