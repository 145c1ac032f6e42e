//! What is said of the certificates of parts: the verdict on them, or why they cannot be read.

ghost use Rattle.std.specs.Prelude.{◌≡◌, IfOk, string_bytes};
ghost use Rattle.command_checkparts.specs.Prelude.{goal_line, IsLastLine, IsPartsRefusal, IsRefusal, not_a_line, outcome_status, part_no_line, parts_line, parts_status, short_line, too_long_line};

use base::Memory;
use cert_model::why::Why;
use cert_read::LineFault;
use command_decide::checking::why_text;
use command_frame::fault::{Ending, Fault, Outcome};
use command_frame::inputs::refusal;
use part_check::{PartsFault, PartsVerdict, WholeGoal};
use std::alloc::Global;

/// The line of what the certificates show of the whole.
fn goal_line(alloc: Global, goal: WholeGoal) -> Result<String, Memory>
    ensures { IfOk result (λ line. string_bytes line ≡ goal_line goal) }
{
    match goal {
        WholeGoal::Optimal(cost) => Ok(format!(in alloc; "yes optimal {cost}\n")?),
        WholeGoal::Infeasible => Ok(format!(in alloc; "yes infeasible\n")?),
        WholeGoal::Undecided => Ok(format!(in alloc; "yes undecided\n")?),
    }
}

/// The line of a no.
fn part_no_line(alloc: Global, part: usize, number: u64, why: Why) -> Result<String, Memory>
    ensures { IfOk result (λ line. string_bytes line ≡ part_no_line part number why) }
{
    let why = why_text(why);
    Ok(format!(in alloc; "no {part} {number} {why}\n")?)
}

/// The line of a verdict.
#[tactic(auto, unfolding(crate::specs::CheckingParts::parts_line))]
fn parts_line(alloc: Global, verdict: PartsVerdict) -> Result<String, Memory>
    ensures { IfOk result (λ line. string_bytes line ≡ parts_line verdict) }
{
    match verdict {
        PartsVerdict::Yes(goal) => goal_line(alloc, goal),
        PartsVerdict::NoSections => Ok(format!(in alloc; "no sections\n")?),
        PartsVerdict::No { part, line, why } => part_no_line(alloc, part, line, why),
    }
}

/// What the command answers by the verdict.
fn outcome_of(verdict: PartsVerdict) -> Outcome
    ensures { outcome_status result ≡ parts_status verdict }
{
    match verdict {
        PartsVerdict::Yes(_) => Outcome::Good,
        PartsVerdict::NoSections | PartsVerdict::No { .. } => Outcome::Negative,
    }
}

/// The last line of a check that has a verdict.
pub(crate) fn say_verdict(alloc: Global, verdict: PartsVerdict) -> Result<Ending, Fault>
    ensures { IsLastLine result (parts_line verdict) (parts_status verdict) }
{
    let line = parts_line(alloc, verdict)?;
    Ok(Ending {
        line: Some(line),
        outcome: outcome_of(verdict),
    })
}

/// The fault of a line that is none of a certificate's.
fn not_a_line(alloc: Global, part: usize, number: u64) -> Fault
    ensures { IsRefusal result (not_a_line part number) }
{
    match format!(in alloc; "{part} line {number}") {
        Ok(text) => refusal(alloc, "certificate", &text),
        Err(_) => Fault::Memory,
    }
}

/// The fault of a line with too many bytes.
fn too_long(alloc: Global, part: usize, number: u64) -> Fault
    ensures { IsRefusal result (too_long_line part number) }
{
    match format!(in alloc; "{part} line {number} too long") {
        Ok(text) => refusal(alloc, "certificate", &text),
        Err(_) => Fault::Memory,
    }
}

/// The fault of a section that ends too early.
fn short(alloc: Global, part: usize) -> Fault
    ensures { IsRefusal result (short_line part) }
{
    match format!(in alloc; "{part} short") {
        Ok(text) => refusal(alloc, "certificate", &text),
        Err(_) => Fault::Memory,
    }
}

/// The fault of a section that cannot be read to its end.
pub(crate) fn refusal_of(alloc: Global, fault: PartsFault) -> Fault
    ensures { IsPartsRefusal result fault }
{
    match fault {
        PartsFault::Line { part, fault } => match fault {
            LineFault::NotALine(number) => not_a_line(alloc, part, number),
            LineFault::TooLong(number) => too_long(alloc, part, number),
            LineFault::Short => short(alloc, part),
            // the text stands in memory, where no read fails
            LineFault::ReadFault | LineFault::Memory => Fault::Memory,
        },
        PartsFault::Memory => Fault::Memory,
    }
}
