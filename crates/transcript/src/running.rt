//! The run of a plan: starts are written to a sink, and event lines are read from a source.
ghost use Rattle.std.specs.Prelude.{◌≡◌, IsTrue, IfOk, IfErr};
ghost use Rattle.std.specs.Io.{StartsWith};
ghost use Rattle.transcript.specs.Prelude.{choices_of, EventGives, ExecuteGives, IsDue, IsElement, IsJudged, IsOfRunning, IsPlanOf, IsSameWork, NamesListed, phases_of, point, ReadCauses, RunGives, start_line, StartGives, StaysIfNotValid, TakeGives, WriteCauses};

use crate::conclusion::{Conclusion, ExecuteFault};
use crate::lines::{EventKind, event_of};
use catalogue::Problem;
use cluster::Element;
use event_lines::{EventFault, Line, read_line};
use executor::{Monitor, NewFault};
use plan_io::{Sink, Source, write_text};
use slices::Plan;
use std::alloc::{AllocError, Global};

/// The line that the action of an element starts.
#[tactic(auto, unfolding(crate::specs::Lines::start_line))]
fn put_start(line: &mut Vec<u8>, p: &Problem, e: Element) -> Result<(), AllocError>
    requires { IsElement p.now.given e }
    ensures { IfOk result (λ _. line.new.items ≡ start_line p.now.given e) }
{
    line.clear();
    line.extend_from_slice(b"start ")?;
    line.extend_from_slice(p.cluster().name(e).as_bytes())?;
    line.push(b'\n')?;
    Ok(())
}

/// Writes the first action that may start, and starts it; whether there is one.
#[tactic(auto, using(crate::proofs::Steps::starts, base::proofs::Prefixes::whole))]
fn start_next<O: Sink>(
    p: &Problem,
    m: &mut Monitor<'_>,
    line: &mut Vec<u8>,
    out: &mut O,
) -> Result<bool, ExecuteFault>
    requires { m.old.problem ≡ p.now }
    ensures turn { StartGives O.tells p.now.given (choices_of m.old.plan) (phases_of m.old) (O.written out.old) (phases_of m.new) (O.written out.new) result }
    ensures stays { IsTrue O.tells → StartsWith (O.written out.new) (O.written out.old) }
    ensures work { IsSameWork m.old m.new }
    ensures causes { WriteCauses (O.faults out.old) (O.faults out.new) result }
{
    let Some(e) = m.next_ready() else {
        return Ok(false);
    };
    if put_start(line, p, e).is_err() {
        return Err(ExecuteFault::Memory);
    }
    write_text(out, line)?;
    // It may start, so that this is taken.
    let _started = m.start(e);
    Ok(true)
}

/// What an event line does: after an end the execution goes on, and all else ends it.
#[tactic(auto, using(crate::proofs::Steps::stops_not))]
fn apply(p: &Problem, m: &mut Monitor<'_>, number: u32, text: &[u8]) -> Option<Conclusion>
    requires { m.old.problem ≡ p.now }
    ensures event { EventGives p.now.given (phases_of m.old) number text.now (phases_of m.new) result }
    ensures work { IsSameWork m.old m.new }
{
    let Some((kind, name)) = event_of(text) else {
        return Some(Conclusion::Refused(number, EventFault::NotALine));
    };
    let Some(e) = p.cluster().find(name) else {
        return Some(Conclusion::Refused(number, EventFault::NoSuchName));
    };
    match kind {
        EventKind::End => match m.ended(e) {
            Ok(()) => None,
            Err(_) => Some(Conclusion::Refused(number, EventFault::NotRunning)),
        },
        EventKind::Fail => match m.failed(e) {
            Ok(()) => Some(Conclusion::StoppedFail(e)),
            Err(_) => Some(Conclusion::Refused(number, EventFault::NotRunning)),
        },
    }
}

/// Takes the event line that is due, the one of this number; `None` where the execution goes on.
#[tactic(auto, using(crate::proofs::Steps::takes_event, crate::proofs::Steps::takes_long, crate::proofs::Steps::takes_short, crate::proofs::Steps::takes_nothing))]
fn take_event<I: Source>(
    p: &Problem,
    m: &mut Monitor<'_>,
    number: u32,
    line: &mut Vec<u8>,
    input: &mut I,
) -> Result<Option<Conclusion>, ExecuteFault>
    requires problem { m.old.problem ≡ p.now }
    requires due { IsDue p.now.given (choices_of m.old.plan) (phases_of m.old) }
    ensures turn { TakeGives I.tells p.now.given (choices_of m.old.plan) number (phases_of m.old) (I.rest input.old) (phases_of m.new) (I.rest input.new) result }
    ensures work { IsSameWork m.old m.new }
    ensures causes { ReadCauses (I.faults input.old) (I.faults input.new) result }
{
    match read_line(input, line)? {
        Line::Whole => Ok(apply(p, m, number, line)),
        Line::TooLong => Ok(Some(Conclusion::Refused(number, EventFault::TooLong))),
        Line::Short => Ok(Some(Conclusion::Refused(number, EventFault::NotALine))),
        Line::Nothing => Ok(Some(Conclusion::StoppedEnd)),
    }
}

/// Runs a plan from where its monitor stands: starts all that may start, and then takes an event line,
/// until all actions have ended.
#[tactic(auto, using(crate::proofs::Steps::stops_in_start, base::proofs::Prefixes::further))]
fn follow<I: Source, O: Sink>(
    alloc: Global,
    p: &Problem,
    m: &mut Monitor<'_>,
    input: &mut I,
    out: &mut O,
) -> Result<Conclusion, ExecuteFault>
    requires { m.old.problem ≡ p.now }
    ensures run { let first = point (phases_of m.old) 0 (I.rest input.old) (O.written out.old) in
        IsTrue I.tells → IsTrue O.tells
        → RunGives p.now.given (choices_of m.old.plan) first result (I.rest input.new) (O.written out.new) }
    ensures stays { IsTrue O.tells → StartsWith (O.written out.new) (O.written out.old) }
    ensures reads { ReadCauses (I.faults input.old) (I.faults input.new) result }
    ensures writes { WriteCauses (O.faults out.old) (O.faults out.new) result }
    ensures listed { IfOk result (NamesListed p.now.given) }
    ensures kind { IfErr result IsOfRunning }
{
    let mut line = Vec::new(alloc);
    let mut lines = 0;
    'turns: while !m.all_ended() {
        if start_next(p, m, &mut line, out)? {
            continue;
        }
        if let Some(conclusion) = take_event(p, m, lines + 1, &mut line, input)? {
            return Ok(conclusion);
        }
        lines += 1;
    }
    Ok(Conclusion::Done)
}

/// Carries out a plan: writes `start NAME` for each action that may start, in the order of the elements,
/// and then takes an event line, `end NAME` or `fail NAME`, until all actions have ended.
///
/// A line is read byte by byte, and only after the sink took whole each line that was due before; no byte
/// past the line that decides is taken. `NotValid` exactly where the plan is not valid, with its first
/// broken rule; then nothing is read or written. `ReadFault` and `WriteFault` come only where the count of
/// the source or the sink rose.
pub fn execute<I: Source, O: Sink>(
    alloc: Global,
    p: &Problem,
    plan: &Plan,
    input: &mut I,
    out: &mut O,
) -> Result<Conclusion, ExecuteFault>
    requires { IsPlanOf p.now.given plan.now }
    ensures transcript { IsTrue I.tells → IsTrue O.tells
        → ExecuteGives p.now.given (choices_of plan.now) (I.rest input.old) (O.written out.old) result (I.rest input.new) (O.written out.new) }
    ensures judged { IsJudged p.now.given (choices_of plan.now) result }
    ensures listed { IfOk result (NamesListed p.now.given) }
    ensures source { StaysIfNotValid result input.old input.new }
    ensures sink { StaysIfNotValid result out.old out.new }
    ensures stays { IsTrue O.tells → StartsWith (O.written out.new) (O.written out.old) }
    ensures reads { ReadCauses (I.faults input.old) (I.faults input.new) result }
    ensures writes { WriteCauses (O.faults out.old) (O.faults out.new) result }
{
    let mut m = match Monitor::new(alloc, p, plan) {
        Ok(m) => m,
        Err(NewFault::NotValid(broken)) => return Err(ExecuteFault::NotValid(broken)),
        Err(NewFault::Memory) => return Err(ExecuteFault::Memory),
    };
    follow(alloc, p, &mut m, input, out)
}
