//! An execution that has been: its events are read from a source, and a monitor takes each of them.
ghost use Rattle.std.specs.Prelude.{◌≡◌, IsTrue};
ghost use Rattle.repair.specs.Prelude.{choices_of, FollowGives, IsSameWork, LineCauses, LineDoes, phases_of, point, TakeGives};

use crate::words::{Word, word_of};
use catalogue::Problem;
use event_lines::{EventFault, Line, LineFault, read_line};
use executor::Monitor;
use plan_io::Source;
use std::alloc::Global;

/// How the reading of events ends.
#[derive(Clone, Copy, Debug, PartialEq, Eq)]
pub enum Ending {
    /// The source has ended at the start of a line, and the event of each line before it was taken.
    AllRead,
    /// An event line is refused: its number, from 1, and what is wrong with it.
    Refused(u32, EventFault),
}

/// Takes the event that a line says, or tells what is wrong with it.
fn apply(p: &Problem, m: &mut Monitor<'_>, text: &[u8]) -> Result<(), EventFault>
    requires { m.old.problem ≡ p.now }
    ensures event { LineDoes p.now.given (choices_of m.old.plan) (phases_of m.old) text.now (phases_of m.new) result }
    ensures work { IsSameWork m.old m.new }
{
    let Some((word, name)) = word_of(text) else {
        return Err(EventFault::NotALine);
    };
    let Some(e) = p.cluster().find(name) else {
        return Err(EventFault::NoSuchName);
    };
    match word {
        Word::Start => match m.start(e) {
            Ok(()) => Ok(()),
            Err(_) => Err(EventFault::NotReady),
        },
        Word::End => match m.ended(e) {
            Ok(()) => Ok(()),
            Err(_) => Err(EventFault::NotRunning),
        },
        Word::Fail => match m.failed(e) {
            Ok(()) => Ok(()),
            Err(_) => Err(EventFault::NotRunning),
        },
    }
}

/// Takes the next line, the one of this number, and its event; `None` where the reading goes on.
fn take_event<I: Source>(
    p: &Problem,
    m: &mut Monitor<'_>,
    number: u32,
    line: &mut Vec<u8>,
    input: &mut I,
) -> Result<Option<Ending>, LineFault>
    requires { m.old.problem ≡ p.now }
    ensures turn { TakeGives I.tells p.now.given (choices_of m.old.plan) number (phases_of m.old) (I.rest input.old) (phases_of m.new) (I.rest input.new) result }
    ensures work { IsSameWork m.old m.new }
    ensures causes { LineCauses (I.faults input.old) (I.faults input.new) result }
{
    match read_line(input, line)? {
        Line::Whole => match apply(p, m, line) {
            Ok(()) => Ok(None),
            Err(fault) => Ok(Some(Ending::Refused(number, fault))),
        },
        Line::TooLong => Ok(Some(Ending::Refused(number, EventFault::TooLong))),
        Line::Short => Ok(Some(Ending::Refused(number, EventFault::NotALine))),
        Line::Nothing => Ok(Some(Ending::AllRead)),
    }
}

/// Reads a source to its end, and takes the event that each line says: `start NAME`, `end NAME` or `fail NAME`.
///
/// The first line that is refused ends it; its event changes nothing, and no byte past that line is taken. A line is
/// refused with the first of these: `TooLong`; `NotALine` where it says no event, or the source ended in it;
/// `NoSuchName`; `NotReady` for an action that may not start; `NotRunning` for the end or the failure of one that
/// does not run. `ReadFault` comes only where the count of the source rose, and `Memory` for want of memory; no byte
/// past the beginning of one line is then taken.
pub fn follow<I: Source>(
    alloc: Global,
    p: &Problem,
    m: &mut Monitor<'_>,
    input: &mut I,
) -> Result<Ending, LineFault>
    requires { m.old.problem ≡ p.now }
    ensures follows { let first = point (phases_of m.old) 0 (I.rest input.old) in
        IsTrue I.tells → FollowGives p.now.given (choices_of m.old.plan) first result (phases_of m.new) (I.rest input.new) }
    ensures work { IsSameWork m.old m.new }
    ensures causes { LineCauses (I.faults input.old) (I.faults input.new) result }
{
    let mut line = Vec::new(alloc);
    let mut lines = 0;
    'turns: loop {
        if let Some(ending) = take_event(p, m, lines + 1, &mut line, input)? {
            return Ok(ending);
        }
        lines += 1;
    }
}
