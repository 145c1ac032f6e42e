//! The line that bytes are, by descent over its words.
ghost use Rattle.std.specs.Prelude.{◌≡◌, [], map, IfOk, IfErr};
ghost use Rattle.cert_text.specs.Reading.{Gives, Takes, goal, goal_of, line, line_of, names_of, nodes, part, part_of, reading, reason, reason_of, words_of};

use crate::kinds::{GoalKind, LineKind, PartKind};
use crate::text::{LineText, Names, NodesText, PartText, ReasonText, StepText};
use crate::words::Words;
use cluster::Name;
use cluster::names::NameFault;
use reasons::ReasonKind;
use std::alloc::{AllocError, AllocFailed, Global};
use trees::Goal;

/// Why bytes were not read as a line.
#[derive(Clone, Copy, Debug, PartialEq, Eq)]
pub enum TextFault {
    /// No line is spelled so.
    NotALine,
    /// Want of memory.
    Memory,
}

impl From<NameFault> for TextFault {
    ghost use Rattle.cert_text.specs.Faults.{of_name_fault};

    ghost from_gives = { λ f e. e ≡ of_name_fault f };

    fn from(fault: NameFault) -> TextFault {
        match fault {
            NameFault::BadName => TextFault::NotALine,
            NameFault::Memory => TextFault::Memory,
        }
    }
}

impl From<AllocError> for TextFault {
    ghost use Rattle.cert_text.specs.declared.parsing.TextFault.TheVariants.{Memory as NoMemory};

    ghost from_gives = { λ _ e. e ≡ NoMemory };

    fn from(_error: AllocError) -> TextFault {
        TextFault::Memory
    }
}

/// The value that found no room is dropped.
impl<T: Drop> From<AllocFailed<T>> for TextFault {
    ghost use Rattle.cert_text.specs.declared.parsing.TextFault.TheVariants.{Memory as NoMemory};

    ghost from_gives = { λ _ e. e ≡ NoMemory };

    fn from(_error: AllocFailed<T>) -> TextFault {
        TextFault::Memory
    }
}

/// The part that begins with this kind.
fn part_of(alloc: Global, kind: PartKind, words: &mut Words) -> Result<PartText, TextFault>
    ensures { Takes result words.new (part_of kind words.old) }
{
    match kind {
        PartKind::Idle => Ok(PartText::Idle),
        PartKind::Upto => {
            let place = words.place(alloc)?;
            Ok(PartText::Upto(place, words.number()?))
        }
        PartKind::From => {
            let place = words.place(alloc)?;
            Ok(PartText::From(place, words.number()?))
        }
    }
}

#[tactic(auto, unfolding(crate::specs::Reading::part))]
fn part(alloc: Global, words: &mut Words) -> Result<PartText, TextFault>
    ensures { Takes result words.new (part words.old) }
{
    let kind = words.part_kind()?;
    part_of(alloc, kind, words)
}

/// All words, each of which is to be a name.
#[tactic(auto, using(crate::proofs::NamesLemmas::names_rules))]
fn names(alloc: Global, words: &mut Words) -> Result<Names, TextFault>
    ensures { Gives result (names_of words.old) }
{
    let mut names = Vec::new(alloc);
    'words: while !words.is_over() {
        names.push(words.name(alloc)?)?;
    }
    Ok(Names::new(names))
}

/// `*`, or names, up to the end of the line.
#[tactic(auto, unfolding(crate::specs::Reading::nodes))]
fn nodes(alloc: Global, words: &mut Words) -> Result<NodesText, TextFault>
    ensures { Takes result words.new (nodes words.old) }
{
    match words.take_rest() {
        [] => Err(TextFault::NotALine),
        [word] if *word == "*".as_bytes() => Ok(NodesText::All),
        rest => Ok(NodesText::Listed(names(alloc, &mut Words::new(rest))?)),
    }
}

#[tactic(auto, unfolding(crate::specs::Reading::reason_of))]
fn load(alloc: Global, words: &mut Words) -> Result<ReasonText, TextFault>
    ensures { Takes result words.new (reason_of ReasonKind.Load words.old) }
{
    let t = words.number()?;
    let resource = words.name(alloc)?;
    let set = nodes(alloc, words)?;
    Ok(ReasonText::Load(t, resource, set))
}

#[tactic(auto, unfolding(crate::specs::Reading::reason_of))]
fn pair(alloc: Global, words: &mut Words) -> Result<ReasonText, TextFault>
    ensures { Takes result words.new (reason_of ReasonKind.Pair words.old) }
{
    let c = words.number()?;
    let t = words.number()?;
    let v = words.name(alloc)?;
    let w = words.name(alloc)?;
    let n = words.name(alloc)?;
    Ok(ReasonText::Pair(c, t, v, w, n))
}

#[tactic(auto, unfolding(crate::specs::Reading::reason_of))]
fn place(alloc: Global, words: &mut Words) -> Result<ReasonText, TextFault>
    ensures { Takes result words.new (reason_of ReasonKind.Place words.old) }
{
    let c = words.number()?;
    let t = words.number()?;
    let v = words.name(alloc)?;
    let n = words.name(alloc)?;
    Ok(ReasonText::Place(c, t, v, n))
}

#[tactic(auto, unfolding(crate::specs::Reading::reason_of))]
fn usable(alloc: Global, words: &mut Words) -> Result<ReasonText, TextFault>
    ensures { Takes result words.new (reason_of ReasonKind.Usable words.old) }
{
    let t = words.number()?;
    let v = words.name(alloc)?;
    let n = words.name(alloc)?;
    Ok(ReasonText::Usable(t, v, n))
}

#[tactic(auto, unfolding(crate::specs::Reading::reason_of))]
fn hall(alloc: Global, words: &mut Words) -> Result<ReasonText, TextFault>
    ensures { Takes result words.new (reason_of ReasonKind.Hall words.old) }
{
    let c = words.number()?;
    let t = words.number()?;
    let set = nodes(alloc, words)?;
    Ok(ReasonText::Hall(c, t, set))
}

/// The reason that begins with this kind.
#[tactic(auto, unfolding(crate::specs::Reading::reason_of))]
fn reason_of(alloc: Global, kind: ReasonKind, words: &mut Words) -> Result<ReasonText, TextFault>
    ensures { Takes result words.new (reason_of kind words.old) }
{
    match kind {
        ReasonKind::Empty => Ok(ReasonText::Empty(words.name(alloc)?)),
        ReasonKind::Bound => Ok(ReasonText::Bound),
        ReasonKind::Load => load(alloc, words),
        ReasonKind::Pair => pair(alloc, words),
        ReasonKind::Place => place(alloc, words),
        ReasonKind::Group => {
            let c = words.number()?;
            Ok(ReasonText::Group(c, words.number()?))
        }
        ReasonKind::SetLoad => {
            let c = words.number()?;
            Ok(ReasonText::SetLoad(c, words.number()?))
        }
        ReasonKind::Power => {
            let c = words.number()?;
            Ok(ReasonText::Power(c, words.number()?))
        }
        ReasonKind::Usable => usable(alloc, words),
        ReasonKind::Hall => hall(alloc, words),
    }
}

#[tactic(auto, unfolding(crate::specs::Reading::reason))]
fn reason(alloc: Global, words: &mut Words) -> Result<ReasonText, TextFault>
    ensures { Takes result words.new (reason words.old) }
{
    let kind = words.reason_kind()?;
    reason_of(alloc, kind, words)
}

/// The goal that begins with this kind.
#[tactic(auto, unfolding(crate::specs::Reading::goal_of))]
fn goal_of(kind: GoalKind, words: &mut Words) -> Result<Goal, TextFault>
    ensures { Takes result words.new (goal_of kind words.old) }
{
    match kind {
        GoalKind::Optimal => Ok(Goal::Optimal(words.number()?)),
        GoalKind::Infeasible => Ok(Goal::Infeasible),
        GoalKind::Undecided => Ok(Goal::Undecided(words.number()?)),
    }
}

#[tactic(auto, unfolding(crate::specs::Reading::goal))]
fn goal(words: &mut Words) -> Result<Goal, TextFault>
    ensures { Takes result words.new (goal words.old) }
{
    let kind = words.goal_kind()?;
    goal_of(kind, words)
}

#[tactic(auto, unfolding(crate::specs::Reading::line_of))]
fn decide(alloc: Global, words: &mut Words) -> Result<LineText, TextFault>
    ensures { Takes result words.new (line_of LineKind.Decide words.old) }
{
    let element = words.name(alloc)?;
    let part = part(alloc, words)?;
    Ok(LineText::Step(StepText::Decide(element, part)))
}

#[tactic(auto, unfolding(crate::specs::Reading::line_of))]
fn cut(alloc: Global, words: &mut Words) -> Result<LineText, TextFault>
    ensures { Takes result words.new (line_of LineKind.Cut words.old) }
{
    let element = words.name(alloc)?;
    let part = part(alloc, words)?;
    let reason = reason(alloc, words)?;
    Ok(LineText::Step(StepText::Cut(element, part, reason)))
}

/// The line that begins with this kind.
#[tactic(auto, unfolding(crate::specs::Reading::line_of))]
fn line_of(alloc: Global, kind: LineKind, words: &mut Words) -> Result<LineText, TextFault>
    ensures { Takes result words.new (line_of kind words.old) }
{
    match kind {
        LineKind::Decide => decide(alloc, words),
        LineKind::Cut => cut(alloc, words),
        LineKind::Fail => Ok(LineText::Step(StepText::Fail(reason(alloc, words)?))),
        LineKind::Plan => Ok(LineText::Step(StepText::Plan(words.number()?))),
        LineKind::Left => Ok(LineText::Step(StepText::Left)),
        LineKind::End => Ok(LineText::End(goal(words)?)),
    }
}

#[tactic(auto, unfolding(crate::specs::Reading::line))]
fn line(alloc: Global, words: &mut Words) -> Result<LineText, TextFault>
    ensures { Takes result words.new (line words.old) }
{
    let kind = words.line_kind()?;
    line_of(alloc, kind, words)
}

// as many words as most lines have, so that their list need not grow
const MOST_WORDS: usize = 12;

/// The words between blanks.
fn words_of(alloc: Global, bytes: &[u8]) -> Result<Vec<&[u8]>, AllocError>
    ensures { IfOk result (λ words. map (λ w. w.now) words.items ≡ words_of bytes.now) }
{
    let mut words = Vec::with_capacity(alloc, MOST_WORDS)?;
    words.extend(bytes.split(|b| *b == b' '))?;
    Ok(words)
}

/// The line after the header that these bytes are, which have no newline at their end.
///
/// `NotALine` exactly where no step and no goal is spelled so. The laws `readings_are_exact` and
/// `lines_have_one_reading` say that a reading is the one line that the bytes spell.
#[tactic(auto, unfolding(crate::specs::Reading::reading))]
pub fn parse_line(alloc: Global, bytes: &[u8]) -> Result<LineText, TextFault>
    ensures { Gives result (reading bytes.now) }
{
    let words = words_of(alloc, bytes)?;
    let mut rest = Words::new(&words);
    let line = line(alloc, &mut rest)?;
    if !rest.is_over() {
        return Err(TextFault::NotALine);
    }
    Ok(line)
}
