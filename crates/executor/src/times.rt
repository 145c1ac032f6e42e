//! When actions start and end in a plan, and which waits for which, by the numbers of elements.
ghost use Rattle.std.specs.Prelude.{◌≡◌, ◌↔◌, ◌<◌, length, IfOk, IsTrue};
ghost use Rattle.executor.specs.Prelude.{AreTimes, choices_of, is_ended, is_open_at, IsElement, IsFirstPlace, IsLeastOpenEnd, IsPlanOf, IsReadyAt, lesser, open_end, starts_before, times_of, waits_at};

use crate::phase::Phase;
use base::Memory;
use catalogue::Problem;
use cluster::{Choice, Element, Instant};
use slices::Plan;
use slices::plan::end_in;
use std::alloc::Global;

/// When an action starts and ends in the plan.
#[derive(Clone, Copy, Debug, PartialEq, Eq)]
pub(crate) struct Times {
    pub start: Instant,
    pub end: Instant,
}

/// The times of an element's action, if it has one.
fn times_of(p: &Problem, plan: &Plan, e: Element) -> Option<Times>
    requires plan { IsPlanOf p.now.given plan.now }
    requires element { IsElement p.now.given e }
    ensures { result ≡ times_of p.now.given e (choices_of plan.now e) }
{
    match plan.choice(e) {
        Choice::Idle => None,
        Choice::Act { place: _, start } => Some(Times {
            start,
            end: end_in(p, plan, e),
        }),
    }
}

/// The times of all actions.
pub(crate) fn all_times(
    alloc: Global,
    p: &Problem,
    plan: &Plan,
) -> Result<Vec<Option<Times>>, Memory>
    requires { IsPlanOf p.now.given plan.now }
    ensures { IfOk result (λ times. AreTimes p.now.given (choices_of plan.now) times.items) }
{
    let mut times = Vec::new(alloc);
    for x in 0..p.cluster().element_count() {
        times.push(times_of(p, plan, p.cluster().element(x)))?;
    }
    Ok(times)
}

/// Whether the action of one number waits for that of another.
fn waits(times: &[Option<Times>], a: usize, b: usize) -> bool
    requires first { a < length times.now }
    requires second { b < length times.now }
    ensures { result ≡ waits_at times.now a b }
{
    match (times[a], times[b]) {
        (Some(later), Some(sooner)) => sooner.end <= later.start,
        _ => false,
    }
}

fn is_ended(phase: Phase) -> bool
    ensures { result ≡ is_ended phase }
{
    matches!(phase, Phase::Ended)
}

/// Whether an action waits for another one that has not ended.
fn is_open(times: &[Option<Times>], phases: &[Phase], a: usize, b: usize) -> bool
    requires rows { length times.now ≡ length phases.now }
    requires first { a < length phases.now }
    requires second { b < length phases.now }
    ensures { result ≡ is_open_at times.now phases.now a b }
{
    waits(times, a, b) && !is_ended(phases[b])
}

/// The first action that another one waits for and that has not ended.
pub(crate) fn first_open(times: &[Option<Times>], phases: &[Phase], a: usize) -> Option<usize>
    requires rows { length times.now ≡ length phases.now }
    requires place { a < length phases.now }
    ensures { IsFirstPlace (length phases.now) (λ b. IsTrue (is_open_at times.now phases.now a b)) result }
{
    for b in 0..phases.len() {
        if is_open(times, phases, a, b) {
            return Some(b);
        }
    }
    None
}

// ---- readiness

/// The end of an action that has not ended.
fn open_end(times: Option<Times>, phase: Phase) -> Option<Instant>
    ensures { result ≡ open_end times phase }
{
    match times {
        Some(action) if !is_ended(phase) => Some(action.end),
        Some(_) | None => None,
    }
}

/// The lesser of a least end so far and one more.
fn lesser(least: Option<Instant>, end: Option<Instant>) -> Option<Instant>
    ensures { result ≡ lesser least end }
{
    match (least, end) {
        (Some(x), Some(y)) => Some(x.min(y)),
        (Some(x), None) => Some(x),
        (None, y) => y,
    }
}

/// The least end of the actions that have not ended.
#[tactic(auto, using(crate::proofs::ReadyLemmas::none_below, crate::proofs::ReadyLemmas::one_more))]
fn least_open_end(times: &[Option<Times>], phases: &[Phase]) -> Option<Instant>
    requires { length times.now ≡ length phases.now }
    ensures { IsLeastOpenEnd times.now phases.now (length phases.now) result }
{
    let mut least = None;
    for x in 0..phases.len() {
        least = lesser(least, open_end(times[x], phases[x]));
    }
    least
}

/// Whether an action starts in the plan before an end, if there is one.
fn starts_before(times: Option<Times>, end: Option<Instant>) -> bool
    ensures { result ≡ starts_before times end }
{
    match (times, end) {
        (Some(action), Some(end)) => action.start < end,
        (Some(_), None) | (None, _) => true,
    }
}

/// Whether an action waits, and waits for none that has not ended: it starts before the least end of these.
#[tactic(auto, using(crate::proofs::ReadyLemmas::ready_before, crate::proofs::ReadyLemmas::before_ready))]
fn is_ready(times: &[Option<Times>], phases: &[Phase], least: Option<Instant>, x: usize) -> bool
    requires rows { length times.now ≡ length phases.now }
    requires place { x < length phases.now }
    requires least { IsLeastOpenEnd times.now phases.now (length phases.now) least }
    ensures { IsTrue result ↔ IsReadyAt times.now phases.now x }
{
    matches!(phases[x], Phase::Waiting) && starts_before(times[x], least)
}

/// The first action that is ready.
pub(crate) fn first_ready(times: &[Option<Times>], phases: &[Phase]) -> Option<usize>
    requires { length times.now ≡ length phases.now }
    ensures { IsFirstPlace (length phases.now) (IsReadyAt times.now phases.now) result }
{
    let least = least_open_end(times, phases);
    for x in 0..phases.len() {
        if is_ready(times, phases, least, x) {
            return Some(x);
        }
    }
    None
}
