//! The axis: the places of instants, and the instants that have a label.
ghost use Rattle.std.specs.Prelude.{◌≡◌, ◌^◌, ◌≤◌};
ghost use Rattle.picture.specs.Axis.{place_at, span_of};

use crate::sheet::{LEFT, RIGHT, Sheet, WIDTH};
use crate::style::Style;
use base::Memory;
use catalogue::Problem;
use cluster::Instant;
use show::{Action, last_end};

/// The last instant of the axis: the last end, or the horizon where nothing acts.
pub(crate) fn span_of(p: &Problem, actions: &[Action]) -> Instant
    ensures { result ≡ span_of p.now.given actions.now }
{
    if actions.is_empty() {
        p.horizon()
    } else {
        last_end(actions)
    }
}

/// The place of an instant on the axis.
#[tactic(auto, using(crate::proofs::AxisLemmas::away_small))]
pub(crate) fn place_at(span: Instant, t: Instant) -> u64
    ensures place { result ≡ place_at span t }
    ensures small { result ≤ 3_500_000_000_000 }
{
    LEFT + u64::from(t) * WIDTH / u64::from(span.max(1))
}

/// The steps that the labels may have: 1, 2, 5 times a power of ten.
const STEPS: [u32; 15] = [
    1, 2, 5, 10, 20, 50, 100, 200, 500, 1_000, 2_000, 5_000, 10_000, 20_000, 50_000,
];

/// The least step of which the span has at most ten.
fn step_of(span: Instant) -> u64
    ensures { result ≤ 2 ^ 36 }
{
    for step in STEPS {
        let step = u64::from(step);
        if u64::from(span) < 11 * step {
            return step;
        }
    }
    100_000
}

/// The instants that have a label: the multiples of the step, up to the end of the axis.
fn tick(span: Instant, k: u8) -> Option<Instant> {
    let t = u64::from(k) * step_of(span);
    if t <= u64::from(span) {
        Some(t as u32)
    } else {
        None
    }
}

/// Labels of the axis, their feet at y. The end has one where it is half a step away.
pub(crate) fn axis(sheet: &mut Sheet, span: Instant, y: u64) -> Result<(), Memory> {
    let mut last = 0;
    for k in 0..11 {
        if let Some(t) = tick(span, k) {
            sheet.number(Style::TickMiddle, place_at(span, t), y, u64::from(t))?;
            last = t;
        }
    }
    let rest = u64::from(span.saturating_sub(last));
    if rest > 0 && rest.saturating_mul(2) >= step_of(span) {
        sheet.number(Style::TickMiddle, RIGHT, y, u64::from(span))?;
    }
    Ok(())
}

/// The lines of the grid, from y down to low, under everything.
pub(crate) fn grid(sheet: &mut Sheet, span: Instant, y: u64, low: u64) -> Result<(), Memory> {
    for k in 0..11 {
        if let Some(t) = tick(span, k) {
            let x = place_at(span, t);
            sheet.ground(Style::Grid, x, y, x, low)?;
        }
    }
    Ok(())
}
