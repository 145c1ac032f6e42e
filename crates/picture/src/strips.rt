//! What stands beside the bars and the curves of a node: its name, when it is on, its capacities.
ghost use Rattle.std.specs.Prelude.{◌<◌, ◌≤◌, ◌^◌, length};
ghost use Rattle.picture.specs.Prelude.{IsPlanOf};

use crate::axis::place_at;
use crate::curves::{height_at, peak_of};
use crate::marks::{Curve, LoadCurve, Power, Step};
use crate::nodes::{Phase, phases};
use crate::sheet::{LEFT, MARGIN, PAGE, RIGHT, Sheet};
use crate::style::Style;
use crate::words::cut;
use base::Memory;
use catalogue::Problem;
use cluster::{Choice, Element, Instant, NodeId};
use slices::Plan;
use slices::plan::end_in;
use std::alloc::Global;

/// The ground of a band while its node is off, boots or shuts down.
fn shade(
    sheet: &mut Sheet,
    phase: Phase,
    span: Instant,
    top: u64,
    tall: u64,
) -> Result<(), Memory> {
    let x = place_at(span, phase.from);
    let width = place_at(span, phase.to).saturating_sub(x);
    let style = match phase.power {
        Power::On => return Ok(()),
        Power::Off => Style::Off,
        Power::Turning => Style::Busy,
    };
    if width > 0 {
        sheet.shade(style, x, top, width, tall)?;
    }
    Ok(())
}

/// The line of a capacity over one phase of a node.
fn capacity_line(sheet: &mut Sheet, phase: Phase, span: Instant, y: u64) -> Result<(), Memory> {
    let x = place_at(span, phase.from);
    let right = place_at(span, phase.to);
    let style = if phase.power == Power::On {
        Style::Capacity
    } else {
        Style::Unusable
    };
    if x < right {
        sheet.line(style, x, y, right, y)?;
    }
    Ok(())
}

/// What is above the capacity from one step to the next.
fn excess(
    sheet: &mut Sheet,
    curve: &Curve,
    step: Step,
    to: Instant,
    span: Instant,
    line: u64,
) -> Result<(), Memory> {
    let x = place_at(span, step.at.min(span));
    let right = place_at(span, to.min(span));
    let y = height_at(curve, step.amount);
    if y < line {
        let width = right.saturating_sub(x).max(2);
        sheet.rect(Style::Over, x, y, width, line - y)?;
    }
    Ok(())
}

/// What is above the capacity, step by step.
fn excesses(sheet: &mut Sheet, curve: &Curve, capacity: u64, span: Instant) -> Result<(), Memory> {
    let line = height_at(curve, capacity);
    for i in 0..curve.steps.len() {
        let step = curve.steps[i];
        let to = match curve.steps.get(i.saturating_add(1)) {
            Some(next) => next.at,
            None => span,
        };
        if step.amount > capacity {
            excess(sheet, curve, step, to, span, line)?;
        }
    }
    Ok(())
}

/// A peak of a capacity, or, where that has many digits, the part of it in hundredths.
fn peak_words(alloc: Global, peak: u64, capacity: u64) -> Result<String, Memory> {
    let words = format!(in alloc; "{peak} of {capacity}")?;
    if words.len() <= 14 || capacity == 0 {
        return Ok(words);
    }
    let part = peak.saturating_mul(100).div_ceil(capacity);
    Ok(format!(in alloc; "{part} %")?)
}

/// How the words of a peak look: bold above 90 hundredths of the capacity.
pub(crate) fn peak_style(peak: u64, capacity: u64) -> Style {
    if peak > capacity {
        Style::BadPeak
    } else if peak.saturating_mul(10) > capacity.saturating_mul(9) {
        Style::Full
    } else {
        Style::Tick
    }
}

/// What stands beside the curve of a node: the resource, the capacity, the peak.
fn beside_curve(
    sheet: &mut Sheet,
    p: &Problem,
    phases: [Phase; 3],
    load: &LoadCurve,
    capacity: u64,
    span: Instant,
) -> Result<(), Memory> {
    let curve = &load.curve;
    let foot = curve.base.saturating_sub(4);
    if let Some(resource) = p.cluster().resources().get(load.resource as usize) {
        let name = cut(sheet.alloc, resource.as_text(), 16)?;
        sheet.words(Style::TickLeft, LEFT - 8, foot, name)?;
    }
    let line = height_at(curve, capacity);
    excesses(sheet, curve, capacity, span)?;
    for phase in phases {
        capacity_line(sheet, phase, span, line)?;
    }
    let peak = peak_of(&curve.steps);
    let words = peak_words(sheet.alloc, peak, capacity)?;
    sheet.words(peak_style(peak, capacity), RIGHT + 8, foot, words)
}

/// The same beside each curve.
fn beside_curves(
    sheet: &mut Sheet,
    p: &Problem,
    phases: [Phase; 3],
    curves: &[LoadCurve],
    n: NodeId,
    span: Instant,
) -> Result<(), Memory>
    requires { n.0 < length p.now.given.nodes }
{
    for load in curves {
        if (load.resource as usize) < p.cluster().resources().len() {
            let capacity = p.capacity(n, load.resource);
            beside_curve(sheet, p, phases, load, capacity, span)?;
        }
    }
    Ok(())
}

/// When a node is on: what its action brings, or that it stays off.
fn power_words(alloc: Global, p: &Problem, plan: &Plan, n: NodeId) -> Result<String, Memory>
    requires plan { IsPlanOf p.now.given plan.now }
    requires node { n.0 < length p.now.given.nodes }
{
    let e = Element::Node(n);
    let online = p.cluster().nodes()[n.0 as usize].online;
    let words = match plan.choice(e) {
        Choice::Idle => if online {
            String::new(alloc)
        } else {
            "stays off".to_string(alloc)?
        },
        Choice::Act { place: _, start: _ } => {
            let end = end_in(p, plan, e);
            if online {
                format!(in alloc; "off at {end}")?
            } else {
                format!(in alloc; "on at {end}")?
            }
        }
    };
    Ok(words)
}

/// All that stands beside the bars and the curves of a node.
pub(crate) fn surround(
    sheet: &mut Sheet,
    p: &Problem,
    plan: &Plan,
    n: NodeId,
    curves: &[LoadCurve],
    span: Instant,
    top: u64,
    tall: u64,
) -> Result<(), Memory>
    requires plan { IsPlanOf p.now.given plan.now }
    requires node { n.0 < length p.now.given.nodes }
    requires top { top ≤ 2 ^ 42 }
    requires tall { tall ≤ 2 ^ 42 }
{
    let phases = phases(p, plan, n, span);
    for phase in phases {
        shade(sheet, phase, span, top, tall)?;
    }
    let name = cut(sheet.alloc, p.cluster().name(Element::Node(n)), 11)?;
    sheet.words(Style::Name, MARGIN, top + 18, name)?;
    let power = power_words(sheet.alloc, p, plan, n)?;
    if !power.is_empty() {
        sheet.words(Style::Tick, MARGIN, top + 32, power)?;
    }
    beside_curves(sheet, p, phases, curves, n, span)?;
    sheet.line(Style::Separator, MARGIN, top + tall, PAGE, top + tall)
}
