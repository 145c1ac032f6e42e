//! What is told of an action: its label, and what a browser tells of its bar.
ghost use Rattle.std.specs.Prelude.{◌<◌, ◌≤◌, ◌^◌};
ghost use Rattle.picture.specs.Prelude.{element_count, inventory_of, IsPlanOf};

use crate::bars::Row;
use crate::sheet::{RIGHT, Sheet};
use crate::style::Style;
use crate::words::cut;
use base::Memory;
use catalogue::Problem;
use cluster::{Choice, Element, Kind, NodeId};
use show::{Action, host_of, name, node_name, target_of};
use slices::Plan;
use slices::actions::kind_of;
use std::alloc::Global;

/// How many characters of a name a label has.
const SHORT: usize = 20;

/// What is told of an action.
#[derive(Drop)]
pub(crate) struct Label {
    pub words: String,
    pub tip: String,
    pub paint: Style,
}

/// How the bars of a kind are painted.
fn paint(kind: Option<Kind>) -> Style {
    match kind {
        Some(Kind::Migrate) | None => Style::Moves,
        Some(Kind::Boot | Kind::Resume) => Style::Arrives,
        Some(Kind::Shutdown | Kind::Suspend | Kind::Kill) => Style::Leaves,
        Some(Kind::Forge | Kind::Allocate) => Style::Changes,
        Some(Kind::NodeBoot | Kind::NodeShutdown) => Style::Power,
    }
}

/// The kind of the action of an element.
pub(crate) fn kind_of_action(p: &Problem, plan: &Plan, action: &Action) -> Option<Kind>
    requires plan { IsPlanOf p.now.given plan.now }
    requires number { action.now.number < element_count (inventory_of p.now.given) }
{
    let e = p.cluster().element(action.number);
    match plan.choice(e) {
        Choice::Idle => None,
        Choice::Act { place, start: _ } => kind_of(p, e, place),
    }
}

fn short_node(alloc: Global, p: &Problem, node: Option<NodeId>) -> Result<String, Memory> {
    cut(alloc, node_name(p, node), SHORT)
}

/// The label of a machine's action in a row.
fn machine_words(
    alloc: Global,
    p: &Problem,
    kind: Kind,
    e: Element,
    ends: (Option<NodeId>, Option<NodeId>),
    row: Row,
) -> Result<String, Memory> {
    let name = cut(alloc, name(p, e), SHORT)?;
    let (host, target) = ends;
    if let Row::Leaves(_) = row {
        let to = short_node(alloc, p, target)?;
        return Ok(format!(in alloc; "{name} → {to}")?);
    }
    let from = short_node(alloc, p, host)?;
    let text = match kind {
        Kind::Migrate => format!(in alloc; "{name} ← {from}")?,
        Kind::Resume => format!(in alloc; "resume {name} ← {from}")?,
        _ => {
            let word = kind.word();
            format!(in alloc; "{word} {name}")?
        }
    };
    Ok(text)
}

/// The label of an action in a row.
fn words(
    alloc: Global,
    p: &Problem,
    kind: Option<Kind>,
    e: Element,
    ends: (Option<NodeId>, Option<NodeId>),
    row: Row,
) -> Result<String, Memory> {
    match kind {
        None => Ok(String::new(alloc)),
        Some(Kind::NodeBoot) => Ok("boots".to_string(alloc)?),
        Some(Kind::NodeShutdown) => Ok("shuts down".to_string(alloc)?),
        Some(kind) => machine_words(alloc, p, kind, e, ends, row),
    }
}

/// What acts, from where, to where and when.
fn tip(
    alloc: Global,
    p: &Problem,
    kind: Option<Kind>,
    e: Element,
    ends: (Option<NodeId>, Option<NodeId>),
    action: &Action,
) -> Result<String, Memory> {
    let mut tip = String::new(alloc);
    if let Some(kind) = kind {
        tip.push_str(kind.word())?;
    }
    tip.push(' ')?;
    tip.push_str(name(p, e))?;
    let (host, target) = ends;
    if host.is_some() {
        tip.push_str(" from ")?;
        tip.push_str(node_name(p, host))?;
    }
    if target.is_some() {
        tip.push_str(" to ")?;
        tip.push_str(node_name(p, target))?;
    }
    let Action {
        start,
        end,
        number: _,
    } = *action;
    write!(tip, ": {start} to {end}")?;
    Ok(tip)
}

/// What is told of an action in a row.
pub(crate) fn label_of(
    alloc: Global,
    p: &Problem,
    plan: &Plan,
    action: &Action,
    row: Row,
) -> Result<Label, Memory>
    requires plan { IsPlanOf p.now.given plan.now }
    requires number { action.now.number < element_count (inventory_of p.now.given) }
{
    let e = p.cluster().element(action.number);
    let kind = kind_of_action(p, plan, action);
    let ends = (host_of(p, e), target_of(plan.choice(e)));
    Ok(Label {
        words: words(alloc, p, kind, e, ends, row)?,
        tip: tip(alloc, p, kind, e, ends, action)?,
        paint: paint(kind),
    })
}

/// Where a label stands, and what bar and label take of a lane.
#[derive(Clone, Copy)]
pub(crate) struct Spot {
    pub from: u64,
    pub to: u64,
    x: u64,
    style: Style,
    has_end: bool,
}

/// Inside the bar, where 8 more pixels fit; else at its right, where the label ends by the end of
/// the axis; else at its left; else over the bar.
pub(crate) fn spot_of(left: u64, right: u64, wide: u64, is_dark: bool) -> Spot
    requires right { right ≤ 2 ^ 42 }
    requires left { left ≤ 2 ^ 42 }
    requires wide { wide ≤ 1400 }
{
    let inside = if is_dark { Style::White } else { Style::Dark };
    if left + wide + 8 <= right {
        let has_end = left + wide + 63 <= right;
        return Spot {
            from: left,
            to: right,
            x: left + 6,
            style: inside,
            has_end,
        };
    }
    let after = right + wide + 6;
    if after <= RIGHT {
        return Spot {
            from: left,
            to: after,
            x: right + 5,
            style: Style::Beside,
            has_end: false,
        };
    }
    if left >= wide + 124 {
        return Spot {
            from: left - wide - 6,
            to: right,
            x: left - 5,
            style: Style::BesideLeft,
            has_end: false,
        };
    }
    let over = left + wide + 12;
    Spot {
        from: left,
        to: right.max(over),
        x: left + 6,
        style: Style::Beside,
        has_end: false,
    }
}

/// Puts a label beside or into its bar, and the end of the action, where it fits too.
pub(crate) fn put_label(
    sheet: &mut Sheet,
    text: &str,
    spot: Spot,
    right: u64,
    foot: u64,
    end: u64,
) -> Result<(), Memory> {
    sheet.text(spot.style, spot.x, foot, text)?;
    if spot.has_end {
        let style = if spot.style == Style::White {
            Style::WhiteEnd
        } else {
            Style::End
        };
        sheet.number(style, right.saturating_sub(6), foot, end)?;
    }
    Ok(())
}
