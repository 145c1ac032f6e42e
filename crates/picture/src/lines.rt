//! The lines of a heat map: where each action acts, and when.
ghost use Rattle.std.specs.Prelude.{◌≡◌, ◌++◌, ◌∷◌, [], ◌<◌, map, IfOk, OnOk};
ghost use Rattle.std.specs.List.{All, filter};
ghost use Rattle.picture.specs.Prelude.{action_of_bar, AreLines, choices_of, element_count, inventory_of, IsActionOf, IsLine, IsPlanOf, stands};

use crate::axis::place_at;
use crate::bars::{Row, stands};
use crate::labels::label_of;
use crate::marks::Bar;
use crate::style::Style;
use base::Memory;
use catalogue::Problem;
use cluster::Instant;
use show::Action;
use slices::Plan;
use std::alloc::Global;

/// How the lines of a row are painted: as bars are, but what leaves a node has the colour of that.
fn paint_in(row: Row, paint: Style) -> Style {
    match row {
        Row::Leaves(_) => Style::Leaves,
        Row::Acts(_) | Row::Nowhere => paint,
    }
}

/// The line of an action.
fn line(
    alloc: Global,
    p: &Problem,
    plan: &Plan,
    action: &Action,
    row: Row,
    span: Instant,
    y: u64,
) -> Result<Bar, Memory>
    requires plan { IsPlanOf p.now.given plan.now }
    requires number { action.now.number < element_count (inventory_of p.now.given) }
    ensures action { IfOk result (λ b. b.action ≡ action.now) }
    ensures placed { IfOk result (IsLine span y) }
{
    let left = place_at(span, action.start);
    let right = place_at(span, action.end);
    let label = label_of(alloc, p, plan, action, row)?;
    Ok(Bar {
        action: *action,
        style: paint_in(row, label.paint),
        left,
        right,
        top: y,
        tip: label.tip,
    })
}

/// Adds the line of an action.
#[tactic(auto, using(crate::proofs::Lists::map_push))]
fn add_line(
    lines: &mut Vec<Bar>,
    alloc: Global,
    p: &Problem,
    plan: &Plan,
    action: &Action,
    row: Row,
    span: Instant,
    y: u64,
) -> Result<(), Memory>
    requires plan { IsPlanOf p.now.given plan.now }
    requires number { action.now.number < element_count (inventory_of p.now.given) }
    requires placed { All (IsLine span y) lines.old.items }
    ensures actions { OnOk result (map action_of_bar lines.new.items ≡ map action_of_bar lines.old.items ++ action.now ∷ []) }
    ensures placed { OnOk result (All (IsLine span y) lines.new.items) }
{
    let line = line(alloc, p, plan, action, row, span, y)?;
    lines.push(line)?;
    Ok(())
}

/// Adds the line of an action, where it stands in the row.
#[tactic(auto, using(crate::proofs::Lists::filter_pass, crate::proofs::Lists::filter_fail))]
fn push_line(
    lines: &mut Vec<Bar>,
    alloc: Global,
    p: &Problem,
    plan: &Plan,
    action: &Action,
    row: Row,
    span: Instant,
    y: u64,
) -> Result<(), Memory>
    requires plan { IsPlanOf p.now.given plan.now }
    requires number { action.now.number < element_count (inventory_of p.now.given) }
    requires placed { All (IsLine span y) lines.old.items }
    ensures actions { OnOk result (map action_of_bar lines.new.items ≡ map action_of_bar lines.old.items ++ filter (stands p.now.given (choices_of plan.now) row) (action.now ∷ [])) }
    ensures placed { OnOk result (All (IsLine span y) lines.new.items) }
{
    if stands(p, plan, row, action) {
        return add_line(lines, alloc, p, plan, action, row, span, y);
    }
    Ok(())
}

/// The lines of a row, in the order of the actions, all at one height.
#[tactic(auto, using(crate::proofs::Lists::filter_more, crate::proofs::Placed::listed_number))]
pub(crate) fn lines_of(
    alloc: Global,
    p: &Problem,
    plan: &Plan,
    actions: &[Action],
    row: Row,
    span: Instant,
    y: u64,
) -> Result<Vec<Bar>, Memory>
    requires plan { IsPlanOf p.now.given plan.now }
    requires actions { All (IsActionOf p.now.given (choices_of plan.now)) actions.now }
    ensures { IfOk result (λ lines. AreLines p.now.given (choices_of plan.now) actions.now row span y lines.items) }
{
    let mut lines = Vec::new(alloc);
    for action in actions {
        push_line(&mut lines, alloc, p, plan, action, row, span, y)?;
    }
    Ok(lines)
}
