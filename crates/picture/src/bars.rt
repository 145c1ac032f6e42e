//! The bars of a plan: where each action acts, and when.
ghost use Rattle.std.specs.Prelude.{◌≡◌, ◌++◌, ◌∷◌, [], ◌+◌, ◌*◌, ◌^◌, ◌<◌, ◌≤◌, length, map, IfOk, OnOk};
ghost use Rattle.std.specs.List.{All, filter};
ghost use Rattle.picture.specs.Prelude.{acting_node, action_of_bar, AreBars, choices_of, element_count, goes_elsewhere, inventory_of, IsActionOf, IsElement, IsPlaced, IsPlanOf, is_node, stands};

use crate::axis::place_at;
use crate::labels::{label_of, put_label, spot_of};
use crate::marks::Bar;
use crate::rows::Rows;
use crate::sheet::{LANE, Sheet};
use crate::style::Style;
use crate::words::width_of;
use base::Memory;
use catalogue::Problem;
use cluster::{Choice, Element, Instant, NodeId};
use show::{Action, host_of, target_of};
use slices::Plan;

/// Whose bars: of the actions that act on a node, the twins of those that leave it, or of the
/// actions that act on no node.
#[derive(Clone, Copy, Debug, PartialEq, Eq)]
pub enum Row {
    Acts(NodeId),
    Leaves(NodeId),
    Nowhere,
}

/// The node on which an action acts.
fn acting_node(p: &Problem, e: Element, choice: Choice) -> Option<NodeId>
    requires { IsElement p.now.given e }
    ensures { result ≡ acting_node p.now.given e choice }
{
    match e {
        Element::Node(n) => Some(n),
        Element::Vm(_) => match target_of(choice) {
            Some(n) => Some(n),
            None => host_of(p, e),
        },
    }
}

fn is_node(node: Option<NodeId>, n: NodeId) -> bool
    ensures { result ≡ is_node n.0 node }
{
    match node {
        Some(m) => m.0 == n.0,
        None => false,
    }
}

fn goes_elsewhere(node: Option<NodeId>, n: NodeId) -> bool
    ensures { result ≡ goes_elsewhere n.0 node }
{
    match node {
        Some(m) => m.0 != n.0,
        None => false,
    }
}

/// Whether the bar of an action stands in a row.
#[tactic(auto, unfolding(crate::specs::Bars::stands))]
pub(crate) fn stands(p: &Problem, plan: &Plan, row: Row, action: &Action) -> bool
    requires plan { IsPlanOf p.now.given plan.now }
    requires number { action.now.number < element_count (inventory_of p.now.given) }
    ensures { result ≡ stands p.now.given (choices_of plan.now) row action.now }
{
    let e = p.cluster().element(action.number);
    let choice = plan.choice(e);
    match row {
        Row::Acts(n) => is_node(acting_node(p, e, choice), n),
        Row::Leaves(n) => is_node(host_of(p, e), n) && goes_elsewhere(target_of(choice), n),
        Row::Nowhere => acting_node(p, e, choice).is_none(),
    }
}

/// Whether white words are read on bars of the style.
fn is_dark(row: Row, style: Style) -> bool {
    match row {
        Row::Leaves(_) => false,
        Row::Acts(_) | Row::Nowhere => style == Style::Moves || style == Style::Power,
    }
}

/// The bar of an action in the first lane that is free, with its label.
fn bar(
    sheet: &mut Sheet,
    rows: &mut Rows,
    p: &Problem,
    plan: &Plan,
    action: &Action,
    row: Row,
    span: Instant,
    top: u64,
) -> Result<Bar, Memory>
    requires plan { IsPlanOf p.now.given plan.now }
    requires number { action.now.number < element_count (inventory_of p.now.given) }
    requires top { top ≤ 2 ^ 40 }
    requires lanes { rows.old.lanes < 2 ^ 22 }
    ensures action { IfOk result (λ b. b.action ≡ action.now) }
    ensures placed { IfOk result (IsPlaced span top (5 + 19 * rows.new.lanes)) }
    ensures kept { rows.old.lanes ≤ rows.new.lanes }
    ensures few { rows.new.lanes ≤ rows.old.lanes + 1 }
{
    let left = place_at(span, action.start);
    let right = place_at(span, action.end);
    let label = label_of(sheet.alloc, p, plan, action, row)?;
    let spot = spot_of(
        left,
        right,
        width_of(&label.words),
        is_dark(row, label.paint),
    );
    let lane = rows.take(spot.from, spot.to)?;
    let y = top + 5 + LANE * lane;
    put_label(
        sheet,
        &label.words,
        spot,
        right,
        y + 12,
        u64::from(action.end),
    )?;
    Ok(Bar {
        action: *action,
        style: label.paint,
        left,
        right,
        top: y,
        tip: label.tip,
    })
}

/// Adds the bar of an action.
#[tactic(auto, using(crate::proofs::Lists::map_push))]
fn add_bar(
    bars: &mut Vec<Bar>,
    sheet: &mut Sheet,
    rows: &mut Rows,
    p: &Problem,
    plan: &Plan,
    action: &Action,
    row: Row,
    span: Instant,
    top: u64,
) -> Result<(), Memory>
    requires plan { IsPlanOf p.now.given plan.now }
    requires number { action.now.number < element_count (inventory_of p.now.given) }
    requires top { top ≤ 2 ^ 40 }
    requires lanes { rows.old.lanes < 2 ^ 22 }
    requires placed { All (IsPlaced span top (5 + 19 * rows.old.lanes)) bars.old.items }
    ensures actions { OnOk result (map action_of_bar bars.new.items ≡ map action_of_bar bars.old.items ++ action.now ∷ []) }
    ensures placed { OnOk result (All (IsPlaced span top (5 + 19 * rows.new.lanes)) bars.new.items) }
    ensures kept { rows.old.lanes ≤ rows.new.lanes }
    ensures few { rows.new.lanes ≤ rows.old.lanes + 1 }
{
    let bar = bar(sheet, rows, p, plan, action, row, span, top)?;
    bars.push(bar)?;
    Ok(())
}

/// Adds the bar of an action, where it stands in the row.
#[tactic(auto, using(crate::proofs::Lists::filter_pass, crate::proofs::Lists::filter_fail))]
fn push_bar(
    bars: &mut Vec<Bar>,
    sheet: &mut Sheet,
    rows: &mut Rows,
    p: &Problem,
    plan: &Plan,
    action: &Action,
    row: Row,
    span: Instant,
    top: u64,
) -> Result<(), Memory>
    requires plan { IsPlanOf p.now.given plan.now }
    requires number { action.now.number < element_count (inventory_of p.now.given) }
    requires top { top ≤ 2 ^ 40 }
    requires lanes { rows.old.lanes < 2 ^ 22 }
    requires placed { All (IsPlaced span top (5 + 19 * rows.old.lanes)) bars.old.items }
    ensures actions { OnOk result (map action_of_bar bars.new.items ≡ map action_of_bar bars.old.items ++ filter (stands p.now.given (choices_of plan.now) row) (action.now ∷ [])) }
    ensures placed { OnOk result (All (IsPlaced span top (5 + 19 * rows.new.lanes)) bars.new.items) }
    ensures kept { rows.old.lanes ≤ rows.new.lanes }
    ensures few { rows.new.lanes ≤ rows.old.lanes + 1 }
{
    if stands(p, plan, row, action) {
        return add_bar(bars, sheet, rows, p, plan, action, row, span, top);
    }
    Ok(())
}

/// The bars of a row, in the order of the actions, each in the first lane that is free.
#[tactic(auto, using(crate::proofs::Lists::filter_more, crate::proofs::Placed::listed_number))]
pub(crate) fn bars_of(
    sheet: &mut Sheet,
    rows: &mut Rows,
    p: &Problem,
    plan: &Plan,
    actions: &[Action],
    row: Row,
    span: Instant,
    top: u64,
) -> Result<Vec<Bar>, Memory>
    requires plan { IsPlanOf p.now.given plan.now }
    requires actions { All (IsActionOf p.now.given (choices_of plan.now)) actions.now }
    requires few { length actions.now ≤ 2 ^ 20 }
    requires top { top ≤ 2 ^ 40 }
    requires lanes { rows.old.lanes ≤ 2 ^ 20 }
    ensures bars { IfOk result (λ bars. AreBars p.now.given (choices_of plan.now) actions.now row span top (5 + 19 * rows.new.lanes) bars.items) }
    ensures kept { rows.old.lanes ≤ rows.new.lanes }
    ensures few { rows.new.lanes ≤ rows.old.lanes + length actions.now }
{
    let mut bars = Vec::new(sheet.alloc);
    for action in actions {
        push_bar(&mut bars, sheet, rows, p, plan, action, row, span, top)?;
    }
    Ok(bars)
}
