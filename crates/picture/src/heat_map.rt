//! A heat map, drawn.
ghost use Rattle.std.specs.Prelude.{◌≡◌, ◌≤◌, ◌^◌, length, IfOk, IfSome};
ghost use Rattle.std.specs.List.{All};
ghost use Rattle.picture.specs.Prelude.{AreHeatRows, AreLooseLines, choices_of, InRange, IsActingCurve, IsActionOf, IsHeatMap, is_large, IsPlanOf, IsPoweredCurve, shown_nodes, span_of};

use crate::axis::{axis, grid, span_of};
use crate::bars::Row;
use crate::counts::{acting, beside_count, powered_curve};
use crate::drawing::{broken_line, finish};
use crate::head::{heat_head, verdict_words};
use crate::heat_rows::rows_of;
use crate::lines::lines_of;
use crate::marks::{Bar, HeatMap};
use crate::nodes::is_shown;
use crate::sheet::{GRID_TOP, LEFT, MARGIN, Sheet};
use crate::style::Style;
use base::Memory;
use catalogue::Problem;
use cluster::{Instant, NodeId};
use judge::Broken;
use replay::events::events;
use show::{Action, listing};
use slices::Plan;
use std::alloc::Global;

/// A plan of more actions, or of more nodes to show, is large.
const MANY_ACTIONS: usize = 120;

const MANY_NODES: usize = 40;

/// Where the two curves stand, and where the first row is.
const ACTING_BASE: u64 = 138;

const POWERED_BASE: u64 = 184;

const FIRST_ROW: u64 = 194;

/// Up to so many rows are tall.
const TALL_ROWS: usize = 60;

/// How many nodes are shown.
#[tactic(auto, using(crate::proofs::Lists::length_yes, crate::proofs::Lists::length_no))]
fn shown_count(p: &Problem, plan: &Plan, actions: &[Action]) -> usize
    requires plan { IsPlanOf p.now.given plan.now }
    requires actions { All (IsActionOf p.now.given (choices_of plan.now)) actions.now }
    ensures { result ≡ length (shown_nodes p.now.given (choices_of plan.now) actions.now) }
{
    let mut count = 0;
    for n in 0..p.cluster().nodes().len() {
        if is_shown(p, plan, actions, NodeId(n as u32)) {
            count += 1;
        }
    }
    count
}

/// Whether a plan is large: many act, or many nodes are shown.
pub(crate) fn is_large(p: &Problem, plan: &Plan, actions: &[Action]) -> bool
    requires plan { IsPlanOf p.now.given plan.now }
    requires actions { All (IsActionOf p.now.given (choices_of plan.now)) actions.now }
    ensures { result ≡ is_large p.now.given (choices_of plan.now) actions.now }
{
    actions.len() > MANY_ACTIONS || shown_count(p, plan, actions) > MANY_NODES
}

/// How tall the heat of so many rows is.
fn tall_of(rows: usize) -> u64
    ensures { result ≤ 8 }
{
    if rows <= TALL_ROWS { 8 } else { 4 }
}

/// The lines of what acts on no node, and where they end.
#[derive(Drop)]
struct Loose {
    lines: Vec<Bar>,
    foot: u64,
}

/// What stands beside the line of what acts on no node, if there is one. Where it ends.
fn beside_loose(sheet: &mut Sheet, is_there: bool, top: u64) -> Result<u64, Memory>
    requires { top ≤ 2 ^ 39 }
    ensures { IfOk result (λ foot. foot ≤ 2 ^ 40) }
{
    if !is_there {
        return Ok(top);
    }
    sheet.text(Style::TickLeft, LEFT - 8, top + 9, "no node")?;
    Ok(top + 14)
}

/// The line of what acts on no node, if there is any.
fn loose_below(
    sheet: &mut Sheet,
    p: &Problem,
    plan: &Plan,
    actions: &[Action],
    span: Instant,
    top: u64,
) -> Result<Loose, Memory>
    requires plan { IsPlanOf p.now.given plan.now }
    requires actions { All (IsActionOf p.now.given (choices_of plan.now)) actions.now }
    requires top { top ≤ 2 ^ 39 }
    ensures lines { IfOk result (λ loose. AreLooseLines p.now.given (choices_of plan.now) actions.now span loose.lines.items) }
    ensures small { IfOk result (λ loose. loose.foot ≤ 2 ^ 40) }
{
    let lines = lines_of(sheet.alloc, p, plan, actions, Row::Nowhere, span, top + 4)?;
    let foot = beside_loose(sheet, !lines.is_empty(), top)?;
    Ok(Loose { lines, foot })
}

/// The heat map of some actions, and of how full the nodes are at some instants.
fn draw(
    alloc: Global,
    p: &Problem,
    plan: &Plan,
    actions: &[Action],
    instants: &[Instant],
    answer: Option<Broken>,
) -> Result<HeatMap, Memory>
    requires plan { IsPlanOf p.now.given plan.now }
    requires actions { All (IsActionOf p.now.given (choices_of plan.now)) actions.now }
    requires rule { IfSome answer (λ b. InRange p.now.given b.rule) }
    ensures span { IfOk result (λ heat_map. heat_map.span ≡ span_of p.now.given actions.now) }
    ensures acting { IfOk result (λ heat_map. IsActingCurve actions.now instants.now heat_map.acting) }
    ensures powered { IfOk result (λ heat_map. IsPoweredCurve p.now.given (choices_of plan.now) instants.now heat_map.powered) }
    ensures rows { IfOk result (λ heat_map. AreHeatRows p.now.given (choices_of plan.now) actions.now heat_map.span instants.now heat_map.rows.items) }
    ensures loose { IfOk result (λ heat_map. AreLooseLines p.now.given (choices_of plan.now) actions.now heat_map.span heat_map.loose.items) }
{
    let span = span_of(p, actions);
    let mut sheet = Sheet::new(alloc);
    heat_head(&mut sheet, p, plan, actions, answer)?;
    axis(&mut sheet, span, 88)?;
    sheet.text(Style::Tick, MARGIN, 88, "instant")?;
    let shown = shown_count(p, plan, actions);
    let tall = tall_of(shown);
    let acting = acting(alloc, actions, instants, ACTING_BASE)?;
    beside_count(&mut sheet, &acting, "acting")?;
    let powered = powered_curve(alloc, p, plan, instants, POWERED_BASE)?;
    beside_count(&mut sheet, &powered, "powered")?;
    let made = rows_of(
        &mut sheet, p, plan, actions, instants, span, FIRST_ROW, tall,
    )?;
    let below = loose_below(&mut sheet, p, plan, actions, span, made.foot)?;
    let is_whole = made.rows.len() == p.cluster().nodes().len();
    let end = finish(&mut sheet, p, plan, actions, is_whole, span, below.foot)?;
    grid(&mut sheet, span, GRID_TOP, below.foot)?;
    broken_line(&mut sheet, answer, span, below.foot)?;
    Ok(HeatMap {
        title: verdict_words(alloc, p, plan, answer)?,
        tall: end + 12,
        span,
        under: sheet.under,
        acting,
        powered,
        rows: made.rows,
        loose: below.lines,
        over: sheet.over,
    })
}

/// The heat map of a plan.
///
/// Each action has one line, whose ends are the places of its start and its end on the axis, in the
/// row of the node on which it acts, or below the rows where it acts on none. What leaves a node has
/// a twin there. Between them a row says how full its node is at each instant at which something
/// starts or ends.
pub fn heat_map_of(
    alloc: Global,
    p: &Problem,
    plan: &Plan,
    answer: Option<Broken>,
) -> Result<HeatMap, Memory>
    requires plan { IsPlanOf p.now.given plan.now }
    requires rule { IfSome answer (λ b. InRange p.now.given b.rule) }
    ensures heat_map { IfOk result (IsHeatMap p.now.given (choices_of plan.now)) }
{
    let actions = listing(alloc, p, plan)?;
    let instants = events(alloc, p, plan)?;
    let heat_map = draw(alloc, p, plan, &actions, &instants, answer)?;
    Ok(heat_map)
}
