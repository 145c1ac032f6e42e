//! A picture, drawn.
ghost use Rattle.std.specs.Prelude.{◌≡◌, ◌+◌, ◌^◌, ◌<◌, ◌≤◌, length, IfOk, IfSome};
ghost use Rattle.std.specs.List.{All};
ghost use Rattle.picture.specs.Prelude.{AreBands, AreLoose, choices_of, InRange, IsActionOf, IsPicture, IsPlanOf, span_of};

use crate::axis::{axis, grid, place_at, span_of};
use crate::bands::bands_of;
use crate::bars::{Row, bars_of};
use crate::head::{head, verdict_words};
use crate::marks::{Bar, Picture};
use crate::nodes::is_shown;
use crate::rows::Rows;
use crate::sheet::{GRID_TOP, LANE, MARGIN, PAGE, Sheet};
use crate::style::Style;
use base::Memory;
use catalogue::Problem;
use cluster::{Element, Instant, NodeId};
use judge::Broken;
use replay::events::events;
use show::{Action, listing};
use slices::Plan;
use std::alloc::Global;

/// How many names stand in the line on the nodes without a band.
const NAMED: usize = 8;

/// The bars of what acts on no node, and where they end.
#[derive(Drop)]
struct Loose {
    bars: Vec<Bar>,
    foot: u64,
}

/// What stands beside so many lanes of bars that act on no node, if there are any. Where they end.
fn beside_loose(sheet: &mut Sheet, lanes: u64, top: u64) -> Result<u64, Memory>
    requires lanes { lanes ≤ 2 ^ 20 }
    requires top { top ≤ 2 ^ 40 }
    ensures { IfOk result (λ foot. foot ≤ 2 ^ 41) }
{
    if lanes == 0 {
        return Ok(top);
    }
    let foot = top + LANE * lanes + 10;
    sheet.text(Style::Name, MARGIN, top + 18, "no node")?;
    sheet.line(Style::Separator, MARGIN, foot, PAGE, foot)?;
    Ok(foot)
}

/// The bars of what acts on no node, below the bands.
fn loose_below(
    sheet: &mut Sheet,
    p: &Problem,
    plan: &Plan,
    actions: &[Action],
    span: Instant,
    top: u64,
) -> Result<Loose, Memory>
    requires plan { IsPlanOf p.now.given plan.now }
    requires actions { All (IsActionOf p.now.given (choices_of plan.now)) actions.now }
    requires few { length actions.now ≤ 2 ^ 19 }
    requires top { top ≤ 2 ^ 40 }
    ensures bars { IfOk result (λ loose. AreLoose p.now.given (choices_of plan.now) actions.now span loose.bars.items) }
    ensures small { IfOk result (λ loose. loose.foot ≤ 2 ^ 41) }
{
    let mut rows = Rows::new(sheet.alloc);
    let bars = bars_of(sheet, &mut rows, p, plan, actions, Row::Nowhere, span, top)?;
    let foot = beside_loose(sheet, rows.lanes, top)?;
    Ok(Loose { bars, foot })
}

/// The names of the first nodes without a band, and how many there are.
fn rest_words(alloc: Global, p: &Problem, plan: &Plan, actions: &[Action]) -> Result<String, Memory>
    requires plan { IsPlanOf p.now.given plan.now }
    requires actions { All (IsActionOf p.now.given (choices_of plan.now)) actions.now }
{
    let mut names = String::new(alloc);
    let mut count: usize = 0;
    for n in 0..p.cluster().nodes().len() {
        let node = NodeId(n as u32);
        if !is_shown(p, plan, actions, node) {
            if count < NAMED {
                names.push_str(if count == 0 { " " } else { ", " })?;
                names.push_str(p.cluster().name(Element::Node(node)))?;
            }
            count = count.saturating_add(1);
        }
    }
    let more = if count > NAMED { ", .." } else { "" };
    let word = if count == 1 { "node" } else { "nodes" };
    Ok(format!(in alloc; "{count} {word} more, where nothing happens:{names}{more}")?)
}

/// So far below y, where something stands there.
fn lower(y: u64, by: u64, is_there: bool) -> u64
    requires { y + by < 2 ^ 63 }
    ensures { result ≤ y + by }
{
    if is_there { y + by } else { y }
}

/// What stands below the bands: the nodes that have none, and the axis once more where the body is
/// high. Where the picture ends.
pub(crate) fn finish(
    sheet: &mut Sheet,
    p: &Problem,
    plan: &Plan,
    actions: &[Action],
    is_whole: bool,
    span: Instant,
    foot: u64,
) -> Result<u64, Memory>
    requires plan { IsPlanOf p.now.given plan.now }
    requires actions { All (IsActionOf p.now.given (choices_of plan.now)) actions.now }
    requires foot { foot ≤ 2 ^ 41 }
    ensures { IfOk result (λ end. end ≤ 2 ^ 42) }
{
    if !is_whole {
        let words = rest_words(sheet.alloc, p, plan, actions)?;
        sheet.words(Style::Small, MARGIN, foot + 16, words)?;
    }
    let end = lower(foot, 22, !is_whole);
    let is_high = end > 594;
    if is_high {
        axis(sheet, span, end + 12)?;
    }
    Ok(lower(end, 16, is_high))
}

/// The line at the first broken instant, if there is one.
pub(crate) fn broken_line(
    sheet: &mut Sheet,
    answer: Option<Broken>,
    span: Instant,
    low: u64,
) -> Result<(), Memory> {
    if let Some(broken) = answer {
        let x = place_at(span, broken.at.min(span));
        sheet.line(Style::Broken, x, GRID_TOP, x, low)?;
    }
    Ok(())
}

/// The picture of some actions, and of the loads at some instants.
fn draw(
    alloc: Global,
    p: &Problem,
    plan: &Plan,
    actions: &[Action],
    instants: &[Instant],
    answer: Option<Broken>,
) -> Result<Picture, Memory>
    requires plan { IsPlanOf p.now.given plan.now }
    requires actions { All (IsActionOf p.now.given (choices_of plan.now)) actions.now }
    requires few { length actions.now ≤ 2 ^ 19 }
    requires rule { IfSome answer (λ b. InRange p.now.given b.rule) }
    ensures span { IfOk result (λ picture. picture.span ≡ span_of p.now.given actions.now) }
    ensures bands { IfOk result (λ picture. AreBands p.now.given (choices_of plan.now) actions.now picture.span instants.now picture.bands.items) }
    ensures loose { IfOk result (λ picture. AreLoose p.now.given (choices_of plan.now) actions.now picture.span picture.loose.items) }
{
    let span = span_of(p, actions);
    let mut sheet = Sheet::new(alloc);
    head(&mut sheet, p, plan, actions, answer)?;
    axis(&mut sheet, span, 88)?;
    sheet.text(Style::Tick, MARGIN, 88, "instant")?;
    let made = bands_of(&mut sheet, p, plan, actions, instants, span)?;
    let below = loose_below(&mut sheet, p, plan, actions, span, made.foot)?;
    let is_whole = made.bands.len() == p.cluster().nodes().len();
    let end = finish(&mut sheet, p, plan, actions, is_whole, span, below.foot)?;
    grid(&mut sheet, span, GRID_TOP, below.foot)?;
    broken_line(&mut sheet, answer, span, below.foot)?;
    Ok(Picture {
        title: verdict_words(alloc, p, plan, answer)?,
        tall: end + 12,
        span,
        under: sheet.under,
        bands: made.bands,
        loose: below.bars,
        over: sheet.over,
    })
}

/// The picture of a plan.
///
/// Each action has one bar, whose ends are the places of its start and its end on the axis, in the
/// band of the node on which it acts, or below the bands where it acts on none. What leaves a node
/// has a twin there. The heights of a node's curves are its loads at each instant at which something
/// starts or ends.
pub fn picture_of(
    alloc: Global,
    p: &Problem,
    plan: &Plan,
    answer: Option<Broken>,
) -> Result<Picture, Memory>
    requires plan { IsPlanOf p.now.given plan.now }
    requires rule { IfSome answer (λ b. InRange p.now.given b.rule) }
    ensures picture { IfOk result (IsPicture p.now.given (choices_of plan.now)) }
{
    let actions = listing(alloc, p, plan)?;
    let instants = events(alloc, p, plan)?;
    let picture = draw(alloc, p, plan, &actions, &instants, answer)?;
    Ok(picture)
}
