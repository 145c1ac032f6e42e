//! The rows of a heat map, one below the other.
ghost use Rattle.std.specs.Prelude.{◌≡◌, ◌++◌, ◌∷◌, [], ◌+◌, ◌^◌, ◌<◌, ◌≤◌, length, map, IfOk, OnOk};
ghost use Rattle.std.specs.List.{All, filter};
ghost use Rattle.picture.specs.Prelude.{AreHeatRows, AreLoads, choices_of, IsActionOf, IsHeatRow, IsPlanOf, is_shown, node_of_row};

use crate::bars::Row;
use crate::curves::tables;
use crate::heats::{heats_of, most_of};
use crate::lines::lines_of;
use crate::marks::{Heat, HeatRow};
use crate::nodes::is_shown;
use crate::sheet::{LEFT, RIGHT, Sheet};
use crate::strips::peak_style;
use crate::style::Style;
use crate::words::cut;
use base::Memory;
use catalogue::Problem;
use cluster::{Element, Instant, NodeId};
use judge::Loads;
use show::Action;
use slices::Plan;

/// How thick the lines of a row are.
const LINE: u64 = 3;

/// How many characters of a node's name a row has.
const NAMED: usize = 15;

/// The row of a node, from a top on, its heat so tall.
fn row(
    sheet: &Sheet,
    p: &Problem,
    plan: &Plan,
    actions: &[Action],
    instants: &[Instant],
    tables: &[Loads],
    span: Instant,
    n: NodeId,
    above: u64,
    tall: u64,
) -> Result<HeatRow, Memory>
    requires plan { IsPlanOf p.now.given plan.now }
    requires actions { All (IsActionOf p.now.given (choices_of plan.now)) actions.now }
    requires tables { AreLoads p.now.given (choices_of plan.now) instants.now tables.now }
    requires node { n.0 < length p.now.given.nodes }
    requires above { above ≤ 2 ^ 40 }
    requires tall { tall ≤ 8 }
    ensures node { IfOk result (λ row. row.node ≡ n) }
    ensures row { IfOk result (IsHeatRow p.now.given (choices_of plan.now) actions.now span instants.now) }
{
    let alloc = sheet.alloc;
    let top = above + LINE;
    let below = top + tall;
    let bars = lines_of(alloc, p, plan, actions, Row::Acts(n), span, above)?;
    let twins = lines_of(alloc, p, plan, actions, Row::Leaves(n), span, below)?;
    let heats = heats_of(alloc, p, plan, instants, tables, n)?;
    Ok(HeatRow {
        node: n,
        above,
        top,
        tall,
        below,
        bars,
        twins,
        heats,
    })
}

/// What stands beside a row: the name of its node, and its peak.
fn beside(
    sheet: &mut Sheet,
    p: &Problem,
    n: NodeId,
    heats: &[Heat],
    foot: u64,
) -> Result<(), Memory>
    requires { n.0 < length p.now.given.nodes }
{
    let name = cut(sheet.alloc, p.cluster().name(Element::Node(n)), NAMED)?;
    sheet.words(Style::TickLeft, LEFT - 8, foot, name)?;
    let peak = most_of(heats);
    let words = format!(in sheet.alloc; "{peak} %")?;
    sheet.words(peak_style(peak, 100), RIGHT + 8, foot, words)
}

/// Rows, and where the next one begins.
#[derive(Drop)]
pub(crate) struct HeatRows {
    pub rows: Vec<HeatRow>,
    pub foot: u64,
}

/// Adds the row of a node.
#[tactic(auto, using(crate::proofs::Lists::map_push))]
fn add_row(
    made: &mut HeatRows,
    sheet: &mut Sheet,
    p: &Problem,
    plan: &Plan,
    actions: &[Action],
    instants: &[Instant],
    tables: &[Loads],
    span: Instant,
    n: NodeId,
    tall: u64,
) -> Result<(), Memory>
    requires plan { IsPlanOf p.now.given plan.now }
    requires actions { All (IsActionOf p.now.given (choices_of plan.now)) actions.now }
    requires tables { AreLoads p.now.given (choices_of plan.now) instants.now tables.now }
    requires node { n.0 < length p.now.given.nodes }
    requires foot { made.old.foot ≤ 2 ^ 40 }
    requires tall { tall ≤ 8 }
    requires drawn { All (IsHeatRow p.now.given (choices_of plan.now) actions.now span instants.now) made.old.rows.items }
    ensures nodes { OnOk result (map node_of_row made.new.rows.items ≡ map node_of_row made.old.rows.items ++ n.0 ∷ []) }
    ensures drawn { OnOk result (All (IsHeatRow p.now.given (choices_of plan.now) actions.now span instants.now) made.new.rows.items) }
    ensures foot { OnOk result (made.new.foot ≤ made.old.foot + 16) }
{
    let row = row(
        sheet, p, plan, actions, instants, tables, span, n, made.foot, tall,
    )?;
    beside(sheet, p, n, &row.heats, made.foot + tall / 2 + 7)?;
    made.foot += tall + 8;
    made.rows.push(row)?;
    Ok(())
}

/// Adds the row of a node, if it is shown.
#[tactic(auto, using(crate::proofs::Lists::filter_pass, crate::proofs::Lists::filter_fail))]
fn push_row(
    made: &mut HeatRows,
    sheet: &mut Sheet,
    p: &Problem,
    plan: &Plan,
    actions: &[Action],
    instants: &[Instant],
    tables: &[Loads],
    span: Instant,
    n: NodeId,
    tall: u64,
) -> Result<(), Memory>
    requires plan { IsPlanOf p.now.given plan.now }
    requires actions { All (IsActionOf p.now.given (choices_of plan.now)) actions.now }
    requires tables { AreLoads p.now.given (choices_of plan.now) instants.now tables.now }
    requires node { n.0 < length p.now.given.nodes }
    requires foot { made.old.foot ≤ 2 ^ 40 }
    requires tall { tall ≤ 8 }
    requires drawn { All (IsHeatRow p.now.given (choices_of plan.now) actions.now span instants.now) made.old.rows.items }
    ensures nodes { OnOk result (map node_of_row made.new.rows.items ≡ map node_of_row made.old.rows.items ++ filter (is_shown p.now.given (choices_of plan.now) actions.now) (n.0 ∷ [])) }
    ensures drawn { OnOk result (All (IsHeatRow p.now.given (choices_of plan.now) actions.now span instants.now) made.new.rows.items) }
    ensures foot { OnOk result (made.new.foot ≤ made.old.foot + 16) }
{
    if is_shown(p, plan, actions, n) {
        return add_row(
            made, sheet, p, plan, actions, instants, tables, span, n, tall,
        );
    }
    Ok(())
}

/// The rows of all nodes that are shown, in order, from a top on, the heat of each so tall.
#[tactic(auto, using(crate::proofs::Lists::filter_next))]
pub(crate) fn rows_of(
    sheet: &mut Sheet,
    p: &Problem,
    plan: &Plan,
    actions: &[Action],
    instants: &[Instant],
    span: Instant,
    top: u64,
    tall: u64,
) -> Result<HeatRows, Memory>
    requires plan { IsPlanOf p.now.given plan.now }
    requires actions { All (IsActionOf p.now.given (choices_of plan.now)) actions.now }
    requires top { top ≤ 2 ^ 30 }
    requires tall { tall ≤ 8 }
    ensures rows { IfOk result (λ made. AreHeatRows p.now.given (choices_of plan.now) actions.now span instants.now made.rows.items) }
    ensures small { IfOk result (λ made. made.foot ≤ 2 ^ 39) }
{
    let tables = tables(sheet.alloc, p, plan, instants)?;
    let mut made = HeatRows {
        rows: Vec::new(sheet.alloc),
        foot: top,
    };
    for n in 0..p.cluster().nodes().len() {
        push_row(
            &mut made,
            sheet,
            p,
            plan,
            actions,
            instants,
            &tables,
            span,
            NodeId(n as u32),
            tall,
        )?;
    }
    Ok(made)
}
