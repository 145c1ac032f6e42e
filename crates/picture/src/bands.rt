//! The bands of the nodes, one below the other.
ghost use Rattle.std.specs.Prelude.{◌≡◌, ◌++◌, ◌∷◌, [], ◌+◌, ◌*◌, ◌^◌, ◌<◌, ◌≤◌, length, map, IfOk, OnOk};
ghost use Rattle.std.specs.List.{All, filter};
ghost use Rattle.picture.specs.Prelude.{AreBands, AreLoads, choices_of, IsActionOf, IsBand, IsPlanOf, is_shown, node_of_band};

use crate::bars::{Row, bars_of};
use crate::curves::{curves_of, tables};
use crate::marks::Band;
use crate::nodes::is_shown;
use crate::rows::Rows;
use crate::sheet::{FIRST_BAND, LANE, STRIP, Sheet};
use crate::strips::surround;
use base::Memory;
use catalogue::Problem;
use cluster::{Instant, NodeId};
use judge::Loads;
use show::Action;
use slices::Plan;

/// How tall a band is: its lanes, and a strip for each resource.
fn tall_of(lanes: u64, resources: usize) -> u64
    requires lanes { lanes ≤ 2 ^ 21 }
    requires resources { resources ≤ 8 }
    ensures holds { 5 + 19 * lanes ≤ result }
    ensures small { result ≤ 2 ^ 26 }
{
    (LANE * lanes + STRIP * resources as u64 + 10).max(42)
}

/// The band of a node, from a top on.
#[tactic(auto, using(crate::proofs::Placed::bars_more))]
fn band(
    sheet: &mut Sheet,
    p: &Problem,
    plan: &Plan,
    actions: &[Action],
    instants: &[Instant],
    tables: &[Loads],
    span: Instant,
    n: NodeId,
    top: u64,
) -> Result<Band, Memory>
    requires plan { IsPlanOf p.now.given plan.now }
    requires actions { All (IsActionOf p.now.given (choices_of plan.now)) actions.now }
    requires few { length actions.now ≤ 2 ^ 19 }
    requires tables { AreLoads p.now.given (choices_of plan.now) instants.now tables.now }
    requires node { n.0 < length p.now.given.nodes }
    requires top { top ≤ 2 ^ 40 }
    ensures node { IfOk result (λ band. band.node ≡ n) }
    ensures band { IfOk result (IsBand p.now.given (choices_of plan.now) actions.now span instants.now) }
    ensures small { IfOk result (λ band. band.tall ≤ 2 ^ 26) }
{
    let mut rows = Rows::new(sheet.alloc);
    let twins = bars_of(
        sheet,
        &mut rows,
        p,
        plan,
        actions,
        Row::Leaves(n),
        span,
        top,
    )?;
    let bars = bars_of(sheet, &mut rows, p, plan, actions, Row::Acts(n), span, top)?;
    let below = top + LANE * rows.lanes + 6;
    let curves = curves_of(sheet.alloc, p, plan, instants, tables, n, below)?;
    let tall = tall_of(rows.lanes, p.cluster().resources().len());
    surround(sheet, p, plan, n, &curves, span, top, tall)?;
    Ok(Band {
        node: n,
        top,
        tall,
        bars,
        twins,
        curves,
    })
}

/// Bands, and where the next one begins.
#[derive(Drop)]
pub(crate) struct Bands {
    pub bands: Vec<Band>,
    pub foot: u64,
}

/// Adds the band of a node.
#[tactic(auto, using(crate::proofs::Lists::map_push))]
fn add_band(
    made: &mut Bands,
    sheet: &mut Sheet,
    p: &Problem,
    plan: &Plan,
    actions: &[Action],
    instants: &[Instant],
    tables: &[Loads],
    span: Instant,
    n: NodeId,
) -> Result<(), Memory>
    requires plan { IsPlanOf p.now.given plan.now }
    requires actions { All (IsActionOf p.now.given (choices_of plan.now)) actions.now }
    requires few { length actions.now ≤ 2 ^ 19 }
    requires tables { AreLoads p.now.given (choices_of plan.now) instants.now tables.now }
    requires node { n.0 < length p.now.given.nodes }
    requires foot { made.old.foot ≤ 2 ^ 40 }
    requires drawn { All (IsBand p.now.given (choices_of plan.now) actions.now span instants.now) made.old.bands.items }
    ensures nodes { OnOk result (map node_of_band made.new.bands.items ≡ map node_of_band made.old.bands.items ++ n.0 ∷ []) }
    ensures drawn { OnOk result (All (IsBand p.now.given (choices_of plan.now) actions.now span instants.now) made.new.bands.items) }
    ensures foot { OnOk result (made.new.foot ≤ made.old.foot + 2 ^ 26) }
{
    let band = band(
        sheet, p, plan, actions, instants, tables, span, n, made.foot,
    )?;
    made.foot += band.tall;
    made.bands.push(band)?;
    Ok(())
}

/// Adds the band of a node, if it has one.
#[tactic(auto, using(crate::proofs::Lists::filter_pass, crate::proofs::Lists::filter_fail))]
fn push_band(
    made: &mut Bands,
    sheet: &mut Sheet,
    p: &Problem,
    plan: &Plan,
    actions: &[Action],
    instants: &[Instant],
    tables: &[Loads],
    span: Instant,
    n: NodeId,
) -> Result<(), Memory>
    requires plan { IsPlanOf p.now.given plan.now }
    requires actions { All (IsActionOf p.now.given (choices_of plan.now)) actions.now }
    requires few { length actions.now ≤ 2 ^ 19 }
    requires tables { AreLoads p.now.given (choices_of plan.now) instants.now tables.now }
    requires node { n.0 < length p.now.given.nodes }
    requires foot { made.old.foot ≤ 2 ^ 40 }
    requires drawn { All (IsBand p.now.given (choices_of plan.now) actions.now span instants.now) made.old.bands.items }
    ensures nodes { OnOk result (map node_of_band made.new.bands.items ≡ map node_of_band made.old.bands.items ++ filter (is_shown p.now.given (choices_of plan.now) actions.now) (n.0 ∷ [])) }
    ensures drawn { OnOk result (All (IsBand p.now.given (choices_of plan.now) actions.now span instants.now) made.new.bands.items) }
    ensures foot { OnOk result (made.new.foot ≤ made.old.foot + 2 ^ 26) }
{
    if is_shown(p, plan, actions, n) {
        return add_band(made, sheet, p, plan, actions, instants, tables, span, n);
    }
    Ok(())
}

/// The bands of all nodes that have one, in order, from a top on.
#[tactic(auto, using(crate::proofs::Lists::filter_next))]
pub(crate) fn bands_of(
    sheet: &mut Sheet,
    p: &Problem,
    plan: &Plan,
    actions: &[Action],
    instants: &[Instant],
    span: Instant,
) -> Result<Bands, Memory>
    requires plan { IsPlanOf p.now.given plan.now }
    requires actions { All (IsActionOf p.now.given (choices_of plan.now)) actions.now }
    requires few { length actions.now ≤ 2 ^ 19 }
    ensures bands { IfOk result (λ made. AreBands p.now.given (choices_of plan.now) actions.now span instants.now made.bands.items) }
    ensures small { IfOk result (λ made. made.foot ≤ 2 ^ 40) }
{
    let tables = tables(sheet.alloc, p, plan, instants)?;
    let mut made = Bands {
        bands: Vec::new(sheet.alloc),
        foot: FIRST_BAND,
    };
    for n in 0..p.cluster().nodes().len() {
        push_band(
            &mut made,
            sheet,
            p,
            plan,
            actions,
            instants,
            &tables,
            span,
            NodeId(n as u32),
        )?;
    }
    Ok(made)
}
