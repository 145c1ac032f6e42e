//! The picture of a plan, in the form that its size asks for.
ghost use Rattle.std.specs.Prelude.{◌≡◌, IfOk, IfSome};
ghost use Rattle.picture.specs.Prelude.{choices_of, InRange, IsDrawn, IsDrawnAsHeatMap, IsDrawnInBands, IsPlanOf};

use crate::drawing::picture_of;
use crate::heat_map::{heat_map_of, is_large};
use crate::heat_printing::heat_map_text;
use crate::printing::picture_text;
use base::Memory;
use catalogue::Problem;
use judge::Broken;
use show::listing;
use slices::Plan;
use std::alloc::Global;

/// The text of the picture of a plan in bands.
fn draw_in_bands(
    alloc: Global,
    p: &Problem,
    plan: &Plan,
    answer: Option<Broken>,
) -> Result<Vec<u8>, Memory>
    requires plan { IsPlanOf p.now.given plan.now }
    requires rule { IfSome answer (λ b. InRange p.now.given b.rule) }
    ensures { IfOk result (λ text. IsDrawnInBands p.now.given (choices_of plan.now) text.items) }
{
    let picture = picture_of(alloc, p, plan, answer)?;
    let text = picture_text(alloc, &picture)?;
    Ok(text)
}

/// The text of the heat map of a plan.
fn draw_as_heat_map(
    alloc: Global,
    p: &Problem,
    plan: &Plan,
    answer: Option<Broken>,
) -> Result<Vec<u8>, Memory>
    requires plan { IsPlanOf p.now.given plan.now }
    requires rule { IfSome answer (λ b. InRange p.now.given b.rule) }
    ensures { IfOk result (λ text. IsDrawnAsHeatMap p.now.given (choices_of plan.now) text.items) }
{
    let heat_map = heat_map_of(alloc, p, plan, answer)?;
    let text = heat_map_text(alloc, &heat_map)?;
    Ok(text)
}

/// The text of the picture of a plan: a heat map of a large one, as `heat_map_of` makes it, and
/// else bands with bars and curves, as `picture_of` makes them.
pub fn draw_plan(
    alloc: Global,
    p: &Problem,
    plan: &Plan,
    answer: Option<Broken>,
) -> Result<Vec<u8>, Memory>
    requires plan { IsPlanOf p.now.given plan.now }
    requires rule { IfSome answer (λ b. InRange p.now.given b.rule) }
    ensures { IfOk result (λ text. IsDrawn p.now.given (choices_of plan.now) text.items) }
{
    let actions = listing(alloc, p, plan)?;
    if is_large(p, plan, &actions) {
        let text = draw_as_heat_map(alloc, p, plan, answer)?;
        return Ok(text);
    }
    let text = draw_in_bands(alloc, p, plan, answer)?;
    Ok(text)
}
