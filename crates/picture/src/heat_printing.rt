//! A heat map, printed as SVG.
ghost use Rattle.std.specs.Prelude.{◌≡◌, ◌++◌, IfOk, OnOk};
ghost use Rattle.std.specs.List.{flat_map};
ghost use Rattle.picture.specs.Prelude.{action_line_text, begun_at, change_text, heat_map_text, heat_styles_text, row_text, shade_of, shades_text, shade_text};

use crate::axis::place_at;
use crate::marks::{Bar, Heat, HeatMap, HeatRow};
use crate::printing::{put_curve, put_head, put_marks};
use crate::shade::{HEAT_STYLES, Shade, shade_of};
use crate::sheet::{LEFT, RIGHT};
use base::Memory;
use cluster::Instant;
use std::alloc::Global;
use svg::{Frame, Paper};

/// The line of an action.
#[tactic(auto, unfolding(crate::specs::HeatText::action_line_text))]
fn put_line(paper: &mut Paper, line: &Bar) -> Result<(), Memory>
    ensures { OnOk result (paper.new.text.items ≡ paper.old.text.items ++ action_line_text line.now) }
{
    let width = line.right.saturating_sub(line.left).max(2);
    let frame = Frame {
        x: line.left,
        y: line.top,
        width,
        height: 3,
    };
    paper.told_rect(line.style.class(), frame, &line.tip)
}

#[tactic(auto, using(svg::proofs::Lists::flat_more))]
fn put_lines(paper: &mut Paper, lines: &[Bar]) -> Result<(), Memory>
    ensures { OnOk result (paper.new.text.items ≡ paper.old.text.items ++ flat_map action_line_text lines.now) }
{
    for line in lines {
        put_line(paper, line)?;
    }
    Ok(())
}

/// A shade of a row from one place to another, where that is any way off.
#[tactic(auto, unfolding(crate::specs::HeatText::shade_text))]
fn put_shade(
    paper: &mut Paper,
    row: &HeatRow,
    shade: Shade,
    x: u64,
    right: u64,
) -> Result<(), Memory>
    ensures { OnOk result (paper.new.text.items ≡ paper.old.text.items ++ shade_text row.now shade x right) }
{
    if right <= x {
        return Ok(());
    }
    let frame = Frame {
        x,
        y: row.top,
        width: right - x,
        height: row.tall,
    };
    paper.rect(shade.class(), frame)
}

/// One step of a row, whose shade began at a place. Where the shade began that holds then.
fn put_change(
    paper: &mut Paper,
    row: &HeatRow,
    span: Instant,
    shade: Shade,
    x: u64,
    heat: Heat,
) -> Result<u64, Memory>
    ensures begun { IfOk result (λ begun. begun ≡ begun_at span shade x heat) }
    ensures text { OnOk result (paper.new.text.items ≡ paper.old.text.items ++ change_text span row.now shade x heat) }
{
    if shade.is(shade_of(heat)) {
        return Ok(x);
    }
    let begun = place_at(span, heat.at.min(span));
    put_shade(paper, row, shade, x, begun)?;
    Ok(begun)
}

/// The shades of a row, from the beginning of the axis to its end.
#[tactic(auto, using(crate::proofs::HeatPrinted::change_more))]
fn put_shades(paper: &mut Paper, row: &HeatRow, span: Instant) -> Result<(), Memory>
    ensures { OnOk result (paper.new.text.items ≡ paper.old.text.items ++ shades_text span row.now Shade.Faint 118 row.now.heats.items) }
{
    let mut shade = Shade::Faint;
    let mut x = LEFT;
    for heat in &row.heats {
        x = put_change(paper, row, span, shade, x, *heat)?;
        shade = shade_of(*heat);
    }
    put_shade(paper, row, shade, x, RIGHT)
}

/// What is shown of a node.
#[tactic(auto, unfolding(crate::specs::HeatText::row_text))]
fn put_row(paper: &mut Paper, row: &HeatRow, span: Instant) -> Result<(), Memory>
    ensures { OnOk result (paper.new.text.items ≡ paper.old.text.items ++ row_text span row.now) }
{
    put_shades(paper, row, span)?;
    put_lines(paper, &row.bars)?;
    put_lines(paper, &row.twins)?;
    Ok(())
}

#[tactic(auto, using(svg::proofs::Lists::flat_more))]
fn put_rows(paper: &mut Paper, rows: &[HeatRow], span: Instant) -> Result<(), Memory>
    ensures { OnOk result (paper.new.text.items ≡ paper.old.text.items ++ flat_map (row_text span) rows.now) }
{
    for row in rows {
        put_row(paper, row, span)?;
    }
    Ok(())
}

/// How the shades look.
#[tactic(auto, unfolding(crate::specs::HeatText::heat_styles_text))]
fn put_heat_styles(paper: &mut Paper) -> Result<(), Memory>
    ensures { OnOk result (paper.new.text.items ≡ paper.old.text.items ++ heat_styles_text) }
{
    paper.put(HEAT_STYLES)
}

/// The text of a heat map, in SVG.
#[tactic(auto, unfolding(crate::specs::HeatText::heat_map_text))]
pub fn heat_map_text(alloc: Global, heat_map: &HeatMap) -> Result<Vec<u8>, Memory>
    ensures { IfOk result (λ text. text.items ≡ heat_map_text heat_map.now) }
{
    let mut paper = Paper::new(alloc);
    put_head(&mut paper, &heat_map.title, heat_map.tall)?;
    put_heat_styles(&mut paper)?;
    put_marks(&mut paper, &heat_map.under)?;
    put_curve(&mut paper, &heat_map.acting, heat_map.span)?;
    put_curve(&mut paper, &heat_map.powered, heat_map.span)?;
    put_rows(&mut paper, &heat_map.rows, heat_map.span)?;
    put_lines(&mut paper, &heat_map.loose)?;
    put_marks(&mut paper, &heat_map.over)?;
    paper.close()?;
    Ok(paper.text)
}
