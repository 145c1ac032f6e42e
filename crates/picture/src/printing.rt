//! A picture, printed as SVG.
ghost use Rattle.std.specs.Prelude.{◌≡◌, ◌++◌, IfOk, OnOk};
ghost use Rattle.std.specs.List.{flat_map};
ghost use Rattle.picture.specs.Prelude.{band_text, bar_text, curve_text, head_text, height_at, load_text, mark_text, picture_text, step_text, steps_text, styles_text, twin_text};

use crate::axis::place_at;
use crate::curves::height_at;
use crate::marks::{Band, Bar, Curve, LoadCurve, Mark, Picture, Step};
use crate::sheet::{LEFT, RIGHT};
use crate::style::STYLES;
use base::Memory;
use cluster::Instant;
use std::alloc::Global;
use svg::{Frame, Paper};

/// The bar of an action, a pixel shorter than the time it takes, so that neighbours stay apart.
#[tactic(auto, unfolding(crate::specs::Text::bar_text))]
fn put_bar(paper: &mut Paper, bar: &Bar) -> Result<(), Memory>
    ensures { OnOk result (paper.new.text.items ≡ paper.old.text.items ++ bar_text bar.now) }
{
    let width = bar.right.saturating_sub(bar.left).saturating_sub(1).max(3);
    let frame = Frame {
        x: bar.left,
        y: bar.top,
        width,
        height: 16,
    };
    paper.told_rect(bar.style.class(), frame, &bar.tip)
}

/// The twin of a bar, which is drawn hollow, with an edge of two pixels.
#[tactic(auto, unfolding(crate::specs::Text::twin_text))]
fn put_twin(paper: &mut Paper, bar: &Bar) -> Result<(), Memory>
    ensures { OnOk result (paper.new.text.items ≡ paper.old.text.items ++ twin_text bar.now) }
{
    let width = bar.right.saturating_sub(bar.left).saturating_sub(2).max(2);
    let frame = Frame {
        x: bar.left,
        y: bar.top,
        width,
        height: 14,
    };
    paper.told_rect(bar.style.class(), frame, &bar.tip)
}

#[tactic(auto, using(svg::proofs::Lists::flat_more))]
fn put_bars(paper: &mut Paper, bars: &[Bar]) -> Result<(), Memory>
    ensures { OnOk result (paper.new.text.items ≡ paper.old.text.items ++ flat_map bar_text bars.now) }
{
    for bar in bars {
        put_bar(paper, bar)?;
    }
    Ok(())
}

#[tactic(auto, using(svg::proofs::Lists::flat_more))]
fn put_twins(paper: &mut Paper, twins: &[Bar]) -> Result<(), Memory>
    ensures { OnOk result (paper.new.text.items ≡ paper.old.text.items ++ flat_map twin_text twins.now) }
{
    for twin in twins {
        put_twin(paper, twin)?;
    }
    Ok(())
}

/// One step of a curve, which was at a height before. The height at which it is then.
fn put_step(
    paper: &mut Paper,
    curve: &Curve,
    span: Instant,
    y: u64,
    step: Step,
) -> Result<u64, Memory>
    ensures height { IfOk result (λ height. height ≡ height_at curve.now step.amount) }
    ensures text { OnOk result (paper.new.text.items ≡ paper.old.text.items ++ step_text span curve.now y step) }
{
    let height = height_at(curve, step.amount);
    if height != y {
        paper.turn(place_at(span, step.at.min(span)), height)?;
    }
    Ok(height)
}

/// The steps of a curve that change its height, from its base on.
#[tactic(auto, using(crate::proofs::Printed::step_more))]
fn put_steps(paper: &mut Paper, curve: &Curve, span: Instant) -> Result<(), Memory>
    ensures { OnOk result (paper.new.text.items ≡ paper.old.text.items ++ steps_text span curve.now curve.now.base curve.now.steps.items) }
{
    let mut y = curve.base;
    for step in &curve.steps {
        y = put_step(paper, curve, span, y, *step)?;
    }
    Ok(())
}

/// A curve, from its base up and, at the end of the axis, down to it.
#[tactic(auto, unfolding(crate::specs::Text::curve_text))]
pub(crate) fn put_curve(paper: &mut Paper, curve: &Curve, span: Instant) -> Result<(), Memory>
    ensures { OnOk result (paper.new.text.items ≡ paper.old.text.items ++ curve_text span curve.now) }
{
    paper.path("load", LEFT, curve.base)?;
    put_steps(paper, curve, span)?;
    paper.turn(RIGHT, curve.base)?;
    paper.end_path()?;
    Ok(())
}

#[tactic(auto, using(svg::proofs::Lists::flat_more))]
fn put_curves(paper: &mut Paper, curves: &[LoadCurve], span: Instant) -> Result<(), Memory>
    ensures { OnOk result (paper.new.text.items ≡ paper.old.text.items ++ flat_map (load_text span) curves.now) }
{
    for load in curves {
        put_curve(paper, &load.curve, span)?;
    }
    Ok(())
}

/// What is shown of a node.
#[tactic(auto, unfolding(crate::specs::Text::band_text))]
fn put_band(paper: &mut Paper, band: &Band, span: Instant) -> Result<(), Memory>
    ensures { OnOk result (paper.new.text.items ≡ paper.old.text.items ++ band_text span band.now) }
{
    paper.shifted("twins")?;
    put_twins(paper, &band.twins)?;
    paper.end_shifted()?;
    put_bars(paper, &band.bars)?;
    put_curves(paper, &band.curves, span)?;
    Ok(())
}

#[tactic(auto, using(svg::proofs::Lists::flat_more))]
fn put_bands(paper: &mut Paper, bands: &[Band], span: Instant) -> Result<(), Memory>
    ensures { OnOk result (paper.new.text.items ≡ paper.old.text.items ++ flat_map (band_text span) bands.now) }
{
    for band in bands {
        put_band(paper, band, span)?;
    }
    Ok(())
}

/// What is drawn beside bars and curves.
fn put_mark(paper: &mut Paper, mark: &Mark) -> Result<(), Memory>
    ensures { OnOk result (paper.new.text.items ≡ paper.old.text.items ++ mark_text mark.now) }
{
    match mark {
        Mark::Rect {
            style,
            x,
            y,
            width,
            height,
        } => {
            let frame = Frame {
                x: *x,
                y: *y,
                width: *width,
                height: *height,
            };
            paper.rect(style.class(), frame)
        }
        Mark::Line {
            style,
            x,
            y,
            right,
            low,
        } => paper.line(style.class(), *x, *y, *right, *low),
        Mark::Words { style, x, y, words } => paper.words(style.class(), *x, *y, words),
    }
}

#[tactic(auto, using(svg::proofs::Lists::flat_more))]
pub(crate) fn put_marks(paper: &mut Paper, marks: &[Mark]) -> Result<(), Memory>
    ensures { OnOk result (paper.new.text.items ≡ paper.old.text.items ++ flat_map mark_text marks.now) }
{
    for mark in marks {
        put_mark(paper, mark)?;
    }
    Ok(())
}

/// How the classes look.
#[tactic(auto, unfolding(crate::specs::Text::styles_text))]
fn put_styles(paper: &mut Paper) -> Result<(), Memory>
    ensures { OnOk result (paper.new.text.items ≡ paper.old.text.items ++ styles_text) }
{
    paper.put(STYLES)
}

/// What stands before all marks: the size, the title, how the classes look, and a white ground.
#[tactic(auto, unfolding(crate::specs::Text::head_text))]
pub(crate) fn put_head(paper: &mut Paper, title: &str, tall: u64) -> Result<(), Memory>
    ensures { OnOk result (paper.new.text.items ≡ paper.old.text.items ++ head_text title.now tall) }
{
    paper.open(1000, tall)?;
    paper.title(title)?;
    put_styles(paper)?;
    let ground = Frame {
        x: 0,
        y: 0,
        width: 1000,
        height: tall,
    };
    paper.rect("page", ground)?;
    Ok(())
}

/// The text of a picture, in SVG.
#[tactic(auto, unfolding(crate::specs::Text::picture_text))]
pub fn picture_text(alloc: Global, picture: &Picture) -> Result<Vec<u8>, Memory>
    ensures { IfOk result (λ text. text.items ≡ picture_text picture.now) }
{
    let mut paper = Paper::new(alloc);
    put_head(&mut paper, &picture.title, picture.tall)?;
    put_marks(&mut paper, &picture.under)?;
    put_bands(&mut paper, &picture.bands, picture.span)?;
    put_bars(&mut paper, &picture.loose)?;
    put_marks(&mut paper, &picture.over)?;
    paper.close()?;
    Ok(paper.text)
}
