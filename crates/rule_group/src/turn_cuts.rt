//! Cuts of machines that are to act one after the other: what starts or ends while another one surely has not ended, has
//! started or acts.
ghost use Rattle.std.specs.Prelude.{◌≡◌, ◌<◌, nat_lt, true};
ghost use Rattle.std.specs.List.{list_all};
ghost use Rattle.rule_group.specs.Prelude.{IsSized, machine_count};

use crate::acting::{Span, ends_of, span_of};
use crate::cuts::{instant_of, put};
use rule_frame::{Element, Memory, Part, Problem, Region, Row, Suggestion, VmId};

// the starts of a row up to an instant
fn cut_upto(
    p: &Problem,
    c: u32,
    v: VmId,
    row: Row,
    t: u64,
    them: &mut Vec<Suggestion>,
) -> Result<(), Memory> {
    let t = instant_of(p, t);
    put(them, v, Part::Upto(row.place, t.min(row.hi)), c, t)
}

// those from the first one on that has not ended at an instant
fn cut_from(
    p: &Problem,
    c: u32,
    v: VmId,
    row: Row,
    last: u64,
    t: u64,
    them: &mut Vec<Suggestion>,
) -> Result<(), Memory> {
    let duration = last.saturating_sub(u64::from(row.hi));
    let first = instant_of(p, t.saturating_add(1).saturating_sub(duration));
    let part = Part::From(row.place, first.max(row.lo));
    put(them, v, part, c, instant_of(p, t))
}

// of the later machine what starts before the earlier one may have ended
fn cut_later(
    p: &Problem,
    g: &Region,
    c: u32,
    after: VmId,
    until: u64,
    them: &mut Vec<Suggestion>,
) -> Result<(), Memory>
    requires region { IsSized p.now.given g.now }
    requires machine { after.0 < machine_count p.now.given }
{
    for row in g.domain(Element::Vm(after)).rows() {
        if u64::from(row.lo) < until {
            cut_upto(p, c, after, *row, until.saturating_sub(1), them)?;
        }
    }
    Ok(())
}

// of the earlier one what ends after the later one has started
fn cut_earlier(
    p: &Problem,
    g: &Region,
    c: u32,
    before: VmId,
    from: u64,
    them: &mut Vec<Suggestion>,
) -> Result<(), Memory>
    requires region { IsSized p.now.given g.now }
    requires machine { before.0 < machine_count p.now.given }
{
    for row in g.domain(Element::Vm(before)).rows() {
        let (_, last) = ends_of(p, before, *row);
        if from < last {
            cut_from(p, c, before, *row, last, from, them)?;
        }
    }
    Ok(())
}

/// Puts in the cuts of two machines that are to act one after the other.
pub fn cut_ordered(
    p: &Problem,
    g: &Region,
    c: u32,
    before: VmId,
    after: VmId,
    them: &mut Vec<Suggestion>,
) -> Result<(), Memory>
    requires region { IsSized p.now.given g.now }
    requires before { before.0 < machine_count p.now.given }
    requires after { after.0 < machine_count p.now.given }
{
    let earlier = span_of(p, g, before);
    let later = span_of(p, g, after);
    cut_earlier(p, g, c, before, later.from, them)?;
    cut_later(p, g, c, after, earlier.until, them)
}

// of a row what acts in a span of another machine: from its first start on, and up to its last one
fn cut_row(
    p: &Problem,
    c: u32,
    w: VmId,
    row: Row,
    span: Span,
    them: &mut Vec<Suggestion>,
) -> Result<(), Memory>
    requires { w.0 < machine_count p.now.given }
{
    let (first, last) = ends_of(p, w, row);
    if u64::from(row.hi) < span.until && span.from < last {
        let t = span.from.max(u64::from(row.hi));
        cut_from(p, c, w, row, last, t, them)?;
    }
    if u64::from(row.lo) < span.until && span.from < first {
        cut_upto(p, c, w, row, span.until.min(first).saturating_sub(1), them)?;
    }
    Ok(())
}

// of another machine
fn cut_other(
    p: &Problem,
    g: &Region,
    c: u32,
    v: VmId,
    w: VmId,
    span: Span,
    them: &mut Vec<Suggestion>,
) -> Result<(), Memory>
    requires region { IsSized p.now.given g.now }
    requires machine { w.0 < machine_count p.now.given }
{
    if v.0 == w.0 {
        return Ok(());
    }
    for row in g.domain(Element::Vm(w)).rows() {
        cut_row(p, c, w, *row, span, them)?;
    }
    Ok(())
}

// of each other machine of a list
fn cut_others(
    p: &Problem,
    g: &Region,
    c: u32,
    machines: &[VmId],
    v: VmId,
    them: &mut Vec<Suggestion>,
) -> Result<(), Memory>
    requires region { IsSized p.now.given g.now }
    requires machine { v.0 < machine_count p.now.given }
    requires machines { list_all (λ x. nat_lt x.0 (machine_count p.now.given)) machines.now ≡ true }
{
    let span = span_of(p, g, v);
    if span.until <= span.from {
        return Ok(());
    }
    for w in machines {
        cut_other(p, g, c, v, *w, span, them)?;
    }
    Ok(())
}

/// Puts in the cuts of machines that are to act in turn.
pub fn cut_in_turn(
    p: &Problem,
    g: &Region,
    c: u32,
    machines: &[VmId],
    them: &mut Vec<Suggestion>,
) -> Result<(), Memory>
    requires region { IsSized p.now.given g.now }
    requires machines { list_all (λ x. nat_lt x.0 (machine_count p.now.given)) machines.now ≡ true }
{
    for v in machines {
        cut_others(p, g, c, machines, *v, them)?;
    }
    Ok(())
}
