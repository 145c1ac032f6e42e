//! The most that a machine holds on the nodes of an area, at any instant.
ghost use Rattle.std.specs.Prelude.{◌≡◌, ℕ, ◌+◌, ◌<◌, ◌≤◌, ◌*◌, ◌^◌, [], false, IfNone, IfSome, length, slice_index_or};
ghost use Rattle.std.specs.List.{Contains};
ghost use Rattle.closing.specs.Prelude.{Choice as AnyChoice, choices, goes_in, held_at, if_so, IsElement, IsMostOf, IsMostSure, IsSized, IsWeight, machine_count, max_amount, no_row, nodes_of, sets, unit_of, vm};

use catalogue::Problem;
use cluster::{Choice, Element, Place, VmId};
use domains::{Domain, Region, Row};
use relax::{Area, has, held, is_hosted};
use slices::Weight;

/// The most that a machine holds in one place.
pub fn unit(p: &Problem, v: VmId, weight: Weight) -> u64
    requires machine { IsElement p.now.given (Element.Vm v) }
    requires weight { IsWeight p.now.given weight }
    ensures unit { result ≡ unit_of p.now.given v.0 weight }
    ensures small { result ≤ max_amount }
{
    match weight {
        Weight::Amount(r) => p.demand(v, r),
        Weight::Presence => 1,
        Weight::Image => 1,
    }
}

// whether a place is in an area
fn is_inside(p: &Problem, place: Place, area: &Area) -> bool
    ensures { (start : ℕ) → result ≡ goes_in (AnyChoice.Act place start) (nodes_of p.now.given area.now) }
{
    match place {
        Place::Nowhere => false,
        Place::At(n) => has(p, area, n),
    }
}

// whether a row is at a place in an area
fn has_row_in(p: &Problem, rows: &[Row], area: &Area) -> bool
    ensures { result ≡ false → (k : ℕ) → k < length rows.now → goes_in (AnyChoice.Act (slice_index_or rows.now k no_row).place (slice_index_or rows.now k no_row).lo) (nodes_of p.now.given area.now) ≡ false }
{
    for row in rows {
        if is_inside(p, row.place, area) {
            return true;
        }
    }
    false
}

// a number where something is so
fn counted(is_so: bool, number: u64) -> u64
    ensures { result ≡ if_so is_so number }
{
    if is_so { number } else { 0 }
}

// the most that a machine holds under a choice, at any instant
fn most_under(p: &Problem, v: VmId, weight: Weight, area: &Area, c: Choice) -> u64
    requires machine { v.0 < machine_count p.now.given }
    requires weight { IsWeight p.now.given weight }
    ensures most { (t : ℕ) → held_at p.now.given v.0 weight (nodes_of p.now.given area.now) t c ≤ result }
    ensures small { result ≤ 2 * max_amount }
{
    let one = unit(p, v, weight);
    match c {
        Choice::Idle => held(p, v, weight, area, Choice::Idle, 0),
        Choice::Act { place, start: _ } => {
            counted(is_hosted(p, v, area), one) + counted(is_inside(p, place, area), one)
        }
    }
}

// the last row where the first is in an area, else the first
fn outer_row(p: &Problem, rows: &[Row], area: &Area) -> usize
    requires { 0 < length rows.now }
    ensures { result < length rows.now }
{
    if is_inside(p, rows[0].place, area) {
        rows.len() - 1
    } else {
        0
    }
}

// a choice of a domain, if there is one: Idle, else one that keeps out of the area where the first or the last
// row does
fn outer_choice(p: &Problem, domain: &Domain, area: &Area) -> Option<Choice>
    ensures none { IfNone result (choices domain.now ≡ []) }
    ensures some { IfSome result (Contains (choices domain.now)) }
{
    if domain.idle() {
        return Some(Choice::Idle);
    }
    let rows = domain.rows();
    match rows {
        [] => None,
        [_, ..] => {
            let at = outer_row(p, rows, area);
            Some(Choice::Act {
                place: rows[at].place,
                start: rows[at].lo,
            })
        }
    }
}

/// The most that a machine surely holds, at any instant: what it holds under one of its choices is enough.
pub fn most_sure(p: &Problem, g: &Region, v: VmId, weight: Weight, area: &Area) -> u64
    requires region { IsSized p.now.given g.now }
    requires machine { v.0 < machine_count p.now.given }
    requires weight { IsWeight p.now.given weight }
    ensures most { IsMostSure p.now.given (sets g.now) weight (nodes_of p.now.given area.now) v.0 result }
    ensures small { result ≤ 2 * max_amount }
{
    match outer_choice(p, g.domain(Element::Vm(v)), area) {
        None => 0,
        Some(c) => most_under(p, v, weight, area, c),
    }
}

/// The most that a machine holds under any choice, at any instant, by its host alone.
pub fn most_ever(p: &Problem, v: VmId, weight: Weight, area: &Area) -> u64
    requires machine { v.0 < machine_count p.now.given }
    requires weight { IsWeight p.now.given weight }
    ensures most { (t : ℕ) (c : AnyChoice) → held_at p.now.given v.0 weight (nodes_of p.now.given area.now) t c ≤ result }
    ensures small { result ≤ 2 * max_amount }
{
    let one = unit(p, v, weight);
    counted(is_hosted(p, v, area), one) + one
}

/// The most that it holds under any of its own choices, at any instant.
pub fn most_of(p: &Problem, g: &Region, v: VmId, weight: Weight, area: &Area) -> u64
    requires region { IsSized p.now.given g.now }
    requires machine { v.0 < machine_count p.now.given }
    requires weight { IsWeight p.now.given weight }
    ensures most { IsMostOf p.now.given (sets g.now) weight (nodes_of p.now.given area.now) v.0 result }
    ensures small { result ≤ 2 * max_amount }
{
    let rows = g.domain(Element::Vm(v)).rows();
    if rows.len() == 0 {
        return most_under(p, v, weight, area, Choice::Idle);
    }
    let one = unit(p, v, weight);
    counted(is_hosted(p, v, area), one) + counted(has_row_in(p, rows, area), one)
}
