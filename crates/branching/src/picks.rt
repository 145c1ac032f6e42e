//! Which of the elements that are not fixed is taken, for each reason to take one.
ghost use Rattle.std.specs.Prelude.{IfSome};
ghost use Rattle.branching.specs.Prelude.{IsElement, IsSized, IsUnfixed};

use crate::ends::{first_end, soonest};
use crate::order::Order;
use catalogue::Problem;
use cluster::Element;
use domains::{Domain, Region};

/// The element at a place of an order, where it is one of the problem and not fixed.
pub fn open_at(p: &Problem, g: &Region, order: &Order, k: usize) -> Option<Element>
    requires { IsSized p.now.given g.now }
    ensures { IfSome result (IsUnfixed g.now) }
{
    match order.number(k) {
        None => None,
        Some(x) => open_of(p, g, x),
    }
}

// the element of a number, where it is one of the problem and not fixed
fn open_of(p: &Problem, g: &Region, x: usize) -> Option<Element>
    requires { IsSized p.now.given g.now }
    ensures { IfSome result (IsUnfixed g.now) }
{
    if x >= p.cluster().element_count() {
        return None;
    }
    let e = p.cluster().element(x);
    if g.domain(e).is_one() { None } else { Some(e) }
}

/// The first place of an order, from a place on, at which an element may stay and is not fixed; past all where there
/// is none.
pub fn next_stayer(p: &Problem, g: &Region, order: &Order, from: usize) -> usize
    requires { IsSized p.now.given g.now }
{
    for k in from..order.len() {
        if may_stay(p, g, order, k) {
            return k;
        }
    }
    order.len()
}

fn may_stay(p: &Problem, g: &Region, order: &Order, k: usize) -> bool
    requires { IsSized p.now.given g.now }
{
    match open_at(p, g, order, k) {
        None => false,
        Some(e) => g.domain(e).idle(),
    }
}

/// Of the first elements of an order, so many, and with several places each, the one that can end first; of several the
/// one with the fewest places, and of these the first.
pub fn soonest_of(p: &Problem, g: &Region, order: &Order, count: usize) -> Option<Element>
    requires { IsSized p.now.given g.now }
    ensures { IfSome result (IsUnfixed g.now) }
{
    let mut best = None;
    let mut end = u64::MAX;
    let mut places = usize::MAX;
    for k in 0..count {
        if let Some(e) = open_at(p, g, order, k) {
            let domain = g.domain(e);
            let here = places_of(domain);
            if here < 2 {
                continue;
            }
            let first = least_end(p, e, domain);
            if first < end || first == end && here < places {
                best = Some(e);
                end = first;
                places = here;
            }
        }
    }
    best
}

/// Of the elements of an order, from a place on, and with several places each, the one with the fewest; of several the
/// first.
pub fn fewest_places(p: &Problem, g: &Region, order: &Order, from: usize) -> Option<Element>
    requires { IsSized p.now.given g.now }
    ensures { IfSome result (IsUnfixed g.now) }
{
    let mut best = None;
    let mut places = usize::MAX;
    for k in from..order.len() {
        if let Some(e) = open_at(p, g, order, k) {
            let here = places_of(g.domain(e));
            if 2 <= here && here < places {
                best = Some(e);
                places = here;
                if here == 2 {
                    return best;
                }
            }
        }
    }
    best
}

/// Of the elements that are not fixed, from one on, the one that can start first; of several the first.
pub fn least_start(p: &Problem, g: &Region, first: Element) -> Element
    requires sized { IsSized p.now.given g.now }
    requires open { IsUnfixed g.now first }
    ensures { IsUnfixed g.now result }
{
    let mut best = first;
    let mut least = first_start(g.domain(first));
    for x in p.cluster().number(first) + 1..p.cluster().element_count() {
        if least == 0 {
            return best;
        }
        if let Some(e) = open_of(p, g, x) {
            let here = first_start(g.domain(e));
            if here < least {
                best = e;
                least = here;
            }
        }
    }
    best
}

// how many places are left to an element, with staying
fn places_of(domain: &Domain) -> usize {
    let rows = domain.rows().len();
    if domain.idle() {
        rows.saturating_add(1)
    } else {
        rows
    }
}

// the start of the first row
fn first_start(domain: &Domain) -> u64 {
    match domain.rows() {
        [] => 0,
        [row, ..] => u64::from(row.lo),
    }
}

// the least end, 0 where it may stay
fn least_end(p: &Problem, e: Element, domain: &Domain) -> u64
    requires { IsElement p.now.given e }
{
    let rows = domain.rows();
    if domain.idle() || rows.len() == 0 {
        return 0;
    }
    first_end(p, e, rows[soonest(p, e, rows)])
}
