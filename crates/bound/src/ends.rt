//! The least end of one element, and what a change of its domain makes of a sum of least ends.
ghost use Rattle.std.specs.Prelude.{filter, ◌≡◌, ◌+◌, ◌≤◌, IfSome, IsTrue, max, Some};
ghost use Rattle.std.specs.List.{Contains};
ghost use Rattle.cluster.specs.declared.choices.Choice.{Choice as AnyChoice};
ghost use Rattle.relax.specs.Prelude.{AreFewer, choices, domain_before, end_of, IsElement, least, lost_choices, lowest as lowest_of, max_cost, stays};
ghost use Rattle.bound.specs.Losses.{least_with};

use catalogue::Problem;
use cluster::{Choice, Element};
use domains::measure::{Measure, lowest, lowest_lost};
use domains::undo::Lost;
use domains::{Before, Domain, Part};
use relax::measures::{EndOf, end};

/// The least instant at which the action of an element ends under a choice of a domain, 0 where it has no choice.
pub fn least_end(p: &Problem, e: Element, domain: &Domain) -> u64
    requires { IsElement p.now.given e }
    ensures { result ≡ least (end_of p.now.given e) (choices domain.now) }
{
    let ends = EndOf {
        problem: p,
        element: e,
    };
    lowest(domain, None, &ends).unwrap_or(0)
}

/// What a sum with the least end of an element's domain before a change is with that of its domain now.
pub fn after_change(
    p: &Problem,
    e: Element,
    domain: &Domain,
    before: Before,
    kept: &Domain,
    sum: u64,
) -> u64
    requires element { IsElement p.now.given e }
    requires narrowed { AreFewer (choices domain.now) (choices (domain_before before kept.now domain.now)) }
    requires within { least (end_of p.now.given e) (choices (domain_before before kept.now domain.now)) ≤ sum }
    requires small { sum + least (end_of p.now.given e) (choices domain.now)
        ≤ max_cost + least (end_of p.now.given e) (choices (domain_before before kept.now domain.now)) }
    ensures { result + least (end_of p.now.given e) (choices (domain_before before kept.now domain.now))
        ≡ sum + least (end_of p.now.given e) (choices domain.now) }
{
    match before {
        Before::Kept => sum - least_end(p, e, kept) + least_end(p, e, domain),
        Before::Lost(lost) => after_loss(p, e, lost_end(p, e, lost), domain, None, sum),
    }
}

// the least end of what a domain has lost, if there is one
fn lost_end(p: &Problem, e: Element, lost: Lost) -> Option<u64>
    requires { IsElement p.now.given e }
    ensures { result ≡ lowest_of (end_of p.now.given e) (lost_choices lost) }
{
    let ends = EndOf {
        problem: p,
        element: e,
    };
    lowest_lost(lost, &ends)
}

/// What a sum with the least end of an element before it lost choices is with that of what it keeps: the choices of a
/// domain that are not in the part that is left out, if there is one. `gone` is the least end of what it lost, None
/// where it lost nothing.
///
/// Rows are read until one ends no later than what was lost. The last one is asked first: mostly places are taken away
/// from the first one on.
pub fn after_loss(
    p: &Problem,
    e: Element,
    gone: Option<u64>,
    domain: &Domain,
    left_out: Option<Part>,
    sum: u64,
) -> u64
    requires element { IsElement p.now.given e }
    requires within { least_with (end_of p.now.given e) (filter (stays left_out) (choices domain.now)) gone ≤ sum }
    requires small { sum + least (end_of p.now.given e) (filter (stays left_out) (choices domain.now))
        ≤ max_cost + least_with (end_of p.now.given e) (filter (stays left_out) (choices domain.now)) gone }
    ensures { result + least_with (end_of p.now.given e) (filter (stays left_out) (choices domain.now)) gone
        ≡ sum + least (end_of p.now.given e) (filter (stays left_out) (choices domain.now)) }
{
    let Some(floor) = gone else {
        return sum;
    };
    match least_raised(p, e, domain, left_out, floor) {
        None => sum - floor,
        Some(end) => sum + (end - floor),
    }
}

// the first start at the last place of a domain, if it has one
fn last_place(domain: &Domain) -> Option<Choice>
    ensures { IfSome result (λ c. Contains (choices domain.now) c) }
{
    let rows = domain.rows();
    let count = rows.len();
    if count == 0 {
        return None;
    }
    let row = rows[count - 1];
    Some(Choice::Act {
        place: row.place,
        start: row.lo,
    })
}

// whether it ends by an instant
fn is_ended_by(p: &Problem, e: Element, domain: &Domain, by: u64) -> bool
    requires { IsElement p.now.given e }
    ensures { IsTrue result → (c : AnyChoice) × Contains (choices domain.now) c × (end_of p.now.given e c ≤ by) }
{
    match last_place(domain) {
        None => false,
        Some(c) => end(p, e, c) <= by,
    }
}

// whether it is seen that the least end of what a domain keeps, raised to an instant, is that instant
#[tactic(auto, using(crate::proofs::EndLemmas::lowest_at_floor))]
fn is_floor(p: &Problem, e: Element, domain: &Domain, left_out: Option<Part>, floor: u64) -> bool
    requires { IsElement p.now.given e }
    ensures { IsTrue result → lowest_of (λ c. max floor (end_of p.now.given e c)) (filter (stays left_out) (choices domain.now)) ≡ Some floor }
{
    match left_out {
        None => is_ended_by(p, e, domain, floor),
        Some(_) => false,
    }
}

// the least end of what a domain keeps, raised to an instant
fn least_raised(
    p: &Problem,
    e: Element,
    domain: &Domain,
    left_out: Option<Part>,
    floor: u64,
) -> Option<u64>
    requires { IsElement p.now.given e }
    ensures { result ≡ lowest_of (λ c. max floor (end_of p.now.given e c)) (filter (stays left_out) (choices domain.now)) }
{
    if is_floor(p, e, domain, left_out, floor) {
        return Some(floor);
    }
    let ends = EndOf {
        problem: p,
        element: e,
    };
    lowest(domain, left_out, &EndFrom { ends, floor })
}

/// When an element's action ends, raised to an instant: a search for the least stops at the first choice
/// that ends by then.
#[derive(Drop)]
struct EndFrom<'a> {
    ends: EndOf<'a>,
    floor: u64,
}

impl Measure for EndFrom<'_> {
    ghost use Rattle.slices.proofs.Public.{ends_by_duration};
    ghost use Rattle.std.proofs.Common.{arith};

    ghost ready = { λ m. IsElement m.ends.problem.now.given m.ends.element };

    ghost value_of = { λ m c. max m.floor (end_of m.ends.problem.now.given m.ends.element c) };

    ghost floor_of = { λ m. m.floor };

    ghost least_at_ends = { λ m place lo s hi l u. Prim.omega (arith, ends_by_duration m.ends.problem.now.given m.ends.element place lo, ends_by_duration m.ends.problem.now.given m.ends.element place s, ends_by_duration m.ends.problem.now.given m.ends.element place hi) };

    ghost above_floor = { λ m c. Prim.omega arith };

    #[tactic(auto, using(crate::proofs::EndLemmas::raised_climbs))]
    fn climbs(&self) -> bool {
        true
    }

    fn value(&self, c: Choice) -> u64 {
        self.ends.value(c).max(self.floor)
    }

    fn floor(&self) -> u64 {
        self.floor
    }
}
