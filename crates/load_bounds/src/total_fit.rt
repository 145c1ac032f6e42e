//! Whether each machine fits in what is spare on all nodes together during a period, under any of its choices.
ghost use Rattle.std.specs.Prelude.{◌≡◌, ℕ, ◌+◌, ◌*◌, ◌<◌, ◌≤◌, length, slice_index_or, true, IsTrue};
ghost use Rattle.load_bounds.specs.Prelude.{all_nodes, Amount as AmountOf, base as the_base, Choice as AnyChoice, demand_of, IsElement, IsFixed, IsMost, IsMostUnder, IsSized, leave_of, machine_count, MachinesFit, max_amount, max_capacity, max_nodes, may_wait as the_may_wait, most_anywhere as the_most_anywhere, no_standing, Period as AnyPeriod, Sets, sets, vm};

use crate::total_uses::{may_wait, most_anywhere};
use crate::{Fixed, Leaving, Period, Standing, base, leaves_of};
use catalogue::Problem;
use cluster::{Choice, Element, VmId};
use domains::measure::Measure;
use domains::{Domain, Region, Row};
use slices::Weight;

/// What a machine has of a resource at present, and what it brings.
#[derive(Clone, Copy)]
struct Needs {
    had: u64,
    demand: u64,
}

// until when a choice keeps the host of its machine
fn left_at(p: &Problem, v: VmId, c: Choice) -> u64
    requires machine { IsElement p.now.given (Element.Vm v) }
    ensures { result ≡ leave_of p.now.given v.0 c }
{
    let leaving = Leaving {
        problem: p,
        machine: v,
        leaves: leaves_of(p, v),
    };
    leaving.value(c)
}

// whether a machine uses no more than a bound with a start of a row: what it has before that, and what it brings after its
// end, where the two do not come together
#[tactic(auto, using(crate::proofs::TotalLemmas::ever_under, crate::proofs::TotalLemmas::left_under, crate::proofs::TotalLemmas::later_under))]
fn is_under(
    p: &Problem,
    v: VmId,
    r: u8,
    row: Row,
    start: u32,
    needs: Needs,
    x: Period,
    bound: u64,
) -> bool
    requires machine { IsElement p.now.given (Element.Vm v) }
    requires had { needs.had ≡ the_base p.now.given v.0 (AmountOf r) }
    requires demand { needs.demand ≡ demand_of p.now.given v.0 r }
    requires small { needs.had + needs.demand ≤ 2 * max_amount }
    requires period { x.to ≤ p.now.given.horizon }
    ensures { IsTrue result → IsMostUnder p.now.given v.0 (AnyChoice.Act row.place start) r (all_nodes p.now.given) x bound }
{
    if needs.had + needs.demand <= bound {
        return true;
    }
    if needs.had <= bound && start > x.to {
        return true;
    }
    if needs.demand > bound {
        return false;
    }
    let c = Choice::Act {
        place: row.place,
        start,
    };
    left_at(p, v, c) <= u64::from(x.from)
}

// whether it uses no more with either end of a row; where both are past the period, what it has tells that
#[tactic(auto, using(crate::proofs::TotalLemmas::later_under))]
fn row_is_under(p: &Problem, v: VmId, r: u8, row: Row, needs: Needs, x: Period, bound: u64) -> bool
    requires machine { IsElement p.now.given (Element.Vm v) }
    requires had { needs.had ≡ the_base p.now.given v.0 (AmountOf r) }
    requires demand { needs.demand ≡ demand_of p.now.given v.0 r }
    requires small { needs.had + needs.demand ≤ 2 * max_amount }
    requires period { x.to ≤ p.now.given.horizon }
    ensures first { IsTrue result → IsMostUnder p.now.given v.0 (AnyChoice.Act row.place row.lo) r (all_nodes p.now.given) x bound }
    ensures last { IsTrue result → IsMostUnder p.now.given v.0 (AnyChoice.Act row.place row.hi) r (all_nodes p.now.given) x bound }
{
    if needs.had <= bound && row.lo > x.to && row.hi > x.to {
        return true;
    }
    is_under(p, v, r, row, row.lo, needs, x, bound)
        && is_under(p, v, r, row, row.hi, needs, x, bound)
}

// whether a machine that may stay uses no more than a bound as it is
fn idle_is_under(domain: &Domain, needs: Needs, bound: u64) -> bool
    ensures { IsTrue result → domain.now.idle ≡ true → needs.had ≤ bound }
{
    !domain.idle() || needs.had <= bound
}

// whether a machine uses no more than a bound under any end of its choices
fn ends_are_under(
    p: &Problem,
    g: &Region,
    v: VmId,
    r: u8,
    needs: Needs,
    x: Period,
    bound: u64,
) -> bool
    requires region { IsSized p.now.given g.now }
    requires machine { IsElement p.now.given (Element.Vm v) }
    requires had { needs.had ≡ the_base p.now.given v.0 (AmountOf r) }
    requires demand { needs.demand ≡ demand_of p.now.given v.0 r }
    requires small { needs.had + needs.demand ≤ 2 * max_amount }
    requires period { x.to ≤ p.now.given.horizon }
    ensures { IsTrue result → IsMost p.now.given v.0 (sets g.now (vm v.0)) r (all_nodes p.now.given) x bound }
{
    let domain = g.domain(Element::Vm(v));
    if !idle_is_under(domain, needs, bound) {
        return false;
    }
    let rows = domain.rows();
    for i in 0..rows.len() {
        if !row_is_under(p, v, r, rows[i], needs, x, bound) {
            return false;
        }
    }
    true
}

// whether a machine uses no more than a bound
#[tactic(auto, using(crate::proofs::TotalLemmas::ever_most))]
fn is_below(p: &Problem, g: &Region, v: VmId, r: u8, x: Period, bound: u64) -> bool
    requires region { IsSized p.now.given g.now }
    requires machine { IsElement p.now.given (Element.Vm v) }
    requires resource { r < length p.now.given.resources }
    requires period { x.to ≤ p.now.given.horizon }
    ensures { IsTrue result → IsMost p.now.given v.0 (sets g.now (vm v.0)) r (all_nodes p.now.given) x bound }
{
    let needs = Needs {
        had: base(p, v, Weight::Amount(r)),
        demand: p.demand(v, r),
    };
    needs.had + needs.demand <= bound || ends_are_under(p, g, v, r, needs, x, bound)
}

/// Whether what any machine has and brings is spare: then each uses no more, whatever its choices and numbers are.
pub fn any_fits(p: &Problem, f: &Fixed, r: u8, spare: u64) -> bool
    requires fixed { IsFixed p.now.given f.now }
    requires resource { r < length p.now.given.resources }
    ensures { IsTrue result → (s : Sets) (x : AnyPeriod) (most : ℕ → ℕ) → MachinesFit p.now.given s r (all_nodes p.now.given) x most spare }
{
    f.most(p, r) <= spare
}

// whether a machine with these numbers uses no more than what is spare and what it surely uses itself
fn machine_fits(p: &Problem, g: &Region, v: VmId, k: Standing, r: u8, x: Period, spare: u64) -> bool
    requires region { IsSized p.now.given g.now }
    requires machine { IsElement p.now.given (Element.Vm v) }
    requires resource { r < length p.now.given.resources }
    requires period { x.to ≤ p.now.given.horizon }
    requires small { spare ≤ max_nodes * max_capacity }
    ensures { IsTrue result → IsMost p.now.given v.0 (sets g.now (vm v.0)) r (all_nodes p.now.given) x (spare + the_most_anywhere p.now.given v.0 r x (the_may_wait p.now.given (sets g.now) x v.0) k) }
{
    let bound = spare + most_anywhere(p, v, r, x, may_wait(p, g, v, x), k);
    is_below(p, g, v, r, x, bound)
}

/// Whether each machine uses no more on all nodes during a period, under any end of its choices, than what is spare and
/// what it surely uses itself: those are asked whose present use and demand are more, the greatest first. A no may be one
/// too many.
pub fn machines_fit(
    p: &Problem,
    f: &Fixed,
    g: &Region,
    ks: &[Standing],
    r: u8,
    x: Period,
    spare: u64,
) -> bool
    requires fixed { IsFixed p.now.given f.now }
    requires region { IsSized p.now.given g.now }
    requires count { length ks.now ≡ machine_count p.now.given }
    requires resource { r < length p.now.given.resources }
    requires period { x.to ≤ p.now.given.horizon }
    requires small { spare ≤ max_nodes * max_capacity }
    ensures { IsTrue result → MachinesFit p.now.given (sets g.now) r (all_nodes p.now.given) x (λ v. the_most_anywhere p.now.given v r x (the_may_wait p.now.given (sets g.now) x v) (slice_index_or ks.now v no_standing)) spare }
{
    let order = f.order(p, r);
    // what each before it has and brings is spare
    let first = order.partition_point(|x| x.most <= spare);
    let mut k = order.len();
    'machines: while first < k {
        k -= 1;
        let v = order[k].machine;
        if !machine_fits(p, g, v, ks[v.0 as usize], r, x, spare) {
            return false;
        }
    }
    true
}
