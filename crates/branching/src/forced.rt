//! What a known plan forces: a choice of which the other side fails by its cost.
ghost use Rattle.std.specs.Prelude.{IfSome};
ghost use Rattle.branching.specs.Prelude.{IsElement, IsSized, IsUnfixed};

use crate::ends::{first_end, soonest};
use catalogue::Problem;
use cluster::Element;
use domains::{Domain, Lens, Region, Row, View};
use relax::totals::least_cost;

/// The first element of which a plan of that cost forces where it goes, or that it stays.
pub fn forced(p: &Problem, g: &Region, best: u64) -> Option<Element>
    requires { IsSized p.now.given g.now }
    ensures { IfSome result (IsUnfixed g.now) }
{
    let slack = slack(p, g, best);
    for x in 0..p.cluster().element_count() {
        let e = p.cluster().element(x);
        let domain = g.domain(e);
        if !domain.is_one() && is_forced(p, e, domain, slack) {
            return Some(e);
        }
    }
    None
}

// by how much the sum of the least ends stays below a cost
fn slack(p: &Problem, g: &Region, best: u64) -> u64
    requires { IsSized p.now.given g.now }
{
    let view = View {
        region: g,
        lens: Lens::Whole,
    };
    let sum = least_cost(p, &view);
    u64::try_from(sum).map_or(0, |sum| best.saturating_sub(sum))
}

// whether one way of its choices alone stays below the cost
fn is_forced(p: &Problem, e: Element, domain: &Domain, slack: u64) -> bool
    requires { IsElement p.now.given e }
{
    let rows = domain.rows();
    if domain.idle() {
        return has_below(p, e, rows, slack) == 0;
    }
    if rows.len() < 2 {
        return false;
    }
    let least = first_end(p, e, rows[soonest(p, e, rows)]);
    has_below(p, e, rows, least.saturating_add(slack)) == 1
}

// how many rows end before an instant: none, one, or 2 for more
fn has_below(p: &Problem, e: Element, rows: &[Row], limit: u64) -> u32
    requires { IsElement p.now.given e }
{
    let mut found = 0;
    for row in rows {
        if first_end(p, e, *row) < limit {
            if found == 1 {
                return 2;
            }
            found = 1;
        }
    }
    found
}
