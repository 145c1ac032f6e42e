//! Parts of one domain with two choices at least.
ghost use Rattle.std.specs.Prelude.{◌≡◌, ◌<◌, ◌≤◌, length};
ghost use Rattle.branching.specs.Prelude.{IsElement, IsFirstFree, IsLeastStart, IsOpen, row_of, Splits, StartsFirst};

use crate::ends::soonest;
use catalogue::Problem;
use cluster::Element;
use domains::{Domain, Part, Row};

/// Idle where it is held, and else the first start of the row that starts first.
pub fn by_least_start(domain: &Domain) -> Part
    requires { IsOpen domain.now }
    ensures part { IsLeastStart domain.now result }
    ensures splits { Splits domain.now result }
{
    let rows = domain.rows();
    if domain.idle() {
        return Part::Idle;
    }
    let row = rows[earliest(rows)];
    Part::Upto(row.place, row.lo)
}

/// Idle where it is held, and else the first half of the first row. That leaves out the row's last start, or else
/// all other rows.
pub fn by_first_half(domain: &Domain) -> Part
    requires { IsOpen domain.now }
    ensures part { IsFirstFree domain.now result }
    ensures splits { Splits domain.now result }
{
    let rows = domain.rows();
    if domain.idle() {
        return Part::Idle;
    }
    let row = rows[0];
    Part::Upto(row.place, row.lo + (row.hi - row.lo) / 2)
}

/// Which row starts first; of several the first.
pub fn earliest(rows: &[Row]) -> usize
    requires { 0 < length rows.now }
    ensures { StartsFirst rows.now result }
{
    let mut best = 0;
    for k in 1..rows.len() {
        if rows[k].lo < rows[best].lo {
            best = k;
        }
    }
    best
}

/// Idle where it is held; else the whole row that ends first, or of a single row its first start.
pub fn by_place(p: &Problem, e: Element, domain: &Domain) -> Part
    requires element { IsElement p.now.given e }
    requires open { IsOpen domain.now }
    ensures { Splits domain.now result }
{
    let rows = domain.rows();
    if domain.idle() {
        return Part::Idle;
    }
    let row = rows[soonest(p, e, rows)];
    let last = if rows.len() == 1 { row.lo } else { row.hi };
    Part::Upto(row.place, last)
}

/// Idle where it is held; else the first start of the row that ends first.
pub fn by_least_end(p: &Problem, e: Element, domain: &Domain) -> Part
    requires element { IsElement p.now.given e }
    requires open { IsOpen domain.now }
    ensures { Splits domain.now result }
{
    let rows = domain.rows();
    if domain.idle() {
        return Part::Idle;
    }
    let row = rows[soonest(p, e, rows)];
    Part::Upto(row.place, row.lo)
}
