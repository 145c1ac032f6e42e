//! When the rows of an element end first.
ghost use Rattle.std.specs.Prelude.{◌≡◌, ◌<◌, length};
ghost use Rattle.branching.specs.Prelude.{Act, end_of, IsElement};

use catalogue::Problem;
use cluster::{Choice, Element};
use domains::Row;
use relax::measures::end;

/// When an element's action ends that starts as early as a row lets it.
pub fn first_end(p: &Problem, e: Element, row: Row) -> u64
    requires { IsElement p.now.given e }
    ensures { result ≡ end_of p.now.given e (Act row.place row.lo) }
{
    end(
        p,
        e,
        Choice::Act {
            place: row.place,
            start: row.lo,
        },
    )
}

/// Which row ends first; of several the first.
pub fn soonest(p: &Problem, e: Element, rows: &[Row]) -> usize
    requires element { IsElement p.now.given e }
    requires some { 0 < length rows.now }
    ensures within { result < length rows.now }
{
    let mut best = 0;
    let mut least = first_end(p, e, rows[0]);
    for k in 1..rows.len() {
        let end = first_end(p, e, rows[k]);
        if end < least {
            best = k;
            least = end;
        }
    }
    best
}
