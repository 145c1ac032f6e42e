//! When the action of a machine surely has started and surely has not ended.
ghost use Rattle.std.specs.Prelude.{◌≡◌, ◌<◌, ◌≤◌, length};
ghost use Rattle.rule_group.specs.Prelude.{choices, Choice as AnyChoice, end_of, HasSpan, IsSized, machine_count, row_at, sets, vm};

use relax::measures::end;
use rule_frame::{Choice, Domain, Element, Problem, Region, Row, VmId};
use standings::numbers::NEVER;

/// From one instant on an action surely has started, and before the other it surely has not ended: it surely acts between
/// the two.
#[derive(Clone, Copy)]
pub struct Span {
    pub from: u64,
    pub until: u64,
}

/// When the action of a row ends that starts first, and when that ends which starts last.
pub fn ends_of(p: &Problem, v: VmId, row: Row) -> (u64, u64)
    requires { v.0 < machine_count p.now.given }
    ensures first { result.0 ≡ end_of p.now.given (vm v.0) (AnyChoice.Act row.place row.lo) }
    ensures last { result.1 ≡ end_of p.now.given (vm v.0) (AnyChoice.Act row.place row.hi) }
{
    let e = Element::Vm(v);
    let first = Choice::Act {
        place: row.place,
        start: row.lo,
    };
    let last = Choice::Act {
        place: row.place,
        start: row.hi,
    };
    (end(p, e, first), end(p, e, last))
}

// the span of some rows, with one more
fn with_row(p: &Problem, v: VmId, domain: &Domain, span: Span, i: usize) -> Span
    requires machine { v.0 < machine_count p.now.given }
    requires row { i < length domain.now.rows }
    requires span { HasSpan p.now.given v.0 (choices domain.now) span }
    ensures { HasSpan p.now.given v.0 (choices domain.now) result }
{
    let row = domain.rows()[i];
    let (first, _) = ends_of(p, v, row);
    Span {
        from: span.from.max(u64::from(row.hi)),
        until: span.until.min(first),
    }
}

// the span of all rows
fn span_of_rows(p: &Problem, v: VmId, domain: &Domain) -> Span
    requires { v.0 < machine_count p.now.given }
    ensures { HasSpan p.now.given v.0 (choices domain.now) result }
{
    let mut span = Span {
        from: 0,
        until: NEVER,
    };
    for i in 0..domain.rows().len() {
        span = with_row(p, v, domain, span, i);
    }
    span
}

/// When the action of a machine surely acts.
pub fn span_of(p: &Problem, g: &Region, v: VmId) -> Span
    requires region { IsSized p.now.given g.now }
    requires machine { v.0 < machine_count p.now.given }
    ensures { HasSpan p.now.given v.0 (sets g.now (vm v.0)) result }
{
    let domain = g.domain(Element::Vm(v));
    if domain.idle() {
        return Span {
            from: NEVER,
            until: 0,
        };
    }
    span_of_rows(p, v, domain)
}
