//! Whether two machines are seen to act one after the other, told for all instants at once.
ghost use Rattle.std.specs.Prelude.{◌≡◌, ℕ, ◌<◌, ◌≤◌, length, slice_index_or, IsTrue};
ghost use Rattle.rule_group.specs.Prelude.{AreEndedBy, AreStartedFrom, Choice as AnyChoice, end_of, form_of as the_form_of, IsClean, IsSized, machine_count, no_row, Ordered, rule_watch, sets, vm};

use crate::acting::{ends_of, span_of};
use rule_frame::{Constraint, Element, Problem, Region, Row, VmId};

// whether rows start from an instant on
fn rows_start_from(rows: &[Row], from: u64) -> bool
    ensures first { IsTrue result → (i : ℕ) → i < length rows.now → from ≤ (slice_index_or rows.now i no_row).lo }
    ensures last { IsTrue result → (i : ℕ) → i < length rows.now → from ≤ (slice_index_or rows.now i no_row).hi }
{
    for i in 0..rows.len() {
        if u64::from(rows[i].lo) < from || u64::from(rows[i].hi) < from {
            return false;
        }
    }
    true
}

// whether their actions have ended by an instant
fn rows_end_by(p: &Problem, v: VmId, rows: &[Row], by: u64) -> bool
    requires { v.0 < machine_count p.now.given }
    ensures first { IsTrue result → (i : ℕ) → i < length rows.now → end_of p.now.given (vm v.0) (AnyChoice.Act (slice_index_or rows.now i no_row).place (slice_index_or rows.now i no_row).lo) ≤ by }
    ensures last { IsTrue result → (i : ℕ) → i < length rows.now → end_of p.now.given (vm v.0) (AnyChoice.Act (slice_index_or rows.now i no_row).place (slice_index_or rows.now i no_row).hi) ≤ by }
{
    for i in 0..rows.len() {
        let (first, last) = ends_of(p, v, rows[i]);
        if by < first || by < last {
            return false;
        }
    }
    true
}

// whether a machine has a choice, and starts from an instant on under each end of its choices
fn starts_from(p: &Problem, g: &Region, v: VmId, from: u64) -> bool
    requires region { IsSized p.now.given g.now }
    requires machine { v.0 < machine_count p.now.given }
    ensures { IsTrue result → AreStartedFrom (sets g.now (vm v.0)) from }
{
    let domain = g.domain(Element::Vm(v));
    if domain.is_empty() {
        return false;
    }
    let rows = domain.rows();
    rows_start_from(rows, from)
}

// whether its action has ended by an instant under each end of its choices
fn ends_by(p: &Problem, g: &Region, v: VmId, by: u64) -> bool
    requires region { IsSized p.now.given g.now }
    requires machine { v.0 < machine_count p.now.given }
    ensures { IsTrue result → AreEndedBy p.now.given v.0 (sets g.now (vm v.0)) by }
{
    let domain = g.domain(Element::Vm(v));
    let rows = domain.rows();
    rows_end_by(p, v, rows, by)
}

/// Whether it is seen that the later machine starts after the earlier one has ended, whichever one of them is set to an end
/// of its choices.
pub fn are_ordered(
    p: &Problem,
    g: &Region,
    constraint: &Constraint,
    before: VmId,
    after: VmId,
) -> bool
    requires region { IsSized p.now.given g.now }
    requires before { before.0 < machine_count p.now.given }
    requires after { after.0 < machine_count p.now.given }
    requires form { the_form_of constraint.now ≡ Ordered before after }
    ensures { IsTrue result → IsClean (rule_watch p.now.given constraint.now) p.now.given (sets g.now) }
{
    if before.0 == after.0 {
        return false;
    }
    let earlier = span_of(p, g, before);
    let later = span_of(p, g, after);
    starts_from(p, g, after, earlier.until) && ends_by(p, g, before, later.from)
}
