//! Whether machines are seen to act in turn, told for all instants at once.
ghost use Rattle.std.specs.Prelude.{◌≡◌, ◌≢◌, ℕ, ◌<◌, false, length, nat_lt, true, slice_index_or, IsTrue};
ghost use Rattle.std.specs.List.{list_all};
ghost use Rattle.rule_group.specs.Prelude.{AvoidsSpan, Choice as AnyChoice, form_of as the_form_of, InTurn, IsClean, IsClearOf, IsMember, IsSized, KeepsOff, machine_count, no_row, rule_watch, sets};

use crate::acting::{Span, ends_of, span_of};
use rule_frame::{Constraint, Element, Problem, Region, Row, VmId};

// whether the actions of a row start after a span or end before it
fn row_keeps_off(p: &Problem, w: VmId, row: Row, span: Span) -> bool
    requires { w.0 < machine_count p.now.given }
    ensures first { IsTrue result → AvoidsSpan p.now.given w.0 span (AnyChoice.Act row.place row.lo) }
    ensures last { IsTrue result → AvoidsSpan p.now.given w.0 span (AnyChoice.Act row.place row.hi) }
{
    let (first, last) = ends_of(p, w, row);
    let low = span.until <= u64::from(row.lo) || first <= span.from;
    let high = span.until <= u64::from(row.hi) || last <= span.from;
    low && high
}

// so for each row
fn rows_keep_off(p: &Problem, w: VmId, rows: &[Row], span: Span) -> bool
    requires { w.0 < machine_count p.now.given }
    ensures first { IsTrue result → (i : ℕ) → i < length rows.now → AvoidsSpan p.now.given w.0 span (AnyChoice.Act (slice_index_or rows.now i no_row).place (slice_index_or rows.now i no_row).lo) }
    ensures last { IsTrue result → (i : ℕ) → i < length rows.now → AvoidsSpan p.now.given w.0 span (AnyChoice.Act (slice_index_or rows.now i no_row).place (slice_index_or rows.now i no_row).hi) }
{
    for i in 0..rows.len() {
        if !row_keeps_off(p, w, rows[i], span) {
            return false;
        }
    }
    true
}

// whether a machine has a choice, and acts in no span under each end of its choices
fn keeps_off(p: &Problem, g: &Region, w: VmId, span: Span) -> bool
    requires region { IsSized p.now.given g.now }
    requires machine { w.0 < machine_count p.now.given }
    ensures { IsTrue result → KeepsOff p.now.given (sets g.now) w.0 span }
{
    let domain = g.domain(Element::Vm(w));
    if domain.is_empty() {
        return false;
    }
    let rows = domain.rows();
    rows_keep_off(p, w, rows, span)
}

// whether a machine is another one, and does not keep off
fn may_meet(p: &Problem, g: &Region, v: VmId, w: VmId, span: Span) -> bool
    requires region { IsSized p.now.given g.now }
    requires machine { w.0 < machine_count p.now.given }
    ensures { result ≡ false → w.0 ≢ v.0 → KeepsOff p.now.given (sets g.now) w.0 span }
{
    w.0 != v.0 && !keeps_off(p, g, w, span)
}

// whether each other machine of a list keeps off
fn others_keep_off(p: &Problem, g: &Region, machines: &[VmId], v: VmId, span: Span) -> bool
    requires region { IsSized p.now.given g.now }
    requires machines { list_all (λ x. nat_lt x.0 (machine_count p.now.given)) machines.now ≡ true }
    ensures { IsTrue result → (w : ℕ) → IsMember machines.now w → w ≢ v.0 → KeepsOff p.now.given (sets g.now) w span }
{
    for i in 0..machines.len() {
        if may_meet(p, g, v, machines[i], span) {
            return false;
        }
    }
    true
}

// whether no other machine of a list may act when one surely does
fn acts_alone(p: &Problem, g: &Region, machines: &[VmId], v: VmId) -> bool
    requires region { IsSized p.now.given g.now }
    requires machine { v.0 < machine_count p.now.given }
    requires machines { list_all (λ x. nat_lt x.0 (machine_count p.now.given)) machines.now ≡ true }
    ensures { IsTrue result → (w : ℕ) → IsMember machines.now w → w ≢ v.0 → IsClearOf p.now.given (sets g.now) v.0 w }
{
    let span = span_of(p, g, v);
    span.until <= span.from || others_keep_off(p, g, machines, v, span)
}

// so for each of them
fn act_alone(p: &Problem, g: &Region, machines: &[VmId]) -> bool
    requires region { IsSized p.now.given g.now }
    requires machines { list_all (λ x. nat_lt x.0 (machine_count p.now.given)) machines.now ≡ true }
    ensures { IsTrue result → (v : ℕ) → IsMember machines.now v → (w : ℕ) → IsMember machines.now w → w ≢ v → IsClearOf p.now.given (sets g.now) v w }
{
    for i in 0..machines.len() {
        if !acts_alone(p, g, machines, machines[i]) {
            return false;
        }
    }
    true
}

/// Whether it is seen that no two machines act at once, whichever one of them is set to an end of its choices.
pub fn are_in_turn(p: &Problem, g: &Region, constraint: &Constraint, machines: &[VmId]) -> bool
    requires region { IsSized p.now.given g.now }
    requires machines { list_all (λ x. nat_lt x.0 (machine_count p.now.given)) machines.now ≡ true }
    requires form { the_form_of constraint.now ≡ InTurn machines.now }
    ensures { IsTrue result → IsClean (rule_watch p.now.given constraint.now) p.now.given (sets g.now) }
{
    act_alone(p, g, machines)
}
