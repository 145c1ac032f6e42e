//! Whether a reason is seen to refute, by what is known beside the region. A yes is a yes; else it is asked exactly.
ghost use Rattle.std.specs.Prelude.{◌≡◌, ℕ, ◌<◌, length, true, IfSome, IsTrue, Option as AnyOption, slice_get, Some};
ghost use Rattle.quick_checks.specs.Prelude.{AreKnown, AreLegal, Applies, ForbidsPair, ForbidsPlace, IsElement, IsGroup, IsPair, IsPlace, IsSetLoad, IsSized, IsTally, inventory_of, is_rule, machine_count, Refutes, seen, sets, sure};

use crate::known::{Known, is_on};
use crate::members::{self, is_at};
use crate::scattered::is_scattered;
use crate::weighed::{is_above, is_over};
use catalogue::{Constraint, Problem};
use cluster::{Element, Instant, NodeId, VmId};
use domains::View;
use hints::Seats;
use reasons::Reason;
use relax::named::is_named;
use slices::Form;
use slices::form::{Separation, form_of, is_off_limits};

// whether the constraint of a number is seen to let a machine not be on a node
fn bans(p: &Problem, seats: &Seats, c: u32, constraint: &Constraint, v: VmId, n: NodeId) -> bool
    requires { v.0 < machine_count p.now.given }
    ensures { IsTrue result → ForbidsPlace p.now.given constraint.now v.0 n.0 }
{
    match form_of(constraint) {
        Form::Allowed(machines, places) => {
            is_at(machines.items(), seats.place_of(c, v), v) && is_off_limits(p, &places, v, n)
        }
        Form::Apart(..)
        | Form::Together(..)
        | Form::Ordered(..)
        | Form::InTurn(..)
        | Form::Bounded(..)
        | Form::Powered(..)
        | Form::Settled => false,
    }
}

// whether the constraint of a number is seen to keep two machines apart
fn keeps_apart(seats: &Seats, c: u32, constraint: &Constraint, v: VmId, w: VmId) -> bool
    ensures { IsTrue result → ForbidsPair constraint.now v.0 w.0 }
{
    match form_of(constraint) {
        Form::Apart(Separation::Each(machines)) => {
            v.0 != w.0
                && is_at(machines.items(), seats.place_of(c, v), v)
                && is_at(machines.items(), seats.place_of(c, w), w)
        }
        Form::Apart(Separation::Between(_) | Separation::FromOthers(_)) => {
            members::keeps_apart(constraint, v, w)
        }
        Form::Allowed(..)
        | Form::Together(..)
        | Form::Ordered(..)
        | Form::InTurn(..)
        | Form::Bounded(..)
        | Form::Powered(..)
        | Form::Settled => false,
    }
}

// whether two machines are seen to be on a node, where the constraint of a number keeps them apart
fn is_pair(
    p: &Problem,
    view: &View,
    known: &Known,
    c: u32,
    constraint: &Constraint,
    t: Instant,
    v: VmId,
    w: VmId,
    n: NodeId,
) -> bool
    requires region { IsSized p.now.given view.now.region.now }
    requires known { AreKnown p.now.given (sets view.now.region.now) known.now.standings.now }
    requires first { v.0 < machine_count p.now.given }
    requires second { w.0 < machine_count p.now.given }
    ensures { IsTrue result → IsPair p.now.given (sure p.now.given (seen view.now.region.now view.now.lens) t) constraint.now v.0 w.0 n.0 }
{
    if v.0 == w.0 || !keeps_apart(known.seats, c, constraint, v, w) {
        return false;
    }
    let ks = known.standings;
    is_on(p, view, ks, v, n, t) && is_on(p, view, ks, w, n, t)
}

// whether a machine is seen to be on a node, where the constraint of a number lets it not be
fn is_place(
    p: &Problem,
    view: &View,
    known: &Known,
    c: u32,
    constraint: &Constraint,
    t: Instant,
    v: VmId,
    n: NodeId,
) -> bool
    requires region { IsSized p.now.given view.now.region.now }
    requires known { AreKnown p.now.given (sets view.now.region.now) known.now.standings.now }
    requires machine { v.0 < machine_count p.now.given }
    ensures { IsTrue result → IsPlace p.now.given (sure p.now.given (seen view.now.region.now view.now.lens) t) constraint.now v.0 n.0 }
{
    bans(p, known.seats, c, constraint, v, n) && is_on(p, view, known.standings, v, n, t)
}

// whether a constraint applies, and two machines are seen to be on a node that it keeps apart
fn pair_applies(
    p: &Problem,
    view: &View,
    known: &Known,
    c: u32,
    t: Instant,
    v: VmId,
    w: VmId,
    n: NodeId,
) -> bool
    requires region { IsSized p.now.given view.now.region.now }
    requires known { AreKnown p.now.given (sets view.now.region.now) known.now.standings.now }
    requires constraint { c < length p.now.given.constraints }
    requires first { v.0 < machine_count p.now.given }
    requires second { w.0 < machine_count p.now.given }
    ensures { IsTrue result → Applies p.now.given c t (λ k. IsPair p.now.given (sure p.now.given (seen view.now.region.now view.now.lens) t) k v.0 w.0 n.0) }
{
    p.applies(c, t) && is_pair(p, view, known, c, &p.constraints()[c as usize], t, v, w, n)
}

// whether it applies, and a machine is seen to be on a node where it lets it not be
fn place_applies(
    p: &Problem,
    view: &View,
    known: &Known,
    c: u32,
    t: Instant,
    v: VmId,
    n: NodeId,
) -> bool
    requires region { IsSized p.now.given view.now.region.now }
    requires known { AreKnown p.now.given (sets view.now.region.now) known.now.standings.now }
    requires constraint { c < length p.now.given.constraints }
    requires machine { v.0 < machine_count p.now.given }
    ensures { IsTrue result → Applies p.now.given c t (λ k. IsPlace p.now.given (sure p.now.given (seen view.now.region.now view.now.lens) t) k v.0 n.0) }
{
    p.applies(c, t) && is_place(p, view, known, c, &p.constraints()[c as usize], t, v, n)
}

// whether it applies, and no group is seen to have all its members
fn group_applies(p: &Problem, view: &View, known: &Known, c: u32, t: Instant) -> bool
    requires region { IsSized p.now.given view.now.region.now }
    requires known { AreKnown p.now.given (sets view.now.region.now) known.now.standings.now }
    requires constraint { c < length p.now.given.constraints }
    ensures { IsTrue result → Applies p.now.given c t (IsGroup p.now.given (sure p.now.given (seen view.now.region.now view.now.lens) t)) }
{
    p.applies(c, t) && is_scattered(p, view, known.standings, &p.constraints()[c as usize], t)
}

// whether machines are seen to hold more on the nodes of the constraint of a number than its amount
fn is_exceeded(
    p: &Problem,
    view: &View,
    known: &Known,
    c: u32,
    constraint: &Constraint,
    t: Instant,
) -> bool
    requires region { IsSized p.now.given view.now.region.now }
    requires legal { AreLegal p.now.given (sets view.now.region.now) }
    requires known { AreKnown p.now.given (sets view.now.region.now) known.now.standings.now }
    requires tally { IfSome known.now.tally (IsTally p.now.given (sets view.now.region.now)) }
    requires there { slice_get p.now.given.constraints c ≡ Some constraint.now }
    requires rule { is_rule (inventory_of p.now.given) constraint.now ≡ true }
    ensures { IsTrue result → IsSetLoad p.now.given (sure p.now.given (seen view.now.region.now view.now.lens) t) constraint.now }
{
    match form_of(constraint) {
        Form::Bounded(weight, nodes, amount) => {
            is_above(p, view, known, c, weight, nodes, amount, t)
        }
        Form::Apart(..)
        | Form::Allowed(..)
        | Form::Together(..)
        | Form::Ordered(..)
        | Form::InTurn(..)
        | Form::Powered(..)
        | Form::Settled => false,
    }
}

// whether it applies, and machines are seen to hold more on its nodes than its amount
fn amount_applies(p: &Problem, view: &View, known: &Known, c: u32, t: Instant) -> bool
    requires region { IsSized p.now.given view.now.region.now }
    requires legal { AreLegal p.now.given (sets view.now.region.now) }
    requires known { AreKnown p.now.given (sets view.now.region.now) known.now.standings.now }
    requires tally { IfSome known.now.tally (IsTally p.now.given (sets view.now.region.now)) }
    requires constraint { c < length p.now.given.constraints }
    ensures { IsTrue result → Applies p.now.given c t (IsSetLoad p.now.given (sure p.now.given (seen view.now.region.now view.now.lens) t)) }
{
    p.applies(c, t) && is_exceeded(p, view, known, c, &p.constraints()[c as usize], t)
}

/// Whether it is seen that a reason refutes: that of a load by the machines near its first node, those of one or two
/// machines by where these surely stand, that of a group by where the member goes that is cut, that of an amount by the
/// machines near its nodes.
pub fn is_seen(p: &Problem, known: &Known, view: &View, reason: &Reason) -> bool
    requires region { IsSized p.now.given view.now.region.now }
    requires legal { AreLegal p.now.given (sets view.now.region.now) }
    requires known { AreKnown p.now.given (sets view.now.region.now) known.now.standings.now }
    requires tally { IfSome known.now.tally (IsTally p.now.given (sets view.now.region.now)) }
    ensures { IsTrue result → (bound : AnyOption ℕ) → Refutes p.now.given bound (seen view.now.region.now view.now.lens) reason.now }
{
    if !is_named(p, reason) {
        return false;
    }
    match reason {
        Reason::Load(t, r, set) => is_over(p, view, known, *r, set, *t),
        Reason::Pair(c, t, v, w, n) => pair_applies(p, view, known, *c, *t, *v, *w, *n),
        Reason::Place(c, t, v, n) => place_applies(p, view, known, *c, *t, *v, *n),
        Reason::Group(c, t) => group_applies(p, view, known, *c, *t),
        Reason::SetLoad(c, t) => amount_applies(p, view, known, *c, *t),
        Reason::Empty(_)
        | Reason::Bound
        | Reason::Power(..)
        | Reason::Usable(..)
        | Reason::Hall(..) => false,
    }
}
