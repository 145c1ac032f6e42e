//! A machine where a constraint lets it not be, and one that needs a node that is not usable, looked for.
ghost use Rattle.std.specs.Prelude.{◌≡◌, ℕ, ◌<◌, ◌≤◌, false, length, IfNone, IfSome};
ghost use Rattle.rule_place.specs.Prelude.{Allowed, Applies, broken_at, FailHolds, ForbidsPlace, form_of as the_form_of, HasPlace, Instance, IsNeeded, IsPlace, IsSized, IsUnusable, machine_count, node_count, places_seen, seen, sure, usable_watch};

use relax::elements::{is_place, is_unusable};
use rule_constraint::machines::likely_node;
use rule_frame::{
    Choice, Constraint, Element, Form, Instant, Lens, NodeId, Problem, Reason, View, VmId, Vms,
    form_of,
};
use slices::form::Places;

/// The members of a constraint that lets them be on some nodes alone, and where they may be.
pub fn limits_of(constraint: &Constraint) -> Option<(&Vms, Places<'_>)>
    ensures none { IfNone result ((p : Instance) (v n : ℕ) → ¬ ForbidsPlace p constraint.now v n) }
    ensures some { IfSome result (λ x. the_form_of constraint.now ≡ Allowed x.0.now (places_seen x.1)) }
{
    match form_of(constraint) {
        Form::Allowed(machines, places) => Some((machines, places)),
        Form::Apart(_)
        | Form::Together(..)
        | Form::Ordered(..)
        | Form::InTurn(_)
        | Form::Bounded(..)
        | Form::Powered(..)
        | Form::Settled => None,
    }
}

// whether a constraint may keep a machine off nodes
fn keeps_off(constraint: &Constraint, v: VmId) -> bool
    ensures { result ≡ false → (p : Instance) (n : ℕ) → ¬ ForbidsPlace p constraint.now v.0 n }
{
    match limits_of(constraint) {
        None => false,
        Some((machines, _)) => machines.has(v),
    }
}

// a node on which a machine is, where the constraint lets it not be
fn place_of(
    p: &Problem,
    view: &View,
    constraint: &Constraint,
    v: VmId,
    t: Instant,
) -> Option<NodeId>
    requires region { IsSized p.now.given view.now.region.now }
    requires machine { v.0 < machine_count p.now.given }
    ensures none { IfNone result ((n : ℕ) → n < node_count p.now.given → ¬ IsPlace p.now.given (sure p.now.given (seen view.now.region.now view.now.lens) t) constraint.now v.0 n) }
    ensures some { IfSome result (λ n. (n.0 < node_count p.now.given) × IsPlace p.now.given (sure p.now.given (seen view.now.region.now view.now.lens) t) constraint.now v.0 n.0) }
{
    if !keeps_off(constraint, v) {
        return None;
    }
    for i in 0..p.cluster().nodes().len() {
        let n = NodeId(i as u32);
        if is_place(p, view, constraint, v, n, t) {
            return Some(n);
        }
    }
    None
}

// where a machine that is set to a choice is likely to be, where it is there and the constraint lets it not be
fn likely_place(
    p: &Problem,
    view: &View,
    constraint: &Constraint,
    v: VmId,
    c: Choice,
    t: Instant,
) -> Option<NodeId>
    requires region { IsSized p.now.given view.now.region.now }
    requires machine { v.0 < machine_count p.now.given }
    ensures { IfSome result (λ n. (n.0 < node_count p.now.given) × IsPlace p.now.given (sure p.now.given (seen view.now.region.now view.now.lens) t) constraint.now v.0 n.0) }
{
    let n = likely_node(p, v, c)?;
    if n.0 as usize >= p.cluster().nodes().len() || !is_place(p, view, constraint, v, n, t) {
        return None;
    }
    Some(n)
}

// a node on which a machine is that is set to a choice, where the constraint lets it not be
fn place_set(
    p: &Problem,
    view: &View,
    constraint: &Constraint,
    v: VmId,
    c: Choice,
    t: Instant,
) -> Option<NodeId>
    requires region { IsSized p.now.given view.now.region.now }
    requires machine { v.0 < machine_count p.now.given }
    ensures { IfSome result (λ n. (n.0 < node_count p.now.given) × IsPlace p.now.given (sure p.now.given (seen view.now.region.now view.now.lens) t) constraint.now v.0 n.0) }
{
    match likely_place(p, view, constraint, v, c, t) {
        Some(n) => Some(n),
        None => place_of(p, view, constraint, v, t),
    }
}

/// A machine and a node on which it surely is, where the constraint lets it not be. The machine that is
/// set to a choice is tried first.
pub fn place_on(
    p: &Problem,
    view: &View,
    constraint: &Constraint,
    t: Instant,
) -> Option<(VmId, NodeId)>
    requires region { IsSized p.now.given view.now.region.now }
    ensures none { IfNone result (¬ HasPlace p.now.given (sure p.now.given (seen view.now.region.now view.now.lens) t) constraint.now) }
    ensures some { IfSome result (λ x. (x.0.0 < machine_count p.now.given) × (x.1.0 < node_count p.now.given) × IsPlace p.now.given (sure p.now.given (seen view.now.region.now view.now.lens) t) constraint.now x.0.0 x.1.0) }
{
    let machines = p.cluster().machines().len();
    if let Lens::Set(Element::Vm(v), c) = view.lens {
        if (v.0 as usize) < machines {
            if let Some(n) = place_set(p, view, constraint, v, c, t) {
                return Some((v, n));
            }
        }
    }
    for i in 0..machines {
        let v = VmId(i as u32);
        if let Some(n) = place_of(p, view, constraint, v, t) {
            return Some((v, n));
        }
    }
    None
}

/// A machine that surely is on a node or surely has its image there, where the node is surely not usable. The
/// machine that is set to a choice is tried first.
pub fn machine_in_need(p: &Problem, view: &View, n: NodeId, t: Instant) -> Option<VmId>
    requires region { IsSized p.now.given view.now.region.now }
    requires node { n.0 < node_count p.now.given }
    ensures none { IfNone result (¬ IsNeeded p.now.given n.0 (sure p.now.given (seen view.now.region.now view.now.lens) t)) }
    ensures some { IfSome result (λ v. (v.0 < machine_count p.now.given) × IsUnusable (sure p.now.given (seen view.now.region.now view.now.lens) t) v.0 n.0) }
{
    let machines = p.cluster().machines().len();
    if let Lens::Set(Element::Vm(v), _) = view.lens {
        if (v.0 as usize) < machines && is_unusable(p, view, v, n, t) {
            return Some(v);
        }
    }
    for i in 0..machines {
        let v = VmId(i as u32);
        if is_unusable(p, view, v, n, t) {
            return Some(v);
        }
    }
    None
}

/// Why a constraint on places is broken at an instant, in what is seen of a region.
pub fn place_reason(p: &Problem, view: &View, c: u32, t: Instant) -> Reason
    requires region { IsSized p.now.given view.now.region.now }
    requires constraint { c < length p.now.given.constraints }
    requires within { t ≤ p.now.given.horizon }
    requires broken { Applies p.now.given c t (HasPlace p.now.given (sure p.now.given (seen view.now.region.now view.now.lens) t)) }
    ensures { FailHolds p.now.given (seen view.now.region.now view.now.lens) result }
{
    match place_on(p, view, &p.constraints()[c as usize], t) {
        Some((v, n)) => Reason::Place(c, t, v, n),
        None => unreachable!(),
    }
}

/// Why a node that is needed is not usable at an instant, in what is seen of a region.
pub fn usable_reason(p: &Problem, view: &View, n: NodeId, t: Instant) -> Reason
    requires region { IsSized p.now.given view.now.region.now }
    requires node { n.0 < node_count p.now.given }
    requires within { t ≤ p.now.given.horizon }
    requires broken { broken_at (usable_watch p.now.given n.0) p.now.given t (sure p.now.given (seen view.now.region.now view.now.lens) t) }
    ensures { FailHolds p.now.given (seen view.now.region.now view.now.lens) result }
{
    match machine_in_need(p, view, n, t) {
        Some(v) => Reason::Usable(t, v, n),
        None => unreachable!(),
    }
}
