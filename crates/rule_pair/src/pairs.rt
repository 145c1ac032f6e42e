//! Two machines on one node that a constraint keeps apart, looked for.
ghost use Rattle.std.specs.Prelude.{◌≡◌, ℕ, ◌<◌, ◌≤◌, false, length, IfNone, IfSome, IsTrue};
ghost use Rattle.rule_pair.specs.Prelude.{Apart, Applies, FailHolds, ForbidsPair, form_of as the_form_of, HasPair, IsInPart, IsPair, IsSized, machine_count, node_count, seen, Separates, separation_seen, sure};

use rule_constraint::machines::likely_node;
use rule_frame::{
    Choice, Constraint, Element, Form, Instant, Lens, NodeId, Place, Problem, Reason, Separation,
    View, VmId, Vms, form_of,
};
use standings::host::is_host;
use standings::pairs::is_pair;
use standings::stays::surely_at;

/// How a constraint keeps machines apart, if it does.
pub fn separation_of(constraint: &Constraint) -> Option<Separation<'_>>
    ensures none { IfNone result ((v w : ℕ) → ¬ ForbidsPair constraint.now v w) }
    ensures some { IfSome result (λ s. the_form_of constraint.now ≡ Apart (separation_seen s)) }
{
    match form_of(constraint) {
        Form::Apart(separation) => Some(separation),
        Form::Allowed(..)
        | Form::Together(..)
        | Form::Ordered(..)
        | Form::InTurn(_)
        | Form::Bounded(..)
        | Form::Powered(..)
        | Form::Settled => None,
    }
}

// whether a machine is in one of several lists
fn have(parts: &[Vms], v: VmId) -> bool
    ensures { result ≡ false → (i : ℕ) → ¬ IsInPart parts.now i v.0 }
{
    for i in 0..parts.len() {
        if parts[i].has(v) {
            return true;
        }
    }
    false
}

// whether a machine may be kept apart from others
fn is_separated(separation: &Separation, v: VmId) -> bool
    ensures { result ≡ false → (w : ℕ) → ¬ Separates (separation_seen separation.now) v.0 w }
{
    match separation {
        Separation::Each(machines) | Separation::FromOthers(machines) => machines.has(v),
        Separation::Between(parts) => have(parts.items(), v),
    }
}

// whether a constraint may keep a machine apart from others
fn parts(constraint: &Constraint, v: VmId) -> bool
    ensures { result ≡ false → (w : ℕ) → ¬ ForbidsPair constraint.now v.0 w }
{
    match separation_of(constraint) {
        None => false,
        Some(separation) => is_separated(&separation, v),
    }
}

// a machine that is on a node with this one
fn other_on(
    p: &Problem,
    view: &View,
    constraint: &Constraint,
    v: VmId,
    n: NodeId,
    t: Instant,
) -> Option<VmId>
    requires region { IsSized p.now.given view.now.region.now }
    requires machine { v.0 < machine_count p.now.given }
    ensures none { IfNone result ((w : ℕ) → w < machine_count p.now.given → ¬ IsPair p.now.given (sure p.now.given (seen view.now.region.now view.now.lens) t) constraint.now v.0 w n.0) }
    ensures some { IfSome result (λ w. (w.0 < machine_count p.now.given) × IsPair p.now.given (sure p.now.given (seen view.now.region.now view.now.lens) t) constraint.now v.0 w.0 n.0) }
{
    if !surely_at(p, view, v, n, t) {
        return None;
    }
    for i in 0..p.cluster().machines().len() {
        let w = VmId(i as u32);
        if is_pair(p, view, constraint, v, w, n, t) {
            return Some(w);
        }
    }
    None
}

// a machine and a node on which it is with this one
fn pair_with(
    p: &Problem,
    view: &View,
    constraint: &Constraint,
    v: VmId,
    t: Instant,
) -> Option<(VmId, NodeId)>
    requires region { IsSized p.now.given view.now.region.now }
    requires machine { v.0 < machine_count p.now.given }
    ensures none { IfNone result ((w n : ℕ) → w < machine_count p.now.given → n < node_count p.now.given → ¬ IsPair p.now.given (sure p.now.given (seen view.now.region.now view.now.lens) t) constraint.now v.0 w n) }
    ensures some { IfSome result (λ x. (x.0.0 < machine_count p.now.given) × (x.1.0 < node_count p.now.given) × IsPair p.now.given (sure p.now.given (seen view.now.region.now view.now.lens) t) constraint.now v.0 x.0.0 x.1.0) }
{
    if !parts(constraint, v) {
        return None;
    }
    for i in 0..p.cluster().nodes().len() {
        let n = NodeId(i as u32);
        if let Some(w) = other_on(p, view, constraint, v, n, t) {
            return Some((w, n));
        }
    }
    None
}

// whether a machine may surely be on a node: it is its host, or the only place of its rows
fn may_surely_be(p: &Problem, view: &View, w: VmId, n: NodeId) -> bool
    requires region { IsSized p.now.given view.now.region.now }
    requires machine { w.0 < machine_count p.now.given }
{
    if is_host(p, w, n) {
        return true;
    }
    let domain = view.region.domain(Element::Vm(w));
    match domain.rows() {
        [row] => row.place == Place::At(n),
        _ => false,
    }
}

// whether two machines are seen to be on a node, of which the second one is not set to a choice
fn is_pair_with(
    p: &Problem,
    view: &View,
    constraint: &Constraint,
    v: VmId,
    w: VmId,
    n: NodeId,
    t: Instant,
) -> bool
    requires region { IsSized p.now.given view.now.region.now }
    requires first { v.0 < machine_count p.now.given }
    requires second { w.0 < machine_count p.now.given }
    ensures { IsTrue result → IsPair p.now.given (sure p.now.given (seen view.now.region.now view.now.lens) t) constraint.now v.0 w.0 n.0 }
{
    may_surely_be(p, view, w, n) && is_pair(p, view, constraint, v, w, n, t)
}

// one of these machines that is on a node with this one
fn member_on(
    p: &Problem,
    view: &View,
    constraint: &Constraint,
    machines: &[VmId],
    v: VmId,
    n: NodeId,
    t: Instant,
) -> Option<VmId>
    requires region { IsSized p.now.given view.now.region.now }
    requires machine { v.0 < machine_count p.now.given }
    ensures { IfSome result (λ w. (w.0 < machine_count p.now.given) × IsPair p.now.given (sure p.now.given (seen view.now.region.now view.now.lens) t) constraint.now v.0 w.0 n.0) }
{
    for w in machines {
        if (w.0 as usize) < p.cluster().machines().len()
            && is_pair_with(p, view, constraint, v, *w, n, t)
        {
            return Some(*w);
        }
    }
    None
}

// one of the machines of parts that is
fn part_on(
    p: &Problem,
    view: &View,
    constraint: &Constraint,
    parts: &[Vms],
    v: VmId,
    n: NodeId,
    t: Instant,
) -> Option<VmId>
    requires region { IsSized p.now.given view.now.region.now }
    requires machine { v.0 < machine_count p.now.given }
    ensures { IfSome result (λ w. (w.0 < machine_count p.now.given) × IsPair p.now.given (sure p.now.given (seen view.now.region.now view.now.lens) t) constraint.now v.0 w.0 n.0) }
{
    for i in 0..parts.len() {
        let found = member_on(p, view, constraint, parts[i].items(), v, n, t);
        if found.is_some() {
            return found;
        }
    }
    None
}

// a machine that is, where that one or this one is to be alone
fn stranger_on(
    p: &Problem,
    view: &View,
    constraint: &Constraint,
    v: VmId,
    n: NodeId,
    t: Instant,
) -> Option<(VmId, VmId, NodeId)>
    requires region { IsSized p.now.given view.now.region.now }
    requires machine { v.0 < machine_count p.now.given }
    requires node { n.0 < node_count p.now.given }
    ensures { IfSome result (λ x. (x.0.0 < machine_count p.now.given) × (x.1.0 < machine_count p.now.given) × (x.2.0 < node_count p.now.given) × IsPair p.now.given (sure p.now.given (seen view.now.region.now view.now.lens) t) constraint.now x.0.0 x.1.0 x.2.0) }
{
    for i in 0..p.cluster().machines().len() {
        let w = VmId(i as u32);
        if !may_surely_be(p, view, w, n) {
            continue;
        }
        if is_pair(p, view, constraint, v, w, n, t) {
            return Some((v, w, n));
        }
        if is_pair(p, view, constraint, w, v, n, t) {
            return Some((w, v, n));
        }
    }
    None
}

// a machine that is, looked for among those that a constraint names, or among all where it keeps its own apart from all others
fn named_on(
    p: &Problem,
    view: &View,
    constraint: &Constraint,
    v: VmId,
    n: NodeId,
    t: Instant,
) -> Option<(VmId, VmId, NodeId)>
    requires region { IsSized p.now.given view.now.region.now }
    requires machine { v.0 < machine_count p.now.given }
    requires node { n.0 < node_count p.now.given }
    ensures { IfSome result (λ x. (x.0.0 < machine_count p.now.given) × (x.1.0 < machine_count p.now.given) × (x.2.0 < node_count p.now.given) × IsPair p.now.given (sure p.now.given (seen view.now.region.now view.now.lens) t) constraint.now x.0.0 x.1.0 x.2.0) }
{
    match separation_of(constraint)? {
        Separation::Each(machines) => {
            let w = member_on(p, view, constraint, machines.items(), v, n, t)?;
            Some((v, w, n))
        }
        Separation::Between(parts) => {
            let w = part_on(p, view, constraint, parts.items(), v, n, t)?;
            Some((v, w, n))
        }
        Separation::FromOthers(_) => stranger_on(p, view, constraint, v, n, t),
    }
}

// two machines and a node that are, of which one is set to a choice, where that is where it is likely to be
fn likely_pair(
    p: &Problem,
    view: &View,
    constraint: &Constraint,
    v: VmId,
    c: Choice,
    t: Instant,
) -> Option<(VmId, VmId, NodeId)>
    requires region { IsSized p.now.given view.now.region.now }
    requires machine { v.0 < machine_count p.now.given }
    ensures { IfSome result (λ x. (x.0.0 < machine_count p.now.given) × (x.1.0 < machine_count p.now.given) × (x.2.0 < node_count p.now.given) × IsPair p.now.given (sure p.now.given (seen view.now.region.now view.now.lens) t) constraint.now x.0.0 x.1.0 x.2.0) }
{
    let n = likely_node(p, v, c)?;
    if n.0 as usize >= p.cluster().nodes().len() {
        return None;
    }
    named_on(p, view, constraint, v, n, t)
}

// two machines and a node that are, of which one is set to a choice
fn pair_set(
    p: &Problem,
    view: &View,
    constraint: &Constraint,
    v: VmId,
    c: Choice,
    t: Instant,
) -> Option<(VmId, VmId, NodeId)>
    requires region { IsSized p.now.given view.now.region.now }
    requires machine { v.0 < machine_count p.now.given }
    ensures { IfSome result (λ x. (x.0.0 < machine_count p.now.given) × (x.1.0 < machine_count p.now.given) × (x.2.0 < node_count p.now.given) × IsPair p.now.given (sure p.now.given (seen view.now.region.now view.now.lens) t) constraint.now x.0.0 x.1.0 x.2.0) }
{
    if let Some(found) = likely_pair(p, view, constraint, v, c, t) {
        return Some(found);
    }
    let (w, n) = pair_with(p, view, constraint, v, t)?;
    Some((v, w, n))
}

/// Two machines and a node on which both surely are, where the constraint keeps them apart. The machine
/// that is set to a choice is tried first.
pub fn pair_on(
    p: &Problem,
    view: &View,
    constraint: &Constraint,
    t: Instant,
) -> Option<(VmId, VmId, NodeId)>
    requires region { IsSized p.now.given view.now.region.now }
    ensures none { IfNone result (¬ HasPair p.now.given (sure p.now.given (seen view.now.region.now view.now.lens) t) constraint.now) }
    ensures some { IfSome result (λ x. (x.0.0 < machine_count p.now.given) × (x.1.0 < machine_count p.now.given) × (x.2.0 < node_count p.now.given) × IsPair p.now.given (sure p.now.given (seen view.now.region.now view.now.lens) t) constraint.now x.0.0 x.1.0 x.2.0) }
{
    let machines = p.cluster().machines().len();
    if let Lens::Set(Element::Vm(v), c) = view.lens {
        if (v.0 as usize) < machines {
            if let Some(found) = pair_set(p, view, constraint, v, c, t) {
                return Some(found);
            }
        }
    }
    for i in 0..machines {
        let v = VmId(i as u32);
        if let Some((w, n)) = pair_with(p, view, constraint, v, t) {
            return Some((v, w, n));
        }
    }
    None
}

/// Why a constraint that keeps machines apart is broken at an instant, in what is seen of a region.
pub fn pair_reason(p: &Problem, view: &View, c: u32, t: Instant) -> Reason
    requires region { IsSized p.now.given view.now.region.now }
    requires constraint { c < length p.now.given.constraints }
    requires within { t ≤ p.now.given.horizon }
    requires broken { Applies p.now.given c t (HasPair p.now.given (sure p.now.given (seen view.now.region.now view.now.lens) t)) }
    ensures { FailHolds p.now.given (seen view.now.region.now view.now.lens) result }
{
    match pair_on(p, view, &p.constraints()[c as usize], t) {
        Some((v, w, n)) => Reason::Pair(c, t, v, w, n),
        None => unreachable!(),
    }
}
