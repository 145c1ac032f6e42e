//! A look at a constraint that tells quickly whether it is kept, and where two machines are not kept apart.
ghost use Rattle.std.specs.Prelude.{◌<◌, ◌≤◌, IfSome, IsTrue, length};
ghost use Rattle.rule_pair.specs.Prelude.{AreGone, AreRight, broken_at, choices, constraint_watch, IsEnd, IsLook, IsMetWith, IsSized, machine_count, node_count, pair_kinds, sets, setting, sure, vm, watch_at};

use crate::clear::{Doubt, Seen, look_over};
use crate::rule::Pairs;
use closing::watch::look_at_constraint;
use machine_bounds::gone::Gone;
use rule_constraint::Kinds;
use rule_constraint::kinds::reason_kind;
use rule_frame::{Choice, Domain, Element, Lens, Look, NodeId, Place, Problem, Region, View, VmId};
use standings::host::is_host;
use standings::numbers::Standing;
use standings::pairs::is_pair;

// whether a place is a node
fn is_at(place: Place, n: NodeId) -> bool {
    match place {
        Place::Nowhere => false,
        Place::At(m) => m.0 == n.0,
    }
}

// the first start at a node, if there is one
fn first_start(domain: &Domain, n: NodeId) -> Option<Choice>
    ensures { IfSome result (IsEnd (choices domain.now)) }
{
    let rows = domain.rows();
    for i in 0..rows.len() {
        let row = rows[i];
        if is_at(row.place, n) {
            return Some(Choice::Act {
                place: row.place,
                start: row.lo,
            });
        }
    }
    None
}

// Idle, where it is one of the choices
fn idle_end(domain: &Domain) -> Option<Choice>
    ensures { IfSome result (IsEnd (choices domain.now)) }
{
    if domain.idle() {
        Some(Choice::Idle)
    } else {
        None
    }
}

// an end of the second machine's choices that may have it at the post
fn end_there(p: &Problem, g: &Region, d: Doubt) -> Option<Choice>
    requires region { IsSized p.now.given g.now }
    requires machine { d.second.0 < machine_count p.now.given }
    ensures { IfSome result (IsEnd (sets g.now (vm d.second.0))) }
{
    let domain = g.domain(Element::Vm(d.second));
    if is_host(p, d.second, d.post.node) {
        idle_end(domain)
    } else {
        first_start(domain, d.post.node)
    }
}

// whether two machines, a node and an instant are those of the problem
fn is_within(p: &Problem, d: Doubt) -> bool
    ensures { IsTrue result → (d.first.0 < machine_count p.now.given) × (d.second.0 < machine_count p.now.given) × (d.post.node.0 < node_count p.now.given) × (d.post.last ≤ p.now.given.horizon) }
{
    let machines = p.cluster().machines().len();
    (d.first.0 as usize) < machines
        && (d.second.0 as usize) < machines
        && (d.post.node.0 as usize) < p.cluster().nodes().len()
        && d.post.last <= p.horizon()
}

// whether two machines, named in an order, break the constraint where the second one in doubt is set to a choice
fn break_so(p: &Problem, g: &Region, c: u32, d: Doubt, choice: Choice, v: VmId, w: VmId) -> bool
    requires region { IsSized p.now.given g.now }
    requires constraint { c < length p.now.given.constraints }
    requires first { v.0 < machine_count p.now.given }
    requires second { w.0 < machine_count p.now.given }
    requires node { d.post.node.0 < node_count p.now.given }
    ensures { IsTrue result → broken_at (constraint_watch p.now.given c) p.now.given d.post.last (sure p.now.given (setting (vm d.second.0) choice (sets g.now)) d.post.last) }
{
    let view = View {
        region: g,
        lens: Lens::Set(Element::Vm(d.second), choice),
    };
    if !p.applies(c, d.post.last) {
        return false;
    }
    let constraint = &p.constraints()[c as usize];
    is_pair(p, &view, constraint, v, w, d.post.node, d.post.last)
}

// whether they do, in either order: a member is named before a machine that is none
fn breaks(p: &Problem, g: &Region, c: u32, d: Doubt, choice: Choice) -> bool
    requires region { IsSized p.now.given g.now }
    requires constraint { c < length p.now.given.constraints }
    requires first { d.first.0 < machine_count p.now.given }
    requires second { d.second.0 < machine_count p.now.given }
    requires node { d.post.node.0 < node_count p.now.given }
    ensures { IsTrue result → broken_at (constraint_watch p.now.given c) p.now.given d.post.last (sure p.now.given (setting (vm d.second.0) choice (sets g.now)) d.post.last) }
{
    break_so(p, g, c, d, choice, d.first, d.second)
        || break_so(p, g, c, d, choice, d.second, d.first)
}

// an end of the second machine's choices under which two machines in doubt are seen to break the constraint
fn broken_end(p: &Problem, g: &Region, c: u32, d: Doubt) -> Option<Choice>
    requires region { IsSized p.now.given g.now }
    requires constraint { c < length p.now.given.constraints }
    ensures within { IfSome result (λ end. d.post.last ≤ p.now.given.horizon) }
    ensures met { IfSome result (IsMetWith (broken_at (constraint_watch p.now.given c) p.now.given d.post.last) p.now.given (sets g.now) d.post.last (vm d.second.0)) }
{
    if !is_within(p, d) {
        return None;
    }
    let end = end_there(p, g, d)?;
    if breaks(p, g, c, d, end) {
        Some(end)
    } else {
        None
    }
}

/// A look at the constraint of a number.
pub fn look_quickly(p: &Problem, g: &Region, kept: &[Standing], gone: &Gone, c: u32) -> Look
    requires region { IsSized p.now.given g.now }
    requires kept { AreRight p.now.given (sets g.now) kept.now }
    requires gone { AreGone (sets g.now) gone.now.bounds gone.now.words.top }
    requires constraint { c < length p.now.given.constraints }
    ensures { IsLook (constraint_watch p.now.given c) p.now.given (sets g.now) result }
{
    match look_over(p, g, kept, gone, &p.constraints()[c as usize]) {
        Seen::Clear => return Look::Clean,
        Seen::Doubtful(d) => {
            if let Some(end) = broken_end(p, g, c, d) {
                return Look::Cut(Element::Vm(d.second), end, d.post.last);
            }
        }
        Seen::Unknown => {}
    }
    look_at_constraint(p, g, c)
}

/// A look at the constraint of a number, where it keeps machines apart.
pub fn look_at_pairs(p: &Problem, g: &Region, kept: &[Standing], gone: &Gone, c: usize) -> Look
    requires region { IsSized p.now.given g.now }
    requires kept { AreRight p.now.given (sets g.now) kept.now }
    requires gone { AreGone (sets g.now) gone.now.bounds gone.now.words.top }
    requires constraint { c < length p.now.given.constraints }
    ensures { IsLook (watch_at pair_kinds p.now.given c) p.now.given (sets g.now) result }
{
    match reason_kind(&p.constraints()[c]) {
        None => Look::Clean,
        Some(kind) => {
            if Pairs.covers(kind) {
                look_quickly(p, g, kept, gone, c as u32)
            } else {
                Look::Clean
            }
        }
    }
}
