//! The watches on which a change weighs.
ghost use Rattle.std.specs.Prelude.{◌≡◌, ◌≢◌, ◌⊎◌, ℕ, ◌+◌, ◌<◌, [], true, false, IsTrue, length};
ghost use Rattle.std.specs.List.{Contains};
ghost use Rattle.rule_load.specs.Prelude.{AreFewer, AreSpared, cache_of, CameBefore, Choice as AnyChoice, choices, comes_by, domain_at, domain_before, goes_in, has_come, HasElement, have_come, hosted_in, IsCacheFor, IsDisturbed, IsElement, IsSized, IsStill, KeepsHost, least, leave_of, load_scope, lost_choices, node_count, one, sets, state_of, vm, watch_at};

use crate::nodes::node_total;
use crate::{Arrival, Leaving, LoadKeeper, host_of, leaves_of};
use domains::measure::lowest_lost;
use domains::undo::Lost;
use rule_frame::{
    Before, Change, DirtySet, Domain, Element, Part, Place, Problem, Region, Side, VmId,
};

// sets dirty a watch, if there is one of this number
fn set_one_dirty(dirty: &mut DirtySet, i: usize)
    ensures { AreSpared (λ k. k ≢ i) dirty.old dirty.new }
{
    if i < dirty.count() {
        dirty.set_dirty(i, true);
    }
}

// sets dirty the host of a machine, if it has one
#[tactic(auto, using(crate::proofs::DirtyLemmas::host_spared, crate::proofs::DirtyLemmas::all_spared))]
fn set_host_dirty(p: &Problem, v: VmId, dirty: &mut DirtySet)
    requires { IsElement p.now.given (Element.Vm v) }
    ensures { AreSpared (λ k. hosted_in (state_of p.now.given v.0) (one k) ≡ false) dirty.old dirty.new }
{
    match host_of(p, v) {
        None => {}
        Some(h) => set_one_dirty(dirty, h.0 as usize),
    }
}

// whether a machine has no host, or one that is dirty already, so that nothing has to be asked
fn is_host_dirty(p: &Problem, v: VmId, dirty: &DirtySet) -> bool
    requires { IsElement p.now.given (Element.Vm v) }
{
    match host_of(p, v) {
        None => true,
        Some(h) => (h.0 as usize) < dirty.count() && dirty.is_dirty(h.0 as usize),
    }
}

// sets dirty the node of an arrival, if there is one
fn set_arrival_dirty(come: Option<Arrival>, dirty: &mut DirtySet)
    ensures { AreSpared (λ k. (t : ℕ) → comes_by k t come ≡ false) dirty.old dirty.new }
{
    match come {
        None => {}
        Some(a) => set_one_dirty(dirty, a.node.0 as usize),
    }
}

// whether no choice of a machine acts at its host
#[tactic(auto, using(crate::proofs::StayLemmas::none_at))]
fn acts_elsewhere(p: &Problem, g: &Region, v: VmId) -> bool
    requires region { HasElement g.now (vm v.0) }
    requires machine { IsElement p.now.given (Element.Vm v) }
    ensures { IsTrue result → (n : ℕ) → hosted_in (state_of p.now.given v.0) (one n) ≡ true → (c : AnyChoice) → Contains (sets g.now (vm v.0)) c → goes_in c (one n) ≡ false }
{
    match host_of(p, v) {
        None => true,
        Some(h) => g.leaves_none(Change {
            element: Element::Vm(v),
            part: Part::From(Place::At(h), 0),
            side: Side::Inside,
        }),
    }
}

// whether a machine surely kept its host as long before it lost some choices: what was lost keeps it as long
#[tactic(auto, using(crate::proofs::StayLemmas::least_was, crate::proofs::StayLemmas::least_was_so))]
fn kept_as_long(
    p: &Problem,
    v: VmId,
    domain: &Domain,
    before: Before,
    _kept: &Domain,
    leave: u64,
) -> bool
    requires machine { IsElement p.now.given (Element.Vm v) }
    requires fewer { AreFewer (choices domain.now) (choices (domain_before before _kept.now domain.now)) }
    requires some { choices domain.now ≢ [] }
    requires leave { leave ≡ least (leave_of p.now.given v.0) (choices domain.now) }
    ensures { IsTrue result → leave ≡ least (leave_of p.now.given v.0) (choices (domain_before before _kept.now domain.now)) }
{
    let leaving = Leaving {
        problem: p,
        machine: v,
        leaves: leaves_of(p, v),
    };
    match before {
        Before::Kept => false,
        Before::Lost(lost) => match lowest_lost(lost, &leaving) {
            None => true,
            Some(first) => leave <= first,
        },
    }
}

// whether a machine keeps its host as long as before, and acts nowhere but away from it: then nothing has changed there
fn keeps_host(p: &Problem, g: &Region, v: VmId, before: Before, kept: &Domain, leave: u64) -> bool
    requires region { IsSized p.now.given g.now }
    requires machine { IsElement p.now.given (Element.Vm v) }
    requires fewer { AreFewer (sets g.now (vm v.0)) (choices (domain_before before kept.now (domain_at g.now (vm v.0)))) }
    requires leave { leave ≡ least (leave_of p.now.given v.0) (sets g.now (vm v.0)) }
    ensures { IsTrue result → KeepsHost p.now.given v.0 (choices (domain_before before kept.now (domain_at g.now (vm v.0)))) (sets g.now (vm v.0)) leave }
{
    let domain = g.domain(Element::Vm(v));
    if domain.is_empty() || !acts_elsewhere(p, g, v) {
        return false;
    }
    kept_as_long(p, v, domain, before, kept, leave)
}

// sets dirty the host of a machine, but where nothing has changed there
#[tactic(auto, using(crate::proofs::DirtyLemmas::all_spared, crate::proofs::DirtyLemmas::weaker))]
fn set_left_dirty(
    p: &Problem,
    g: &Region,
    v: VmId,
    before: Before,
    kept: &Domain,
    leave: u64,
    dirty: &mut DirtySet,
)
    requires region { IsSized p.now.given g.now }
    requires machine { IsElement p.now.given (Element.Vm v) }
    requires fewer { AreFewer (sets g.now (vm v.0)) (choices (domain_before before kept.now (domain_at g.now (vm v.0)))) }
    requires leave { leave ≡ least (leave_of p.now.given v.0) (sets g.now (vm v.0)) }
    ensures { AreSpared (λ i. (hosted_in (state_of p.now.given v.0) (one i) ≡ false) ⊎ KeepsHost p.now.given v.0 (choices (domain_before before kept.now (domain_at g.now (vm v.0)))) (sets g.now (vm v.0)) leave) dirty.old dirty.new }
{
    if is_host_dirty(p, v, dirty) || !keeps_host(p, g, v, before, kept, leave) {
        set_host_dirty(p, v, dirty);
    }
}

// whether all choices that were lost came to a node by an instant
#[tactic(auto, using(crate::proofs::StayLemmas::row_came))]
fn came_by(lost: Lost, a: Arrival) -> bool
    ensures { IsTrue result → (c : AnyChoice) → Contains (lost_choices lost) c → has_come a.node.0 a.last c ≡ true }
{
    match lost {
        Lost::Nothing => true,
        Lost::Idle => false,
        Lost::Row(row) => match row.place {
            Place::Nowhere => false,
            Place::At(m) => m.0 == a.node.0 && row.hi <= a.last,
        },
    }
}

// whether all choices that a machine had before came where all come now, and as soon
#[tactic(auto, using(crate::proofs::StayLemmas::none_came, crate::proofs::StayLemmas::came_before))]
fn came_before(_domain: &Domain, before: Before, _kept: &Domain, come: Option<Arrival>) -> bool
    requires come { (n t : ℕ) → comes_by n t come ≡ have_come n t (choices _domain.now) }
    ensures { IsTrue result → CameBefore (choices (domain_before before _kept.now _domain.now)) come }
{
    let Some(a) = come else {
        return true;
    };
    match before {
        Before::Kept => false,
        Before::Lost(lost) => came_by(lost, a),
    }
}

// sets dirty the one node that all choices go to, but where they went there before
#[tactic(auto, using(crate::proofs::DirtyLemmas::all_spared, crate::proofs::DirtyLemmas::weaker))]
fn set_come_dirty(
    domain: &Domain,
    before: Before,
    kept: &Domain,
    come: Option<Arrival>,
    dirty: &mut DirtySet,
)
    requires come { (n t : ℕ) → comes_by n t come ≡ have_come n t (choices domain.now) }
    ensures { AreSpared (λ i. ((t : ℕ) → comes_by i t come ≡ false) ⊎ CameBefore (choices (domain_before before kept.now domain.now)) come) dirty.old dirty.new }
{
    if !came_before(domain, before, kept, come) {
        set_arrival_dirty(come, dirty);
    }
}

// sets dirty for a machine its host, and the one node that all its choices go to, but where nothing has changed there
fn set_machine_dirty(
    k: &LoadKeeper,
    p: &Problem,
    g: &Region,
    v: VmId,
    before: Before,
    kept: &Domain,
    dirty: &mut DirtySet,
)
    requires region { IsSized p.now.given g.now }
    requires right { IsCacheFor (cache_of k.now.table k.now.fixed k.now.near k.now.firsts k.now.movers k.now.rooms k.now.hold_on) p.now.given (sets g.now) }
    requires machine { IsElement p.now.given (Element.Vm v) }
    requires fewer { AreFewer (sets g.now (vm v.0)) (choices (domain_before before kept.now (domain_at g.now (vm v.0)))) }
    ensures { AreSpared (λ i. IsStill p.now.given (load_scope (one i)) (vm v.0) (choices (domain_before before kept.now (domain_at g.now (vm v.0)))) (sets g.now (vm v.0))) dirty.old dirty.new }
{
    let now = k.of(p, g, v);
    set_left_dirty(p, g, v, before, kept, now.leave, dirty);
    set_come_dirty(g.domain(Element::Vm(v)), before, kept, now.come, dirty);
}

/// Sets dirty the load of all nodes together, and of a machine that of its host and of the one node that all its choices now
/// go to, but where nothing has changed there, of a node its own.
pub(crate) fn set_disturbed_dirty(
    k: &LoadKeeper,
    p: &Problem,
    g: &Region,
    x: Element,
    before: Before,
    kept: &Domain,
    dirty: &mut DirtySet,
)
    requires region { IsSized p.now.given g.now }
    requires right { IsCacheFor (cache_of k.now.table k.now.fixed k.now.near k.now.firsts k.now.movers k.now.rooms k.now.hold_on) p.now.given (sets g.now) }
    requires element { IsElement p.now.given x }
    requires count { length dirty.old.top ≡ node_count p.now.given + 1 }
    requires fewer { AreFewer (sets g.now x) (choices (domain_before before kept.now (domain_at g.now x))) }
    ensures { IsDisturbed (watch_at p.now.given) p.now.given (sets g.now) x (choices (domain_before before kept.now (domain_at g.now x))) dirty.old dirty.new }
{
    set_one_dirty(dirty, node_total(p));
    match x {
        Element::Vm(v) => set_machine_dirty(k, p, g, v, before, kept, dirty),
        Element::Node(n) => set_one_dirty(dirty, n.0 as usize),
    }
}
