//! The rows of machines that go where a constraint lets them not be: cuts that are worth a try before a look.
ghost use Rattle.std.specs.Prelude.{◌≡◌, ◌<◌, true, length, IsTrue};
ghost use Rattle.rule_place.specs.Prelude.{Applies, Choice, FailHolds, ForbidsPlace, has_come, in_part, IsNamed, IsSized, keeping, machine_count, PlaceReason, sets, Vm};

use crate::places::limits_of;
use relax::forbidden::forbids_place;
use relax::named::is_named;
use rule_frame::{
    Element, Instant, Memory, NodeId, Part, Place, Problem, Reason, Region, Row, Suggestion, VmId,
    Weight,
};
use slices::form::{Places, is_off_limits};
use standings::uses::gain;

// the cut of a whole row, where it goes to a node that is off limits: it is there at the horizon
fn cut_of(p: &Problem, c: u32, places: &Places, v: VmId, row: Row) -> Option<Suggestion>
    requires { v.0 < machine_count p.now.given }
{
    let Place::At(n) = row.place else {
        return None;
    };
    if !is_off_limits(p, places, v, n) {
        return None;
    }
    Some(Suggestion {
        element: Element::Vm(v),
        part: Part::Upto(row.place, row.hi),
        reason: Reason::Place(c, p.horizon(), v, n),
    })
}

// those of a machine
fn propose_of(
    p: &Problem,
    g: &Region,
    c: u32,
    places: &Places,
    v: VmId,
    them: &mut Vec<Suggestion>,
) -> Result<(), Memory>
    requires region { IsSized p.now.given g.now }
    requires machine { v.0 < machine_count p.now.given }
{
    for row in g.domain(Element::Vm(v)).rows() {
        if let Some(it) = cut_of(p, c, places, v, *row) {
            them.push(it)?;
        }
    }
    Ok(())
}

/// Puts the rows of members into a list that go where a constraint lets them not be, each as a cut.
pub fn propose_rows(
    p: &Problem,
    g: &Region,
    c: u32,
    them: &mut Vec<Suggestion>,
) -> Result<(), Memory>
    requires region { IsSized p.now.given g.now }
    requires constraint { c < length p.now.given.constraints }
{
    let Some((machines, places)) = limits_of(&p.constraints()[c as usize]) else {
        return Ok(());
    };
    for v in machines.items() {
        propose_of(p, g, c, &places, *v, them)?;
    }
    Ok(())
}

// whether the constraint of a number is to hold at an instant, and lets a machine not be on a node
fn forbids_at(p: &Problem, c: u32, t: Instant, v: VmId, n: NodeId) -> bool
    requires constraint { c < length p.now.given.constraints }
    requires machine { v.0 < machine_count p.now.given }
    ensures { IsTrue result → Applies p.now.given c t (λ k. ForbidsPlace p.now.given k v.0 n.0) }
{
    p.applies(c, t) && forbids_place(p, &p.constraints()[c as usize], v, n)
}

// whether a part is of starts at a node alone, none later than an instant
fn is_there_by(part: Part, n: NodeId, t: Instant) -> bool
    ensures { IsTrue result → (c : Choice) → IsTrue (in_part part c) → has_come n.0 t c ≡ true }
{
    match part {
        Part::Upto(Place::At(m), last) => m.0 == n.0 && last <= t,
        Part::Upto(Place::Nowhere, _) | Part::Idle | Part::From(..) => false,
    }
}

// whether an element is a machine
fn is_machine(e: Element, v: VmId) -> bool
    ensures { IsTrue result → e ≡ Vm v }
{
    match e {
        Element::Vm(w) => w.0 == v.0,
        Element::Node(_) => false,
    }
}

// whether what is inside a part of an element's choices is refuted by the place of a machine
fn refutes_place(
    p: &Problem,
    _g: &Region,
    e: Element,
    part: Part,
    c: u32,
    t: Instant,
    v: VmId,
    n: NodeId,
) -> bool
    requires { IsNamed p.now.given (PlaceReason c t v n) }
    ensures { IsTrue result → FailHolds p.now.given (keeping e (in_part part) (sets _g.now)) (PlaceReason c t v n) }
{
    if !is_machine(e, v) || !is_there_by(part, n, t) {
        return false;
    }
    gain(p, v, Weight::Presence, n) > 0 && forbids_at(p, c, t, v, n)
}

/// Whether a reason is seen to refute what is inside a part of an element's choices: all its starts are at a node where the
/// constraint lets the machine not be. No choice is read.
pub fn refutes_row(p: &Problem, _g: &Region, e: Element, part: Part, reason: &Reason) -> bool
    ensures { IsTrue result → FailHolds p.now.given (keeping e (in_part part) (sets _g.now)) reason.now }
{
    let Reason::Place(c, t, v, n) = *reason else {
        return false;
    };
    if !is_named(p, reason) {
        return false;
    }
    refutes_place(p, _g, e, part, c, t, v, n)
}
