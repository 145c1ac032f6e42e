//! The widest part of an element's choices that a reason is seen to take away.
ghost use Rattle.std.specs.Prelude.{◌≡◌, ◌⊎◌, ◌-◌, ◌==◌, ◌<◌, ◌≤◌, [], ◌∷◌, filter, IfSome, None};
ghost use Rattle.rule_frame.specs.Prelude.{Choice as AnyChoice, choices, CutHolds, FailHolds, in_part, IsCacheFor, IsElement, IsEnd, IsRegionOf, keeping, MayAnswer, part_past as the_part_past, sets, setting, start_past as the_start_past};

use crate::{
    Choice, Domain, Element, Instant, Keeper, Part, Place, Problem, Reason, Region, Row, Watcher,
};
use relax::measures::end;

// the row that an end of the choices is of: its first start, or its last
fn row_of_end(d: &Domain, place: Place, start: Instant) -> Row
    requires { IsEnd (choices d.now) (AnyChoice.Act place start) }
    ensures place { result.place ≡ place }
    ensures is_end { (result.lo ≡ start) ⊎ (result.hi ≡ start) }
    ensures within { start ≤ result.hi }
    ensures first { result.lo ≡ start → filter (in_part (Part.Upto place start)) (choices d.now) ≡ AnyChoice.Act place start ∷ [] }
    ensures last { result.hi ≡ start → filter (in_part (Part.From place start)) (choices d.now) ≡ AnyChoice.Act place start ∷ [] }
{
    let rows = d.rows();
    for i in 0..rows.len() {
        if rows[i].place == place {
            return rows[i];
        }
    }
    // there is such a row
    Row {
        place,
        lo: start,
        hi: start,
    }
}

// the reason at another instant
fn at_instant(reason: Reason, t: Instant) -> Reason
    requires { MayAnswer reason }
    ensures { MayAnswer result }
{
    match reason {
        Reason::Empty(_) | Reason::Bound => reason,
        Reason::Load(_, r, set) => Reason::Load(t, r, set),
        Reason::Pair(c, _, v, w, n) => Reason::Pair(c, t, v, w, n),
        Reason::Place(c, _, v, n) => Reason::Place(c, t, v, n),
        Reason::Group(c, _) => Reason::Group(c, t),
        Reason::SetLoad(c, _) => Reason::SetLoad(c, t),
        Reason::Power(c, _) => Reason::Power(c, t),
        Reason::Usable(_, v, n) => Reason::Usable(t, v, n),
        Reason::Hall(c, _, set) => Reason::Hall(c, t, set),
    }
}

// whether a reason is of an instant, or of none
fn is_at(reason: Reason, t: Instant) -> bool {
    match reason {
        Reason::Empty(_) | Reason::Bound => true,
        Reason::Load(at, ..)
        | Reason::Pair(_, at, ..)
        | Reason::Place(_, at, ..)
        | Reason::Group(_, at)
        | Reason::SetLoad(_, at)
        | Reason::Power(_, at)
        | Reason::Usable(at, ..)
        | Reason::Hall(_, at, _) => at == t,
    }
}

// by how much to go on where this much is left: by a step, or by half of what is left where that is less than the step
fn stride(step: u32, left: u32) -> u32
    requires { 0 < left }
    ensures some { 0 < result }
    ensures within { result ≤ left }
{
    if step == 0 || step > left {
        left.div_ceil(2)
    } else {
        step
    }
}

// a reason that refutes the region inside a part: the one handed in, at an instant or at its own
fn refuting<K: Keeper, W: Watcher<K>>(
    w: &W,
    k: &K,
    p: &Problem,
    g: &Region,
    e: Element,
    part: Part,
    t: Instant,
    reason: Reason,
) -> Option<Reason>
    requires region { IsRegionOf p.now.given g.now }
    requires right { IsCacheFor (K.cache k.now) p.now.given (sets g.now) }
    requires element { IsElement p.now.given e }
    requires may { MayAnswer reason }
    ensures { IfSome result (FailHolds p.now.given (keeping e (in_part part) (sets g.now))) }
{
    let moved = at_instant(reason, t);
    if w.refutes(k, p, g, e, part, &moved) {
        return Some(moved);
    }
    if is_at(reason, t) {
        return None;
    }
    if w.refutes(k, p, g, e, part, &reason) {
        return Some(reason);
    }
    None
}

// the start that stands so far past an end of a row: past its first start, or before its last
fn start_past(row: Row, from_first: bool, far: u32) -> Instant
    requires { far ≤ row.hi - row.lo }
    ensures { result ≡ the_start_past row from_first far }
{
    if from_first {
        row.lo + far
    } else {
        row.hi - far
    }
}

// the starts from that end to it
fn part_past(row: Row, from_first: bool, far: u32) -> Part
    requires { far ≤ row.hi - row.lo }
    ensures { result ≡ the_part_past row from_first far }
{
    let start = start_past(row, from_first, far);
    if from_first {
        Part::Upto(row.place, start)
    } else {
        Part::From(row.place, start)
    }
}

// the first start of a row with which an element's action ends past an instant
fn first_past(p: &Problem, e: Element, row: Row, t: Instant) -> Instant
    requires { IsElement p.now.given e }
{
    let last = Choice::Act {
        place: row.place,
        start: row.hi,
    };
    let duration = end(p, e, last).saturating_sub(u64::from(row.hi));
    let first = (u64::from(t) + 1).saturating_sub(duration);
    first.clamp(u64::from(row.lo), u64::from(row.hi.max(row.lo))) as Instant
}

// how far past that end an instant tells it: what starts by the instant is there at it, and so is what has not ended by it
fn told_past(p: &Problem, e: Element, row: Row, from_first: bool, t: Instant) -> u32
    requires { IsElement p.now.given e }
{
    if from_first {
        t.min(row.hi).saturating_sub(row.lo)
    } else {
        row.hi.saturating_sub(first_past(p, e, row, t))
    }
}

// as many of the starts from an end of a row on as the reason takes away: sought in steps that double while they hold,
// and from the first that does not by halving
#[tactic(auto, using(crate::proofs::WidenLemmas::further_holds))]
fn from_an_end<K: Keeper, W: Watcher<K>>(
    w: &W,
    k: &K,
    p: &Problem,
    g: &Region,
    e: Element,
    row: Row,
    from_first: bool,
    t: Instant,
    reason: Reason,
) -> (Part, Reason)
    requires region { IsRegionOf p.now.given g.now }
    requires right { IsCacheFor (K.cache k.now) p.now.given (sets g.now) }
    requires element { IsElement p.now.given e }
    requires holds { CutHolds p.now.given (sets g.now) e (the_part_past row from_first 0) reason }
    ensures { CutHolds p.now.given (sets g.now) e result.0 result.1 }
{
    let mut best = 0;
    let mut found = reason;
    let mut top = row.hi.saturating_sub(row.lo);
    let mut step = told_past(p, e, row, from_first, t).max(1);
    let mut next = 1u32;
    'steps: while best < top {
        let far = best + stride(step, top - best);
        let part = part_past(row, from_first, far);
        let at = t.max(start_past(row, from_first, far));
        match refuting(w, k, p, g, e, part, at, reason) {
            Some(r) => {
                best = far;
                found = r;
                step = next;
                next = next.saturating_mul(2);
            }
            None => top = far - 1,
        }
    }
    (part_past(row, from_first, best), found)
}

// whether a start is the first one of a row
fn is_first(row: Row, start: Instant) -> bool
    ensures { result ≡ (row.lo == start) }
{
    row.lo == start
}

// the widest part that is seen for an end of a row: the whole row, or what is found from that end on
fn widened_row<K: Keeper, W: Watcher<K>>(
    w: &W,
    k: &K,
    p: &Problem,
    g: &Region,
    e: Element,
    place: Place,
    start: Instant,
    t: Instant,
    reason: Reason,
) -> (Part, Reason)
    requires region { IsRegionOf p.now.given g.now }
    requires right { IsCacheFor (K.cache k.now) p.now.given (sets g.now) }
    requires element { IsElement p.now.given e }
    requires is_end { IsEnd (sets g.now e) (AnyChoice.Act place start) }
    requires refuted { FailHolds p.now.given (setting e (AnyChoice.Act place start) (sets g.now)) reason }
    ensures { CutHolds p.now.given (sets g.now) e result.0 result.1 }
{
    let row = row_of_end(g.domain(e), place, start);
    let whole = Part::Upto(place, row.hi);
    if let Some(r) = refuting(w, k, p, g, e, whole, p.horizon(), reason) {
        return (whole, r);
    }
    from_an_end(w, k, p, g, e, row, is_first(row, start), t, reason)
}

/// A part that holds an end of an element's choices, and a reason that refutes the region inside it, where
/// one refutes the region with the element set to that end, as is seen at an instant.
///
/// Of a row as much is taken as is seen to be refuted, by the reason at its own instant or at a later one:
/// the whole row, or what is found from that end on.
pub fn widen<K: Keeper, W: Watcher<K>>(
    w: &W,
    k: &K,
    p: &Problem,
    g: &Region,
    e: Element,
    end: Choice,
    t: Instant,
    reason: Reason,
) -> (Part, Reason)
    requires region { IsRegionOf p.now.given g.now }
    requires right { IsCacheFor (K.cache k.now) p.now.given (sets g.now) }
    requires element { IsElement p.now.given e }
    requires is_end { IsEnd (sets g.now e) end }
    requires refuted { FailHolds p.now.given (setting e end (sets g.now)) reason }
    ensures { CutHolds p.now.given (sets g.now) e result.0 result.1 }
{
    match end {
        Choice::Idle => (Part::Idle, reason),
        Choice::Act { place, start } => widened_row(w, k, p, g, e, place, start, t, reason),
    }
}
