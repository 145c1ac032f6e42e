//! Cuts that are worth a try: they are looked at exactly before they are answered.
ghost use Rattle.std.specs.Prelude.{◌≡◌, IfSome, IsTrue};
ghost use Rattle.std.specs.List.{Contains};
ghost use Rattle.rule_frame.specs.Prelude.{Choice as AnyChoice, CutHolds, in_part, IsCacheFor, IsElement, IsRegionOf, MayAnswer, sets};

use crate::{Change, Element, Keeper, Part, Problem, Reason, Region, Side, Watcher, has_element};

/// A cut that may hold: a part of an element's choices, and why they may be taken away.
#[derive(Clone, Copy)]
pub struct Suggestion {
    pub element: Element,
    pub part: Part,
    pub reason: Reason,
}

// whether a propagator may answer with a reason
fn may_answer(reason: Reason) -> bool
    ensures { IsTrue result → MayAnswer reason }
{
    match reason {
        Reason::Empty(_) | Reason::Bound => false,
        Reason::Load(..)
        | Reason::Pair(..)
        | Reason::Place(..)
        | Reason::Group(..)
        | Reason::SetLoad(..)
        | Reason::Power(..)
        | Reason::Usable(..)
        | Reason::Hall(..) => true,
    }
}

// whether an element has a choice in a part
#[tactic(auto, using(crate::proofs::WidenLemmas::some_inside))]
fn has_any(p: &Problem, g: &Region, element: Element, part: Part) -> bool
    requires region { IsRegionOf p.now.given g.now }
    requires element { IsElement p.now.given element }
    ensures { IsTrue result → (c : AnyChoice) × Contains (sets g.now element) c × IsTrue (in_part part c) }
{
    let inside = Change {
        element,
        part,
        side: Side::Inside,
    };
    !g.leaves_none(inside)
}

// whether it holds in a region
fn holds<K: Keeper, W: Watcher<K>>(w: &W, k: &K, p: &Problem, g: &Region, it: Suggestion) -> bool
    requires region { IsRegionOf p.now.given g.now }
    requires right { IsCacheFor (K.cache k.now) p.now.given (sets g.now) }
    ensures { IsTrue result → CutHolds p.now.given (sets g.now) it.element it.part it.reason }
{
    may_answer(it.reason)
        && has_element(p, it.element)
        && has_any(p, g, it.element, it.part)
        && w.refutes(k, p, g, it.element, it.part, &it.reason)
}

/// The last of these that holds in a region. It and those after it are gone.
pub fn take_one<K: Keeper, W: Watcher<K>>(
    them: &mut Vec<Suggestion>,
    w: &W,
    k: &K,
    p: &Problem,
    g: &Region,
) -> Option<Suggestion>
    requires region { IsRegionOf p.now.given g.now }
    requires right { IsCacheFor (K.cache k.now) p.now.given (sets g.now) }
    ensures { IfSome result (λ it. CutHolds p.now.given (sets g.now) it.element it.part it.reason) }
{
    while let Some(it) = them.pop() {
        if holds(w, k, p, g, it) {
            return Some(it);
        }
    }
    None
}
