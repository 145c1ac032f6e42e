//! A rule: watches, each dirty or clean, and what is kept beside them.
ghost use Rattle.std.specs.Prelude.{◌≡◌, ◌<◌, ◌≤◌, IfOk, IsTrue, length};
ghost use Rattle.prop_core.specs.Prelude.{counted, IsRegionOf, sets};
ghost use Rattle.prop_core.specs.declared.propagator.Answer.TheVariants.{Cut};
ghost use Rattle.rule_frame.specs.Asked.{AllClean, IsAskedOf};
ghost use Rattle.rule_frame.specs.Caches.{IsCacheFor};
ghost use Rattle.rule_frame.specs.Changes.{AreClean, IsKept};
ghost use Rattle.rule_frame.specs.Rules.{AnswerHolds, meaning_of};

use crate::suggestion::take_one;
use crate::watcher::{Asked, ask, tell};
use crate::widen::widen;
use crate::{
    Answer, Before, Change, Choice, DirtySet, Domain, Keeper, Lens, Memory, Part, Problem,
    Propagator, ReasonKind, Region, Suggestion, View, Watcher,
};
use std::alloc::Global;
use std::default::MadeWith;

// the answer for what asking the watches found, with a part as wide as is seen
fn answer<K: Keeper, W: Watcher<K>>(w: &W, k: &K, p: &Problem, g: &Region, asked: Asked) -> Answer
    requires region { IsRegionOf p.now.given g.now }
    requires right { IsCacheFor (K.cache k.now) p.now.given (sets g.now) }
    requires asked { IsAskedOf (W.watch w.now p.now.given) p.now.given (sets g.now) (W.count_of w.now p.now.given) asked }
    ensures { AnswerHolds (W.kinds w.now) p.now.given (sets g.now) result }
{
    match asked {
        Asked::Quiet => Answer::Quiet,
        Asked::Refuted(reason) => Answer::Fail(reason),
        Asked::Proposed(it) => cut(it),
        Asked::Failed(i, t) => {
            let view = View {
                region: g,
                lens: Lens::Whole,
            };
            Answer::Fail(w.reason(k, p, &view, i, t))
        }
        Asked::Cuts(i, e, c, t) => {
            let view = View {
                region: g,
                lens: Lens::Set(e, c),
            };
            let reason = w.reason(k, p, &view, i, t);
            let (part, reason) = widen(w, k, p, g, e, c, t, reason);
            Answer::Cut(e, part, reason)
        }
    }
}

// a part that holds an end of an element's choices
fn part_at(end: Choice) -> Part {
    match end {
        Choice::Idle => Part::Idle,
        Choice::Act { place, start } => Part::Upto(place, start),
    }
}

// has the watcher suggest cuts where one was met, where these name it too
fn suggest_first<K: Keeper, W: Watcher<K>>(
    w: &W,
    k: &K,
    p: &Problem,
    g: &Region,
    asked: Asked,
    suggestions: &mut Vec<Suggestion>,
) -> Result<(), Memory>
    requires region { IsRegionOf p.now.given g.now }
    requires right { IsCacheFor (K.cache k.now) p.now.given (sets g.now) }
    requires asked { IsAskedOf (W.watch w.now p.now.given) p.now.given (sets g.now) (W.count_of w.now p.now.given) asked }
{
    let Asked::Cuts(i, element, end, t) = asked else {
        return Ok(());
    };
    if !w.names_all(p, i) {
        return Ok(());
    }
    let view = View {
        region: g,
        lens: Lens::Set(element, end),
    };
    let met = Suggestion {
        element,
        part: part_at(end),
        reason: w.reason(k, p, &view, i, t),
    };
    w.suggest(k, p, g, i, &met, suggestions)
}

// has the watcher suggest more cuts like one that was found, where it has not done so before
fn suggest<K: Keeper, W: Watcher<K>>(
    w: &W,
    k: &K,
    p: &Problem,
    g: &Region,
    asked: Asked,
    answer: Answer,
    suggestions: &mut Vec<Suggestion>,
) -> Result<(), Memory>
    requires region { IsRegionOf p.now.given g.now }
    requires right { IsCacheFor (K.cache k.now) p.now.given (sets g.now) }
    requires asked { IsAskedOf (W.watch w.now p.now.given) p.now.given (sets g.now) (W.count_of w.now p.now.given) asked }
{
    let Asked::Cuts(i, ..) = asked else {
        return Ok(());
    };
    if w.names_all(p, i) {
        return Ok(());
    }
    let Answer::Cut(element, part, reason) = answer else {
        return Ok(());
    };
    let found = Suggestion {
        element,
        part,
        reason,
    };
    w.suggest(k, p, g, i, &found, suggestions)
}

// a cut that was suggested, as an answer
fn cut(it: Suggestion) -> Answer
    ensures { result ≡ Cut it.element it.part it.reason }
{
    Answer::Cut(it.element, it.part, it.reason)
}

// whether it is seen that no watch has to be looked at
#[inline(always)]
#[tactic(auto, using(crate::proofs::AskLemmas::all_clean))]
fn are_clean<K: Keeper, W: Watcher<K>>(
    _w: &W,
    _k: &K,
    _p: &Problem,
    _g: &Region,
    dirty: &DirtySet,
) -> bool
    requires count { length dirty.now.top ≡ W.count_of _w.now _p.now.given }
    requires agreed { AreClean (W.watch _w.now _p.now.given) _p.now.given (sets _g.now) dirty.now.top }
    ensures { IsTrue result → AllClean (W.watch _w.now _p.now.given) _p.now.given (sets _g.now) (W.count_of _w.now _p.now.given) }
{
    dirty.is_clean()
}

// the answer where each watch is clean
#[inline(always)]
fn quiet<K: Keeper, W: Watcher<K>>(_w: &W, _k: &K, _p: &Problem, _g: &Region) -> Answer
    requires { AllClean (W.watch _w.now _p.now.given) _p.now.given (sets _g.now) (W.count_of _w.now _p.now.given) }
    ensures { AnswerHolds (W.kinds _w.now) _p.now.given (sets _g.now) result }
{
    Answer::Quiet
}

// what one call answers: that all is quiet, where nothing is left to be asked, as after most changes
#[inline(always)]
#[tactic(auto, using(crate::proofs::AskLemmas::kept_same))]
fn next_answer<K: Keeper, W: Watcher<K>>(
    w: &W,
    k: &K,
    p: &Problem,
    g: &Region,
    dirty: &mut DirtySet,
    suggestions: &mut Vec<Suggestion>,
) -> Result<Answer, Memory>
    requires region { IsRegionOf p.now.given g.now }
    requires right { IsCacheFor (K.cache k.now) p.now.given (sets g.now) }
    requires count { length dirty.old.top ≡ W.count_of w.now p.now.given }
    requires agreed { AreClean (W.watch w.now p.now.given) p.now.given (sets g.now) dirty.old.top }
    ensures kept { IsKept (W.watch w.now p.now.given) p.now.given (sets g.now) dirty.old dirty.new }
    ensures answer { IfOk result (AnswerHolds (W.kinds w.now) p.now.given (sets g.now)) }
{
    if suggestions.is_empty() && are_clean(w, k, p, g, dirty) {
        return Ok(quiet(w, k, p, g));
    }
    asked_answer(w, k, p, g, dirty, suggestions)
}

// what one call answers: a cut of the list that holds, or else what asking the watches finds, which may be a cut of the list too
#[inline(never)]
fn asked_answer<K: Keeper, W: Watcher<K>>(
    w: &W,
    k: &K,
    p: &Problem,
    g: &Region,
    dirty: &mut DirtySet,
    suggestions: &mut Vec<Suggestion>,
) -> Result<Answer, Memory>
    requires region { IsRegionOf p.now.given g.now }
    requires right { IsCacheFor (K.cache k.now) p.now.given (sets g.now) }
    requires count { length dirty.old.top ≡ W.count_of w.now p.now.given }
    requires agreed { AreClean (W.watch w.now p.now.given) p.now.given (sets g.now) dirty.old.top }
    ensures kept { IsKept (W.watch w.now p.now.given) p.now.given (sets g.now) dirty.old dirty.new }
    ensures answer { IfOk result (AnswerHolds (W.kinds w.now) p.now.given (sets g.now)) }
{
    if let Some(it) = take_one(suggestions, w, k, p, g) {
        return Ok(cut(it));
    }
    let asked = ask(w, k, p, g, dirty, suggestions)?;
    if let Asked::Proposed(it) = asked {
        return Ok(cut(it));
    }
    suggest_first(w, k, p, g, asked, suggestions)?;
    if let Some(it) = take_one(suggestions, w, k, p, g) {
        return Ok(cut(it));
    }
    let found = answer(w, k, p, g, asked);
    suggest(w, k, p, g, asked, found, suggestions)?;
    Ok(found)
}

// the count after an answer
fn count(given: u64, answer: Answer) -> u64
    ensures { result ≡ counted given answer }
{
    match answer {
        Answer::Quiet => given,
        Answer::Cut(..) | Answer::Fail(_) => given.saturating_add(1),
    }
}

/// A rule of watches: each is dirty where it may have to be looked at, and whatever is not is clean.
#[derive(Drop)]
pub struct Rule<W, K> {
    watcher: W,
    keeper: K,
    dirty: DirtySet,
    suggestions: Vec<Suggestion>,
    given: u64,
}

impl<K: Keeper, W: Watcher<K>> Rule<W, K> {
    /// A rule of these watches that has answered nothing yet. It takes no memory.
    pub fn of(alloc: Global, watcher: W, keeper: K) -> Rule<W, K>
        ensures { result.given ≡ 0 }
    {
        Rule {
            watcher,
            keeper,
            dirty: DirtySet::new(alloc),
            suggestions: Vec::new(alloc),
            given: 0,
        }
    }
}

impl<K: Keeper + MadeWith<Global>, W: Watcher<K> + Default> Rule<W, K> {
    /// The rule of its types, which has answered nothing yet. It takes no memory.
    pub fn new(alloc: Global) -> Rule<W, K>
        ensures { result.given ≡ 0 }
    {
        Rule::of(alloc, W::default(), K::made_with(alloc))
    }
}

impl<K: Keeper, W: Watcher<K> + Drop> Propagator for Rule<W, K> {
    ghost meaning = { λ r. meaning_of (W.Watcher.watch r.watcher) (W.Watcher.count_of r.watcher) (W.Watcher.kinds r.watcher) r.dirty (K.cache r.keeper) r.given };

    fn covers(&self, kind: ReasonKind) -> bool {
        self.watcher.covers(kind)
    }

    fn level(&self) -> u64 {
        self.dirty.level()
    }

    fn given(&self) -> u64 {
        self.given
    }

    fn post(&mut self, p: &Problem, g: &Region) -> Result<(), Memory> {
        self.suggestions.clear();
        self.keeper.post(p, g)?;
        self.dirty.reset(self.watcher.count(p))
    }

    fn told(
        &mut self,
        p: &Problem,
        g: &Region,
        change: Change,
        before: Before,
        kept: &Domain,
    ) -> Result<(), Memory> {
        self.keeper.told(p, g, change, before, kept)?;
        tell(
            &self.watcher,
            &self.keeper,
            p,
            g,
            change,
            before,
            kept,
            &mut self.dirty,
        );
        Ok(())
    }

    fn mark(&mut self) -> Result<(), Memory> {
        self.keeper.mark()?;
        match self.dirty.mark() {
            Ok(()) => Ok(()),
            Err(e) => {
                self.keeper.back();
                Err(e)
            }
        }
    }

    fn back(&mut self) {
        self.suggestions.clear();
        self.keeper.back();
        self.dirty.back()
    }

    fn propagate(&mut self, p: &Problem, g: &Region) -> Result<Answer, Memory> {
        let found = next_answer(
            &self.watcher,
            &self.keeper,
            p,
            g,
            &mut self.dirty,
            &mut self.suggestions,
        )?;
        self.given = count(self.given, found);
        Ok(found)
    }
}
