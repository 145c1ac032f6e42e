//! The watches of the constraints that keep machines apart.
ghost use Rattle.rule_constraint.specs.Watches.{watch_at, watch_count};
ghost use Rattle.rule_constraint.specs.Quiet.{kinds_are_quiet, watches_are_local};
ghost use Rattle.rule_pair.specs.Covers.{pair_kinds};
ghost use Rattle.std.specs.Prelude.{refl};

use crate::dirty::set_moved_dirty;
use crate::hall::hall_reason;
use crate::keeper::PairKeeper;
use crate::pair_look::look_at_pairs;
use crate::refuting::refutes_part;
use crate::rule::Pairs;
use crate::suggest::suggest_pairs;
use rule_constraint::ConstraintWatcher;
use rule_frame::{
    Before, Change, DirtySet, Domain, Element, Instant, Look, Memory, Part, Problem, Reason,
    ReasonKind, Region, Suggestion, View, Watcher,
};

/// The watches of constraints that keep machines apart, by the numbers of the constraints. A machine that surely is
/// nowhere where it was not before leaves all of them clean: of its ends that are new none is worse than one that it had.
#[derive(Default, Drop)]
pub struct PairWatcher {
    constraints: ConstraintWatcher<Pairs>,
}

impl Watcher<PairKeeper> for PairWatcher {
    ghost watch = { λ w. watch_at pair_kinds };

    ghost count_of = { λ w. watch_count };

    ghost kinds = { λ w. pair_kinds };

    fn count(&self, p: &Problem) -> usize {
        p.constraints().len()
    }

    fn covers(&self, kind: ReasonKind) -> bool {
        matches!(kind, ReasonKind::Pair)
    }

    fn disturb(
        &self,
        k: &PairKeeper,
        p: &Problem,
        g: &Region,
        change: Change,
        before: Before,
        kept: &Domain,
        dirty: &mut DirtySet,
    ) {
        set_moved_dirty(k.index(), p, g, change.element, before, kept, dirty);
    }

    fn refuted(&self, k: &PairKeeper, p: &Problem, g: &Region, i: usize) -> Option<Reason> {
        hall_reason(p, g, k.standings(p, g), i as u32)
    }

    fn look(&self, k: &PairKeeper, p: &Problem, g: &Region, i: usize) -> Look {
        look_at_pairs(p, g, k.standings(p, g), k.gone(p, g), i)
    }

    fn reason(&self, k: &PairKeeper, p: &Problem, view: &View, i: usize, t: Instant) -> Reason {
        self.constraints.reason(k.index(), p, view, i, t)
    }

    fn refutes(
        &self,
        k: &PairKeeper,
        p: &Problem,
        g: &Region,
        e: Element,
        part: Part,
        reason: &Reason,
    ) -> bool {
        refutes_part(p, g, k.standings(p, g), e, part, reason)
    }

    fn suggest(
        &self,
        k: &PairKeeper,
        p: &Problem,
        g: &Region,
        i: usize,
        found: &Suggestion,
        them: &mut Vec<Suggestion>,
    ) -> Result<(), Memory> {
        suggest_pairs(p, g, k.standings(p, g), i as u32, found, them)
    }

    ghost local = { λ w. watches_are_local pair_kinds };

    ghost quiet = { λ w. kinds_are_quiet pair_kinds refl refl };
}
