//! The watches of the rule of loads.
ghost use Rattle.std.specs.Prelude.{◌+◌};
ghost use Rattle.slices.specs.Elements.{node_count};
ghost use Rattle.closing.proofs.Public.{load_is_local};
ghost use Rattle.rule_load.specs.Quiet.{load_is_quiet};
ghost use Rattle.rule_load.specs.Watched.{is_load, nodes_at, watch_at};

use crate::LoadKeeper;
use crate::dirty::set_disturbed_dirty;
use crate::horizon::lack_at_horizon;
use crate::node_look::node_look;
use crate::nodes::{node_at, node_total};
use crate::reason::load_reason;
use crate::refuting::refutes_part;
use crate::suggest::suggest_on;
use crate::total_look::total_look;
use crate::total_suggest::suggest_everywhere;
use rule_frame::{
    Before, Change, DirtySet, Domain, Element, Instant, Look, Memory, Part, Problem, Reason,
    ReasonKind, Region, Suggestion, View, Watcher,
};

/// Watch i is the load of node i, and the last one that of all nodes together.
#[derive(Clone, Copy, Default)]
pub struct Loads;

impl Watcher<LoadKeeper> for Loads {
    ghost watch = { λ w. watch_at };

    ghost count_of = { λ w p. node_count p + 1 };

    ghost kinds = { λ w. is_load };

    fn count(&self, p: &Problem) -> usize {
        node_total(p) + 1
    }

    fn covers(&self, kind: ReasonKind) -> bool {
        matches!(kind, ReasonKind::Load)
    }

    fn disturb(
        &self,
        k: &LoadKeeper,
        p: &Problem,
        g: &Region,
        change: Change,
        before: Before,
        kept: &Domain,
        dirty: &mut DirtySet,
    ) {
        set_disturbed_dirty(k, p, g, change.element, before, kept, dirty);
    }

    // the first watch is asked before all others, so what refutes the region at once is looked for there
    fn refuted(&self, k: &LoadKeeper, p: &Problem, g: &Region, i: usize) -> Option<Reason> {
        if i > 0 {
            return None;
        }
        lack_at_horizon(p, k.fixed(p, g), g)
    }

    fn names_all(&self, p: &Problem, i: usize) -> bool {
        i < node_total(p)
    }

    fn look(&self, k: &LoadKeeper, p: &Problem, g: &Region, i: usize) -> Look {
        match node_at(p, i) {
            None => total_look(
                p,
                k.fixed(p, g),
                g,
                k.all(p, g),
                k.movers(p, g),
                k.rooms(p, g),
            ),
            Some(n) => node_look(p, g, k.at(p, g, n), n),
        }
    }

    fn reason(&self, k: &LoadKeeper, p: &Problem, view: &View, i: usize, t: Instant) -> Reason {
        load_reason(k, p, view, i, t)
    }

    fn refutes(
        &self,
        k: &LoadKeeper,
        p: &Problem,
        g: &Region,
        e: Element,
        part: Part,
        reason: &Reason,
    ) -> bool {
        refutes_part(k, p, g, e, part, reason)
    }

    fn suggest(
        &self,
        k: &LoadKeeper,
        p: &Problem,
        g: &Region,
        i: usize,
        found: &Suggestion,
        them: &mut Vec<Suggestion>,
    ) -> Result<(), Memory> {
        match node_at(p, i) {
            None => suggest_everywhere(
                p,
                k.fixed(p, g),
                g,
                k.all(p, g),
                k.movers(p, g),
                found,
                them,
            ),
            Some(n) => suggest_on(p, g, k.at(p, g, n), n, found, them),
        }
    }

    ghost local = { λ w p i. load_is_local p (nodes_at p i) };

    ghost quiet = { λ w. load_is_quiet };
}
