//! The rules themselves.
ghost use Rattle.std.specs.Prelude.{refl};
ghost use Rattle.rule_place.specs.Covers.{forbidden_kinds};

use crate::allowed::{is_kept, is_spared};
use crate::forbidden::{propose_rows, refutes_row};
use crate::places::place_reason;
use crate::watcher::NeededNodes;
use closing::watch::look_at_constraint;
use relax::refutes::refutes_inside;
use rule_constraint::{ConstraintIndex, ConstraintWatcher, Kinds};
use rule_frame::{
    Element, Instant, Look, Memory, Part, Problem, Reason, ReasonKind, Region, Rule, Suggestion,
    View, VmId,
};

/// Machines on nodes where they may not be: `ban`, `fence`, `root`.
#[derive(Clone, Copy, Default)]
pub struct ForbiddenPlaces;

impl Kinds for ForbiddenPlaces {
    ghost kinds = { λ k. forbidden_kinds };

    fn covers(&self, kind: ReasonKind) -> bool {
        matches!(kind, ReasonKind::Place)
    }

    fn look(&self, p: &Problem, g: &Region, c: u32) -> Look {
        if is_kept(p, g, &p.constraints()[c as usize]) {
            return Look::Clean;
        }
        look_at_constraint(p, g, c)
    }

    fn spares(&self, p: &Problem, g: &Region, c: u32, v: VmId) -> bool {
        is_spared(p, g, c, v)
    }

    fn propose(
        &self,
        p: &Problem,
        g: &Region,
        c: u32,
        them: &mut Vec<Suggestion>,
    ) -> Result<(), Memory> {
        propose_rows(p, g, c, them)
    }

    fn refutes(&self, p: &Problem, g: &Region, e: Element, part: Part, reason: &Reason) -> bool {
        refutes_row(p, g, e, part, reason) || refutes_inside(p, None, g, e, part, reason)
    }

    #[tactic(auto, using(crate::proofs::BrokenLemmas::place_broken))]
    fn reason(&self, p: &Problem, view: &View, c: u32, t: Instant) -> Reason {
        place_reason(p, view, c, t)
    }

    ghost no_loads = { λ k. refl };

    ghost no_nodes = { λ k. refl };
}

/// The rule of nodes that are needed.
pub type NeededRule = Rule<NeededNodes, ConstraintIndex>;

/// The rule of the constraints on where machines may be: a place that is forbidden is cut for good, so a caller may ask
/// for those before all else.
pub type ForbiddenRule = Rule<ConstraintWatcher<ForbiddenPlaces>, ConstraintIndex>;
