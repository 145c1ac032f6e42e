//! The rule itself.
ghost use Rattle.std.specs.Prelude.{refl};
ghost use Rattle.rule_group.specs.Covers.{group_kinds};

use crate::cuts::propose_cuts;
use crate::kept::is_kept;
use crate::refuting::refutes_part;
use rule_constraint::{ConstraintIndex, ConstraintWatcher, Kinds};
use rule_frame::{
    Element, Instant, Memory, Part, Problem, Reason, ReasonKind, Region, Rule, Suggestion, View,
};

/// Whole groups of machines: `gather`, `among`, `precedence`, `serialize`.
#[derive(Clone, Copy, Default)]
pub struct Groups;

impl Kinds for Groups {
    ghost kinds = { λ k. group_kinds };

    fn covers(&self, kind: ReasonKind) -> bool {
        matches!(kind, ReasonKind::Group)
    }

    fn is_clean(&self, p: &Problem, g: &Region, c: u32) -> bool {
        is_kept(p, g, c)
    }

    fn propose(
        &self,
        p: &Problem,
        g: &Region,
        c: u32,
        them: &mut Vec<Suggestion>,
    ) -> Result<(), Memory> {
        propose_cuts(p, g, c, them)
    }

    // it is broken as a whole, and has no witness
    #[tactic(auto, using(crate::proofs::BrokenLemmas::group_broken))]
    fn reason(&self, _p: &Problem, _view: &View, c: u32, t: Instant) -> Reason {
        Reason::Group(c, t)
    }

    fn refutes(&self, p: &Problem, g: &Region, e: Element, part: Part, reason: &Reason) -> bool {
        refutes_part(p, g, e, part, reason)
    }

    ghost no_loads = { λ k. refl };

    ghost no_nodes = { λ k. refl };
}

/// The rule of the constraints on whole groups of machines.
pub type GroupRule = Rule<ConstraintWatcher<Groups>, ConstraintIndex>;
