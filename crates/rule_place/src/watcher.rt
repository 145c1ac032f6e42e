//! The watches of nodes that are needed.
ghost use Rattle.std.specs.Prelude.{◌<◌};
ghost use Rattle.rule_constraint.specs.Prelude.{IsLook, IsSized, node_count, sets, usable_watch};
ghost use Rattle.rule_place.specs.Covers.{needed_kinds};
ghost use Rattle.rule_place.specs.Nodes.{needed_count, needed_watch};
ghost use Rattle.rule_place.specs.Quiet.{nodes_are_local, nodes_are_quiet};

use crate::nodes::set_nodes_dirty;
use crate::optional::is_optional;
use crate::places::usable_reason;
use crate::shutdowns::is_let_go;
use closing::watch::look_at_usable;
use relax::refutes::refutes_inside;
use rule_constraint::ConstraintIndex;
use rule_frame::{
    Before, Change, DirtySet, Domain, Element, Instant, Look, NodeId, Part, Problem, Reason,
    ReasonKind, Region, View, Watcher,
};

// a look at whether a node is usable where it is needed
fn look_at_node(p: &Problem, g: &Region, n: NodeId) -> Look
    requires region { IsSized p.now.given g.now }
    requires node { n.0 < node_count p.now.given }
    ensures { IsLook (usable_watch p.now.given n.0) p.now.given (sets g.now) result }
{
    if is_let_go(p, g, n) {
        return Look::Clean;
    }
    if is_optional(p, g, n) {
        return Look::Clean;
    }
    look_at_usable(p, g, n)
}

/// Watch i tells whether node i is usable where it is needed.
#[derive(Clone, Copy, Default)]
pub struct NeededNodes;

impl Watcher<ConstraintIndex> for NeededNodes {
    ghost watch = { λ w. needed_watch };

    ghost count_of = { λ w. needed_count };

    ghost kinds = { λ w. needed_kinds };

    fn count(&self, p: &Problem) -> usize {
        p.cluster().nodes().len()
    }

    fn covers(&self, kind: ReasonKind) -> bool {
        matches!(kind, ReasonKind::Usable)
    }

    fn disturb(
        &self,
        _k: &ConstraintIndex,
        p: &Problem,
        g: &Region,
        change: Change,
        before: Before,
        kept: &Domain,
        dirty: &mut DirtySet,
    ) {
        set_nodes_dirty(p, g, change.element, before, kept, dirty);
    }

    fn look(&self, _k: &ConstraintIndex, p: &Problem, g: &Region, i: usize) -> Look {
        look_at_node(p, g, NodeId(i as u32))
    }

    fn reason(
        &self,
        _k: &ConstraintIndex,
        p: &Problem,
        view: &View,
        i: usize,
        t: Instant,
    ) -> Reason {
        usable_reason(p, view, NodeId(i as u32), t)
    }

    fn refutes(
        &self,
        _k: &ConstraintIndex,
        p: &Problem,
        g: &Region,
        e: Element,
        part: Part,
        reason: &Reason,
    ) -> bool {
        refutes_inside(p, None, g, e, part, reason)
    }

    ghost local = { λ w. nodes_are_local };

    ghost quiet = { λ w. nodes_are_quiet };
}
