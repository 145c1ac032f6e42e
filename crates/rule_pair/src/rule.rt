//! The rule itself.
ghost use Rattle.std.specs.Prelude.{refl};
ghost use Rattle.rule_pair.specs.Covers.{pair_kinds};

use crate::keeper::PairKeeper;
use crate::pairs::pair_reason;
use crate::twins;
use crate::watcher::PairWatcher;
use rule_constraint::Kinds;
use rule_frame::{Instant, Problem, Reason, ReasonKind, Region, Rule, View, VmId};

/// Two machines on one node: `spread`, `split`, `lonely`.
#[derive(Clone, Copy, Default)]
pub struct Pairs;

impl Kinds for Pairs {
    ghost kinds = { λ k. pair_kinds };

    fn covers(&self, kind: ReasonKind) -> bool {
        matches!(kind, ReasonKind::Pair)
    }

    #[tactic(auto, using(crate::proofs::BrokenLemmas::pair_broken))]
    fn reason(&self, p: &Problem, view: &View, c: u32, t: Instant) -> Reason {
        pair_reason(p, view, c, t)
    }

    fn spares(&self, p: &Problem, g: &Region, c: u32, v: VmId) -> bool {
        twins::is_spared(p, g, c, v)
    }

    ghost no_loads = { λ k. refl };

    ghost no_nodes = { λ k. refl };
}

/// The rule of the constraints that keep machines apart.
pub type PairRule = Rule<PairWatcher, PairKeeper>;
