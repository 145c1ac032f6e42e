//! The rule itself.
ghost use Rattle.std.specs.Prelude.{refl};
ghost use Rattle.rule_setload.specs.Covers.{set_kinds};

use crate::amounts::{AmountKeeper, AmountWatcher};
use crate::spared::is_spared;
use rule_constraint::Kinds;
use rule_frame::{Form, Instant, Problem, Reason, ReasonKind, Region, Rule, View, VmId, form_of};

/// Amounts on the nodes of a set: `resourceCapacity`, `runningCapacity`, `maxOnline`.
#[derive(Clone, Copy, Default)]
pub struct Sets;

impl Kinds for Sets {
    ghost kinds = { λ k. set_kinds };

    fn covers(&self, kind: ReasonKind) -> bool {
        matches!(kind, ReasonKind::SetLoad | ReasonKind::Power)
    }

    fn spares(&self, p: &Problem, g: &Region, c: u32, v: VmId) -> bool {
        is_spared(p, g, c, v)
    }

    // it is broken by an amount, and has no witness
    fn reason(&self, p: &Problem, _view: &View, c: u32, t: Instant) -> Reason {
        match form_of(&p.constraints()[c as usize]) {
            Form::Bounded(..) => Reason::SetLoad(c, t),
            Form::Powered(..) => Reason::Power(c, t),
            Form::Apart(_)
            | Form::Allowed(..)
            | Form::Together(..)
            | Form::Ordered(..)
            | Form::InTurn(_)
            | Form::Settled => unreachable!(),
        }
    }

    ghost no_loads = { λ k. refl };

    ghost no_nodes = { λ k. refl };
}

/// The rule of the constraints on amounts.
pub type SetRule = Rule<AmountWatcher, AmountKeeper>;
