//! Looks at one instant at each machine of a list.
ghost use Rattle.std.specs.Prelude.{◌≡◌, ℕ, ◌<◌, nat_lt, true};
ghost use Rattle.{std.specs.List.list_all, closing.specs.Looks.IsFound, closing.specs.Stands.IsAnyOf};
ghost use Rattle.relax.specs.Prelude.{Instance, IsSized, machine_count, sets, Snapshot};

use crate::look::Look;
use catalogue::Problem;
use cluster::{Instant, VmId};
use domains::Region;

/// A condition on what is sure, for each machine.
pub trait OfMachine {
    /// What of the problem a look needs.
    ghost ready: { Self → Instance → Type 0 };

    /// When the machine of a number meets it.
    ghost met: { Self → Instance → ℕ → Snapshot → Type 0 };

    /// A look at one instant.
    fn found(&self, p: &Problem, g: &Region, v: VmId, t: Instant) -> Look
        requires region { IsSized p.now.given g.now }
        requires ready { ready self.now p.now.given }
        requires machine { v.0 < machine_count p.now.given }
        ensures { IsFound (met self.now p.now.given v.0) p.now.given (sets g.now) t result };
}

/// A look at whether some machine of a list meets the condition.
pub fn found_in<M: OfMachine>(
    each: &M,
    p: &Problem,
    g: &Region,
    machines: &[VmId],
    t: Instant,
) -> Look
    requires region { IsSized p.now.given g.now }
    requires ready { M.ready each.now p.now.given }
    requires machines { list_all (λ x. nat_lt x.0 (machine_count p.now.given)) machines.now ≡ true }
    ensures { IsFound (IsAnyOf machines.now (M.met each.now p.now.given)) p.now.given (sets g.now) t result }
{
    for i in 0..machines.len() {
        match each.found(p, g, machines[i], t) {
            Look::Clean => {}
            Look::Fail(u) => return Look::Fail(u),
            Look::Cut(e, c, u) => return Look::Cut(e, c, u),
        }
    }
    Look::Clean
}
