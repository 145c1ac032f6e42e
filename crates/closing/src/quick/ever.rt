//! Constraints that are broken at no instant, whatever the starts are.
ghost use Rattle.std.specs.Prelude.{ℕ, IsTrue};
ghost use Rattle.closing.specs.Prelude.{inventory_of, is_rule, IsBroken, IsFreeOf, IsSized, sets};

use crate::quick::within::stays_within;
use catalogue::{Constraint, Problem};
use domains::Region;
use relax::Area;
use slices::Form;
use slices::form::form_of;

/// Whether it is seen at once that a constraint is broken at no instant, whatever the starts are: what it bounds
/// stays within its amount.
pub fn is_never_broken(p: &Problem, g: &Region, constraint: &Constraint) -> bool
    requires region { IsSized p.now.given g.now }
    requires rule { IsTrue (is_rule (inventory_of p.now.given) constraint.now) }
    ensures { IsTrue result → (t : ℕ) → IsFreeOf (λ s. IsBroken p.now.given s constraint.now) p.now.given (sets g.now) t }
{
    match form_of(constraint) {
        Form::Bounded(weight, nodes, amount) => {
            stays_within(p, g, weight, &Area::In(*nodes), amount)
        }
        Form::Apart(..)
        | Form::Allowed(..)
        | Form::Together(..)
        | Form::Ordered(..)
        | Form::InTurn(..)
        | Form::Powered(..)
        | Form::Settled => false,
    }
}
