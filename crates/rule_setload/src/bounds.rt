//! What a constraint bounds: what machines hold on the nodes of a set.
ghost use Rattle.std.specs.Prelude.{◌≡◌, IfSome, true};
ghost use Rattle.rule_setload.specs.Prelude.{bound_of as the_bound_of, form_of as the_form_of, inventory_of, is_rule};
ghost use Rattle.slices.specs.Snapshots.{IsWeight};

use rule_frame::{Constraint, Form, NodeSet, Problem, Weight, form_of};

/// An amount, and what is no more than it: what all machines hold on the nodes of a set.
#[derive(Clone, Copy)]
pub struct Bound {
    pub weight: Weight,
    pub nodes: NodeSet,
    pub amount: u64,
}

/// What a constraint bounds, if it bounds what machines hold.
pub fn bound_of(_p: &Problem, constraint: &Constraint) -> Option<Bound>
    requires rule { is_rule (inventory_of _p.now.given) constraint.now ≡ true }
    ensures bound { result ≡ the_bound_of (the_form_of constraint.now) }
    ensures weight { IfSome result (λ b. IsWeight _p.now.given b.weight) }
{
    match form_of(constraint) {
        Form::Bounded(weight, nodes, amount) => Some(Bound {
            weight,
            nodes: *nodes,
            amount,
        }),
        Form::Apart(_)
        | Form::Allowed(..)
        | Form::Together(..)
        | Form::Ordered(..)
        | Form::InTurn(_)
        | Form::Powered(..)
        | Form::Settled => None,
    }
}
