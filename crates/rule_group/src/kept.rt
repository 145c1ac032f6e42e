//! Whether it is told quickly that a constraint is kept.
ghost use Rattle.std.specs.Prelude.{◌<◌, length, IsTrue};
ghost use Rattle.rule_group.specs.Prelude.{constraint_watch, IsClean, IsSized, sets};

use crate::in_turn::are_in_turn;
use crate::ordered::are_ordered;
use crate::together::are_together;
use rule_frame::{Form, Problem, Region, form_of};

/// Whether it is seen that the constraint of a number is kept.
pub fn is_kept(p: &Problem, g: &Region, c: u32) -> bool
    requires region { IsSized p.now.given g.now }
    requires constraint { c < length p.now.given.constraints }
    ensures { IsTrue result → IsClean (constraint_watch p.now.given c) p.now.given (sets g.now) }
{
    let constraint = &p.constraints()[c as usize];
    match form_of(constraint) {
        Form::Together(machines, groups) => {
            are_together(p, g, constraint, &groups, machines.items())
        }
        Form::Ordered(before, after) => are_ordered(p, g, constraint, before, after),
        Form::InTurn(machines) => are_in_turn(p, g, constraint, machines.items()),
        Form::Apart(_)
        | Form::Allowed(..)
        | Form::Bounded(..)
        | Form::Powered(..)
        | Form::Settled => false,
    }
}
