//! Cuts that are worth a try before a look at a constraint. Nothing is promised of them: each is looked at exactly.
ghost use Rattle.std.specs.Prelude.{◌<◌, ◌≤◌, length};
ghost use Rattle.rule_group.specs.Prelude.{IsSized};

use crate::together_cuts::cut_together;
use crate::turn_cuts::{cut_in_turn, cut_ordered};
use rule_frame::{
    Element, Form, Instant, Memory, Part, Problem, Reason, Region, Suggestion, VmId, form_of,
};

/// An instant of the problem: the last one where that is sooner.
pub fn instant_of(p: &Problem, at: u64) -> Instant {
    at.min(u64::from(p.horizon())) as u32
}

/// Puts in a cut of a machine by a constraint at an instant.
pub fn put(
    them: &mut Vec<Suggestion>,
    v: VmId,
    part: Part,
    c: u32,
    t: Instant,
) -> Result<(), Memory> {
    them.push(Suggestion {
        element: Element::Vm(v),
        part,
        reason: Reason::Group(c, t),
    })?;
    Ok(())
}

/// Puts in all cuts that the constraint of a number is likely to make.
pub fn propose_cuts(
    p: &Problem,
    g: &Region,
    c: u32,
    them: &mut Vec<Suggestion>,
) -> Result<(), Memory>
    requires region { IsSized p.now.given g.now }
    requires constraint { c < length p.now.given.constraints }
{
    let constraint = &p.constraints()[c as usize];
    match form_of(constraint) {
        Form::Together(machines, groups) => {
            let always = constraint.is_continuous();
            cut_together(p, g, c, always, &groups, machines.items(), them)
        }
        Form::Ordered(before, after) => cut_ordered(p, g, c, before, after, them),
        Form::InTurn(machines) => cut_in_turn(p, g, c, machines.items(), them),
        Form::Apart(_)
        | Form::Allowed(..)
        | Form::Bounded(..)
        | Form::Powered(..)
        | Form::Settled => Ok(()),
    }
}
