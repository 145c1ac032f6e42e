//! Single things that can be broken, looked at over a region: at one instant, and at all.
ghost use Rattle.std.specs.Prelude.{◌≡◌, ℕ, ◌+◌, ◌<◌, ◌≤◌, length};
ghost use Rattle.relax.specs.Prelude.{Instance, IsSized, node_count, sets};
ghost use Rattle.closing.specs.{Kinds.constraint_watch, Kinds.load_watch, Kinds.total_load_watch, Kinds.usable_watch, Looks.IsFound, Looks.IsLook, Looks.broken_at, ChangeInstants.AreListed, ChangeInstants.Suffice, Watches.IsLocal, Watches.Watch};

use crate::exact::constraint::{change_instants_of, constraint_found};
use crate::exact::loads::load_found;
use crate::exact::usable::usable_found;
use crate::look::Look;
use crate::quick::ever::is_never_broken;
use crate::quick::steady::{is_never_overloaded, stays_usable};
use crate::shared::change_instants::{ChangeInstants, next_change_instant};
use catalogue::Problem;
use cluster::{Instant, NodeId};
use domains::Region;
use relax::Area;

// one thing that can be broken
trait Watched {
    // what of the problem a look needs
    ghost ready: { Self → Instance → Type 0 };

    // when it is broken, and what it looks at
    ghost watch: { Self → Instance → Watch };

    // a look at one instant
    fn found(&self, p: &Problem, g: &Region, t: Instant) -> Look
        requires region { IsSized p.now.given g.now }
        requires ready { ready self.now p.now.given }
        requires within { t ≤ p.now.given.horizon }
        ensures { IsFound (broken_at (watch self.now p.now.given) p.now.given t) p.now.given (sets g.now) t result };
}

// the load of one node
#[derive(Clone, Copy)]
struct NodeLoad(NodeId);

impl Watched for NodeLoad {
    ghost ready = { λ w p. w.0.0 < node_count p };

    ghost watch = { λ w p. load_watch p w.0.0 };

    fn found(&self, p: &Problem, g: &Region, t: Instant) -> Look {
        load_found(p, g, &Area::One(self.0), t)
    }
}

// the load of all nodes together
#[derive(Clone, Copy)]
struct TotalLoad;

impl Watched for TotalLoad {
    ghost ready = { λ w p. Unit {0} };

    ghost watch = { λ w p. total_load_watch p };

    fn found(&self, p: &Problem, g: &Region, t: Instant) -> Look {
        load_found(p, g, &Area::All, t)
    }
}

// whether one node is usable where it is needed
#[derive(Clone, Copy)]
struct NodeUsable(NodeId);

impl Watched for NodeUsable {
    ghost ready = { λ w p. w.0.0 < node_count p };

    ghost watch = { λ w p. usable_watch p w.0.0 };

    fn found(&self, p: &Problem, g: &Region, t: Instant) -> Look {
        usable_found(p, g, self.0, t)
    }
}

// one constraint, by its number
#[derive(Clone, Copy)]
struct OneConstraint(u32);

impl Watched for OneConstraint {
    ghost ready = { λ w p. w.0 < length p.constraints };

    ghost watch = { λ w p. constraint_watch p w.0 };

    fn found(&self, p: &Problem, g: &Region, t: Instant) -> Look {
        constraint_found(p, g, self.0, t)
    }
}

// a look at one thing at all instants up to the horizon, by change instants one after the other; what is found first is
// answered
fn look<W: Watched>(watched: &W, p: &Problem, g: &Region, change_instants: &ChangeInstants) -> Look
    requires region { IsSized p.now.given g.now }
    requires ready { W.ready watched.now p.now.given }
    requires local { IsLocal (W.watch watched.now p.now.given) }
    requires machines { AreListed p.now.given change_instants.now }
    requires suffice { Suffice change_instants.now (W.watch watched.now p.now.given).scope }
    ensures { IsLook (W.watch watched.now p.now.given) p.now.given (sets g.now) result }
{
    let mut at = 0u64;
    'instants: while at <= u64::from(p.horizon()) {
        match watched.found(p, g, at as u32) {
            Look::Clean => {}
            Look::Fail(t) => return Look::Fail(t),
            Look::Cut(e, c, t) => return Look::Cut(e, c, t),
        }
        at = next_change_instant(p, g, change_instants, at as u32);
    }
    Look::Clean
}

/// A look at the load of one node.
pub fn look_at_load(p: &Problem, g: &Region, n: NodeId) -> Look
    requires region { IsSized p.now.given g.now }
    requires node { n.0 < node_count p.now.given }
    ensures { IsLook (load_watch p.now.given n.0) p.now.given (sets g.now) result }
{
    if is_never_overloaded(p, g, &Area::One(n)) {
        return Look::Clean;
    }
    look(&NodeLoad(n), p, g, &ChangeInstants::OfAll)
}

/// A look at the load of all nodes together.
pub fn look_at_total_load(p: &Problem, g: &Region) -> Look
    requires region { IsSized p.now.given g.now }
    ensures { IsLook (total_load_watch p.now.given) p.now.given (sets g.now) result }
{
    if is_never_overloaded(p, g, &Area::All) {
        return Look::Clean;
    }
    look(&TotalLoad, p, g, &ChangeInstants::OfAll)
}

/// A look at whether a node on which machines are, or have their images, is usable. The horizon is looked at
/// first: what is found there cuts the most starts at once.
pub fn look_at_usable(p: &Problem, g: &Region, n: NodeId) -> Look
    requires region { IsSized p.now.given g.now }
    requires node { n.0 < node_count p.now.given }
    ensures { IsLook (usable_watch p.now.given n.0) p.now.given (sets g.now) result }
{
    if stays_usable(p, g, n) {
        return Look::Clean;
    }
    match usable_found(p, g, n, p.horizon()) {
        Look::Clean => look(&NodeUsable(n), p, g, &ChangeInstants::OfAll),
        Look::Fail(t) => Look::Fail(t),
        Look::Cut(e, c, t) => Look::Cut(e, c, t),
    }
}

// a look at a constraint at all change instants that suffice
fn look_always(p: &Problem, g: &Region, c: u32) -> Look
    requires region { IsSized p.now.given g.now }
    requires constraint { c < length p.now.given.constraints }
    ensures { IsLook (constraint_watch p.now.given c) p.now.given (sets g.now) result }
{
    let constraint = &p.constraints()[c as usize];
    if is_never_broken(p, g, constraint) {
        return Look::Clean;
    }
    look(&OneConstraint(c), p, g, &change_instants_of(p, constraint))
}

/// A look at the constraint of a number. One that is to hold at the horizon alone is looked at there alone.
pub fn look_at_constraint(p: &Problem, g: &Region, c: u32) -> Look
    requires region { IsSized p.now.given g.now }
    requires constraint { c < length p.now.given.constraints }
    ensures { IsLook (constraint_watch p.now.given c) p.now.given (sets g.now) result }
{
    if p.constraints()[c as usize].is_continuous() {
        look_always(p, g, c)
    } else {
        constraint_found(p, g, c, p.horizon())
    }
}
