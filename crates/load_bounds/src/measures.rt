//! What can be asked of one choice: over the starts at one place each is least at the first or the last.
ghost use Rattle.std.specs.Prelude.{IfSome};
ghost use Rattle.profiles.specs.Prelude.{AreLeaves, IsElement, node, vm};
ghost use Rattle.load_bounds.specs.Parts.{left_over, usable_count};
ghost use Rattle.load_bounds.specs.Totals.{hurry_count};

use crate::{Leaving, NEVER};
use catalogue::Problem;
use cluster::{Choice, Instant, NodeId};
use domains::measure::Measure;
use slices::choice::usable;

/// How long before the end of time a machine gives its host up.
#[derive(Drop)]
pub struct LeftOver<'a> {
    pub leaving: Leaving<'a>,
}

impl Measure for LeftOver<'_> {
    ghost use Rattle.std.proofs.Common.{arith};
    ghost use Rattle.load_bounds.specs.Measured.{left_at_ends};

    ghost ready = { λ m. IsElement m.leaving.problem.now.given (vm m.leaving.machine.0) × IfSome m.leaving.leaves (AreLeaves m.leaving.problem.now.given m.leaving.machine.0) };

    ghost value_of = { λ m. left_over m.leaving.problem.now.given m.leaving.machine.0 };

    ghost floor_of = { λ m. 0 };

    ghost least_at_ends = { λ m. left_at_ends m.leaving.problem.now.given m.leaving.machine.0 };

    ghost above_floor = { λ m c. Prim.omega arith };

    fn value(&self, c: Choice) -> u64 {
        NEVER.saturating_sub(self.leaving.value(c))
    }

    fn floor(&self) -> u64 {
        0
    }
}

/// 1 where a node is usable at an instant.
#[derive(Drop)]
pub struct IsUsable<'a> {
    pub problem: &'a Problem,
    pub node: NodeId,
    pub at: Instant,
}

impl Measure for IsUsable<'_> {
    ghost use Rattle.std.proofs.Common.{arith};
    ghost use Rattle.load_bounds.specs.Measured.{usable_at_ends};

    ghost ready = { λ m. IsElement m.problem.now.given (node m.node.0) };

    ghost value_of = { λ m. usable_count m.problem.now.given m.node.0 m.at };

    ghost floor_of = { λ m. 0 };

    ghost least_at_ends = { λ m. usable_at_ends m.problem.now.given m.node.0 m.at };

    ghost above_floor = { λ m c. Prim.omega arith };

    fn value(&self, c: Choice) -> u64 {
        u64::from(usable(self.problem, self.node, c, self.at))
    }

    fn floor(&self) -> u64 {
        0
    }
}

/// 0 for a choice that leaves a machine as it is up to an instant, 1 for others. Where that instant is the last of all,
/// each choice that acts is one of the others.
#[derive(Drop)]
pub struct Hurries {
    pub by: Instant,
    pub last: Instant,
}

impl Measure for Hurries {
    ghost use Rattle.std.proofs.Common.{arith};
    ghost use Rattle.load_bounds.specs.Measured.{hurry_at_ends};

    ghost ready = { λ _. Unit {0} };

    ghost value_of = { λ m. hurry_count m.last m.by };

    ghost floor_of = { λ _. 0 };

    ghost least_at_ends = { λ m. hurry_at_ends m.last m.by };

    ghost above_floor = { λ m c. Prim.omega arith };

    fn value(&self, c: Choice) -> u64 {
        match c {
            Choice::Idle => 0,
            Choice::Act { place: _, start } => u64::from(self.last <= self.by || start <= self.by),
        }
    }

    fn floor(&self) -> u64 {
        0
    }
}
