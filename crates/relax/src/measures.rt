//! What can be asked of one choice, as measures: over the starts at one place each is least at the first or the last.
ghost use Rattle.std.specs.Prelude.{◌≡◌, ◌≤◌, ◌+◌, ◌^◌, ℕ, max, false};
ghost use Rattle.reasons.specs.Prelude.{action_count, amount_in, count_in, end_of, held_at, image_in, IsElement, max_action, max_amount, node, powered_count, unusable_count, vm};
ghost use Rattle.{slices.specs.declared.slice.Weight.Weight as AnyWeight, slices.specs.declared.slice.Weight.TheVariants.Amount as AmountOf, relax.specs.Areas.IsWeight, relax.specs.Areas.goes_in as the_goes_in, relax.specs.Areas.nodes_of};

use crate::area::{Area, has};
use crate::hosts::is_hosted;
use catalogue::Problem;
use cluster::{Choice, Element, Instant, NodeId, Place, VmId};
use domains::measure::Measure;
use slices::Weight;
use slices::actions::{duration, kind_of};
use slices::choice::{action, holding, powered, usable};
use slices::holding::{Held, amount};
use slices::stage::Progress;

fn amount_on(p: &Problem, v: VmId, r: u8, area: &Area, held: Option<Held>) -> u64
    requires machine { IsElement p.now.given (Element.Vm v) }
    requires resource { IsWeight p.now.given (AmountOf r) }
    ensures amount { result ≡ amount_in p.now.given v.0 r (nodes_of p.now.given area.now) held }
    ensures small { result ≤ max_amount }
{
    match held {
        Some(x) => if has(p, area, x.node) {
            amount(p, v, x.what, r)
        } else {
            0
        },
        None => 0,
    }
}

fn count_on(p: &Problem, area: &Area, held: Option<Held>) -> u64
    ensures count { result ≡ count_in (nodes_of p.now.given area.now) held }
    ensures small { result ≤ 1 }
{
    match held {
        Some(x) => u64::from(has(p, area, x.node)),
        None => 0,
    }
}

fn image_on(p: &Problem, area: &Area, image: Option<NodeId>) -> u64
    ensures { result ≡ image_in (nodes_of p.now.given area.now) image }
{
    match image {
        Some(n) => u64::from(has(p, area, n)),
        None => 0,
    }
}

/// Whether a choice acts at a node of an area.
pub(crate) fn goes_in(p: &Problem, c: Choice, area: &Area) -> bool
    ensures { result ≡ the_goes_in c (nodes_of p.now.given area.now) }
{
    match c {
        Choice::Idle => false,
        Choice::Act { place, start: _ } => match place {
            Place::Nowhere => false,
            Place::At(n) => has(p, area, n),
        },
    }
}

// whether a machine is hosted in an area or goes there, as it does where it holds something there; this
// is told without the kind of its action
fn is_near(p: &Problem, v: VmId, area: &Area, c: Choice) -> bool
    requires { IsElement p.now.given (Element.Vm v) }
    ensures { result ≡ false → (w : AnyWeight) (t : ℕ) → held_at p.now.given v.0 w (nodes_of p.now.given area.now) t c ≡ 0 }
{
    is_hosted(p, v, area) || goes_in(p, c, area)
}

/// What a machine holds on the nodes of an area at an instant of a choice.
pub fn held(p: &Problem, v: VmId, weight: Weight, area: &Area, c: Choice, t: Instant) -> u64
    requires machine { IsElement p.now.given (Element.Vm v) }
    requires weight { IsWeight p.now.given weight }
    ensures { result ≡ held_at p.now.given v.0 weight (nodes_of p.now.given area.now) t c }
{
    if !is_near(p, v, area, c) {
        return 0;
    }
    let now = holding(p, v, c, t);
    match weight {
        Weight::Amount(r) => amount_on(p, v, r, area, now.source)
            + amount_on(p, v, r, area, now.target),
        Weight::Presence => count_on(p, area, now.source) + count_on(p, area, now.target),
        Weight::Image => image_on(p, area, now.image),
    }
}

/// The instant at which the action of a choice ends, 0 for Idle; the choice need not be legal.
#[tactic(auto, unfolding(slices::specs::Actions::end_of, slices::specs::Actions::action_duration, slices::specs::Actions::kind_duration))]
pub fn end(p: &Problem, e: Element, c: Choice) -> u64
    requires { IsElement p.now.given e }
    ensures { result ≡ end_of p.now.given e c }
{
    match c {
        Choice::Idle => 0,
        Choice::Act { place, start } => match kind_of(p, e, place) {
            Some(kind) => u64::from(start) + duration(p, e, kind),
            None => u64::from(start),
        },
    }
}

/// What a machine holds on the nodes of an area at an instant.
#[derive(Drop)]
pub struct HeldIn<'a> {
    pub problem: &'a Problem,
    pub machine: VmId,
    pub weight: Weight,
    pub area: &'a Area,
    pub at: Instant,
}

impl Measure for HeldIn<'_> {
    ghost use Rattle.{slices.proofs.Public.held_at_ends, std.proofs.Common.arith};

    ghost ready = { λ m. IsElement m.problem.now.given (vm m.machine.0) × IsWeight m.problem.now.given m.weight };

    ghost value_of = { λ m. held_at m.problem.now.given m.machine.0 m.weight (nodes_of m.problem.now.given m.area.now) m.at };

    ghost floor_of = { λ m. 0 };

    ghost least_at_ends = { λ m. held_at_ends m.problem.now.given m.machine.0 m.weight (nodes_of m.problem.now.given m.area.now) m.at };

    ghost above_floor = { λ m c. Prim.omega arith };

    fn value(&self, c: Choice) -> u64 {
        held(
            self.problem,
            self.machine,
            self.weight,
            self.area,
            c,
            self.at,
        )
    }

    fn floor(&self) -> u64 {
        0
    }
}

/// The same, raised to a number that no choice is below that is asked for, so that a search for the least
/// can stop there.
#[derive(Drop)]
pub struct HeldFrom<'a> {
    pub held: HeldIn<'a>,
    pub floor: u64,
}

impl Measure for HeldFrom<'_> {
    ghost use Rattle.{slices.proofs.Public.held_at_ends, std.proofs.Common.arith};

    ghost ready = { λ m. IsElement m.held.problem.now.given (vm m.held.machine.0) × IsWeight m.held.problem.now.given m.held.weight };

    ghost value_of = { λ m c. max m.floor (held_at m.held.problem.now.given m.held.machine.0 m.held.weight (nodes_of m.held.problem.now.given m.held.area.now) m.held.at c) };

    ghost floor_of = { λ m. m.floor };

    ghost least_at_ends = { λ m place lo s hi l u. Prim.omega (arith, held_at_ends m.held.problem.now.given m.held.machine.0 m.held.weight (nodes_of m.held.problem.now.given m.held.area.now) m.held.at place lo s hi l u) };

    ghost above_floor = { λ m c. Prim.omega arith };

    fn value(&self, c: Choice) -> u64 {
        self.held.value(c).max(self.floor)
    }

    fn floor(&self) -> u64 {
        self.floor
    }
}

/// When an element's action ends.
#[derive(Drop)]
pub struct EndOf<'a> {
    pub problem: &'a Problem,
    pub element: Element,
}

impl Measure for EndOf<'_> {
    ghost use Rattle.{slices.proofs.Public.ends_by_duration, std.proofs.Common.arith};

    ghost ready = { λ m. IsElement m.problem.now.given m.element };

    ghost value_of = { λ m. end_of m.problem.now.given m.element };

    ghost floor_of = { λ m. 0 };

    ghost least_at_ends = { λ m place lo s hi l u. Prim.omega (arith, ends_by_duration m.problem.now.given m.element place lo, ends_by_duration m.problem.now.given m.element place s, ends_by_duration m.problem.now.given m.element place hi) };

    ghost above_floor = { λ m c. Prim.omega arith };

    #[tactic(auto, using(crate::proofs::EndLemmas::end_climbs))]
    fn climbs(&self) -> bool {
        true
    }

    fn value(&self, c: Choice) -> u64 {
        end(self.problem, self.element, c)
    }

    fn floor(&self) -> u64 {
        0
    }
}

/// 1 where a node is not usable at an instant.
#[derive(Drop)]
pub struct IsUnusable<'a> {
    pub problem: &'a Problem,
    pub node: NodeId,
    pub at: Instant,
}

impl Measure for IsUnusable<'_> {
    ghost use Rattle.{slices.proofs.Public.unusable_at_ends, std.proofs.Common.arith};

    ghost ready = { λ m. IsElement m.problem.now.given (node m.node.0) };

    ghost value_of = { λ m. unusable_count m.problem.now.given m.node.0 m.at };

    ghost floor_of = { λ m. 0 };

    ghost least_at_ends = { λ m. unusable_at_ends m.problem.now.given m.node.0 m.at };

    ghost above_floor = { λ m c. Prim.omega arith };

    fn value(&self, c: Choice) -> u64 {
        u64::from(!usable(self.problem, self.node, c, self.at))
    }

    fn floor(&self) -> u64 {
        0
    }
}

/// 1 where a node is powered at an instant.
#[derive(Drop)]
pub struct IsPowered<'a> {
    pub problem: &'a Problem,
    pub node: NodeId,
    pub at: Instant,
}

impl Measure for IsPowered<'_> {
    ghost use Rattle.{slices.proofs.Public.powered_at_ends, std.proofs.Common.arith};

    ghost ready = { λ m. IsElement m.problem.now.given (node m.node.0) };

    ghost value_of = { λ m. powered_count m.problem.now.given m.node.0 m.at };

    ghost floor_of = { λ m. 0 };

    ghost least_at_ends = { λ m. powered_at_ends m.problem.now.given m.node.0 m.at };

    ghost above_floor = { λ m c. Prim.omega arith };

    fn value(&self, c: Choice) -> u64 {
        u64::from(powered(self.problem, self.node, c, self.at))
    }

    fn floor(&self) -> u64 {
        0
    }
}

/// 1 where a machine's action is so far at an instant.
#[derive(Drop)]
pub struct IsSoFar<'a> {
    pub problem: &'a Problem,
    pub machine: VmId,
    pub far: Progress,
    pub at: Instant,
}

impl Measure for IsSoFar<'_> {
    ghost use Rattle.{slices.proofs.Public.action_at_ends, std.proofs.Common.arith};

    ghost ready = { λ m. IsElement m.problem.now.given (vm m.machine.0) };

    ghost value_of = { λ m. action_count m.problem.now.given m.machine.0 m.far m.at };

    ghost floor_of = { λ m. 0 };

    ghost least_at_ends = { λ m. action_at_ends m.problem.now.given m.machine.0 m.far m.at };

    ghost above_floor = { λ m c. Prim.omega arith };

    fn value(&self, c: Choice) -> u64 {
        u64::from(action(self.problem, self.machine, c, self.far, self.at))
    }

    fn floor(&self) -> u64 {
        0
    }
}
