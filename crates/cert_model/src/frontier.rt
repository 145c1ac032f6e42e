//! What is open: one region that is changed and undone, and the outer sides of the decisions in it.
ghost use Rattle.std.specs.Prelude.{◌≡◌, ◌∷◌, [], OnOk, OnErr, length};
ghost use Rattle.cert_model.specs.Prelude.{AreSame, AreSameSize, FollowFrontier, HasElement, inside, IsEntered, IsKept, later_sets, later_sums, open_sets, open_sums, outside, sets};

use crate::followers::Followers;
use base::Memory;
use catalogue::Problem;
use cluster::Element;
use domains::{Change, Part, Region, Side};
use hints::{Nearby, Seats};
use prop_core::propagator::Propagator;
use std::alloc::Global;
use trail::Trail;

/// The outer side of a decision, which is due once the inner one is closed, with the sum of its
/// least ends.
#[derive(Clone, Copy)]
pub struct Outer {
    pub element: Element,
    pub part: Part,
    pub sum: u64,
}

/// What is due.
#[derive(Clone, Copy)]
pub enum Due {
    /// Nothing: all is closed.
    Nothing,
    /// The region.
    Whole,
    /// What is outside of the part, which is not yet cut away.
    Outside(Element, Part),
}

/// One region, with a mark at each decision whose outer side is open.
///
/// An outer side that becomes due is cut out only when it is entered: the cut may find no memory, and
/// then nothing else has changed. The propagators that are handed in may follow the region.
#[derive(Drop)]
pub struct Frontier {
    pub trail: Trail,
    pub due: Due,
    /// The sum of the least ends of what is due.
    pub sum: u64,
    /// One for each mark.
    pub outers: Vec<Outer>,
    /// Which machines to look at first where a load is asked for.
    pub nearby: Nearby,
    /// At which place of the list of a constraint to look for a machine.
    pub seats: Seats,
    /// Whether the propagators that are handed in follow the trail, where machines surely stand in it, and what some hold together.
    pub followers: Followers,
}

impl Frontier {
    /// The region is due, and nothing else is open.
    pub fn new(
        alloc: Global,
        region: Region,
        sum: u64,
        nearby: Nearby,
        seats: Seats,
        followers: Followers,
    ) -> Frontier
        ensures trail { result.trail ≡ record { region = region; marks = [] } }
        ensures due { result.due ≡ Due.Whole }
        ensures sum { result.sum ≡ sum }
        ensures outers { result.outers.items ≡ [] }
        ensures followers { result.followers ≡ followers }
    {
        Frontier {
            trail: Trail::new(alloc, region),
            due: Due::Whole,
            sum,
            outers: Vec::new(alloc),
            nearby,
            seats,
            followers,
        }
    }

    /// Makes the region be what is due, where anything is.
    pub fn enter(&mut self, p: &Problem, rules: &mut Vec<Box<dyn Propagator>>) -> Result<(), Memory>
        requires kept { IsKept self.old }
        requires follow { FollowFrontier (λ b. meaning b) p.now.given self.old rules.old.items }
        ensures kept { IsKept self.new }
        ensures size { AreSameSize self.old self.new }
        ensures sets { open_sets self.new ≡ open_sets self.old }
        ensures sums { open_sums self.new ≡ open_sums self.old }
        ensures entered { OnOk result (IsEntered self.new.due) }
        ensures follow { FollowFrontier (λ b. meaning b) p.now.given self.new rules.new.items }
    {
        if let Due::Outside(x, part) = self.due {
            let outer = to_side(x, part, Side::Outside);
            self.followers.narrow(p, &mut self.trail, rules, outer)?;
            self.nearby.tell(x, self.trail.region().domain(x));
            self.due = Due::Whole;
        }
        Ok(())
    }

    /// Closes what is due; the outer side of the newest decision comes next.
    pub fn close(&mut self, p: &Problem, rules: &mut Vec<Box<dyn Propagator>>)
        requires kept { IsKept self.old }
        requires follow { FollowFrontier (λ b. meaning b) p.now.given self.old rules.old.items }
        ensures kept { IsKept self.new }
        ensures size { AreSameSize self.old self.new }
        ensures sets { open_sets self.new ≡ later_sets self.old }
        ensures sums { open_sums self.new ≡ later_sums self.old }
        ensures follow { FollowFrontier (λ b. meaning b) p.now.given self.new rules.new.items }
    {
        match self.outers.pop() {
            None => self.due = Due::Nothing,
            Some(outer) => {
                self.followers.back(p, &mut self.trail, rules);
                self.due = Due::Outside(outer.element, outer.part);
                self.sum = outer.sum;
            }
        }
    }

    /// Takes what is inside of a part away; what is outside has that sum.
    pub fn cut(
        &mut self,
        p: &Problem,
        rules: &mut Vec<Box<dyn Propagator>>,
        element: Element,
        part: Part,
        sum: u64,
    ) -> Result<(), Memory>
        requires kept { IsKept self.old }
        requires follow { FollowFrontier (λ b. meaning b) p.now.given self.old rules.old.items }
        requires due { self.old.due ≡ Due.Whole }
        requires element { HasElement self.old.trail.region element }
        ensures kept { IsKept self.new }
        ensures size { AreSameSize self.old self.new }
        ensures sets { OnOk result (open_sets self.new ≡ outside element part (sets self.old.trail.region) ∷ later_sets self.old) }
        ensures sums { OnOk result (open_sums self.new ≡ sum ∷ later_sums self.old) }
        ensures err { OnErr result (AreSame self.old self.new) }
        ensures follow { FollowFrontier (λ b. meaning b) p.now.given self.new rules.new.items }
    {
        let rest = to_side(element, part, Side::Outside);
        self.followers.narrow(p, &mut self.trail, rules, rest)?;
        self.nearby
            .tell(element, self.trail.region().domain(element));
        self.sum = sum;
        Ok(())
    }

    /// Parts what is due: the inside comes first, and has that sum, and the outer side later.
    pub fn decide(
        &mut self,
        p: &Problem,
        rules: &mut Vec<Box<dyn Propagator>>,
        inner_sum: u64,
        outer: Outer,
    ) -> Result<(), Memory>
        requires kept { IsKept self.old }
        requires follow { FollowFrontier (λ b. meaning b) p.now.given self.old rules.old.items }
        requires due { self.old.due ≡ Due.Whole }
        requires element { HasElement self.old.trail.region outer.element }
        ensures kept { IsKept self.new }
        ensures size { AreSameSize self.old self.new }
        ensures sets { OnOk result (open_sets self.new ≡ inside outer.element outer.part (sets self.old.trail.region) ∷ outside outer.element outer.part (sets self.old.trail.region) ∷ later_sets self.old) }
        ensures sums { OnOk result (open_sums self.new ≡ inner_sum ∷ outer.sum ∷ later_sums self.old) }
        ensures err { OnErr result (AreSame self.old self.new) }
        ensures follow { FollowFrontier (λ b. meaning b) p.now.given self.new rules.new.items }
    {
        self.followers.mark(p, &mut self.trail, rules)?;
        let inner = to_side(outer.element, outer.part, Side::Inside);
        if let Err(failed) = self.followers.narrow(p, &mut self.trail, rules, inner) {
            self.followers.back(p, &mut self.trail, rules);
            return Err(failed);
        }
        if self.outers.push(outer).is_err() {
            self.followers.back(p, &mut self.trail, rules);
            return Err(Memory);
        }
        self.nearby
            .tell(outer.element, self.trail.region().domain(outer.element));
        self.sum = inner_sum;
        Ok(())
    }
}

// the change that keeps one side of a part
fn to_side(element: Element, part: Part, side: Side) -> Change
    ensures { result ≡ record { element = element; part = part; side = side } }
{
    Change {
        element,
        part,
        side,
    }
}
