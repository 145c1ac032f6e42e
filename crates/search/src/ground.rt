//! One region on a trail, with the sum of its least ends.
ghost use Rattle.std.specs.Prelude.{◌≡◌, ◌∷◌, ◌<◌, ◌-◌, ◌^◌, [], IfOk, OnOk, length};
ghost use Rattle.search.specs.Prelude.{domain_at, domain_before, Element as AnyElement, IsElement, IsGround, IsRegionOf, keeping, most, on_side, sets};

use base::Memory;
use bound::lower_bound::LowerBound;
use catalogue::Problem;
use domains::{Before, Change, Domain, Region};
use std::alloc::Global;
use trail::Trail;

/// The region at hand with its marks, the sum of its least ends, and a domain in which the trail keeps
/// an old one while a change is told.
#[derive(Drop)]
pub struct Ground {
    pub trail: Trail,
    pub bound: LowerBound,
    pub kept: Domain,
}

impl Ground {
    /// The region without a mark. The only error is want of memory.
    pub fn new(alloc: Global, p: &Problem, region: Region) -> Result<Ground, Memory>
        requires { IsRegionOf p.now.given region }
        ensures trail { IfOk result (λ g. g.trail ≡ record { region = region; marks = [] }) }
        ensures ground { IfOk result (IsGround p.now.given) }
    {
        let bound = LowerBound::new(alloc, p, &region)?;
        Ok(Ground {
            trail: Trail::new(alloc, region),
            bound,
            kept: Domain::new(alloc, false),
        })
    }

    /// Narrows one element, and says what its domain was, by the one that is kept or by what was lost.
    /// After want of memory the search is over.
    pub fn narrow(&mut self, p: &Problem, change: Change) -> Result<Before, Memory>
        requires ground { IsGround p.now.given self.old }
        requires element { IsElement p.now.given change.element }
        ensures ground { OnOk result (IsGround p.now.given self.new) }
        ensures marks { self.new.trail.marks ≡ self.old.trail.marks }
        ensures sets { OnOk result ((e : AnyElement) → sets self.new.trail.region e
            ≡ keeping change.element (on_side change.side change.part) (sets self.old.trail.region) e) }
        ensures before { IfOk result (λ before. domain_before before self.new.kept (domain_at self.new.trail.region change.element)
            ≡ domain_at self.old.trail.region change.element) }
    {
        let before = self.trail.apply_told(change, &mut self.kept)?;
        let region = self.trail.region();
        self.bound
            .told(p, region, change.element, before, &self.kept);
        Ok(before)
    }

    /// Makes a mark, to which `back` returns. After want of memory the search is over.
    pub fn mark(&mut self, p: &Problem) -> Result<(), Memory>
        requires { IsGround p.now.given self.old }
        ensures ground { OnOk result (IsGround p.now.given self.new) }
        ensures trail { OnOk result (self.new.trail ≡ record { region = self.old.trail.region; marks = self.old.trail.region ∷ self.old.trail.marks }) }
        ensures few { OnOk result (length self.old.trail.marks < most) }
    {
        self.bound.mark()?;
        self.trail.mark()?;
        self.trail.marks();
        Ok(())
    }

    /// Goes back to the last mark, and drops it.
    pub fn back(&mut self, p: &Problem)
        requires ground { IsGround p.now.given self.old }
        requires marked { 0 < length self.old.trail.marks }
        ensures ground { IsGround p.now.given self.new }
        ensures marks { self.old.trail.marks ≡ self.new.trail.region ∷ self.new.trail.marks }
    {
        self.trail.back();
        self.bound.back();
    }
}
