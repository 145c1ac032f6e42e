//! The trail.
ghost use Rattle.std.specs.Prelude.{◌≡◌, ◌<◌, ◌∷◌, [], OnOk, OnErr, IfOk, length};
ghost use Rattle.domains.specs.Prelude.{domain_at, domain_before, HasElement, keeping, on_side, out_of_part, restored, sets};
ghost use Rattle.cluster.specs.declared.ids.Element.{Element as AnyElement};
ghost use Rattle.trail.specs.Logs.{Marked};

use crate::log::{Entry, cut, keep, undo};
use base::Memory;
use cluster::Element;
use domains::undo::Lost;
use domains::{Before, Change, Domain, Part, Region, Side};
use std::alloc::Global;
use std::marker::Model;

/// A region with its marks.
#[derive(Drop)]
pub struct Trail {
    region: Region,
    log: Vec<Entry>,
    marks: u64,
}

impl Model for Trail {
    ghost use Rattle.std.specs.Prelude.{reverse};
    ghost use Rattle.trail.specs.Logs.{Marked, marked, IsLog};

    ghost Value = { Marked };

    ghost view = { λ t. record { region = t.region; marks = marked t.region (reverse t.log.items) } };

    ghost invariant = { λ t. IsLog t.region t.log.items t.marks };
}

impl Trail {
    /// A region without a mark.
    pub fn new(alloc: Global, region: Region) -> Trail
        ensures { result ≡ record { region = region; marks = [] } }
    {
        Trail {
            region,
            log: Vec::new(alloc),
            marks: 0,
        }
    }

    /// The region now.
    pub fn region(&self) -> &Region
        ensures { result.now ≡ self.now.region }
    {
        &self.region
    }

    /// How many marks stand.
    pub fn marks(&self) -> u64
        ensures { result ≡ length self.now.marks }
    {
        self.marks
    }

    /// Narrows one element. After want of memory all is as it was.
    pub fn apply(&mut self, change: Change) -> Result<(), Memory>
        requires { HasElement self.old.region change.element }
        ensures machines { length self.new.region.machines ≡ length self.old.region.machines }
        ensures nodes { length self.new.region.nodes ≡ length self.old.region.nodes }
        ensures sets { OnOk result ((e : AnyElement) → sets self.new.region e
            ≡ keeping change.element (on_side change.side change.part) (sets self.old.region) e) }
        ensures marks { self.new.marks ≡ self.old.marks }
        ensures err { OnErr result (self.new ≡ self.old) }
    {
        if self.marks == 0 {
            self.region.narrow(change);
            return Ok(());
        }
        match change.side {
            Side::Inside => keep(&mut self.region, &mut self.log, change.element, change.part)?,
            Side::Outside => {
                let _ = cut(&mut self.region, &mut self.log, change.element, change.part)?;
            }
        }
        Ok(())
    }

    /// Narrows one element as `apply` does, and says what its domain was before, for those who are told of changes.
    ///
    /// Where the element keeps the inside of a part, `kept` becomes its old domain, in the memory that it has where
    /// that is enough. Where it keeps the outside, nothing is copied: the answer says what it has lost.
    pub fn apply_told(&mut self, change: Change, kept: &mut Domain) -> Result<Before, Memory>
        requires { HasElement self.old.region change.element }
        ensures machines { length self.new.region.machines ≡ length self.old.region.machines }
        ensures nodes { length self.new.region.nodes ≡ length self.old.region.nodes }
        ensures sets { OnOk result ((e : AnyElement) → sets self.new.region e
            ≡ keeping change.element (on_side change.side change.part) (sets self.old.region) e) }
        ensures marks { self.new.marks ≡ self.old.marks }
        ensures before { IfOk result (λ before. domain_before before kept.new (domain_at self.new.region change.element)
            ≡ domain_at self.old.region change.element) }
        ensures err { OnErr result (self.new ≡ self.old) }
    {
        match change.side {
            Side::Inside => {
                kept.copy_from(self.region.domain(change.element))?;
                self.apply(change)?;
                Ok(Before::Kept)
            }
            Side::Outside => Ok(Before::Lost(self.cut(change.element, change.part)?)),
        }
    }

    // takes choices away, and says which
    fn cut(&mut self, e: Element, part: Part) -> Result<Lost, Memory>
        requires { HasElement self.old.region e }
        ensures machines { length self.new.region.machines ≡ length self.old.region.machines }
        ensures nodes { length self.new.region.nodes ≡ length self.old.region.nodes }
        ensures sets { OnOk result ((x : AnyElement) → sets self.new.region x ≡ keeping e (out_of_part part) (sets self.old.region) x) }
        ensures marks { self.new.marks ≡ self.old.marks }
        ensures lost { IfOk result (λ lost. restored lost (domain_at self.new.region e) ≡ domain_at self.old.region e) }
        ensures err { OnErr result (self.new ≡ self.old) }
    {
        if self.marks == 0 {
            return Ok(self.region.cut(e, part));
        }
        cut(&mut self.region, &mut self.log, e, part)
    }

    /// Makes a mark, to which `back` returns.
    pub fn mark(&mut self) -> Result<(), Memory>
        ensures ok { OnOk result (self.new ≡ record { region = self.old.region; marks = self.old.region ∷ self.old.marks }) }
        ensures err { OnErr result (self.new ≡ self.old) }
    {
        self.log.push(Entry::Mark)?;
        self.marks += 1;
        Ok(())
    }

    /// Goes back to the last mark, and drops it.
    pub fn back(&mut self)
        requires { 0 < length self.old.marks }
        ensures { self.old.marks ≡ self.new.region ∷ self.new.marks }
    {
        while let Some(entry) = self.log.pop() {
            match entry {
                Entry::Mark => {
                    self.marks -= 1;
                    if self.marks == 0 {
                        // without a mark nothing is kept
                        self.log.clear();
                    }
                    return;
                }
                Entry::Whole(e, old) => drop(self.region.set(e, Box::into_inner(old))),
                Entry::Lost(e, lost) => self.region.restore(e, lost),
            }
        }
    }
}
