//! A list of so many items, with levels.
ghost use Rattle.std.specs.Prelude.{◌≡◌, ◌<◌, [], length, OnOk, OnErr, slice_set};
ghost use Rattle.standings.specs.Levels.{IsBack, marked};

use base::Memory;
use std::alloc::Global;
use std::marker::Model;

/// One entry of the log.
#[derive(Clone, Copy, Debug)]
pub enum Entry<T> {
    /// A mark was made.
    Mark,
    /// There was this item at the place.
    Undo(u32, T),
}

/// The items of a list, at the top and at each mark.
///
/// A mark costs a constant, and what is kept for going back is the items that have changed since. While no mark
/// stands nothing is kept.
#[derive(Drop)]
pub struct Levelled<T> {
    top: Vec<T>,
    log: Vec<Entry<T>>,
    marks: u64,
}

impl<T> Model for Levelled<T> {
    ghost use Rattle.std.specs.Prelude.{reverse};
    ghost use Rattle.standings.specs.Levels.{IsLog, Levels, levels_code, olders};

    ghost Value = { Levels T };

    ghost coded = { levels_code T.code };

    ghost view = { λ m. record { older = olders m.top.items (reverse m.log.items); top = m.top.items } };

    ghost invariant = { λ m. IsLog m.top.items (reverse m.log.items) m.marks };
}

impl<T: Copy> Levelled<T> {
    /// No item, with one level.
    pub fn new(alloc: Global) -> Levelled<T>
        ensures { result ≡ record { older = []; top = [] } }
    {
        Levelled {
            top: Vec::new(alloc),
            log: Vec::new(alloc),
            marks: 0,
        }
    }

    /// How many marks stand.
    pub fn level(&self) -> u64
        ensures { result ≡ length self.now.older }
    {
        self.marks
    }

    /// The items at the top.
    pub fn items(&self) -> &[T]
        ensures { result.now ≡ self.now.top }
    {
        self.top.as_slice()
    }

    /// Starts anew with these items, and no mark.
    pub fn reset(&mut self, items: Vec<T>)
        ensures { self.new ≡ record { older = []; top = items.items } }
    {
        self.top = items;
        self.log.clear();
        self.marks = 0;
    }

    /// Changes an item at the top. After want of memory all is as it was.
    #[tactic(auto, using(crate::proofs::LevelLemmas::olders_put, crate::proofs::LevelLemmas::log_put))]
    pub fn set(&mut self, i: u32, item: T) -> Result<(), Memory>
        requires { i < length self.old.top }
        ensures ok { OnOk result (self.new ≡ record { older = self.old.older; top = slice_set self.old.top i item }) }
        ensures err { OnErr result (self.new ≡ self.old) }
    {
        if self.marks == 0 {
            self.top[i as usize] = item;
            return Ok(());
        }
        let old = self.top[i as usize];
        self.log.push(Entry::Undo(i, old))?;
        self.top[i as usize] = item;
        Ok(())
    }

    /// Makes a mark, to which `back` returns. After want of memory all is as it was.
    pub fn mark(&mut self) -> Result<(), Memory>
        ensures ok { OnOk result (self.new ≡ marked self.old) }
        ensures err { OnErr result (self.new ≡ self.old) }
    {
        self.log.push(Entry::Mark)?;
        self.marks += 1;
        Ok(())
    }

    /// Goes back to the last mark, and drops it.
    pub fn back(&mut self)
        requires { 0 < length self.old.older }
        ensures { IsBack self.old self.new }
    {
        while let Some(entry) = self.log.pop() {
            match entry {
                Entry::Mark => {
                    self.marks -= 1;
                    if self.marks == 0 {
                        // without a mark nothing is kept
                        self.log.clear();
                    }
                    return;
                }
                Entry::Undo(i, old) => {
                    if (i as usize) < self.top.len() {
                        self.top[i as usize] = old;
                    }
                }
            }
        }
    }
}
