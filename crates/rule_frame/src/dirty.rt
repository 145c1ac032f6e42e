//! Which watches are dirty, with levels.
ghost use Rattle.std.specs.Prelude.{◌≡◌, ℕ, ◌<◌, [], ◌∷◌, ◌++◌, length, IsTrue, OnOk, OnErr, true, false, replicate, slice_index_or, slice_set};

use crate::Memory;
use std::alloc::Global;
use std::marker::Model;

/// Whether each watch is dirty, so that it has to be looked at again, and whether it was at each level below.
///
/// Beside the flags of the top it keeps a number before which no watch is dirty, so that most searches for one are short.
#[derive(Drop)]
pub struct DirtySet {
    older: Vec<Vec<bool>>,
    top: Vec<bool>,
    first: usize,
    ghost none_before: { (i : ℕ) → i < first → slice_index_or top.items i false ≡ false },
}

impl Model for DirtySet {
    ghost use Rattle.std.specs.Prelude.{map, Bool, Vec};
    ghost use Rattle.std.specs.declared.alloc.Global.{Global};
    ghost use Rattle.rule_frame.specs.Levels.{Levels};

    ghost Value = { Levels };

    ghost view = { λ m. record { older = map (λ (v : Vec Bool Global). v.items) m.older.items; top = m.top.items } };
}

impl DirtySet {
    /// One level, without a watch.
    pub fn new(alloc: Global) -> DirtySet
        ensures { result ≡ record { older = []; top = [] } }
    {
        DirtySet {
            older: Vec::new(alloc),
            top: Vec::new(alloc),
            first: 0,
        }
    }

    /// How many levels stand below the top.
    pub fn level(&self) -> u64
        ensures { result ≡ length self.now.older }
    {
        self.older.len() as u64
    }

    /// How many watches there are.
    pub fn count(&self) -> usize
        ensures { result ≡ length self.now.top }
    {
        self.top.len()
    }

    /// Starts anew, with one level and so many watches, all dirty.
    pub fn reset(&mut self, count: usize) -> Result<(), Memory>
        ensures { OnOk result (self.new ≡ record { older = []; top = replicate count true }) }
    {
        self.first = 0;
        self.older.clear();
        self.top.clear();
        self.top.resize(count, true)?;
        Ok(())
    }

    /// Whether a watch is dirty.
    pub fn is_dirty(&self, i: usize) -> bool
        requires { i < length self.now.top }
        ensures { result ≡ slice_index_or self.now.top i false }
    {
        self.top[i]
    }

    /// A number before which no watch is dirty.
    pub fn first(&self) -> usize
        ensures { (i : ℕ) → i < result → slice_index_or self.now.top i false ≡ false }
    {
        self.first
    }

    /// Whether it is seen that no watch is dirty. It need not be seen.
    pub fn is_clean(&self) -> bool
        ensures { IsTrue result → (i : ℕ) → i < length self.now.top → slice_index_or self.now.top i false ≡ false }
    {
        self.first >= self.top.len()
    }

    /// Keeps a number before which no watch is dirty.
    pub fn pass(&mut self, first: usize)
        requires { (i : ℕ) → i < first → slice_index_or self.old.top i false ≡ false }
        ensures { self.new ≡ self.old }
    {
        self.first = first;
    }

    /// Sets a watch dirty, or clean.
    pub fn set_dirty(&mut self, i: usize, dirty: bool)
        requires { i < length self.old.top }
        ensures { self.new ≡ record self.old { top = slice_set self.old.top i dirty } }
    {
        if dirty && i < self.first {
            self.first = i;
        }
        self.top[i] = dirty;
    }

    /// A new level, which begins as the top is. After want of memory all is as it was.
    pub fn mark(&mut self) -> Result<(), Memory>
        ensures ok { OnOk result (self.new ≡ record self.old { older = self.old.older ++ self.old.top ∷ [] }) }
        ensures err { OnErr result (self.new ≡ self.old) }
    {
        let copy = self.top.as_slice().to_vec(*self.top.allocator())?;
        self.older.push(copy)?;
        Ok(())
    }

    /// The top is dropped, and the level below is the top again.
    pub fn back(&mut self)
        requires { 0 < length self.old.older }
        ensures { self.old.older ≡ self.new.older ++ self.new.top ∷ [] }
    {
        self.first = 0;
        if let Some(top) = self.older.pop() {
            self.top = top;
        }
    }
}
