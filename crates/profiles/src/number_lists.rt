//! Lists of numbers, one for each of some things.
ghost use Rattle.std.specs.Prelude.{◌≡◌, ◌<◌, [], ◌∷◌, ◌++◌, length, IfOk, OnOk, replicate, slice_index_or, slice_set};

use base::Memory;
use std::alloc::Global;
use std::marker::Model;

/// A list of numbers for each of so many things.
#[derive(Drop)]
pub struct NumberLists {
    lists: Vec<Vec<u32>>,
}

impl Model for NumberLists {
    ghost use Rattle.std.specs.Prelude.{ℕ, List, Vec, map};
    ghost use Rattle.std.specs.declared.alloc.Global.{Global};

    ghost Value = { List (List ℕ) };

    ghost view = { λ l. map (λ (v : Vec ℕ Global). v.items) l.lists.items };
}

impl NumberLists {
    /// No list.
    pub fn none(alloc: Global) -> NumberLists
        ensures { result ≡ [] }
    {
        NumberLists {
            lists: Vec::new(alloc),
        }
    }

    /// So many lists, all empty.
    pub fn new(alloc: Global, count: usize) -> Result<NumberLists, Memory>
        ensures { IfOk result (λ l. l ≡ replicate count []) }
    {
        let mut lists = Vec::with_capacity(alloc, count)?;
        for _ in 0..count {
            lists.push(Vec::new(alloc))?;
        }
        Ok(NumberLists { lists })
    }

    /// How many lists there are.
    pub fn count(&self) -> usize
        ensures { result ≡ length self.now }
    {
        self.lists.len()
    }

    /// The list of a number.
    pub fn get(&self, i: usize) -> &[u32]
        requires { i < length self.now }
        ensures { result.now ≡ slice_index_or self.now i [] }
    {
        &self.lists[i]
    }

    /// Puts a number at the end of a list.
    pub fn push(&mut self, i: usize, number: u32) -> Result<(), Memory>
        requires { i < length self.old }
        ensures { OnOk result (self.new ≡ slice_set self.old i (slice_index_or self.old i [] ++ number ∷ [])) }
    {
        self.lists[i].push(number)?;
        Ok(())
    }
}
