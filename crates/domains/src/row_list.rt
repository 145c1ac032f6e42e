//! The rows of a domain in memory.
ghost use Rattle.std.specs.Prelude.{◌≡◌, ◌+◌, ◌<◌, ◌≤◌, max, [], ◌∷◌, ◌++◌, length, drop, insert, remove, slice_set, OnOk, OnErr, IfOk, IfErr};
ghost use Rattle.smallvec.specs.SmallVec.{HasRoomFor};
ghost use Rattle.domains.specs.Choices.{Climbs, place_index};
ghost use Rattle.domains.specs.Rows.{IsFound, IsGap};

use crate::parts::Row;
use crate::rows::{WHOLE, find};
use base::Memory;
use cluster::Place;
use smallvec::SmallVec;
use std::alloc::Global;
use std::marker::Model;

/// Rows in their order, and memory for some more.
///
/// There are free slots before the first row too, so that only the shorter side moves where a row is taken out or
/// put in.
#[derive(Drop)]
pub struct RowList {
    // free slots, and then the rows
    slots: SmallVec<Row, 1>,
    free: usize,
    // for so many rows there is memory
    most: usize,
    // of each `WHOLE` rows that there once were about so many are left
    share: usize,
}

impl Model for RowList {
    ghost use Rattle.std.specs.Prelude.{drop};
    ghost use Rattle.domains.specs.Kept.{RowsView, HaveRoom};

    ghost Value = { RowsView };

    ghost view = { λ l. record { rows = drop l.free l.slots.items; slots = l.most } };

    ghost invariant = { λ l. HaveRoom l.slots.items l.slots.capacity l.free l.most };
}

impl RowList {
    /// No row.
    pub fn new(alloc: Global) -> RowList
        ensures { result ≡ record { rows = []; slots = 0 } }
    {
        RowList {
            slots: SmallVec::new(alloc),
            free: 0,
            most: 0,
            share: WHOLE,
        }
    }

    /// One row. It takes no memory.
    pub fn one(alloc: Global, row: Row) -> RowList
        ensures { result ≡ record { rows = row ∷ []; slots = 1 } }
    {
        RowList {
            slots: SmallVec::from_buf(alloc, [row]),
            free: 0,
            most: 1,
            share: WHOLE,
        }
    }

    /// What its memory comes from.
    pub fn allocator(&self) -> Global {
        *self.slots.allocator()
    }

    /// How many rows there are.
    pub fn len(&self) -> usize
        ensures { result ≡ length self.now.rows }
    {
        self.slots.len() - self.free
    }

    /// The rows.
    pub fn as_slice(&self) -> &[Row]
        ensures { result.now ≡ self.now.rows }
    {
        &self.slots.as_slice()[self.free..]
    }

    /// Where the row at a place stands, or else where it would.
    pub fn find(&self, place: Place) -> Result<usize, usize>
        requires { Climbs 0 self.now.rows }
        ensures found { IfOk result (IsFound self.now.rows (place_index place)) }
        ensures gap { IfErr result (IsGap self.now.rows (place_index place)) }
    {
        find(self.as_slice(), place, self.share)
    }

    /// Adds a row after all others.
    pub fn push(&mut self, row: Row) -> Result<(), Memory>
        ensures ok { OnOk result (self.new ≡ record { rows = self.old.rows ++ row ∷ []; slots = max self.old.slots (length self.old.rows + 1) }) }
        ensures err { OnErr result (self.new ≡ self.old) }
    {
        self.slots.push(row)?;
        self.most = self.most.max(self.slots.len() - self.free);
        Ok(())
    }

    /// An equal list.
    pub fn copy(&self) -> Result<RowList, Memory>
        ensures { IfOk result (λ l. l ≡ self.now) }
    {
        let rows = self.as_slice();
        let mut slots = SmallVec::from_slice(*self.slots.allocator(), rows)?;
        slots.reserve_exact(self.most - rows.len())?;
        Ok(RowList {
            slots,
            free: 0,
            most: self.most,
            share: self.share,
        })
    }

    /// Becomes equal to another list, in the memory that it has where that is enough.
    pub fn copy_from(&mut self, other: &RowList) -> Result<(), Memory>
        ensures ok { OnOk result (self.new ≡ other.now) }
        ensures err { OnErr result (self.new ≡ self.old) }
    {
        if self.slots.capacity() < other.most {
            *self = other.copy()?;
            return Ok(());
        }
        self.free = 0;
        self.most = other.most;
        self.share = other.share;
        copy_rows(&mut self.slots, other.as_slice());
        Ok(())
    }

    /// Writes a row in the place of another.
    #[tactic(auto, using(crate::proofs::SlotLemmas::drop_set))]
    pub fn set(&mut self, i: usize, row: Row)
        requires { i < length self.old.rows }
        ensures { self.new ≡ record { rows = slice_set self.old.rows i row; slots = self.old.slots } }
    {
        set_slot(&mut self.slots, self.free, i, row);
    }

    /// Takes a row out.
    #[tactic(auto, using(crate::proofs::SlotLemmas::drop_remove))]
    pub fn remove(&mut self, i: usize)
        requires { i < length self.old.rows }
        ensures { self.new ≡ record { rows = remove self.old.rows i; slots = self.old.slots } }
    {
        self.share = share_of(self.slots.len() - self.free - 1, self.most);
        if i < self.slots.len() - self.free - i {
            remove_up(&mut self.slots, self.free, i);
            self.free += 1;
        } else {
            let _ = self.slots.remove(self.free + i);
        }
    }

    /// Puts a row in, for which there is memory.
    #[tactic(auto, using(crate::proofs::SlotLemmas::drop_insert))]
    pub fn insert(&mut self, i: usize, row: Row)
        requires within { i ≤ length self.old.rows }
        requires room { length self.old.rows + 1 ≤ self.old.slots }
        ensures { self.new ≡ record { rows = insert self.old.rows i row; slots = self.old.slots } }
    {
        self.share = share_of(self.slots.len() - self.free + 1, self.most);
        let full = self.slots.len() == self.slots.capacity();
        if self.free > 0 && (full || i <= self.slots.len() - self.free - i) {
            self.free -= 1;
            insert_down(&mut self.slots, self.free, i, row);
        } else {
            insert_up(&mut self.slots, self.free + i, row);
        }
    }
}

// how many rows are left of each `WHOLE` where there were `most`
fn share_of(len: usize, most: usize) -> usize {
    len.saturating_mul(WHOLE) / most.max(1)
}

// copies rows into memory that is there
fn copy_rows(slots: &mut SmallVec<Row, 1>, others: &[Row])
    requires { length others.now ≤ slots.old.capacity }
    ensures items { slots.new.items ≡ others.now }
    ensures capacity { slots.old.capacity ≤ slots.new.capacity }
{
    slots.clear();
    let _had_room = slots.extend_from_slice(others);
}

// writes a row
fn set_slot(slots: &mut SmallVec<Row, 1>, free: usize, i: usize, row: Row)
    requires { free + i < length slots.old.items }
    ensures items { slots.new.items ≡ slice_set slots.old.items (free + i) row }
    ensures capacity { slots.new.capacity ≡ slots.old.capacity }
{
    let all = slots.as_mut_slice();
    all[free + i] = row;
}

// takes a row out, and moves those before it up: one slot more is free
fn remove_up(slots: &mut SmallVec<Row, 1>, free: usize, i: usize)
    requires { free + i < length slots.old.items }
    ensures rows { drop (free + 1) slots.new.items ≡ remove (drop free slots.old.items) i }
    ensures len { length slots.new.items ≡ length slots.old.items }
    ensures capacity { slots.new.capacity ≡ slots.old.capacity }
{
    slots.as_mut_slice().copy_within(free..free + i, free + 1);
}

// puts a row in, and moves those before it down: so many slots are free then, and one more was before
fn insert_down(slots: &mut SmallVec<Row, 1>, free: usize, i: usize, row: Row)
    requires { free + i < length slots.old.items }
    ensures rows { drop free slots.new.items ≡ insert (drop (free + 1) slots.old.items) i row }
    ensures len { length slots.new.items ≡ length slots.old.items }
    ensures capacity { slots.new.capacity ≡ slots.old.capacity }
{
    let all = slots.as_mut_slice();
    all.copy_within(free + 1..free + 1 + i, free);
    all[free + i] = row;
}

// puts a row in, and moves those after it up
fn insert_up(slots: &mut SmallVec<Row, 1>, i: usize, row: Row)
    requires within { i ≤ length slots.old.items }
    requires room { HasRoomFor slots.old 1 }
    ensures items { slots.new.items ≡ insert slots.old.items i row }
    ensures capacity { slots.new.capacity ≡ slots.old.capacity }
{
    let _had_room = slots.insert(i, row);
}
