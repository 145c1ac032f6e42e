//! One element's domain.
ghost use Rattle.std.specs.Prelude.{◌≡◌, ◌+◌, ◌≤◌, max, [], ◌∷◌, ◌++◌, ◌<◌, length, IsTrue, ◌↔◌, OnOk, OnErr, IfOk, IfSome, filter};
ghost use Rattle.std.specs.List.{flat_map};
ghost use Rattle.domains.specs.Choices.{DomainView, choices, is_one, row_choices, Climbs, ComesAfter};
ghost use Rattle.domains.specs.Parts.{in_part, out_of_part, on_side};
ghost use Rattle.domains.specs.Rows.{IsPartAt, option_choices};
ghost use Rattle.domains.specs.Undo.{restored, CanRestore, put_row, put_back};

use crate::measure::{Nought, lowest};
use crate::parts::{Part, Row, Side};
use crate::row_list::RowList;
use crate::rows::{inside, outside};
use crate::undo::Lost;
use base::Memory;
use cluster::Place;
use std::alloc::Global;
use std::marker::Model;

/// The choices that one element may still take.
#[derive(Drop)]
pub struct Domain {
    idle: bool,
    rows: RowList,
}

impl Model for Domain {
    ghost use Rattle.domains.specs.Choices.{DomainView};
    ghost use Rattle.domains.specs.Kept.{AreKept};

    ghost Value = { DomainView };

    ghost view = { λ d. record { idle = d.idle; rows = d.rows.rows; slots = d.rows.slots } };

    ghost invariant = { λ d. AreKept d.rows };
}

impl Domain {
    /// A domain without a row, and with Idle or without it.
    pub fn new(alloc: Global, idle: bool) -> Domain
        ensures { result ≡ record { idle = idle; rows = []; slots = 0 } }
    {
        Domain {
            idle,
            rows: RowList::new(alloc),
        }
    }

    /// Whether Idle is one of the choices.
    pub fn idle(&self) -> bool
        ensures { result ≡ self.now.idle }
    {
        self.idle
    }

    /// The rows, by place.
    pub fn rows(&self) -> &[Row]
        ensures items { result.now ≡ self.now.rows }
        ensures climbs { Climbs 0 result.now }
    {
        self.rows.as_slice()
    }

    /// Adds a row after all others.
    pub fn push(&mut self, row: Row) -> Result<(), Memory>
        requires holds_one { row.lo ≤ row.hi }
        requires last { ComesAfter row.place self.old.rows }
        ensures ok { OnOk result (self.new ≡ record { idle = self.old.idle; rows = self.old.rows ++ row ∷ []; slots = max self.old.slots (length self.old.rows + 1) }) }
        ensures err { OnErr result (self.new ≡ self.old) }
    {
        self.rows.push(row)?;
        Ok(())
    }

    /// An equal domain.
    pub fn copy(&self) -> Result<Domain, Memory>
        ensures { IfOk result (λ d. d ≡ self.now) }
    {
        Ok(Domain {
            idle: self.idle,
            rows: self.rows.copy()?,
        })
    }

    /// Becomes equal to another domain, in the memory that it has where that is enough.
    pub fn copy_from(&mut self, other: &Domain) -> Result<(), Memory>
        ensures ok { OnOk result (self.new ≡ other.now) }
        ensures err { OnErr result (self.new ≡ self.old) }
    {
        self.rows.copy_from(&other.rows)?;
        self.idle = other.idle;
        Ok(())
    }

    /// Whether no choice is left.
    pub fn is_empty(&self) -> bool
        ensures { IsTrue result ↔ (choices self.now ≡ []) }
    {
        !self.idle && self.rows.len() == 0
    }

    /// Whether exactly one choice is left.
    pub fn is_one(&self) -> bool
        ensures one { result ≡ is_one self.now }
        ensures climbs { Climbs 0 self.now.rows }
    {
        match self.rows.as_slice() {
            [] => self.idle,
            [row] => !self.idle && row.lo == row.hi,
            _ => false,
        }
    }

    /// The choices that are in a part. These are Idle or of one row, so no memory is needed.
    pub fn inside(&self, part: Part) -> Domain
        ensures set { choices result ≡ filter (in_part part) (choices self.now) }
        ensures climbs { Climbs 0 result.rows }
    {
        let alloc = self.rows.allocator();
        match part {
            Part::Idle => Domain {
                idle: self.idle,
                rows: RowList::new(alloc),
            },
            Part::Upto(place, _) | Part::From(place, _) => match row_inside(
                &self.rows, place, part,
            ) {
                None => Domain::new(alloc, false),
                Some(row) => Domain {
                    idle: false,
                    rows: RowList::one(alloc, row),
                },
            },
        }
    }

    /// Takes the choices away that are in a part, and says how to put them back.
    pub fn cut(&mut self, part: Part) -> Lost
        ensures set { choices self.new ≡ filter (out_of_part part) (choices self.old) }
        ensures climbs { Climbs 0 self.new.rows }
        ensures undone { restored result self.new ≡ self.old }
        ensures can { CanRestore result self.new }
    {
        match part {
            Part::Idle => {
                if !self.idle {
                    return Lost::Nothing;
                }
                self.idle = false;
                Lost::Idle
            }
            Part::Upto(place, _) | Part::From(place, _) => match cut_row(
                &mut self.rows,
                place,
                part,
            ) {
                None => Lost::Nothing,
                Some(row) => Lost::Row(row),
            },
        }
    }

    /// Whether no choice would be left on one side of a part.
    pub fn leaves_none(&self, part: Part, side: Side) -> bool
        ensures { IsTrue result ↔ (filter (on_side side part) (choices self.now) ≡ []) }
    {
        match side {
            Side::Inside => self.has_none_in(part),
            Side::Outside => match lowest(self, Some(part), &Nought) {
                None => true,
                Some(_) => false,
            },
        }
    }

    // whether no choice is in a part; of a row it is told without a domain of what is inside
    fn has_none_in(&self, part: Part) -> bool
        ensures { IsTrue result ↔ (filter (in_part part) (choices self.now) ≡ []) }
    {
        match part {
            Part::Idle => self.inside(part).is_empty(),
            Part::Upto(place, _) | Part::From(place, _) => match row_inside(
                &self.rows, place, part,
            ) {
                None => true,
                Some(_) => false,
            },
        }
    }

    /// Puts back what a cut has taken away.
    pub fn restore(&mut self, lost: Lost)
        requires { CanRestore lost self.old }
        ensures set { self.new ≡ restored lost self.old }
        ensures climbs { Climbs 0 self.new.rows }
    {
        match lost {
            Lost::Nothing => (),
            Lost::Idle => self.idle = true,
            Lost::Row(row) => put(&mut self.rows, row),
        }
    }
}

// the row at the place, as far as it is in the part
fn row_inside(rows: &RowList, place: Place, part: Part) -> Option<Row>
    requires climbs { Climbs 0 rows.now.rows }
    requires at { IsPartAt place part }
    ensures set { option_choices result ≡ filter (in_part part) (flat_map row_choices rows.now.rows) }
    ensures row { IfSome result (λ r. r.lo ≤ r.hi) }
{
    match rows.find(place) {
        Ok(i) => inside(rows.as_slice()[i], part),
        Err(_) => None,
    }
}

// takes away what the row at the place has in the part, and hands back that row as it was
fn cut_row(rows: &mut RowList, place: Place, part: Part) -> Option<Row>
    requires climbs { Climbs 0 rows.old.rows }
    requires at { IsPartAt place part }
    ensures set { flat_map row_choices rows.new.rows ≡ filter (out_of_part part) (flat_map row_choices rows.old.rows) }
    ensures climbs { Climbs 0 rows.new.rows }
    ensures undone { rows.old.rows ≡ put_back result rows.new.rows }
    ensures row { IfSome result (λ r. r.lo ≤ r.hi) }
    ensures shorter { length rows.new.rows ≤ length rows.old.rows }
    ensures slots { rows.new.slots ≡ rows.old.slots }
{
    match rows.find(place) {
        Err(_) => None,
        Ok(i) => {
            let row = rows.as_slice()[i];
            match outside(row, part) {
                None => rows.remove(i),
                Some(left) => rows.set(i, left),
            }
            Some(row)
        }
    }
}

// puts a row back at its place
fn put(rows: &mut RowList, row: Row)
    requires climbs { Climbs 0 rows.old.rows }
    requires holds_one { row.lo ≤ row.hi }
    requires room { length (put_row row rows.old.rows) ≤ rows.old.slots }
    ensures put { rows.new.rows ≡ put_row row rows.old.rows }
    ensures climbs { Climbs 0 rows.new.rows }
    ensures slots { rows.new.slots ≡ rows.old.slots }
{
    match rows.find(row.place) {
        Ok(i) => rows.set(i, row),
        Err(i) => rows.insert(i, row),
    }
}
