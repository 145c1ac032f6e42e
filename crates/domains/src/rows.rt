//! One row and a part; the row at a place.
ghost use Rattle.std.specs.Prelude.{filter, ◌≡◌, ℕ, ◌+◌, ◌<◌, ◌≤◌, Bool, List, [], ◌∷◌, IfSome, IfOk, IfErr, nat_le, ◌&&◌, length, slice_get, slice_index_or, IsTrue};
ghost use Rattle.domains.specs.Prelude.{Choice as AnyChoice, Climbs, in_part, IsFound, IsGap, IsPartAt, IsRowAt, KeepsBetween, option_choices, out_of_part, place_index, row_choices, same_place};

use crate::parts::{Part, Row};
use cluster::{Instant, Place};

/// Of so many nodes it is said how many have a row.
pub const WHOLE: usize = 65_536;

/// A place's number in the order of places.
pub fn index(place: Place) -> u64
    ensures { result ≡ place_index place }
{
    match place {
        Place::Nowhere => 0,
        Place::At(n) => u64::from(n.0) + 1,
    }
}

/// Whether two places are the same.
pub fn is_same(a: Place, b: Place) -> bool
    ensures { result ≡ same_place a b }
{
    index(a) == index(b)
}

/// Where the row at a place stands, or else where it would.
///
/// It is sought first where it stands if of the nodes before its own there is a row at so many of each `WHOLE` as
/// `share` says, then as far from that as the places differ, and then by halving. So `share` is only a hint.
pub fn find(rows: &[Row], place: Place, share: usize) -> Result<usize, usize>
    requires { Climbs 0 rows.now }
    ensures found { IfOk result (IsFound rows.now (place_index place)) }
    ensures gap { IfErr result (IsGap rows.now (place_index place)) }
{
    let key = index(place);
    let mut from = 0;
    let mut to = rows.len();
    let mut guess = (key.saturating_sub(1) as usize).wrapping_mul(share) / WHOLE;
    let mut guesses: u32 = 2;
    while from < to {
        let middle = probe(guess, guesses, from, to);
        let here = index(rows[middle].place);
        if here == key {
            return Ok(middle);
        }
        guesses = guesses.saturating_sub(1);

        // from row to row the place's number rises by one at least
        if here < key {
            from = middle + 1;
            to = from + (to - from).min((key - here) as usize);
            guess = to - 1;
        } else {
            to = middle;
            from = to - (to - from).min((here - key) as usize);
            guess = from;
        }
    }
    Err(from)
}

// where to look next: at the guess, or near it, while guesses are left, and else half way
fn probe(guess: usize, guesses: u32, from: usize, to: usize) -> usize
    requires { from < to }
    ensures above { from ≤ result }
    ensures below { result < to }
{
    if guesses > 0 {
        guess.max(from).min(to - 1)
    } else {
        from + (to - from) / 2
    }
}

// the starts of a row from one instant to another
fn window(row: Row, from: Instant, to: Instant) -> Option<Row>
    requires { row.lo ≤ row.hi }
    ensures set { (test : AnyChoice → Bool) → KeepsBetween test row from to → option_choices result ≡ filter test (row_choices row) }
    ensures row { IfSome result (IsRowAt row.place) }
{
    let lo = if row.lo < from { from } else { row.lo };
    let hi = if row.hi > to { to } else { row.hi };
    if lo > hi {
        None
    } else {
        Some(Row {
            place: row.place,
            lo,
            hi,
        })
    }
}

/// The starts of a row that are in a part: a row of its own, or none.
#[tactic(auto, using(crate::proofs::StartLemmas::row_none))]
pub fn inside(row: Row, part: Part) -> Option<Row>
    requires { row.lo ≤ row.hi }
    ensures set { option_choices result ≡ filter (in_part part) (row_choices row) }
    ensures row { IfSome result (IsRowAt row.place) }
{
    match part {
        Part::Idle => None,
        Part::Upto(place, start) => {
            if is_same(row.place, place) {
                window(row, 0, start)
            } else {
                None
            }
        }
        Part::From(place, start) => {
            if is_same(row.place, place) {
                window(row, start, row.hi)
            } else {
                None
            }
        }
    }
}

/// The starts of a row that are not in a part.
#[tactic(auto, using(crate::proofs::StartLemmas::row_none, crate::proofs::StartLemmas::row_all))]
pub fn outside(row: Row, part: Part) -> Option<Row>
    requires { row.lo ≤ row.hi }
    ensures set { option_choices result ≡ filter (out_of_part part) (row_choices row) }
    ensures row { IfSome result (IsRowAt row.place) }
{
    match part {
        Part::Idle => Some(row),
        Part::Upto(place, start) => {
            if !is_same(row.place, place) {
                Some(row)
            } else if start < row.hi {
                window(row, start + 1, row.hi)
            } else {
                None
            }
        }
        Part::From(place, start) => {
            if !is_same(row.place, place) {
                Some(row)
            } else if start > row.lo {
                window(row, 0, start - 1)
            } else {
                None
            }
        }
    }
}
