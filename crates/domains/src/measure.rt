//! The least value of a measure over a set of choices.
ghost use Rattle.std.specs.Prelude.{◌≡◌, ℕ, ◌≤◌, min, filter, Option, Some, IfSome, IsTrue};
ghost use Rattle.base.specs.Least.{lowest as lowest_of};
ghost use Rattle.cluster.specs.declared.choices.Choice.{Choice as AnyChoice};
ghost use Rattle.cluster.specs.declared.choices.Choice.TheVariants.{Idle, Act};
ghost use Rattle.cluster.specs.declared.choices.Place.{Place as AnyPlace};
ghost use Rattle.domains.specs.Choices.{choices, row_choices};
ghost use Rattle.domains.specs.Parts.{stays};
ghost use Rattle.domains.specs.Rows.{option_choices, IsRowAt};
ghost use Rattle.domains.specs.Measures.{lower_option};
ghost use Rattle.domains.specs.Undo.{lost_choices};

use crate::domain::Domain;
use crate::parts::{Part, Row};
use crate::rows::outside;
use crate::undo::Lost;
use cluster::{Choice, Instant};

/// A number for each choice, which over the starts at one place is least at the first or the last.
pub trait Measure {
    /// What a call of `value` needs of the measure.
    ghost ready: { Self → Type 0 };

    /// The number of a choice.
    ghost value_of: { Self → AnyChoice → ℕ };

    /// A number that no choice is below.
    ghost floor_of: { Self → ℕ };

    fn value(&self, c: Choice) -> u64
        requires { ready self.now }
        ensures { result ≡ value_of self.now c };

    fn floor(&self) -> u64
        ensures { result ≡ floor_of self.now };

    /// Whether a later start at a place never has a lower number. Then the last start of a row need not be asked.
    fn climbs(&self) -> bool
        ensures { IsTrue result → (place : AnyPlace) (lo hi : ℕ) → lo ≤ hi → value_of self.now (Act place lo) ≤ value_of self.now (Act place hi) }
    {
        false
    }

    ghost least_at_ends: { (m : Self) (place : AnyPlace) (lo s hi : ℕ) → lo ≤ s → s ≤ hi
        → min (value_of m (Act place lo)) (value_of m (Act place hi)) ≤ value_of m (Act place s) };

    ghost above_floor: { (m : Self) (c : AnyChoice) → floor_of m ≤ value_of m c };
}

/// The least value over the choices of a domain that are not in the part that is left out, if there is one.
///
/// It stops where no later row can give less.
pub fn lowest<M: Measure>(domain: &Domain, left_out: Option<Part>, m: &M) -> Option<u64>
    requires { M.ready m.now }
    ensures { result ≡ lowest_of (M.value_of m.now) (filter (stays left_out) (choices domain.now)) }
{
    let floor = m.floor();
    let mut best = None;
    if domain.idle() && keeps_idle(left_out) {
        best = Some(m.value(Choice::Idle));
    }
    for row in domain.rows() {
        if best == Some(floor) {
            return best;
        }
        if let Some(left) = without(*row, left_out) {
            best = lower(best, least_of_row(left, m));
        }
    }
    best
}

/// The least value over the choices that a domain has lost, if there is one.
///
/// By the law `lowest_before` the lower of it and the least value now is the least value before.
#[tactic(auto, using(crate::proofs::MeasureLemmas::lowest_no_row))]
pub fn lowest_lost<M: Measure>(lost: Lost, m: &M) -> Option<u64>
    requires { M.ready m.now }
    ensures { result ≡ lowest_of (M.value_of m.now) (lost_choices lost) }
{
    match lost {
        Lost::Nothing => None,
        Lost::Idle => Some(m.value(Choice::Idle)),
        Lost::Row(row) => {
            if row.lo > row.hi {
                return None;
            }
            Some(least_of_row(row, m))
        }
    }
}

// the least value over a row
fn least_of_row<M: Measure>(row: Row, m: &M) -> u64
    requires ready { M.ready m.now }
    requires holds_one { row.lo ≤ row.hi }
    ensures { Some result ≡ lowest_of (M.value_of m.now) (row_choices row) }
{
    let first = value_at(row, row.lo, m);
    if row.lo == row.hi || m.climbs() || first == m.floor() {
        return first;
    }
    let last = value_at(row, row.hi, m);
    first.min(last)
}

fn value_at<M: Measure>(row: Row, start: Instant, m: &M) -> u64
    requires { M.ready m.now }
    ensures { result ≡ M.value_of m.now (Act row.place start) }
{
    m.value(Choice::Act {
        place: row.place,
        start,
    })
}

fn lower(best: Option<u64>, value: u64) -> Option<u64>
    ensures { result ≡ lower_option best (Some value) }
{
    match best {
        None => Some(value),
        Some(b) => Some(b.min(value)),
    }
}

// a row without what is left out
#[tactic(auto, using(crate::proofs::StartLemmas::row_all))]
fn without(row: Row, left_out: Option<Part>) -> Option<Row>
    requires { row.lo ≤ row.hi }
    ensures set { option_choices result ≡ filter (stays left_out) (row_choices row) }
    ensures row { IfSome result (IsRowAt row.place) }
{
    match left_out {
        None => Some(row),
        Some(part) => outside(row, part),
    }
}

fn keeps_idle(left_out: Option<Part>) -> bool
    ensures { result ≡ stays left_out Idle }
{
    match left_out {
        None => true,
        Some(part) => !matches!(part, Part::Idle),
    }
}

/// The measure that is 0 for each choice, which tells whether there is one.
pub struct Nought;

impl Measure for Nought {
    ghost ready = { λ _. Unit {0} };

    ghost value_of = { λ _ _. 0 };

    ghost floor_of = { λ _. 0 };

    fn value(&self, _c: Choice) -> u64 {
        0
    }

    fn floor(&self) -> u64 {
        0
    }

    ghost use Rattle.std.proofs.Common.{arith};

    ghost least_at_ends = { λ m place lo s hi l u. Prim.omega arith };

    ghost above_floor = { λ m c. Prim.omega arith };
}
