//! The ends of an element's choices, tried one by one.
ghost use Rattle.std.specs.Prelude.{◌≡◌, false, IfNone, IfSome, IsTrue};
ghost use Rattle.cluster.specs.declared.choices.Choice.{Choice as AnyChoice};
ghost use Rattle.domains.specs.Choices.{choices};
ghost use Rattle.closing.specs.Parts.{FailAtEnds, FailAtRow, IsEndThat, IsRowEndThat, PassOnlyAt};

use cluster::{Choice, Instant, Place};
use domains::{Domain, Part, Row};

/// A test of single choices.
pub trait Test {
    /// What a call of `passes` needs.
    ghost ready: { Self → Type 0 };

    /// What a choice that passes is.
    ghost meant: { Self → AnyChoice → Type 0 };

    fn passes(&self, c: Choice) -> bool
        requires { ready self.now }
        ensures yes { IsTrue result → meant self.now c }
        ensures no { result ≡ false → ¬ meant self.now c };
}

// the choice at the place of a row with a start
fn act(row: Row, start: Instant) -> Choice
    ensures { result ≡ AnyChoice.Act row.place start }
{
    Choice::Act {
        place: row.place,
        start,
    }
}

// an end of a row that passes a test
fn row_end<T: Test>(row: Row, test: &T) -> Option<Choice>
    requires { T.ready test.now }
    ensures none { IfNone result (FailAtRow (T.meant test.now) row) }
    ensures some { IfSome result (IsRowEndThat (T.meant test.now) row) }
{
    let first = act(row, row.lo);
    if test.passes(first) {
        return Some(first);
    }
    let last = act(row, row.hi);
    if test.passes(last) {
        return Some(last);
    }
    None
}

/// An end of the choices of a domain that passes a test, if there is one: Idle, or the first or the last
/// start of a row.
pub fn end_that<T: Test>(domain: &Domain, test: &T) -> Option<Choice>
    requires { T.ready test.now }
    ensures none { IfNone result (FailAtEnds (T.meant test.now) (choices domain.now)) }
    ensures some { IfSome result (IsEndThat (T.meant test.now) (choices domain.now)) }
{
    let rows = domain.rows();
    if domain.idle() && test.passes(Choice::Idle) {
        return Some(Choice::Idle);
    }
    for i in 0..rows.len() {
        if let Some(c) = row_end(rows[i], test) {
            return Some(c);
        }
    }
    None
}

/// As `end_that`, for a test that only choices at one place pass.
pub fn end_at<T: Test>(domain: &Domain, place: Place, test: &T) -> Option<Choice>
    requires ready { T.ready test.now }
    requires only { PassOnlyAt place (T.meant test.now) }
    ensures none { IfNone result (FailAtEnds (T.meant test.now) (choices domain.now)) }
    ensures some { IfSome result (IsEndThat (T.meant test.now) (choices domain.now)) }
{
    let there = domain.inside(Part::From(place, 0));
    end_that(&there, test)
}
