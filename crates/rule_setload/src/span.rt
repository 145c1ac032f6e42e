//! Between which numbers the nodes of a set stand, and the rows that are at places between them.
ghost use Rattle.std.specs.Prelude.{◌≡◌, ◌⊎◌, ℕ, ◌<◌, ◌≤◌, false, length, slice_index_or, IsTrue};
ghost use Rattle.rule_setload.specs.Prelude.{Choice as AnyChoice, Climbs, goes_in, has_node, IsSpan, no_row, place_index};
ghost use Rattle.cluster.specs.Sets.{IsWithin};

use cluster::limits::MAX_NODES;
use rule_frame::{NodeSet, Place, Row};

/// The nodes from a number on and before another.
#[derive(Clone, Copy)]
pub struct Span {
    pub first: usize,
    pub end: usize,
}

/// The rows of a list from a number on and before another.
#[derive(Clone, Copy)]
pub struct RowRange {
    pub from: usize,
    pub to: usize,
}

// a number before which all nodes of a set stand
#[tactic(auto, using(crate::proofs::SpanLemmas::none_past))]
fn end_of(nodes: &NodeSet) -> usize
    ensures { IsWithin nodes.now result }
{
    let mut end = 0usize;
    for _ in 0..MAX_NODES {
        match nodes.first_from(end) {
            None => return end,
            Some(n) => end = n.0 as usize + 1,
        }
    }
    MAX_NODES
}

/// From which number on the nodes of a set stand, and before which.
#[tactic(auto, using(crate::proofs::SpanLemmas::none_spanned, crate::proofs::SpanLemmas::all_spanned))]
pub(crate) fn span_of(nodes: &NodeSet) -> Span
    ensures { IsSpan (has_node nodes.now) result }
{
    let end = end_of(nodes);
    match nodes.first_from(0) {
        None => Span { first: end, end },
        Some(n) => Span {
            first: n.0 as usize,
            end,
        },
    }
}

// whether a place comes before the node of a number
fn is_before(place: Place, n: usize) -> bool
    ensures before { IsTrue result → place_index place ≤ n }
    ensures behind { result ≡ false → n < place_index place }
{
    match place {
        Place::Nowhere => true,
        Place::At(m) => (m.0 as usize) < n,
    }
}

// where to look next: where a row at the node of a number would stand, if there were one at each place between, while
// guesses are left, and else half way
fn probe(guess: usize, guesses: u32, from: usize, to: usize) -> usize
    requires { from < to }
    ensures above { from ≤ result }
    ensures below { result < to }
{
    if guesses > 0 {
        guess.max(from).min(to - 1)
    } else {
        from + (to - from) / 2
    }
}

// the number of the node of a place
fn number(place: Place) -> usize {
    match place {
        Place::Nowhere => 0,
        Place::At(m) => m.0 as usize,
    }
}

// how many rows are at places before the node of a number, which come first. It is sought near a guess first
fn count_before(rows: &[Row], n: usize, guess: usize) -> usize
    requires { Climbs 0 rows.now }
    ensures within { result ≤ length rows.now }
    ensures before { (k : ℕ) → k < result → place_index (slice_index_or rows.now k no_row).place ≤ n }
    ensures behind { (k : ℕ) → result ≤ k → k < length rows.now → n < place_index (slice_index_or rows.now k no_row).place }
{
    let mut from = 0usize;
    let mut to = rows.len();
    let mut next = guess;
    let mut guesses: u32 = 6;
    while from < to {
        let middle = probe(next, guesses, from, to);
        let place = rows[middle].place;
        guesses = guesses.saturating_sub(1);
        if is_before(place, n) {
            from = middle + 1;
            next = middle.saturating_add(n.saturating_sub(number(place)));
        } else {
            to = middle;
            next = middle.saturating_sub(number(place).saturating_sub(n).max(1));
        }
    }
    from
}

/// Rows among which are all that are at places between which the nodes of a set stand: all others are at none of them. No more
/// are taken than there are such places.
pub(crate) fn rows_within(rows: &[Row], _nodes: &NodeSet, span: Span) -> RowRange
    requires climbs { Climbs 0 rows.now }
    requires span { IsSpan (has_node _nodes.now) span }
    ensures within { result.to ≤ length rows.now }
    ensures others { (k : ℕ) → k < length rows.now → (k < result.from) ⊎ (result.to ≤ k) → goes_in (AnyChoice.Act (slice_index_or rows.now k no_row).place 0) (has_node _nodes.now) ≡ false }
{
    let from = count_before(rows, span.first, span.first);
    let many = span.end.saturating_sub(span.first);
    RowRange {
        from,
        to: from.saturating_add(many).min(rows.len()),
    }
}
