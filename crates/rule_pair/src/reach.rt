//! When machines of other parts stay at nodes: rows elsewhere need not be read, nor those of which it is known that they
//! start later.
ghost use Rattle.std.specs.Prelude.{◌≡◌, ℕ, ◌<◌, ◌≤◌, length, slice_index_or, IfNone, IsTrue};
ghost use Rattle.rule_pair.specs.Prelude.{AreEnds, AreOrdered, AreStayEnds, AreUntils, Climbs, IsLate, IsLateOrKnown, no_row, place_index, told_until};

use crate::clear::Met;
use crate::longest::{Stay, Table, of_others, stay_after};
use cluster::limits::MAX_NODES;
use machine_bounds::ends::{Ends, first_unknown};
use machine_bounds::gone::Gone;
use rule_frame::{Instant, NodeId, Place, Row, VmId};

// when at each node the last stay of other parts than one ends
#[tactic(auto, using(crate::proofs::ReachLemmas::told_more))]
fn untils_of(table: &Table, part: usize) -> [u64; MAX_NODES]
    ensures { AreUntils table.now part result }
{
    let mut until = [0; MAX_NODES];
    for n in 0..MAX_NODES {
        until[n] = of_others(table[n], part).until;
    }
    until
}

// when at each node the last stay of all parts ends
fn all_untils(table: &Table) -> [u64; MAX_NODES]
    requires { AreOrdered table.now }
    ensures { (part : ℕ) → AreUntils table.now part result }
{
    let mut until = [0; MAX_NODES];
    for n in 0..MAX_NODES {
        until[n] = table[n].first.until;
    }
    until
}

/// When the stays of other parts than one end, beside what is kept of machines.
pub(crate) fn ends_of(table: &Table, part: usize, from: Instant, gone: &Gone) -> Ends
    ensures { AreStayEnds table.now part from gone.now.bounds result }
{
    Ends::new(untils_of(table, part), from, gone)
}

/// When the stays of all parts end, beside what is kept of machines.
pub(crate) fn all_ends(table: &Table, from: Instant, gone: &Gone) -> Ends
    requires { AreOrdered table.now }
    ensures { (part : ℕ) → AreStayEnds table.now part from gone.now.bounds result }
{
    Ends::new(all_untils(table), from, gone)
}

/// The longest stay at a node of machines of other parts, where it ends after an instant. It is not sought where it is
/// known that all have ended.
pub(crate) fn stay_still(
    table: &Table,
    ends: &Ends,
    n: NodeId,
    part: usize,
    t: Instant,
) -> Option<Stay>
    requires { AreUntils table.now part ends.now.until }
    ensures { IfNone result (told_until table.now part n.0 ≤ t) }
{
    let i = n.0 as usize;
    if i < MAX_NODES && ends.until[i] <= u64::from(t) {
        return None;
    }
    stay_after(table, n, part, t)
}

/// The number of a place in the order of places.
pub(crate) fn number_of(place: Place) -> usize
    ensures { result ≡ place_index place }
{
    match place {
        Place::Nowhere => 0,
        Place::At(n) => n.0 as usize + 1,
    }
}

/// How many rows are at places before that of a number, or fewer.
pub(crate) fn rows_before(rows: &[Row], number: usize) -> usize
    requires climbs { Climbs 0 rows.now }
    ensures within { result ≤ length rows.now }
    ensures before { (k : ℕ) → k < result → place_index (slice_index_or rows.now k no_row).place < number }
{
    let count = rows.len();
    if count == 0 {
        return 0;
    }
    // from row to row the number rises by one at least
    let mut low = 0;
    let mut high = count.min(number.saturating_sub(number_of(rows[0].place)));
    while low < high {
        let middle = low + (high - low) / 2;
        if number_of(rows[middle].place) < number {
            low = middle + 1;
        } else {
            high = middle;
        }
    }
    low
}

// a stay that has such an end, and may still last when a row starts
fn row_met_before(row: Row, part: usize, from: Instant, ends: &Ends, table: &Table) -> Option<Met>
    requires { AreUntils table.now part ends.now.until }
    ensures { IfNone result (IsLate table.now part from row.place row.lo) }
{
    match row.place {
        Place::Nowhere => None,
        Place::At(node) => {
            let stay = stay_still(table, ends, node, part, row.lo.max(from))?;
            Some(Met { node, stay })
        }
    }
}

// the first of some rows at which a stay may still last when it starts; those before the place of a number are not read,
// nor those after all stays
fn rows_met_from(
    rows: &[Row],
    number: usize,
    part: usize,
    from: Instant,
    ends: &Ends,
    table: &Table,
) -> Option<Met>
    requires climbs { Climbs 0 rows.now }
    requires until { AreUntils table.now part ends.now.until }
    requires ends { AreEnds from ends.now }
    ensures { IfNone result ((i : ℕ) → i < length rows.now → number ≤ place_index (slice_index_or rows.now i no_row).place → IsLate table.now part from (slice_index_or rows.now i no_row).place (slice_index_or rows.now i no_row).lo) }
{
    for i in rows_before(rows, number)..rows.len() {
        if number_of(rows[i].place) > ends.past {
            return None;
        }
        if let Some(met) = row_met_before(rows[i], part, from, ends, table) {
            return Some(met);
        }
    }
    None
}

/// The first row of a machine at which a stay may still last when it starts. Where it is known to start at no node before
/// the stays there end, no row is read; else none at a node before the first of which that is not known.
pub(crate) fn first_met(
    rows: &[Row],
    gone: &Gone,
    w: VmId,
    part: usize,
    from: Instant,
    ends: &Ends,
    table: &Table,
) -> Option<Met>
    requires climbs { Climbs 0 rows.now }
    requires ends { AreStayEnds table.now part from gone.now.bounds ends.now }
    ensures { IfNone result ((i : ℕ) → i < length rows.now → IsLateOrKnown table.now part from gone.now.words.top ends.now.enough w.0 (slice_index_or rows.now i no_row).place (slice_index_or rows.now i no_row).lo) }
{
    if rows.len() == 0 {
        return None;
    }
    let first = first_unknown(gone, w, ends)?;
    rows_met_from(rows, first.saturating_add(1), part, from, ends, table)
}
