//! What may be found at nodes, confirmed one by one.
ghost use Rattle.std.specs.Prelude.{◌≡◌, ◌⊎◌, ℕ, ◌<◌, ◌≤◌, length, slice_index_or, IfSome, IsTrue};
ghost use Rattle.rule_load.specs.Prelude.{AreKeptAt, choices, IsEnd, IsLook, IsOverloaded, IsSized, load_watch, no_row, node_count, one, seen, sets, sure};

use crate::Kept;
use load_bounds::over::overloaded_at;
use rule_frame::{
    Choice, Domain, Element, Instant, Lens, Look, NodeId, Place, Problem, Region, Row, View,
    has_element,
};

// whether a row starts or ends at a place with a start
fn has_end(rows: &[Row], place: Place, start: Instant) -> bool
    ensures { IsTrue result → (i : ℕ) × (i < length rows.now) × ((slice_index_or rows.now i no_row).place ≡ place)
        × (((slice_index_or rows.now i no_row).lo ≡ start) ⊎ ((slice_index_or rows.now i no_row).hi ≡ start)) }
{
    for i in 0..rows.len() {
        let row = rows[i];
        if row.place == place && (row.lo == start || row.hi == start) {
            return true;
        }
    }
    false
}

// whether a choice is an end of a domain's choices
#[tactic(auto, using(crate::proofs::ConfirmLemmas::idle_is_end))]
fn is_end(domain: &Domain, c: Choice) -> bool
    ensures { IsTrue result → IsEnd (choices domain.now) c }
{
    let rows = domain.rows();
    match c {
        Choice::Idle => domain.idle(),
        Choice::Act { place, start } => has_end(rows, place, start),
    }
}

// whether a node is overloaded in what is seen of a region
fn is_broken(p: &Problem, view: &View, kept: Kept<'_>, n: NodeId, t: Instant) -> bool
    requires region { IsSized p.now.given view.now.region.now }
    requires kept { AreKeptAt p.now.given (sets view.now.region.now) n.0 kept.fixed.now kept.standings.now kept.near.now kept.firsts.now }
    requires within { t ≤ p.now.given.horizon }
    requires node { n.0 < node_count p.now.given }
    ensures { IsTrue result → IsOverloaded p.now.given (one n.0) (sure p.now.given (seen view.now.region.now view.now.lens) t) }
{
    match overloaded_at(p, view, kept, n, t) {
        None => false,
        Some(_) => true,
    }
}

// the region at an instant, where the node is overloaded
fn whole(p: &Problem, g: &Region, kept: Kept<'_>, n: NodeId, t: Instant) -> Option<Look>
    requires region { IsSized p.now.given g.now }
    requires kept { AreKeptAt p.now.given (sets g.now) n.0 kept.fixed.now kept.standings.now kept.near.now kept.firsts.now }
    requires node { n.0 < node_count p.now.given }
    ensures { IfSome result (IsLook (load_watch p.now.given n.0) p.now.given (sets g.now)) }
{
    if t > p.horizon() {
        return None;
    }
    let view = View {
        region: g,
        lens: Lens::Whole,
    };
    if is_broken(p, &view, kept, n, t) {
        Some(Look::Fail(t))
    } else {
        None
    }
}

// an element set to an end of its choices, where the node is overloaded
#[tactic(auto, using(crate::proofs::ConfirmLemmas::cut_is_look))]
fn set(
    p: &Problem,
    g: &Region,
    kept: Kept<'_>,
    n: NodeId,
    e: Element,
    c: Choice,
    t: Instant,
) -> Option<Look>
    requires region { IsSized p.now.given g.now }
    requires kept { AreKeptAt p.now.given (sets g.now) n.0 kept.fixed.now kept.standings.now kept.near.now kept.firsts.now }
    requires node { n.0 < node_count p.now.given }
    ensures { IfSome result (IsLook (load_watch p.now.given n.0) p.now.given (sets g.now)) }
{
    if t > p.horizon() {
        return None;
    }
    if !has_element(p, e) {
        return None;
    }
    if !is_end(g.domain(e), c) {
        return None;
    }
    let view = View {
        region: g,
        lens: Lens::Set(e, c),
    };
    if is_broken(p, &view, kept, n, t) {
        Some(Look::Cut(e, c, t))
    } else {
        None
    }
}

/// What may be found at a node, where it is so: that it is overloaded in the region, or with an element set to an end.
pub(crate) fn confirmed(
    p: &Problem,
    g: &Region,
    kept: Kept<'_>,
    n: NodeId,
    doubt: Look,
) -> Option<Look>
    requires region { IsSized p.now.given g.now }
    requires kept { AreKeptAt p.now.given (sets g.now) n.0 kept.fixed.now kept.standings.now kept.near.now kept.firsts.now }
    requires node { n.0 < node_count p.now.given }
    ensures { IfSome result (IsLook (load_watch p.now.given n.0) p.now.given (sets g.now)) }
{
    match doubt {
        Look::Clean => None,
        Look::Fail(t) => whole(p, g, kept, n, t),
        Look::Cut(e, c, t) => set(p, g, kept, n, e, c, t),
    }
}
