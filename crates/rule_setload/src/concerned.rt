//! The machines that may hold something on the nodes of a bound, and those that weigh on it.
ghost use Rattle.std.specs.Prelude.{◌≡◌, ℕ, ◌<◌, false, length, slice_index_or};
ghost use Rattle.rule_setload.specs.Prelude.{AreConcerned, AreStayersTo, Choice as AnyChoice, Climbs, goes_in, has_node, IsAside, IsSized, IsSpan, IsWeight, machine_count, no_row, sets};

use crate::bounds::Bound;
use crate::movers_hold::is_outside;
use crate::span::{Span, rows_within, span_of};
use crate::spared::is_away;
use crate::stayers::{Stayers, stay};
use cluster::MachineSet;
use rule_frame::{Element, NodeSet, Problem, Region, Row, VmId};

/// Machines among which are all that weigh on a bound, between which numbers its nodes stand, and the most that one machine
/// brings.
#[derive(Clone, Copy)]
pub struct Members {
    pub machines: MachineSet,
    pub span: Span,
    pub most: u64,
}

// whether one of the rows is at a node of a set
fn go_there(rows: &[Row], nodes: &NodeSet, span: Span) -> bool
    requires climbs { Climbs 0 rows.now }
    requires span { IsSpan (has_node nodes.now) span }
    ensures { result ≡ false → (i : ℕ) → i < length rows.now → goes_in (AnyChoice.Act (slice_index_or rows.now i no_row).place 0) (has_node nodes.now) ≡ false }
{
    let near = rows_within(rows, nodes, span);
    for i in near.from..near.to {
        if !is_outside(rows[i].place, nodes) {
            return true;
        }
    }
    false
}

// whether a machine may hold something there
#[tactic(auto, using(crate::proofs::AsideLemmas::is_aside))]
fn is_concerned(p: &Problem, g: &Region, v: VmId, bound: &Bound, span: Span) -> bool
    requires region { IsSized p.now.given g.now }
    requires machine { v.0 < machine_count p.now.given }
    requires weight { IsWeight p.now.given bound.now.weight }
    requires span { IsSpan (has_node bound.now.nodes) span }
    ensures { result ≡ false → IsAside p.now.given (sets g.now) bound.now.weight (has_node bound.now.nodes) v.0 }
{
    stay(p, v, bound) > 0 || go_there(g.domain(Element::Vm(v)).rows(), &bound.nodes, span)
}

/// The machines that have something on the nodes at present, or may go there.
pub(crate) fn concerned(p: &Problem, g: &Region, bound: &Bound, stayers: Stayers) -> Members
    requires region { IsSized p.now.given g.now }
    requires weight { IsWeight p.now.given bound.now.weight }
    requires stayers { AreStayersTo p.now.given bound.now.weight (has_node bound.now.nodes) (machine_count p.now.given) stayers }
    ensures { AreConcerned p.now.given (sets g.now) bound.now.weight (has_node bound.now.nodes) result }
{
    let span = span_of(&bound.nodes);
    let mut machines = MachineSet::new();
    for i in 0..p.cluster().machines().len() {
        let v = VmId(i as u32);
        if is_concerned(p, g, v, bound, span) {
            machines.insert(v);
        }
    }
    Members {
        machines,
        span,
        most: stayers.most,
    }
}

/// The machines that have something on the nodes at present, or may have to go there. Mostly they are few.
pub(crate) fn weighing(p: &Problem, g: &Region, bound: &Bound, stayers: Stayers) -> Members
    requires region { IsSized p.now.given g.now }
    requires weight { IsWeight p.now.given bound.now.weight }
    requires stayers { AreStayersTo p.now.given bound.now.weight (has_node bound.now.nodes) (machine_count p.now.given) stayers }
    ensures { AreConcerned p.now.given (sets g.now) bound.now.weight (has_node bound.now.nodes) result }
{
    let mut machines = MachineSet::new();
    for i in 0..p.cluster().machines().len() {
        let v = VmId(i as u32);
        if !is_away(p, g, v, bound) {
            machines.insert(v);
        }
    }
    Members {
        machines,
        span: span_of(&bound.nodes),
        most: stayers.most,
    }
}
