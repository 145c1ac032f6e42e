//! The region of all legal choices.
ghost use Rattle.std.specs.Prelude.{filter, ◌≡◌, ℕ, ◌+◌, ◌-◌, ◌++◌, ◌<◌, ◌≤◌, length, slice_index_or, IfOk, IfSome, OnOk};
ghost use Rattle.relax.specs.Prelude.{AreLegal, choices, ComesAfter, Element as AnyElement, is_legal as the_is_legal, IsElement, IsRowAt, IsSized, machine_count, node, node_count, option_choices, rows_of, sets, start_sets, starts_from, staying, vm};

use crate::area::node_total;
use base::Memory;
use catalogue::Problem;
use cluster::{Choice, Element, NodeId, Place, VmId};
use domains::{Domain, Region, Row};
use slices::actions::{duration, is_legal, kind_of};
use std::alloc::Global;

/// The region that has exactly the legal choices of each element. The only error is want of memory.
pub fn start_region(alloc: Global, p: &Problem) -> Result<Region, Memory>
    ensures sized { IfOk result (IsSized p.now.given) }
    ensures sets { IfOk result (λ g. (e : AnyElement) → sets g e ≡ start_sets p.now.given e) }
    ensures legal { IfOk result (λ g. AreLegal p.now.given (sets g)) }
{
    let machines = machine_domains(alloc, p)?;
    let nodes = node_domains(alloc, p)?;
    Ok(Region::new(machines, nodes))
}

// a domain for each machine
fn machine_domains(alloc: Global, p: &Problem) -> Result<Vec<Domain>, Memory>
    ensures count { IfOk result (λ ds. length ds.items ≡ machine_count p.now.given) }
    ensures sets { IfOk result (λ ds. (v : ℕ) → v < machine_count p.now.given → choices (slice_index_or ds.items v staying) ≡ start_sets p.now.given (vm v)) }
{
    let count = p.cluster().machines().len();
    let mut domains = Vec::with_capacity(alloc, count)?;
    for v in 0..count {
        domains.push(legal_domain(alloc, p, Element::Vm(VmId(v as u32)))?)?;
    }
    Ok(domains)
}

// and for each node
fn node_domains(alloc: Global, p: &Problem) -> Result<Vec<Domain>, Memory>
    ensures count { IfOk result (λ ds. length ds.items ≡ node_count p.now.given) }
    ensures sets { IfOk result (λ ds. (n : ℕ) → n < node_count p.now.given → choices (slice_index_or ds.items n staying) ≡ start_sets p.now.given (node n)) }
{
    let count = p.cluster().nodes().len();
    let mut domains = Vec::with_capacity(alloc, count)?;
    for n in 0..count {
        domains.push(legal_domain(alloc, p, Element::Node(NodeId(n as u32)))?)?;
    }
    Ok(domains)
}

// the legal choices of an element: at each place one row, if any
fn legal_domain(alloc: Global, p: &Problem, e: Element) -> Result<Domain, Memory>
    requires { IsElement p.now.given e }
    ensures { IfOk result (λ d. choices d ≡ start_sets p.now.given e) }
{
    let mut domain = Domain::new(alloc, is_legal(p, e, Choice::Idle));
    add_row(&mut domain, legal_row(p, e, Place::Nowhere))?;
    for n in 0..node_total(p) {
        add_row(&mut domain, legal_row(p, e, Place::At(NodeId(n as u32))))?;
    }
    Ok(domain)
}

// the legal starts at a place: from 0 to the last one whose action ends by the horizon
fn legal_row(p: &Problem, e: Element, place: Place) -> Option<Row>
    requires { IsElement p.now.given e }
    ensures set { option_choices result ≡ filter (the_is_legal p.now.given e) (starts_from place 0 (p.now.given.horizon + 1)) }
    ensures row { IfSome result (IsRowAt place) }
{
    match kind_of(p, e, place) {
        None => None,
        Some(kind) => row_within(place, duration(p, e, kind), p.horizon()),
    }
}

// the starts at a place of an action that lasts so long and ends by an instant
fn row_within(place: Place, duration: u64, last: u32) -> Option<Row>
    ensures set { option_choices result ≡ starts_from place 0 ((last + 1) - duration) }
    ensures row { IfSome result (IsRowAt place) }
{
    if duration > u64::from(last) {
        return None;
    }
    Some(Row {
        place,
        lo: 0,
        hi: last - duration as u32,
    })
}

// adds a row, if there is one
fn add_row(domain: &mut Domain, row: Option<Row>) -> Result<(), Memory>
    requires holds_one { IfSome row (λ r. r.lo ≤ r.hi) }
    requires last { IfSome row (λ r. ComesAfter r.place domain.old.rows) }
    ensures idle { OnOk result (domain.new.idle ≡ domain.old.idle) }
    ensures rows { OnOk result (domain.new.rows ≡ domain.old.rows ++ rows_of row) }
{
    match row {
        None => Ok(()),
        Some(r) => domain.push(r),
    }
}
