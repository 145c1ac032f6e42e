//! Marks in one another, with a change of each sort, and back.
ghost use Rattle.std.specs.Prelude.{◌≡◌, ◌<◌, [], ◌∷◌, IfOk, OnOk, length};

use cluster::{Element, Instant, NodeId, Place, VmId};
use domains::undo::Lost;
use domains::{Before, Change, Domain, Part, Region, Row, Side};
use std::alloc::Global;
use std::process::Abort;
use std::test::Fail;
use trail::Trail;

const HERE: Place = Place::At(NodeId(0));

const MACHINE: Element = Element::Vm(VmId(0));

fn row(place: Place, lo: Instant, hi: Instant) -> Row
    ensures { result ≡ record { place = place; lo = lo; hi = hi } }
{
    Row { place, lo, hi }
}

/// A trail over one machine, with Idle and a row at no node and at a node.
fn sample(alloc: Global) -> Result<Trail, Fail>
    ensures one { IfOk result (λ t. 0 < length t.region.machines) }
    ensures no_mark { IfOk result (λ t. t.marks ≡ []) }
{
    let mut domain = Domain::new(alloc, true);
    domain.push(row(Place::Nowhere, 2, 2))?;
    domain.push(row(HERE, 3, 7))?;
    let mut machines = Vec::new(alloc);
    machines.push(domain)?;
    Ok(Trail::new(alloc, Region::new(machines, Vec::new(alloc))))
}

fn change(part: Part, side: Side) -> Change
    ensures { result ≡ record { element = MACHINE; part = part; side = side } }
{
    Change {
        element: MACHINE,
        part,
        side,
    }
}

fn assert_rows(rt: &impl Abort, trail: &Trail, idle: bool, rows: &[Row])
    requires { 0 < length trail.now.region.machines }
{
    let domain = trail.region().domain(MACHINE);
    assert_eq!(rt; domain.idle(), idle);
    assert_eq!(rt; domain.rows(), rows);
}

/// Makes a mark, and then a change.
fn step(trail: &mut Trail, part: Part, side: Side) -> Result<(), Fail>
    requires { 0 < length trail.old.region.machines }
    ensures one { length trail.new.region.machines ≡ length trail.old.region.machines }
    ensures marks { OnOk result (trail.new.marks ≡ trail.old.region ∷ trail.old.marks) }
{
    trail.mark()?;
    trail.apply(change(part, side))?;
    Ok(())
}

#[test]
fn told_what_was_there(rt: HostRuntime) -> Result<(), Fail> {
    let mut trail = sample(rt.alloc())?;
    let mut kept = Domain::new(rt.alloc(), false);
    let told = trail.apply_told(change(Part::From(HERE, 5), Side::Outside), &mut kept)?;
    assert_eq!(rt; told, Before::Lost(Lost::Row(row(HERE, 3, 7))));
    let told = trail.apply_told(change(Part::Upto(HERE, 3), Side::Inside), &mut kept)?;
    assert_eq!(rt; told, Before::Kept);
    assert_eq!(rt;
        kept.rows(),
        [row(Place::Nowhere, 2, 2), row(HERE, 3, 4)].as_slice()
    );
    Ok(())
}

#[test]
fn back_from_three_marks(rt: HostRuntime) -> Result<(), Fail> {
    let nowhere = row(Place::Nowhere, 2, 2);
    let mut trail = sample(rt.alloc())?;
    step(&mut trail, Part::Idle, Side::Outside)?;
    step(&mut trail, Part::From(HERE, 5), Side::Outside)?;
    trail.apply(change(Part::From(Place::Nowhere, 0), Side::Outside))?;
    step(&mut trail, Part::Upto(HERE, 3), Side::Inside)?;
    assert_eq!(rt; trail.marks(), 3);
    assert_rows(&rt, &trail, false, &[row(HERE, 3, 3)]);
    trail.back();
    assert_rows(&rt, &trail, false, &[row(HERE, 3, 4)]);
    trail.back();
    assert_rows(&rt, &trail, false, &[nowhere, row(HERE, 3, 7)]);
    trail.back();
    assert_rows(&rt, &trail, true, &[nowhere, row(HERE, 3, 7)]);
    Ok(())
}
