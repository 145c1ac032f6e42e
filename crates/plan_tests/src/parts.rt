//! Rows at the edges, a region without an element, and each call once on its happy path.
ghost use Rattle.std.specs.Prelude.{◌≡◌, ◌<◌, ◌≤◌, ℕ, min, IfOk, length, [], ◌∷◌};
ghost use Rattle.plan_tests.specs.Starts.{start_of};

use cluster::{Choice, Element, Instant, NodeId, Place, VmId};
use domains::measure::{Measure, lowest_lost};
use domains::undo::Lost;
use domains::view::lowest_seen;
use domains::{Change, Domain, Lens, Part, Region, Row, Side, View};
use std::alloc::Global;
use std::process::Abort;
use std::test::Fail;

const LAST: Place = Place::At(NodeId(511));

const HERE: Place = Place::At(NodeId(0));

const MACHINE: Element = Element::Vm(VmId(0));

fn row(place: Place, lo: Instant, hi: Instant) -> Row
    ensures { result ≡ record { place = place; lo = lo; hi = hi } }
{
    Row { place, lo, hi }
}

/// Idle, a start at no node, and two rows at nodes.
fn sample(alloc: Global) -> Result<Domain, Fail> {
    let mut domain = Domain::new(alloc, true);
    domain.push(row(Place::Nowhere, 2, 2))?;
    domain.push(row(HERE, 3, 7))?;
    domain.push(row(LAST, 0, 9))?;
    Ok(domain)
}

/// What is inside and outside of a part, and that the outside with what was lost is the whole.
fn check(
    rt: &impl Abort,
    alloc: Global,
    part: Part,
    inside: &[Row],
    outside: &[Row],
) -> Result<(), Fail> {
    let mut domain = sample(alloc)?;
    assert_eq!(rt; domain.inside(part).rows(), inside);
    let lost = domain.cut(part);
    assert_eq!(rt; domain.rows(), outside);
    domain.restore(lost);
    let again = sample(alloc)?;
    assert_eq!(rt; domain.rows(), again.rows());
    assert_eq!(rt; domain.idle(), again.idle());
    Ok(())
}

const NOWHERE_ROW: Row = Row {
    place: Place::Nowhere,
    lo: 2,
    hi: 2,
};

const HERE_ROW: Row = Row {
    place: HERE,
    lo: 3,
    hi: 7,
};

const LAST_ROW: Row = Row {
    place: LAST,
    lo: 0,
    hi: 9,
};

const ALL: [Row; 3] = [NOWHERE_ROW, HERE_ROW, LAST_ROW];

#[test]
fn parts_without_a_row(rt: HostRuntime) -> Result<(), Fail> {
    let alloc = rt.alloc();
    check(&rt, alloc, Part::Idle, &[], &ALL)?;
    check(&rt, alloc, Part::Upto(HERE, 2), &[], &ALL)?;
    check(&rt, alloc, Part::From(Place::At(NodeId(1)), 0), &[], &ALL)
}

#[test]
fn parts_of_whole_rows(rt: HostRuntime) -> Result<(), Fail> {
    let alloc = rt.alloc();
    let nowhere = Part::From(Place::Nowhere, 2);
    check(
        &rt,
        alloc,
        Part::From(HERE, 3),
        &[HERE_ROW],
        &[NOWHERE_ROW, LAST_ROW],
    )?;
    check(&rt, alloc, nowhere, &[NOWHERE_ROW], &[HERE_ROW, LAST_ROW])?;
    check(
        &rt,
        alloc,
        Part::Upto(LAST, 9),
        &[LAST_ROW],
        &[NOWHERE_ROW, HERE_ROW],
    )
}

#[test]
fn a_part_of_a_row(rt: HostRuntime) -> Result<(), Fail> {
    let rest = [NOWHERE_ROW, row(HERE, 4, 7), LAST_ROW];
    check(
        &rt,
        rt.alloc(),
        Part::Upto(HERE, 3),
        &[row(HERE, 3, 3)],
        &rest,
    )
}

#[test]
fn a_region_without_an_element(rt: HostRuntime) -> Result<(), Fail> {
    let alloc = rt.alloc();
    let region = Region::new(Vec::new(alloc), Vec::new(alloc));
    assert!(rt; region.is_fixed());
    assert_eq!(rt; region.first_unfixed(), None);
    Ok(())
}

/// The start of a choice, and 0 for Idle.
struct Start;

impl Measure for Start {
    ghost ready = { λ _. Unit {0} };

    ghost value_of = { λ _ c. start_of c };

    ghost floor_of = { λ _. 0 };

    fn value(&self, c: Choice) -> u64 {
        match c {
            Choice::Idle => 0,
            Choice::Act { place: _, start } => u64::from(start),
        }
    }

    fn floor(&self) -> u64 {
        0
    }

    ghost use Rattle.std.proofs.Common.{arith};

    ghost least_at_ends = { λ m place lo s hi l u. Prim.omega arith };

    ghost above_floor = { λ m c. Prim.omega arith };
}

fn least(region: &Region, lens: Lens) -> Option<u64>
    requires { 0 < length region.now.machines }
{
    lowest_seen(&View { region, lens }, MACHINE, &Start)
}

fn one_machine(alloc: Global) -> Result<Region, Fail>
    ensures { IfOk result (λ g. 0 < length g.machines) }
{
    let mut machines = Vec::new(alloc);
    machines.push(sample(alloc)?)?;
    Ok(Region::new(machines, Vec::new(alloc)))
}

#[test]
fn a_region_through_lenses(rt: HostRuntime) -> Result<(), Fail> {
    let region = one_machine(rt.alloc())?;
    assert_eq!(rt; region.first_unfixed(), Some(MACHINE));
    assert_eq!(rt;
        least(&region, Lens::Inside(MACHINE, Part::From(LAST, 5))),
        Some(5)
    );
    assert_eq!(rt; least(&region, Lens::Set(MACHINE, Choice::Idle)), Some(0));
    Ok(())
}

const UP_TO_3: Change = Change {
    element: MACHINE,
    part: Part::Upto(HERE, 3),
    side: Side::Inside,
};

/// Whether the change leaves no choice; it is made.
fn narrow(region: &mut Region) -> bool
    requires { 0 < length region.old.machines }
    ensures { length region.new.machines ≡ length region.old.machines }
{
    let leaves_none = region.leaves_none(UP_TO_3);
    region.narrow(UP_TO_3);
    leaves_none
}

/// The machine's domain, in whose place an empty one is put.
fn take(alloc: Global, region: &mut Region) -> Domain
    requires { 0 < length region.old.machines }
{
    region.set(MACHINE, Domain::new(alloc, false))
}

#[test]
fn a_region_narrowed(rt: HostRuntime) -> Result<(), Fail> {
    let mut region = one_machine(rt.alloc())?;
    assert!(rt; !narrow(&mut region));
    assert!(rt; region.copy()?.is_fixed());
    let old = take(rt.alloc(), &mut region);
    assert_eq!(rt; old.rows(), [row(HERE, 3, 3)].as_slice());
    Ok(())
}

#[test]
fn a_domain_copied(rt: HostRuntime) -> Result<(), Fail> {
    let old = sample(rt.alloc())?;
    let mut kept = Domain::new(rt.alloc(), true);
    kept.copy_from(&old)?;
    assert_eq!(rt; kept.copy()?.rows(), old.rows());
    assert_eq!(rt; lowest_lost(Lost::Row(row(HERE, 3, 7)), &Start), Some(3));
    Ok(())
}
