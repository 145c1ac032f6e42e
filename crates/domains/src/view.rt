//! A region seen as it is, on one side of a part, or with one element set to one choice; nothing is copied.
ghost use Rattle.std.specs.Prelude.{filter, ◌≡◌, ◌<◌, ◌≤◌, IfSome, length, slice_index_or};
ghost use Rattle.domains.specs.Prelude.{domain_at, HasElement, idle_seen, lowest as lowest_of, RegionView, same_element, seen, sets, shows, sight_at, sight_of};

use crate::measure::{Measure, lowest};
use crate::parts::Part;
use crate::region::Region;
use cluster::{Choice, Element};

/// How a region is looked at.
#[derive(Clone, Copy, Debug, PartialEq, Eq)]
pub enum Lens {
    /// As it is.
    Whole,
    /// The element keeps the choices in the part.
    Inside(Element, Part),
    /// The element keeps the choices that are not in the part.
    Outside(Element, Part),
    /// The element has this choice alone.
    Set(Element, Choice),
}

/// A region through a lens.
#[derive(Clone, Copy)]
pub struct View<'a> {
    pub region: &'a Region,
    pub lens: Lens,
}

/// What a lens shows of one element.
#[derive(Clone, Copy, Debug, PartialEq, Eq)]
pub enum Sight {
    All,
    In(Part),
    Out(Part),
    Only(Choice),
}

/// The least value of a measure over the choices of an element that are seen, if there is one.
pub fn lowest_seen<M: Measure>(view: &View, e: Element, m: &M) -> Option<u64>
    requires element { HasElement view.now.region.now e }
    requires ready { M.ready m.now }
    ensures { result ≡ lowest_of (M.value_of m.now) (seen view.now.region.now view.now.lens e) }
{
    let domain = view.region.domain(e);
    match shown(view.lens, e) {
        Sight::All => lowest(domain, None, m),
        Sight::In(part) => lowest(&domain.inside(part), None, m),
        Sight::Out(part) => lowest(domain, Some(part), m),
        Sight::Only(c) => Some(m.value(c)),
    }
}

/// Whether Idle is seen of an element.
pub fn has_idle(view: &View, e: Element) -> bool
    requires { HasElement view.now.region.now e }
    ensures { result ≡ idle_seen (sight_at view.now.lens e) (domain_at view.now.region.now e) }
{
    let idle = view.region.domain(e).idle();
    match shown(view.lens, e) {
        Sight::All => idle,
        Sight::In(part) => idle && matches!(part, Part::Idle),
        Sight::Out(part) => idle && !matches!(part, Part::Idle),
        Sight::Only(c) => matches!(c, Choice::Idle),
    }
}

/// What a lens shows of an element.
pub fn shown(lens: Lens, e: Element) -> Sight
    ensures sight { result ≡ sight_at lens e }
    ensures seen { (g : RegionView) → seen g lens e ≡ sight_of result (sets g e) }
{
    match lens {
        Lens::Whole => Sight::All,
        Lens::Inside(x, part) => {
            if is_same(e, x) {
                Sight::In(part)
            } else {
                Sight::All
            }
        }
        Lens::Outside(x, part) => {
            if is_same(e, x) {
                Sight::Out(part)
            } else {
                Sight::All
            }
        }
        Lens::Set(x, c) => {
            if is_same(e, x) {
                Sight::Only(c)
            } else {
                Sight::All
            }
        }
    }
}

/// Whether two elements are the same.
pub fn is_same(a: Element, b: Element) -> bool
    ensures { result ≡ same_element a b }
{
    match a {
        Element::Vm(v) => match b {
            Element::Vm(w) => v.0 == w.0,
            Element::Node(_) => false,
        },
        Element::Node(m) => match b {
            Element::Vm(_) => false,
            Element::Node(n) => m.0 == n.0,
        },
    }
}
