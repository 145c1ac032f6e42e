//! A split that is wished for, and whether it is one.
ghost use Rattle.std.specs.Prelude.{◌≡◌, IsTrue};
ghost use Rattle.catalogue.specs.Instance.{IsElement};
ghost use Rattle.domains.specs.Sets.{sets};
ghost use Rattle.relax.specs.Areas.{IsSized};
ghost use Rattle.trees.specs.Proving.{IsSplit};

use catalogue::Problem;
use cluster::Element;
use domains::{Change, Part, Region, Side};

/// An element and a part of its choices by which a region may be split.
#[derive(Clone, Copy, Debug, PartialEq, Eq)]
pub struct Wish {
    pub element: Element,
    pub part: Part,
}

/// Whether an element is one of the problem, and the part holds a choice of it and leaves one out.
pub fn is_split(p: &Problem, g: &Region, wish: Wish) -> bool
    requires { IsSized p.now.given g.now }
    ensures { IsTrue result → IsSplit p.now.given (sets g.now) wish.element wish.part }
{
    is_listed(p, wish.element)
        && !g.leaves_none(change(wish, Side::Inside))
        && !g.leaves_none(change(wish, Side::Outside))
}

// the narrowing to one side of the part
fn change(wish: Wish, side: Side) -> Change
    ensures element { result.element ≡ wish.element }
    ensures part { result.part ≡ wish.part }
    ensures side { result.side ≡ side }
{
    Change {
        element: wish.element,
        part: wish.part,
        side,
    }
}

// whether an element is one of the problem
fn is_listed(p: &Problem, e: Element) -> bool
    ensures { IsTrue result → IsElement p.now.given e }
{
    match e {
        Element::Vm(v) => (v.0 as usize) < p.cluster().machines().len(),
        Element::Node(n) => (n.0 as usize) < p.cluster().nodes().len(),
    }
}
