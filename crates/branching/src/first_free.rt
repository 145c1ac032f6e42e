//! The first element that is not fixed, by half a row.
ghost use Rattle.std.specs.Prelude.{◌≡◌};
ghost use Rattle.branching.specs.Prelude.{AreLegal, domain_at, HaveChoices, IsFirstFree, IsFirstUnfixed, IsFixed, IsSized, IsSplit, sets};

use crate::brancher::Brancher;
use crate::open::first_open;
use crate::split::by_first_half;
use catalogue::Problem;
use cluster::Element;
use domains::{Part, Region};
use reasons::Reason;
use slices::Plan;

/// Splits the first element that is not fixed: by Idle where that is held, and else by the first half of its first
/// row.
#[derive(Clone, Copy)]
pub struct FirstFree;

impl Brancher for FirstFree {
    fn choose(&mut self, p: &Problem, g: &Region) -> (Element, Part)
        requires sized { IsSized p.now.given g.now }
        requires inhabited { HaveChoices p.now.given (sets g.now) }
        requires free { ¬ IsFixed g.now }
        ensures element { IsFirstUnfixed g.now result.0 }
        ensures part { IsFirstFree (domain_at g.now result.0) result.1 }
        ensures split { IsSplit p.now.given (sets g.now) result.0 result.1 }
    {
        first_free(p, g)
    }

    fn met_plan(&mut self, _p: &Problem, _plan: &Plan) {}

    fn failed(&mut self, _p: &Problem, _element: Option<Element>, _reason: &Reason) {}
}

/// What `FirstFree` chooses.
pub fn first_free(p: &Problem, g: &Region) -> (Element, Part)
    requires sized { IsSized p.now.given g.now }
    requires inhabited { HaveChoices p.now.given (sets g.now) }
    requires free { ¬ IsFixed g.now }
    ensures element { IsFirstUnfixed g.now result.0 }
    ensures part { IsFirstFree (domain_at g.now result.0) result.1 }
    ensures split { IsSplit p.now.given (sets g.now) result.0 result.1 }
{
    let x = first_open(g);
    (x, by_first_half(g.domain(x)))
}
