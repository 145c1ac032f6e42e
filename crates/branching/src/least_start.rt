//! The first element that is not fixed, by its earliest choice.
ghost use Rattle.std.specs.Prelude.{◌≡◌};
ghost use Rattle.branching.specs.Prelude.{AreLegal, domain_at, HaveChoices, IsFirstUnfixed, IsFixed, IsLeastStart, IsSized, IsSplit, sets};

use crate::brancher::Brancher;
use crate::open::first_open;
use crate::split::by_least_start;
use catalogue::Problem;
use cluster::Element;
use domains::{Part, Region};
use reasons::Reason;
use slices::Plan;

/// Splits the first element that is not fixed, by its earliest choice: by Idle where that is held, and else by the
/// least start of all rows, at the first place that has it.
#[derive(Clone, Copy)]
pub struct LeastStart;

impl Brancher for LeastStart {
    fn choose(&mut self, p: &Problem, g: &Region) -> (Element, Part)
        requires sized { IsSized p.now.given g.now }
        requires inhabited { HaveChoices p.now.given (sets g.now) }
        requires free { ¬ IsFixed g.now }
        ensures element { IsFirstUnfixed g.now result.0 }
        ensures part { IsLeastStart (domain_at g.now result.0) result.1 }
        ensures split { IsSplit p.now.given (sets g.now) result.0 result.1 }
    {
        least_start(p, g)
    }

    fn met_plan(&mut self, _p: &Problem, _plan: &Plan) {}

    fn failed(&mut self, _p: &Problem, _element: Option<Element>, _reason: &Reason) {}
}

/// What `LeastStart` chooses.
pub fn least_start(p: &Problem, g: &Region) -> (Element, Part)
    requires sized { IsSized p.now.given g.now }
    requires inhabited { HaveChoices p.now.given (sets g.now) }
    requires free { ¬ IsFixed g.now }
    ensures element { IsFirstUnfixed g.now result.0 }
    ensures part { IsLeastStart (domain_at g.now result.0) result.1 }
    ensures split { IsSplit p.now.given (sets g.now) result.0 result.1 }
{
    let x = first_open(g);
    (x, by_least_start(g.domain(x)))
}
