//! What a search asks where to split.
ghost use Rattle.std.specs.Prelude.{◌≡◌};
ghost use Rattle.branching.specs.Prelude.{AreLegal, HaveChoices, IsFixed, IsPlanOf, IsSized, IsSplit, sets};

use catalogue::Problem;
use cluster::Element;
use domains::{Part, Region};
use reasons::Reason;
use slices::Plan;

/// Chooses where regions are split, and may learn from what the search meets. No call takes memory.
pub trait Brancher: Drop {
    /// An element of a region that is not fixed, and a part that holds a choice of it and leaves one out.
    fn choose(&mut self, p: &Problem, g: &Region) -> (Element, Part)
        requires sized { IsSized p.now.given g.now }
        requires legal { AreLegal p.now.given (sets g.now) }
        requires inhabited { HaveChoices p.now.given (sets g.now) }
        requires free { ¬ IsFixed g.now }
        ensures { IsSplit p.now.given (sets g.now) result.0 result.1 };

    /// The search has met a plan that costs less than all before.
    fn met_plan(&mut self, p: &Problem, plan: &Plan)
        requires { IsPlanOf p.now.given plan.now };

    /// A reason refuted a region: `element` is the one that was split or narrowed last, if there is one.
    fn failed(&mut self, p: &Problem, element: Option<Element>, reason: &Reason);
}
