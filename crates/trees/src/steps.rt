//! Steps of a certificate tree, in the order in which they are read, and what it claims at its end.
use cluster::Element;
use domains::Part;
use reasons::Reason;

/// One step of a tree: what is done with the first region that is open.
#[derive(Clone, Copy)]
pub enum Step {
    /// It is split: first its plans with the element inside the part, and then those with it outside.
    Decide(Element, Part),
    /// The reason refutes what is inside the part, and the rest stays open.
    Cut(Element, Part, Reason),
    /// The reason refutes it whole.
    Fail(Reason),
    /// It is one valid plan of that cost.
    Plan(u64),
    /// Nothing is claimed of it.
    Left,
}

/// What a tree claims.
#[derive(Clone, Copy, Debug, PartialEq, Eq)]
pub enum Goal {
    /// The plan that was handed in has this cost, and no valid plan costs less.
    Optimal(u64),
    /// No plan is valid.
    Infeasible,
    /// Regions are left after so many decisions.
    Undecided(u64),
}
