//! Why a certificate is refused.

/// What is wrong with a step, or with the goal at the end.
#[derive(Clone, Copy, Debug, PartialEq, Eq)]
pub enum Why {
    /// Nothing is open where a step comes, or the tree is not whole where the goal comes.
    Structure,
    /// A name is none of the problem's. A walk has no names and never says so; who reads steps may.
    Name,
    /// The step's element is none of the problem's, or a decision's part holds none or all of its choices.
    Part,
    /// The reason does not refute.
    Reason,
    /// The region is not one valid plan of that cost, or costs less than the plan that was handed in.
    Plan,
    /// The goal is not the one that the tree shows.
    Goal,
    /// A region that is decided or left is not closed, is one plan, or is not below each plan so far.
    Lean,
}
