//! What a search answers.
use slices::Plan;

/// What was found of a problem.
#[derive(Drop)]
pub enum Found {
    /// This plan is valid, and no valid plan costs less.
    Optimal(Plan),
    /// No plan is valid.
    Infeasible,
    /// The budget was spent before all was decided.
    Undecided {
        /// The cheapest plan that was met, if any was.
        best: Option<Plan>,
        /// No valid plan costs less than this.
        least: u64,
    },
}
