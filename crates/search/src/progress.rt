//! What a search keeps beside the steps that it has written.
use slices::Plan;

/// A plan that was met, with its cost.
#[derive(Drop)]
pub struct Best {
    pub plan: Plan,
    pub cost: u64,
}

/// What is kept of the steps so far.
#[derive(Drop)]
pub struct Progress {
    /// How many decisions were written.
    pub spent: u64,
    /// The cheapest plan that was met, if any was.
    pub best: Option<Best>,
    /// The least of the sums of least ends of the regions that were left, if any was.
    pub least: Option<u64>,
}
