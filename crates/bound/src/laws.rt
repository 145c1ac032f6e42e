//! Laws of the sum of least ends: each is the contract of a function that does nothing.
ghost use Rattle.bound.specs.Laws.{CostIsSmall, CostPutBack, NarrowingTells, SameCost};

/// The same sets have the same sum.
pub fn same_cost()
    ensures { SameCost }
{}

/// Where one element was changed, the region with its old domain put back has the sum from before.
pub fn cost_put_back()
    ensures { CostPutBack }
{}

/// No sum is greater than the greatest cost of a plan.
#[tactic(auto, using(crate::proofs::Public::cost_is_small))]
pub fn cost_is_small()
    ensures { CostIsSmall }
{}

/// All that `LowerBound::told` asks holds of a narrowing, where the sum was that of the region before.
pub fn narrowing_tells()
    ensures { NarrowingTells }
{}
