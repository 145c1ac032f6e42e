//! Laws of the definitions: each is the contract of a function that does nothing, and a lemma of the
//! same name in proofs/Public proves it.
ghost use Rattle.parts.specs.Laws.{CostsAddUp, KeepsGroups, LeastsAddUp, PartEmbeds, PartIsInfeasible, PartIsSound, PartOfUnion, PartsAreValid, PlanIsUnion, StayingPlanIsUnion, UnionIsOptimal, UnionsAreValid};

/// A part has its machines, nodes and constraints of the whole, and says of them what the whole does.
#[tactic(auto, using(crate::proofs::Public::part_embeds))]
pub fn part_embeds()
    ensures { PartEmbeds }
{}

/// A part is an instance.
pub fn part_is_sound()
    ensures { PartIsSound }
{}

/// A valid plan keeps each machine in its group.
#[tactic(auto, using(crate::proofs::Public::keeps_groups))]
pub fn keeps_groups()
    ensures { KeepsGroups }
{}

/// Each part of a valid plan is a valid plan of its part of the problem.
pub fn parts_are_valid()
    ensures { PartsAreValid }
{}

/// The union of valid plans of all parts is a valid plan of the whole.
pub fn unions_are_valid()
    ensures { UnionsAreValid }
{}

/// A plan that keeps each machine in its group is the union of its parts.
#[tactic(auto, using(crate::proofs::Public::staying_plan_is_union))]
pub fn staying_plan_is_union()
    ensures { StayingPlanIsUnion }
{}

/// A valid plan is the union of its parts.
#[tactic(auto, using(crate::proofs::Public::plan_is_union))]
pub fn plan_is_union()
    ensures { PlanIsUnion }
{}

/// A part of a union of plans is the plan of the part.
#[tactic(auto, using(crate::proofs::Public::part_of_union))]
pub fn part_of_union()
    ensures { PartOfUnion }
{}

/// A union of plans costs what the plans cost together.
#[tactic(auto, using(crate::proofs::Public::costs_add_up))]
pub fn costs_add_up()
    ensures { CostsAddUp }
{}

/// The union of optimal plans of all parts is optimal.
pub fn union_is_optimal()
    ensures { UnionIsOptimal }
{}

/// Where a part is infeasible, so is the whole.
pub fn part_is_infeasible()
    ensures { PartIsInfeasible }
{}

/// What no valid plans of the parts undercut adds up to what none of the whole does.
#[tactic(auto, using(crate::proofs::Public::leasts_add_up))]
pub fn leasts_add_up()
    ensures { LeastsAddUp }
{}
