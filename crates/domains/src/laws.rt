//! Laws of sets of choices: each is the contract of a function that does nothing.
ghost use Rattle.domains.specs.Prelude.{CountFalls, CountFallsBelow, FilterIsFewer, LeastGrows, LeastOfEach, LostIsRestored, LowestBefore, MayByLeast, MayEach, MayStays, OpenHasTwo, PartsAreDisjoint, PartsCover, PlanSplits, PlanStays, RestoredIsBoth, SeenByRows, SizeFalls, SizeIsPositive, SplitAddsUp, SurelyByLeast, SurelyEach, SurelyStays};

/// Each choice is inside or outside of a part.
pub fn parts_cover()
    ensures { PartsCover }
{}

/// No choice is both inside and outside of a part.
pub fn parts_are_disjoint()
    ensures { PartsAreDisjoint }
{}

/// A plan of a region is inside or outside of each part.
pub fn plan_splits()
    ensures { PlanSplits }
{}

/// A plan of a narrower region is one of the region.
pub fn plan_stays()
    ensures { PlanStays }
{}

/// The sizes of the two sides of a split add up to the whole.
#[tactic(auto, using(crate::proofs::Public::split_adds_up))]
pub fn split_adds_up()
    ensures { SplitAddsUp }
{}

/// A narrowing raises no size.
#[tactic(auto, using(crate::proofs::Public::size_falls))]
pub fn size_falls()
    ensures { SizeFalls }
{}

/// A region without an empty set has a plan.
#[tactic(auto, using(crate::proofs::Public::size_is_positive))]
pub fn size_is_positive()
    ensures { SizeIsPositive }
{}

/// A region without an empty set that is not one plan has two.
#[tactic(auto, using(crate::proofs::Public::open_has_two))]
pub fn open_has_two()
    ensures { OpenHasTwo }
{}

/// A narrowing raises no number of choices that are left.
#[tactic(auto, using(crate::proofs::Public::count_falls))]
pub fn count_falls()
    ensures { CountFalls }
{}

/// A narrowing that takes a choice away lowers the number of choices that are left, so that a loop that narrows ends.
pub fn count_falls_below()
    ensures { CountFallsBelow }
{}

/// The least value is at most that of each choice.
pub fn least_of_each()
    ensures { LeastOfEach }
{}

/// What is surely so is so under each choice.
#[tactic(auto, using(crate::proofs::Public::surely_each))]
pub fn surely_each()
    ensures { SurelyEach }
{}

/// What is so under some choice may be so.
#[tactic(auto, using(crate::proofs::Public::may_each))]
pub fn may_each()
    ensures { MayEach }
{}

/// What passes a test is fewer choices.
pub fn filter_is_fewer()
    ensures { FilterIsFewer }
{}

/// What is surely so stays so with fewer choices.
#[tactic(auto, using(crate::proofs::Public::surely_stays))]
pub fn surely_stays()
    ensures { SurelyStays }
{}

/// What may be so with fewer choices may be so.
#[tactic(auto, using(crate::proofs::Public::may_stays))]
pub fn may_stays()
    ensures { MayStays }
{}

/// With fewer choices, but some, the least value is no lower.
#[tactic(auto, using(crate::proofs::Public::least_grows))]
pub fn least_grows()
    ensures { LeastGrows }
{}

/// Surely so is a least value of 1, or none, of the measure that is 1 where it is so.
#[tactic(auto, using(crate::proofs::Public::surely_by_least))]
pub fn surely_by_least()
    ensures { SurelyByLeast }
{}

/// Maybe so is the least value 0 of the measure that is 0 where it is so.
#[tactic(auto, using(crate::proofs::Public::may_by_least))]
pub fn may_by_least()
    ensures { MayByLeast }
{}

/// What is seen of an element through a lens is Idle and what is seen of the rows.
pub fn seen_by_rows()
    ensures { SeenByRows }
{}

/// The choices of a domain with what it has lost are those that it has and those that it has lost.
pub fn restored_is_both()
    ensures { RestoredIsBoth }
{}

/// What was lost is there again when it is put back.
pub fn lost_is_restored()
    ensures { LostIsRestored }
{}

/// The least value before a cut is the lower of the least values of what is left and of what was lost.
pub fn lowest_before()
    ensures { LowestBefore }
{}
