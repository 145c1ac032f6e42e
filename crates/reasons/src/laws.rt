//! Laws of the definitions: each is the contract of a function that does nothing, and a lemma of the
//! same name in proofs/Public proves it.
ghost use Rattle.reasons.specs.Prelude.{ClosedAtTurns, ClosedByKinds, CostsAtLeast, CostWithin, EmptyStays, EndIsChoice, EndsOfRows, FreeStays, LeastCostGrows, MachineChange, NodeChange, OnlyClosed, OnlyCosts, PartsAreIn, PartsBreak, QuietAtTurns, QuietIsFree, RefutedExcludes, RefutedExcludesAll, RegionIsOf, SameSets, SettingAgrees, SettingGrows, SettingPowered, SettingRoom, SettingSets, SettingTotal, SomeEnd, StartHas, StartIsLegal, StartIsOf, StartIsPlan, StaysRefuted, SureGrows, TurnsDecide, TurnsOfRows, UnrefutedAtTurns, UnrefutedByReasons, WithinValid};

/// What is refuted holds no valid plan that costs less than the one handed in, and none at all
/// where no plan is handed in.
#[tactic(auto, using(crate::proofs::Public::refuted_excludes))]
pub fn refuted_excludes()
    ensures { RefutedExcludes }
{}

/// What is refuted by another reason than the bound holds no valid plan at all.
#[tactic(auto, using(crate::proofs::Public::refuted_excludes_all))]
pub fn refuted_excludes_all()
    ensures { RefutedExcludesAll }
{}

/// No plan of the sets costs less than the sum of the least ends.
#[tactic(auto, using(crate::proofs::Public::costs_at_least))]
pub fn costs_at_least()
    ensures { CostsAtLeast }
{}

/// Sets that are one plan have its cost as the sum of the least ends.
#[tactic(auto, using(crate::proofs::Public::only_costs))]
pub fn only_costs()
    ensures { OnlyCosts }
{}

/// Sets that are one plan are closed exactly where the plan is valid.
pub fn only_closed()
    ensures { OnlyClosed }
{}

/// Sets are unrefuted exactly where no standard reason refutes them.
pub fn unrefuted_by_reasons()
    ensures { UnrefutedByReasons }
{}

/// In narrower sets, none of which is empty, no less is sure.
#[tactic(auto, using(crate::proofs::Public::sure_grows))]
pub fn sure_grows()
    ensures { SureGrows }
{}

/// In narrower sets, none of which is empty, the sum of the least ends is no less.
#[tactic(auto, using(crate::proofs::Public::least_cost_grows))]
pub fn least_cost_grows()
    ensures { LeastCostGrows }
{}

/// What is refuted stays refuted by the same reason in narrower sets, none of which is empty.
#[tactic(auto, using(crate::proofs::Public::stays_refuted))]
pub fn stays_refuted()
    ensures { StaysRefuted }
{}

/// An element without a choice has none in narrower sets.
pub fn empty_stays()
    ensures { EmptyStays }
{}

/// What is broken in a part of a snapshot is broken in the whole.
#[tactic(auto, using(crate::proofs::Public::parts_break))]
pub fn parts_break()
    ensures { PartsBreak }
{}

/// A part of what is free of a kind of reason is free of it.
#[tactic(auto, using(crate::proofs::Public::free_stays))]
pub fn free_stays()
    ensures { FreeStays }
{}

/// A part is one as far as the machines of an instance go.
#[tactic(auto, using(crate::proofs::Public::parts_are_in))]
pub fn parts_are_in()
    ensures { PartsAreIn }
{}

/// What is free of a kind of standard reason at each turn is so at each instant.
#[tactic(auto, using(crate::proofs::Public::turns_decide))]
pub fn turns_decide()
    ensures { TurnsDecide }
{}

/// One pass over the turns, with each element set to each end, decides whether a kind is quiet.
#[tactic(auto, using(crate::proofs::Public::quiet_at_turns))]
pub fn quiet_at_turns()
    ensures { QuietAtTurns }
{}

/// Sets are closed exactly where each element has a choice and each kind is quiet.
pub fn closed_by_kinds()
    ensures { ClosedByKinds }
{}

/// Where there is no standard reason at any turn, the sets are unrefuted.
#[tactic(auto, using(crate::proofs::Public::unrefuted_at_turns))]
pub fn unrefuted_at_turns()
    ensures { UnrefutedAtTurns }
{}

/// Where there is none with any element set to any end, at any turn, the sets are closed.
#[tactic(auto, using(crate::proofs::Public::closed_at_turns))]
pub fn closed_at_turns()
    ensures { ClosedAtTurns }
{}

/// A quiet kind has no reason in the sets as they are, where the instance has an element.
#[tactic(auto, using(crate::proofs::Public::quiet_is_free))]
pub fn quiet_is_free()
    ensures { QuietIsFree }
{}

/// An element that is set has what it has under its choice, and all others have what they had.
#[tactic(auto, using(crate::proofs::Public::setting_sets))]
pub fn setting_sets()
    ensures { SettingSets }
{}

/// With an element set to one of its choices no less is sure.
#[tactic(auto, using(crate::proofs::Public::setting_grows))]
pub fn setting_grows()
    ensures { SettingGrows }
{}

/// An element with a choice has an end.
#[tactic(auto, using(crate::proofs::Public::some_end))]
pub fn some_end()
    ensures { SomeEnd }
{}

/// An end is a choice.
#[tactic(auto, using(crate::proofs::Public::end_is_choice))]
pub fn end_is_choice()
    ensures { EndIsChoice }
{}

/// Sets that are the same at an element have the same of it.
#[tactic(auto, using(crate::proofs::Public::same_sets))]
pub fn same_sets()
    ensures { SameSets }
{}

/// Another set of a machine changes loads and presences by its own, and nothing else.
#[tactic(auto, using(crate::proofs::Public::machine_change))]
pub fn machine_change()
    ensures { MachineChange }
{}

/// Another set of a node changes room and powered nodes by its own, and nothing else.
#[tactic(auto, using(crate::proofs::Public::node_change))]
pub fn node_change()
    ensures { NodeChange }
{}

/// Sets of which one is set are the same but there.
#[tactic(auto, using(crate::proofs::Public::setting_agrees))]
pub fn setting_agrees()
    ensures { SettingAgrees }
{}

/// Setting a machine changes what all machines hold by what it holds.
#[tactic(auto, using(crate::proofs::Public::setting_total))]
pub fn setting_total()
    ensures { SettingTotal }
{}

/// Setting a node changes the room by its capacity.
#[tactic(auto, using(crate::proofs::Public::setting_room))]
pub fn setting_room()
    ensures { SettingRoom }
{}

/// Setting a node changes the powered nodes by itself.
#[tactic(auto, using(crate::proofs::Public::setting_powered))]
pub fn setting_powered()
    ensures { SettingPowered }
{}

/// The start region has exactly the legal choices of each element.
pub fn start_is_legal()
    ensures { StartIsLegal }
{}

/// Each plan is in the start region, with all idle that the instance has not.
#[tactic(auto, using(crate::proofs::Public::start_has))]
pub fn start_has()
    ensures { StartHas }
{}

/// A plan costs as much with all idle that the instance has not.
#[tactic(auto, using(crate::proofs::Public::cost_within))]
pub fn cost_within()
    ensures { CostWithin }
{}

/// A valid plan is valid with all idle that the instance has not.
#[tactic(auto, using(crate::proofs::Public::within_valid))]
pub fn within_valid()
    ensures { WithinValid }
{}

/// What is in the start region is a plan.
#[tactic(auto, using(crate::proofs::Public::start_is_plan))]
pub fn start_is_plan()
    ensures { StartIsPlan }
{}

/// In the start region an element that the instance has not can only stay.
#[tactic(auto, using(crate::proofs::Public::start_is_of))]
pub fn start_is_of()
    ensures { StartIsOf }
{}

/// The ends of a domain's choices are the ends of its rows, and Idle where it is held.
pub fn ends_of_rows()
    ensures { EndsOfRows }
{}

/// In a region of an instance an element that the instance has not can only stay.
#[tactic(auto, using(crate::proofs::Public::region_is_of))]
pub fn region_is_of()
    ensures { RegionIsOf }
{}

/// Each turn of a region is 0, the horizon, or an end of a row.
#[tactic(auto, using(crate::proofs::Public::turns_of_rows))]
pub fn turns_of_rows()
    ensures { TurnsOfRows }
{}
