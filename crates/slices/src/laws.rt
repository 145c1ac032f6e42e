//! Laws of the definitions: each is the contract of a function that does nothing, and a lemma of the
//! same name in proofs/Public proves it.
ghost use Rattle.slices.specs.Prelude.{AbsentUsesNothing, ActionAtEnds, ActionQuiet, DurationsLast, EndsByDuration, ExecutionKeeps, FirstIsOne, HasLastStart, HeldAtEnds, HeldByNode, HeldInSteps, HeldIsSmall, HeldOnMore, HeldQuiet, IsPointwise, KeepsQuiet, LegalActsLast, LegalEarlier, LegalIsPlan, LessHolds, MattersQuiet, OverAsPlanned, PartsKeep, PoweredAtEnds, PoweredQuiet, PresentOnSet, PresentSomewhere, StagePartsArePart, UnusableAtEnds, UsableQuiet};

/// A constraint of each kind still holds where there is less of what it speaks of: presences of
/// its machines, their amounts, their actions, powered nodes.
#[tactic(auto, using(crate::proofs::Public::less_holds))]
pub fn less_holds()
    ensures { LessHolds }
{}

/// Fewer presences, amounts, images and powered nodes, and more usable nodes, keep each rule that
/// was kept, hence each constraint.
#[tactic(auto, using(crate::proofs::Public::parts_keep))]
pub fn parts_keep()
    ensures { PartsKeep }
{}

/// Where less has started and more has ended, there is only less to be kept.
#[tactic(auto, using(crate::proofs::Public::stage_parts_are_part))]
pub fn stage_parts_are_part()
    ensures { StagePartsArePart }
{}

/// A valid plan's rules are kept at each moment of an execution that starts nothing early.
#[tactic(auto, using(crate::proofs::Public::execution_keeps))]
pub fn execution_keeps()
    ensures { ExecutionKeeps }
{}

/// Some elements have a last start up to an instant.
#[tactic(auto, using(crate::proofs::Public::has_last_start))]
pub fn has_last_start()
    ensures { HasLastStart }
{}

/// At most one value is the first broken one.
#[tactic(auto, using(crate::proofs::Public::first_is_one))]
pub fn first_is_one()
    ensures { FirstIsOne }
{}

/// Every duration is at least 1.
#[tactic(auto, using(crate::proofs::Public::durations_last))]
pub fn durations_last()
    ensures { DurationsLast }
{}

/// The action of a legal choice lasts at least 1, and ends by the horizon.
#[tactic(auto, using(crate::proofs::Public::legal_acts_last))]
pub fn legal_acts_last()
    ensures { LegalActsLast }
{}

/// An action ends so long after its start, whenever that is.
#[tactic(auto, using(crate::proofs::Public::ends_by_duration))]
pub fn ends_by_duration()
    ensures { EndsByDuration }
{}

/// Where an action may start, it may start earlier.
#[tactic(auto, using(crate::proofs::Public::legal_earlier))]
pub fn legal_earlier()
    ensures { LegalEarlier }
{}

/// A list of legal choices, one for each element in order, is a plan.
#[tactic(auto, using(crate::proofs::Public::legal_is_plan))]
pub fn legal_is_plan()
    ensures { LegalIsPlan }
{}

/// Where all actions have started and ended, all is where the plan has it at the horizon.
pub fn over_as_planned()
    ensures { OverAsPlanned }
{}

/// The snapshot at an instant is what each element's choice gives.
#[tactic(auto, using(crate::proofs::Public::is_pointwise))]
pub fn is_pointwise()
    ensures { IsPointwise }
{}

/// What a machine holds over the starts at a place is an amount for ever, one until the end and
/// one from the start on.
#[tactic(auto, using(crate::proofs::Public::held_in_steps))]
pub fn held_in_steps()
    ensures { HeldInSteps }
{}

/// Over the starts at one place, what a machine holds is least at an end.
#[tactic(auto, using(crate::proofs::Public::held_at_ends))]
pub fn held_at_ends()
    ensures { HeldAtEnds }
{}

/// A node that is usable for some start at a place is so for an end.
#[tactic(auto, using(crate::proofs::Public::unusable_at_ends))]
pub fn unusable_at_ends()
    ensures { UnusableAtEnds }
{}

/// A node that is powered for both ends of a row is so for each start.
#[tactic(auto, using(crate::proofs::Public::powered_at_ends))]
pub fn powered_at_ends()
    ensures { PoweredAtEnds }
{}

/// Over the starts at one place, how far a machine's action is counts least at an end.
#[tactic(auto, using(crate::proofs::Public::action_at_ends))]
pub fn action_at_ends()
    ensures { ActionAtEnds }
{}

/// Until its next start, a choice holds no more.
#[tactic(auto, using(crate::proofs::Public::held_quiet))]
pub fn held_quiet()
    ensures { HeldQuiet }
{}

/// Until its next start, a node stays usable.
#[tactic(auto, using(crate::proofs::Public::usable_quiet))]
pub fn usable_quiet()
    ensures { UsableQuiet }
{}

/// Until its next start, a node is powered only if it was.
#[tactic(auto, using(crate::proofs::Public::powered_quiet))]
pub fn powered_quiet()
    ensures { PoweredQuiet }
{}

/// Until its next start, a machine's action is so far only if it was.
#[tactic(auto, using(crate::proofs::Public::action_quiet))]
pub fn action_quiet()
    ensures { ActionQuiet }
{}

/// A constraint that holds goes on to hold until an element starts that matters to it.
pub fn matters_quiet()
    ensures { MattersQuiet }
{}

/// A rule that is kept goes on to be kept until an element starts.
pub fn keeps_quiet()
    ensures { KeepsQuiet }
{}

/// What is held on a set of nodes is the sum over its nodes.
#[tactic(auto, using(crate::proofs::Public::held_by_node))]
pub fn held_by_node()
    ensures { HeldByNode }
{}

/// On more nodes there is no less.
#[tactic(auto, using(crate::proofs::Public::held_on_more))]
pub fn held_on_more()
    ensures { HeldOnMore }
{}

/// A machine that is present on a set is present on a node of it.
#[tactic(auto, using(crate::proofs::Public::present_somewhere))]
pub fn present_somewhere()
    ensures { PresentSomewhere }
{}

/// A machine that is present on a node is present on each set with the node.
#[tactic(auto, using(crate::proofs::Public::present_on_set))]
pub fn present_on_set()
    ensures { PresentOnSet }
{}

/// A machine that is not present uses nothing.
#[tactic(auto, using(crate::proofs::Public::absent_uses_nothing))]
pub fn absent_uses_nothing()
    ensures { AbsentUsesNothing }
{}

/// A machine holds at most 2 * 10^9 of a resource, two presences and one image.
pub fn held_is_small()
    ensures { HeldIsSmall }
{}
