//! Laws of the commands: each is the contract of a function that does nothing, and a lemma of the same
//! name in proofs/Public proves it.

ghost use Rattle.command_decide.specs.Accepted.{WrittenIsAccepted};
ghost use Rattle.commands.specs.Laws.{ExplainedIsChecked, LeftOpenIsChecked, PlannedIsChecked};

/// The files that `plan` writes are accepted: the plan's is read back, and the certificate has the
/// verdict yes for it, strictly or not, and no other.
pub fn written_is_accepted()
    ensures { WrittenIsAccepted }
{}

/// After `plan`, `check` of the same files says yes, strictly or not.
pub fn planned_is_checked()
    ensures { PlannedIsChecked }
{}

/// After `explain` has found a core, `check` of its two files and of no plan says yes, strictly or not.
pub fn explained_is_checked()
    ensures { ExplainedIsChecked }
{}

/// After `explain` has stayed undecided, `check` of its two files and of no plan says yes, strictly or not.
pub fn left_open_is_checked()
    ensures { LeftOpenIsChecked }
{}
