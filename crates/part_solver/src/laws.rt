//! A law of the definitions: the contract of a function that does nothing.
ghost use Rattle.part_solver.specs.Laws.{AnsweredIsTrue};

/// What is answered by solved parts is so of all plans of the whole.
pub fn answered_is_true()
    ensures { AnsweredIsTrue }
{}
