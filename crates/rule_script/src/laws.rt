//! Laws, each proved for all values; the functions do nothing.
ghost use Rattle.rule_script.specs.Laws.{ScriptsAdd, SetsAreExact, StatementsAreExact};

/// Each set that is written is read, whatever follows, and what is read is a set that is written so.
pub fn sets_are_exact()
    ensures { SetsAreExact }
{}

/// Each statement that can be written is read from its tokens, and what is read is a statement that
/// is spelled so.
pub fn statements_are_exact()
    ensures { StatementsAreExact }
{}

/// A script changes nothing of a problem, but adds constraints after its own.
pub fn scripts_add()
    ensures { ScriptsAdd }
{}
