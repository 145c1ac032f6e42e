//! Why a line was not read, and what is wrong with one.
ghost use Rattle.std.specs.Prelude.{◌≡◌};

use base::Memory as NoMemory;
use catalogue::constraint::RuleFault;
use std::alloc::{AllocError, AllocFailed};

/// Why tokens were not read as a statement.
#[derive(Clone, Copy, Debug, PartialEq, Eq)]
pub enum LineFault {
    /// No statement is spelled so.
    NotALine,
    /// Want of memory.
    Memory,
}

impl From<NoMemory> for LineFault {
    ghost use Rattle.rule_script.specs.declared.faults.LineFault.TheVariants.{Memory};

    ghost from_gives = { λ _ e. e ≡ Memory };

    fn from(_error: NoMemory) -> LineFault {
        LineFault::Memory
    }
}

impl From<AllocError> for LineFault {
    ghost use Rattle.rule_script.specs.declared.faults.LineFault.TheVariants.{Memory};

    ghost from_gives = { λ _ e. e ≡ Memory };

    fn from(_error: AllocError) -> LineFault {
        LineFault::Memory
    }
}

/// The value that found no room is dropped.
impl<T: Drop> From<AllocFailed<T>> for LineFault {
    ghost use Rattle.rule_script.specs.declared.faults.LineFault.TheVariants.{Memory};

    ghost from_gives = { λ _ e. e ≡ Memory };

    fn from(_error: AllocFailed<T>) -> LineFault {
        LineFault::Memory
    }
}

/// What is wrong with a line of a script.
#[derive(Clone, Copy, Debug, PartialEq, Eq)]
pub enum Mistake {
    /// No statement is spelled so.
    NotALine,
    /// The line has over `MAX_LINE_BYTES` bytes.
    TooLong,
    /// An element, a resource or a variable is not there.
    NoSuch,
    /// A range ends before it begins, or has too many elements; or a number or a count of a call
    /// is too great.
    OutOfRange,
    /// A machine stands for a node or the reverse, or a set has not exactly one machine.
    WrongSort,
    /// A machine stands twice in a call.
    Twice,
    /// The problem has as many constraints as it may have.
    TooMany,
}

impl Mistake {
    ghost use Rattle.rule_script.specs.Texts.{mistake_text};

    /// What is wrong, in the words that are printed after the number of the line.
    pub fn text(self) -> &'static str
        ensures { result.now ≡ mistake_text self }
    {
        match self {
            Mistake::NotALine => "not a line",
            Mistake::TooLong => "too long",
            Mistake::NoSuch => "no such name",
            Mistake::OutOfRange => "out of range",
            Mistake::WrongSort => "wrong sort",
            Mistake::Twice => "twice",
            Mistake::TooMany => "over limit",
        }
    }
}

/// Why a line gave nothing.
#[derive(Clone, Copy, Debug, PartialEq, Eq)]
pub enum Refusal {
    /// The line has a mistake.
    Wrong(Mistake),
    /// Want of memory.
    Memory,
}

/// Why a script was refused.
#[derive(Clone, Copy, Debug, PartialEq, Eq)]
pub enum ScriptFault {
    /// The first line that is wrong, by its number from 1, and what is wrong with it.
    Line(u64, Mistake),
    /// Want of memory.
    Memory,
}

impl From<Mistake> for Refusal {
    ghost use Rattle.rule_script.specs.declared.faults.Refusal.TheVariants.{Wrong};

    ghost from_gives = { λ m e. e ≡ Wrong m };

    fn from(mistake: Mistake) -> Refusal {
        Refusal::Wrong(mistake)
    }
}

impl From<NoMemory> for Refusal {
    ghost use Rattle.rule_script.specs.declared.faults.Refusal.TheVariants.{Memory};

    ghost from_gives = { λ _ e. e ≡ Memory };

    fn from(_error: NoMemory) -> Refusal {
        Refusal::Memory
    }
}

impl From<AllocError> for Refusal {
    ghost use Rattle.rule_script.specs.declared.faults.Refusal.TheVariants.{Memory};

    ghost from_gives = { λ _ e. e ≡ Memory };

    fn from(_error: AllocError) -> Refusal {
        Refusal::Memory
    }
}

/// The value that found no room is dropped.
impl<T: Drop> From<AllocFailed<T>> for Refusal {
    ghost use Rattle.rule_script.specs.declared.faults.Refusal.TheVariants.{Memory};

    ghost from_gives = { λ _ e. e ≡ Memory };

    fn from(_error: AllocFailed<T>) -> Refusal {
        Refusal::Memory
    }
}

impl From<LineFault> for Refusal {
    ghost use Rattle.rule_script.specs.LineRefusals.{refusal_of_line};

    ghost from_gives = { λ f e. e ≡ refusal_of_line f };

    fn from(fault: LineFault) -> Refusal {
        match fault {
            LineFault::NotALine => Refusal::Wrong(Mistake::NotALine),
            LineFault::Memory => Refusal::Memory,
        }
    }
}

impl From<RuleFault> for Refusal {
    ghost use Rattle.rule_script.specs.LineRefusals.{refusal_of};

    ghost from_gives = { λ f e. e ≡ refusal_of f };

    fn from(fault: RuleFault) -> Refusal {
        match fault {
            RuleFault::TooMany => Refusal::Wrong(Mistake::TooMany),
            RuleFault::NoSuch => Refusal::Wrong(Mistake::NoSuch),
            RuleFault::Twice => Refusal::Wrong(Mistake::Twice),
            RuleFault::TooGreat => Refusal::Wrong(Mistake::OutOfRange),
            RuleFault::Memory => Refusal::Memory,
        }
    }
}
