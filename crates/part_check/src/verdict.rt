//! What a check of the certificates of parts answers.

use base::Memory;
use cert_model::why::Why;
use cert_read::LineFault;

/// What the certificates of parts show of the whole problem.
#[derive(Clone, Copy, Debug, PartialEq, Eq)]
pub enum WholeGoal {
    /// The plan that was handed in has this cost, and no valid plan costs less.
    Optimal(u64),
    /// No plan is valid.
    Infeasible,
    /// Neither of them is shown.
    Undecided,
}

/// The verdict on the certificates of parts.
#[derive(Clone, Copy, Debug, PartialEq, Eq)]
pub enum PartsVerdict {
    /// Each section says yes, and together they show this.
    Yes(WholeGoal),
    /// The text is not cut into the sections that are wanted.
    NoSections,
    /// The section of this part is the first that does not say yes: this line of it does not hold. The plan file counts as
    /// line 0, the header of the section as line 1.
    No { part: usize, line: u64, why: Why },
}

/// Why there is no verdict on the certificates of parts.
#[derive(Clone, Copy, Debug, PartialEq, Eq)]
pub enum PartsFault {
    /// The section of this part is the first that does not say yes: the line that decides there cannot be read.
    Line { part: usize, fault: LineFault },
    /// Want of memory.
    Memory,
}

impl From<Memory> for PartsFault {
    ghost use Rattle.std.specs.Prelude.{◌≡◌};
    ghost use Rattle.part_check.specs.declared.verdict.PartsFault.TheVariants as fault;

    ghost from_gives = { λ _ e. e ≡ fault.Memory };

    fn from(_memory: Memory) -> PartsFault {
        PartsFault::Memory
    }
}
