//! What a check answers.
ghost use Rattle.std.specs.Prelude.{◌≡◌};

use base::Memory;
use cert_model::why::Why;
use cert_read::LineFault;
use trees::Goal;

/// The verdict on a certificate.
#[derive(Clone, Copy, Debug, PartialEq, Eq)]
pub enum Verdict {
    /// The certificate proves its goal. The least is there exactly where the goal is `Undecided`: no
    /// valid plan costs less.
    Yes { goal: Goal, least: Option<u64> },
    /// A line does not hold; the plan file counts as line 0, the header as line 1.
    No { line: u64, why: Why },
}

/// Why there is no verdict.
#[derive(Clone, Copy, Debug, PartialEq, Eq)]
pub enum CheckFault {
    /// The first line that decides cannot be read.
    Line(LineFault),
    /// Want of memory.
    Memory,
}

impl From<LineFault> for CheckFault {
    ghost use Rattle.cert_check.specs.declared.verdict.CheckFault.TheVariants as fault;

    ghost from_gives = { λ f e. e ≡ fault.Line f };

    fn from(fault: LineFault) -> CheckFault {
        CheckFault::Line(fault)
    }
}

impl From<Memory> for CheckFault {
    ghost use Rattle.cert_check.specs.declared.verdict.CheckFault.TheVariants as fault;

    ghost from_gives = { λ _ e. e ≡ fault.Memory };

    fn from(_memory: Memory) -> CheckFault {
        CheckFault::Memory
    }
}
