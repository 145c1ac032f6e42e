//! What stands in a certificate after its header, and what is wrong with it.
ghost use Rattle.std.specs.Prelude.{◌≡◌};

use cert_text::text::{LineText, StepText};
use plan_io::Failed;
use std::alloc::AllocError;
use trees::Goal;

/// What is read at one call.
#[derive(Drop)]
pub enum Line {
    /// A step of the tree.
    Step(StepText),
    /// The goal at the end of the tree.
    End(Goal),
    /// The end line was read, and the file ends after it.
    Over,
}

/// Why no line was read. Lines are numbered from 1, which is the header.
#[derive(Clone, Copy, Debug, PartialEq, Eq)]
pub enum LineFault {
    /// This line is not in the grammar, or a byte follows the end line.
    NotALine(u64),
    /// 65,537 bytes of this line come before any newline.
    TooLong(u64),
    /// The file ends before the newline of the end line.
    Short,
    /// A read failed, and the desk has counted it.
    ReadFault,
    /// Want of memory.
    Memory,
}

impl From<Failed> for LineFault {
    ghost use Rattle.cert_read.specs.declared.line.LineFault.TheVariants as fault;

    ghost from_gives = { λ _ e. e ≡ fault.ReadFault };

    fn from(_failed: Failed) -> LineFault {
        LineFault::ReadFault
    }
}

impl From<AllocError> for LineFault {
    ghost use Rattle.cert_read.specs.declared.line.LineFault.TheVariants as fault;

    ghost from_gives = { λ _ e. e ≡ fault.Memory };

    fn from(_error: AllocError) -> LineFault {
        LineFault::Memory
    }
}
