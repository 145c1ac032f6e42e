//! How an execution ends, and why it gives no conclusion.
ghost use Rattle.std.specs.Prelude.{◌≡◌};
ghost use Rattle.transcript.specs.Parts.{line_fault, out_fault};

use cluster::Element;
use event_lines::{EventFault, LineFault};
use plan_io::OutFault;
use slices::rule::Broken;

/// How an execution ends.
#[derive(Clone, Copy, Debug, PartialEq, Eq)]
pub enum Conclusion {
    /// All actions have ended.
    Done,
    /// The action of this element has failed.
    StoppedFail(Element),
    /// The source ended at the start of a line, and an action has not ended.
    StoppedEnd,
    /// An event line is refused: its number, from 1, and what is wrong with it.
    Refused(u32, EventFault),
}

/// Why an execution gives no conclusion.
#[derive(Clone, Copy, Debug, PartialEq, Eq)]
pub enum ExecuteFault {
    /// The plan is not valid, and nothing was started: its first broken rule.
    NotValid(Broken),
    /// A read failed, and the source has counted it.
    ReadFault,
    /// A write failed, and the sink has counted it.
    WriteFault,
    /// An allocation was refused.
    Memory,
}

impl From<OutFault> for ExecuteFault {
    ghost from_gives = { λ fault e. e ≡ out_fault fault };

    fn from(fault: OutFault) -> ExecuteFault {
        match fault {
            OutFault::Failed => ExecuteFault::WriteFault,
            OutFault::Memory => ExecuteFault::Memory,
        }
    }
}

impl From<LineFault> for ExecuteFault {
    ghost from_gives = { λ fault e. e ≡ line_fault fault };

    fn from(fault: LineFault) -> ExecuteFault {
        match fault {
            LineFault::ReadFault => ExecuteFault::ReadFault,
            LineFault::Memory => ExecuteFault::Memory,
        }
    }
}
