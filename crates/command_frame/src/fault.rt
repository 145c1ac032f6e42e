//! How a command ends: with its answer, or with a fault.

ghost use Rattle.std.specs.Prelude.{◌≡◌, option_map};
ghost use Rattle.command_frame.specs.declared.fault.Fault.TheVariants as faults;
ghost use Rattle.command_frame.specs.Endings.{out_fault};

use crate::status::Status;
use base::Memory;
use plan_io::OutFault;
use std::alloc::AllocError;

/// What a command answers where it does not end with a fault.
#[derive(Clone, Copy, Debug, PartialEq, Eq)]
pub enum Outcome {
    Good,
    Negative,
    Undecided,
}

impl Outcome {
    ghost use Rattle.command_frame.specs.Endings.{outcome_status};

    /// The status that goes with it.
    pub fn status(self) -> Status
        ensures { result ≡ outcome_status self }
    {
        match self {
            Outcome::Good => Status::Good,
            Outcome::Negative => Status::Negative,
            Outcome::Undecided => Status::Undecided,
        }
    }
}

/// How a command ends that meets no fault: what it prints last, a line or several, where any is still to be printed.
#[derive(Debug, Drop)]
pub struct Ending {
    pub line: Option<String>,
    pub outcome: Outcome,
}

/// Why a command ends before its own last line.
#[derive(Debug, Drop)]
pub enum Fault {
    /// The words are in no command.
    Words,
    /// An input is refused, with the line that says so.
    Input(String),
    /// A read failed.
    ReadFault,
    /// A write failed.
    WriteFault,
    /// Want of memory.
    Memory,
}

impl Fault {
    ghost use Rattle.command_frame.specs.Endings.{fault_status, line_of};

    /// The line that says so, where it has one.
    pub fn line(&self) -> Option<&str>
        ensures { option_map (λ line. line.now) result ≡ line_of self.now }
    {
        match self {
            Fault::Words => Some("words\n"),
            Fault::Input(line) => Some(line.as_str()),
            Fault::ReadFault | Fault::WriteFault | Fault::Memory => None,
        }
    }

    /// The status that goes with it.
    pub fn status(&self) -> Status
        ensures { result ≡ fault_status self.now }
    {
        match self {
            Fault::Words => Status::Words,
            Fault::Input(_) => Status::Input,
            Fault::ReadFault => Status::ReadFault,
            Fault::WriteFault => Status::WriteFault,
            Fault::Memory => Status::Memory,
        }
    }
}

impl From<OutFault> for Fault {
    ghost from_gives = { λ fault e. e ≡ out_fault fault };

    fn from(fault: OutFault) -> Fault {
        match fault {
            OutFault::Failed => Fault::WriteFault,
            OutFault::Memory => Fault::Memory,
        }
    }
}

impl From<AllocError> for Fault {
    ghost from_gives = { λ _ e. e ≡ faults.Memory };

    fn from(_error: AllocError) -> Fault {
        Fault::Memory
    }
}

impl From<Memory> for Fault {
    ghost from_gives = { λ _ e. e ≡ faults.Memory };

    fn from(_memory: Memory) -> Fault {
        Fault::Memory
    }
}
