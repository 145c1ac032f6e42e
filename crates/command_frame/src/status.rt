//! The status that the program ends with.

ghost use Rattle.std.specs.Prelude.{◌≡◌};
ghost use Rattle.command_frame.specs.Codes.{code_of};

/// How a run ends.
#[derive(Clone, Copy, Debug, PartialEq, Eq)]
pub enum Status {
    /// The answer is positive.
    Good,
    /// The answer is negative.
    Negative,
    /// The search ended before it knew.
    Undecided,
    /// The words are in no command.
    Words,
    /// A file that was read, or the events, are not what they should be.
    Input,
    /// A read failed.
    ReadFault,
    /// A write failed.
    WriteFault,
    /// Want of memory.
    Memory,
}

impl Status {
    /// The exit status, 0 to 7 in the order above.
    pub fn code(&self) -> u8
        ensures { result ≡ code_of self.now }
    {
        match self {
            Status::Good => 0,
            Status::Negative => 1,
            Status::Undecided => 2,
            Status::Words => 3,
            Status::Input => 4,
            Status::ReadFault => 5,
            Status::WriteFault => 6,
            Status::Memory => 7,
        }
    }
}
