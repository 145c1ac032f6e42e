//! What is wrong with an event line, and why none was taken.
ghost use Rattle.std.specs.Prelude.{◌≡◌};
ghost use Rattle.event_lines.specs.Lines.{fault_text};

/// What is wrong with an event line.
#[derive(Clone, Copy, Debug, PartialEq, Eq)]
pub enum EventFault {
    /// It says no event of a name, or the source ended in it.
    NotALine,
    /// It has more than `MAX_LINE_BYTES` bytes.
    TooLong,
    /// No element has the name.
    NoSuchName,
    /// The element has no action that may start.
    NotReady,
    /// The element has no action that runs.
    NotRunning,
}

impl EventFault {
    /// What is wrong, in words.
    #[tactic(auto, unfolding(crate::specs::Lines::fault_text))]
    pub fn text(self) -> &'static str
        ensures { result.now ≡ fault_text self }
    {
        match self {
            EventFault::NotALine => "not a line",
            EventFault::TooLong => "too long",
            EventFault::NoSuchName => "no such name",
            EventFault::NotReady => "not ready",
            EventFault::NotRunning => "not running",
        }
    }
}

/// Why no line was taken.
#[derive(Clone, Copy, Debug, PartialEq, Eq)]
pub enum LineFault {
    /// A read failed, and the source has counted it.
    ReadFault,
    /// An allocation was refused.
    Memory,
}
