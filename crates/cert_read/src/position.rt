//! Where a reader stands in a certificate.
ghost use Rattle.std.specs.Prelude.{◌≡◌, ◌+◌, ◌<◌, ◌^◌};
ghost use Rattle.cert_read.specs.Lines.{position_after, start};

/// A place in a file at which a line begins.
#[derive(Clone, Copy, Debug, PartialEq, Eq)]
pub struct Position {
    /// The place, counted in bytes from 0.
    pub place: u64,
    /// How many lines come before it, the header among them.
    pub lines: u64,
    /// Whether the last of them was the end line.
    pub ended: bool,
}

impl Position {
    /// Before the header.
    pub fn start() -> Position
        ensures { result ≡ start }
    {
        Position {
            place: 0,
            lines: 0,
            ended: false,
        }
    }

    /// After a line with so many bytes and its newline.
    pub fn after(self, count: usize, ended: bool) -> Position
        requires place { self.place + count + 1 < 2 ^ 64 }
        requires lines { self.lines + 1 < 2 ^ 64 }
        ensures { result ≡ position_after self count ended }
    {
        Position {
            place: self.place + count as u64 + 1,
            lines: self.lines + 1,
            ended,
        }
    }
}
