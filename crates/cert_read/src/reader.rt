//! A certificate that is being read.
ghost use Rattle.std.specs.Prelude.{◌≡◌, ◌<◌, ◌≤◌, ◌^◌, [], length, IsTrue, IfOk, OnErr};
ghost use Rattle.plan_io.specs.Files.{bytes_of};
ghost use Rattle.cert_read.specs.Lines.{start, turn};
ghost use Rattle.cert_read.specs.Reader.{Gives, IsMoved, OnlyReads, StandsIn, max_held};

use crate::cursor::Cursor;
use crate::line::{Line, LineFault};
use base::Memory;
use plan_io::Desk;
use std::alloc::Global;
use std::marker::Model;

/// Reads one certificate, a line at each call, in pieces of at most `PIECE` bytes.
///
/// Contracts see it as the name of its file, its position there, and the bytes from there on that it
/// has read already. It never holds more than a line and a piece, and its buffer is reserved at once.
#[derive(Drop)]
pub struct CertReader {
    cursor: Cursor,
}

impl Model for CertReader {
    ghost use Rattle.cert_read.specs.Reader.{IsFreshAtStart, ReaderState};

    ghost Value = { ReaderState };

    ghost view = { λ a. a.cursor };

    ghost invariant = { λ a. IsFreshAtStart a.cursor };
}

impl CertReader {
    /// A reader at the start of the file of this name. It has read nothing yet.
    pub fn new(alloc: Global, name: &str) -> Result<CertReader, Memory>
        ensures { IfOk result (λ r. r ≡ record { name = name.now; at = start; held = [] }) }
    {
        let cursor = Cursor::new(alloc, name)?;
        Ok(CertReader { cursor })
    }

    /// How many lines were read, the header among them: the number of the line that was read last.
    pub fn lines(&self) -> u64
        ensures { result ≡ self.now.at.lines }
    {
        self.cursor.at().lines
    }

    /// The next line after the header, which the first call reads too.
    ///
    /// Each answer is exactly what stands at the position, and each fault is the first one there:
    /// `TooLong` where 65,537 bytes come before any newline, else `Short` where no newline comes, else
    /// `NotALine` where the line is not in the grammar. After the end line `Over` is answered where
    /// the file ends, and `NotALine` where a byte follows. `ReadFault` only where the desk's count of
    /// failed reads rose, `Memory` for want of memory. After a refusal the reader is unchanged.
    ///
    /// A file that is told is to hold at each call what it held at the call before.
    #[tactic(auto, using(crate::proofs::TurnLemmas::turn_rules))]
    pub fn next<D: Desk>(&mut self, desk: &mut D) -> Result<Line, LineFault>
        requires reads { IsTrue (D.reads self.old.name) }
        requires stands { IsTrue D.tells → StandsIn (bytes_of (D.files desk.old self.old.name)) self.old }
        ensures line { let file = bytes_of (D.files desk.old self.old.name) in
            IsTrue D.tells → Gives (λ line. (line, self.new.at)) result (turn file self.old.at) }
        ensures stands { IsTrue D.tells → StandsIn (bytes_of (D.files desk.old self.old.name)) self.new }
        ensures moves { IfOk result (IsMoved self.old.at self.new.at) }
        ensures within { self.new.at.place < 2 ^ 64 }
        ensures few { length self.new.held ≤ max_held }
        ensures name { self.new.name ≡ self.old.name }
        ensures refused { OnErr result (self.new ≡ self.old) }
        ensures desk { OnlyReads D.tells D.files D.current D.read_faults D.write_faults desk.old desk.new result }
    {
        let at = self.cursor.at();
        if at.ended {
            return self.cursor.end(desk);
        }
        if at.lines > 0 {
            return self.cursor.line(desk);
        }
        let first = self.cursor.first_line(desk);
        if first.is_err() {
            self.cursor.rewind();
        }
        first
    }
}
