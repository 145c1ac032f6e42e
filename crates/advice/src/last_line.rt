//! The last line that was printed, kept so that more can be said of it on standard error.

use plan_io::{OutFault, Sink};
use std::alloc::Global;

/// The most that is kept of a line, in bytes.
const MOST_KEPT: usize = 16_384;

/// A sink that is another one, and keeps the last line that was written to it.
#[derive(Drop)]
pub struct KeepingSink<O: Sink + Drop> {
    sink: O,
    line: Vec<u8>,
    is_whole: bool,
}

impl<O: Sink + Drop> KeepingSink<O> {
    /// The sink, to which nothing was written yet.
    pub fn new(alloc: Global, sink: O) -> KeepingSink<O> {
        KeepingSink {
            sink,
            line: Vec::new(alloc),
            is_whole: false,
        }
    }

    /// The last line, without its newline; empty where it is no text, or too long to be kept.
    pub fn last_line(&self) -> &str {
        if self.line.len() < MOST_KEPT {
            str::from_utf8(&self.line).unwrap_or_default()
        } else {
            ""
        }
    }
}

// keeps bytes of lines: of each line its beginning, until the next one begins
fn keep(line: &mut Vec<u8>, is_whole: &mut bool, piece: &[u8]) {
    for byte in piece {
        if *is_whole {
            line.clear();
            *is_whole = false;
        }
        if *byte == b'\n' {
            *is_whole = true;
        } else if line.len() < MOST_KEPT {
            // a line that there is no memory for is not kept
            let _ = line.push(*byte);
        }
    }
}

impl<O: Sink + Drop> Sink for KeepingSink<O> {
    ghost tells = { O.tells };

    ghost written = { λ s. O.written s.sink };

    ghost faults = { λ s. O.faults s.sink };

    fn write(&mut self, piece: &[u8]) -> Result<usize, OutFault> {
        let count = self.sink.write(piece)?;
        keep(&mut self.line, &mut self.is_whole, &piece[..count]);
        Ok(count)
    }
}
