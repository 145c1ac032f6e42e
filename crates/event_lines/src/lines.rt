//! Lines that are read byte by byte.
ghost use Rattle.std.specs.Prelude.{◌≡◌, [], ◌∷◌, IsTrue, IfOk, OnErr, MatchOption};
ghost use Rattle.event_lines.specs.Prelude.{CountsReads, LineCauses, LineGives};

use crate::faults::LineFault;
use plan_io::{Failed, Source};

/// The most bytes of an event line, without its newline.
pub const MAX_LINE_BYTES: usize = 65_536;

/// What was taken from the source for a line.
#[derive(Clone, Copy, Debug, PartialEq, Eq)]
pub enum Line {
    /// A line with its newline.
    Whole,
    /// One byte more than a line may have, and no newline among them.
    TooLong,
    /// Some bytes, after which the source ended.
    Short,
    /// Nothing: the source has ended.
    Nothing,
}

/// Takes the next byte; `None` where the source has ended.
fn read_byte<I: Source>(input: &mut I) -> Result<Option<u8>, Failed>
    ensures byte { let bytes = I.rest input.old in
        let rest = I.rest input.new in
        IsTrue I.tells → IfOk result (λ next. MatchOption next ((bytes ≡ []) × (rest ≡ [])) (λ b. bytes ≡ b ∷ rest)) }
    ensures kept { IsTrue I.tells → OnErr result (I.rest input.new ≡ I.rest input.old) }
    ensures cause { CountsReads (I.faults input.old) (I.faults input.new) result }
{
    let mut piece = [0; 1];
    let count = input.read(&mut piece)?;
    if count == 0 {
        return Ok(None);
    }
    Ok(Some(piece[0]))
}

/// Takes one line, and no byte past its newline; of a line that is too long, one byte more than it may have.
///
/// `line` has the bytes that were taken, without the newline. `ReadFault` comes only where the count of the source rose;
/// no byte past the beginning of one line is then taken.
#[tactic(auto, using(crate::proofs::Public::begins_more))]
pub fn read_line<I: Source>(input: &mut I, line: &mut Vec<u8>) -> Result<Line, LineFault>
    ensures line { LineGives I.tells (I.rest input.old) line.new.items (I.rest input.new) result }
    ensures causes { LineCauses (I.faults input.old) (I.faults input.new) result }
{
    line.clear();
    'bytes: while line.len() <= MAX_LINE_BYTES {
        let next = match read_byte(input) {
            Ok(next) => next,
            Err(Failed) => return Err(LineFault::ReadFault),
        };
        let Some(byte) = next else {
            return Ok(if line.is_empty() {
                Line::Nothing
            } else {
                Line::Short
            });
        };
        if byte == b'\n' {
            return Ok(Line::Whole);
        }
        if line.push(byte).is_err() {
            return Err(LineFault::Memory);
        }
    }
    Ok(Line::TooLong)
}
