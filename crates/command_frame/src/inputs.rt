//! The inputs that commands read from files, each in a room of its own, and what all inputs share.

ghost use Rattle.std.specs.Prelude.{◌≡◌, ◌≢◌, IsTrue, IfOk, IfErr, Err};
ghost use Rattle.command_frame.specs.Prelude.{bytes_of, input_line, IsRefusal, OnlyReads, Reads, whole_of};

use crate::fault::Fault;
use json_walk::MAX_TEXT_BYTES;
use plan_io::{Desk, WholeFault, read_whole};
use std::alloc::Global;

pub mod instance;
pub mod plan;

/// The fault with the line `input INPUT TEXT`.
pub fn refusal(alloc: Global, input: &str, text: &str) -> Fault
    ensures { IsRefusal result (input_line input.now text.now) }
{
    match format!(in alloc; "input {input} {text}\n") {
        Ok(line) => Fault::Input(line),
        Err(_) => Fault::Memory,
    }
}

/// The bytes of an input in the file of this name, or the line that refuses more than the most.
#[tactic(auto, using(crate::proofs::Readings::long_input, crate::proofs::Readings::short_input))]
pub fn bytes_at<D: Desk>(
    alloc: Global,
    desk: &mut D,
    name: &str,
    input: &str,
) -> Result<Vec<u8>, Fault>
    requires { IsTrue (D.reads name.now) }
    ensures bytes { let bytes = bytes_of (D.files desk.old name.now) in
        IsTrue D.tells → IfOk result (λ v. v.items ≡ bytes) }
    ensures reading { let bytes = bytes_of (D.files desk.old name.now) in
        IsTrue D.tells → result ≢ Err Fault.ReadFault
        → Reads (λ v. v.items) result (whole_of input.now bytes) }
    ensures desk { OnlyReads D.tells D.files D.read_faults D.write_faults desk.old desk.new result }
{
    match read_whole(alloc, desk, name, MAX_TEXT_BYTES as u64) {
        Ok(bytes) => Ok(bytes),
        Err(WholeFault::TooLong) => Err(refusal(alloc, input, "too long")),
        Err(WholeFault::ReadFault) => Err(Fault::ReadFault),
        Err(WholeFault::Memory) => Err(Fault::Memory),
    }
}
