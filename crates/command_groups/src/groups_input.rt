//! The groups of nodes that a command reads.

ghost use Rattle.std.specs.Prelude.{◌≡◌, ◌≢◌, Result, IsTrue, IfErr, IfOk, Err, Ok};
ghost use Rattle.command_groups.specs.Prelude.{AreGroups, groups_in, groups_line, groups_reading_of, groups_text, IsOfReading, IsRefusal, OnlyReads, Reads};

use base::Memory;
use catalogue::Problem;
use cluster::NodeSet;
use command_frame::fault::Fault;
use command_frame::inputs::{bytes_at, refusal};
use partition::{GroupsFault, read_groups};
use plan_io::Desk;
use std::alloc::Global;

/// The fault with the line of a fault of groups.
fn refusal_of(alloc: Global, fault: &GroupsFault) -> Fault
    ensures { IsRefusal result (groups_line (groups_text fault.now)) }
{
    match fault.text(alloc) {
        Ok(text) => refusal(alloc, "groups", &text),
        Err(Memory) => Fault::Memory,
    }
}

/// The groups of nodes that these bytes are for a problem, or the line that refuses them.
#[tactic(auto, using(crate::proofs::GroupReadings::the_groups, crate::proofs::GroupReadings::first_fault))]
fn groups_of(alloc: Global, p: &Problem, bytes: &[u8]) -> Result<Vec<NodeSet>, Fault>
    ensures reading { Reads (λ groups. groups.items) result (groups_reading_of p.now.given (Ok bytes.now)) }
    ensures groups { IfOk result (λ groups. AreGroups p.now.given groups.items) }
    ensures kind { IfErr result IsOfReading }
{
    match read_groups(alloc, p, bytes) {
        Ok(groups) => Ok(groups),
        Err(GroupsFault::Memory) => Err(Fault::Memory),
        Err(fault) => Err(refusal_of(alloc, &fault)),
    }
}

/// The groups of nodes for a problem in the file of this name, or the line that refuses them.
#[tactic(auto, using(crate::proofs::GroupReadings::long_groups, crate::proofs::GroupReadings::short_groups))]
pub(crate) fn groups_at<D: Desk>(
    alloc: Global,
    desk: &mut D,
    p: &Problem,
    name: &str,
) -> Result<Vec<NodeSet>, Fault>
    requires { IsTrue (D.reads name.now) }
    ensures reading { IsTrue D.tells → result ≢ Err Fault.ReadFault
        → Reads (λ groups. groups.items) result (groups_in p.now.given (D.files desk.old) name.now) }
    ensures groups { IfOk result (λ groups. AreGroups p.now.given groups.items) }
    ensures desk { OnlyReads D.tells D.files D.read_faults D.write_faults desk.old desk.new result }
{
    let bytes = bytes_at(alloc, desk, name, "groups")?;
    groups_of(alloc, p, &bytes)
}
