//! The text of a problem, written into a file.

ghost use Rattle.std.specs.Prelude.{◌≡◌, ◌≤◌, IsTrue, length, Ok, OnOk};
ghost use Rattle.command_make.specs.Prelude.{CountsWrites, HasText, instance_of, instance_text, IsTextCut, max_text_bytes};

use catalogue::Problem;
use instance_make::print_instance;
use plan_io::{Desk, OutFault, write_whole};
use std::alloc::Global;

/// Writes the text of a problem into a file.
#[tactic(auto, using(crate::proofs::OutputLemmas::has_text, crate::proofs::OutputLemmas::reads_back))]
pub fn write_problem<D: Desk>(
    alloc: Global,
    desk: &mut D,
    p: &Problem,
    name: &str,
) -> Result<(), OutFault>
    requires { IsTrue (D.writes name.now) }
    ensures written { let has = HasText name.now (instance_text p.now.given) in
        IsTrue D.tells → OnOk result (has (D.files desk.old) (D.files desk.new)) }
    ensures cut { let cut = IsTextCut name.now (instance_text p.now.given) in
        IsTrue D.tells → cut (D.files desk.old) (D.files desk.new) }
    ensures reads_back { let text = instance_text p.now.given in
        OnOk result (length text ≤ max_text_bytes → instance_of text ≡ Ok p.now.given) }
    ensures cause { CountsWrites (D.write_faults desk.old) (D.write_faults desk.new) result }
    ensures reads_kept { D.read_faults desk.new ≡ D.read_faults desk.old }
{
    let text = print_instance(alloc, p)?;
    write_whole(desk, name, &text)
}
