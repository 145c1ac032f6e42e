//! Two texts that are written into two files, one after the other.

ghost use Rattle.std.specs.Prelude.{◌≡◌, ◌≢◌, IsTrue, OnOk};
ghost use Rattle.command_frame.specs.Prelude.{AreTextsCut, CountsWrites, HasTexts};

use plan_io::{Desk, OutFault, write_whole};

/// Writes a text into a file, and then another one into a second file.
#[tactic(auto, using(crate::proofs::OutputLemmas::has_texts, crate::proofs::OutputLemmas::cut_in_first, crate::proofs::OutputLemmas::cut_in_second))]
pub fn write_two<D: Desk>(
    desk: &mut D,
    first: &str,
    first_text: &[u8],
    second: &str,
    second_text: &[u8],
) -> Result<(), OutFault>
    requires first { IsTrue (D.writes first.now) }
    requires second { IsTrue (D.writes second.now) }
    requires apart { first.now ≢ second.now }
    ensures written { let has = HasTexts first.now first_text.now second.now second_text.now in
        IsTrue D.tells → OnOk result (has (D.files desk.old) (D.files desk.new)) }
    ensures cut { let cut = AreTextsCut first.now first_text.now second.now second_text.now in
        IsTrue D.tells → cut (D.files desk.old) (D.files desk.new) }
    ensures cause { CountsWrites (D.write_faults desk.old) (D.write_faults desk.new) result }
    ensures reads_kept { D.read_faults desk.new ≡ D.read_faults desk.old }
{
    write_whole(desk, first, first_text)?;
    write_whole(desk, second, second_text)
}
