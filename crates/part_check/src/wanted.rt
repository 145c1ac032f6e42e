//! Whether the sections of a text are those that are wanted.

ghost use Rattle.std.specs.Prelude.{◌≡◌, ◌==◌, ◌&&◌, ◌↔◌, IsTrue, length};
ghost use Rattle.std.specs.List.{enumerate_from, list_all};
ghost use Rattle.std.specs.Option.{option_copied};
ghost use Rattle.part_check.specs.Verdicts.{AreAllParts, AreWanted, IsOnePart};

use cert_parts::Section;
use cluster::NodeSet;
use slices::Plan;

/// Whether the number of each section is its place.
fn are_in_order(sections: &[Section]) -> bool
    ensures { result ≡ list_all (λ x. x.1.part == x.0) (enumerate_from 0 sections.now) }
{
    sections
        .iter()
        .enumerate()
        .all(|(i, section)| section.part() == i as u64)
}

/// Whether they are those of all parts in order, each once.
fn are_all_parts(count: usize, sections: &[Section]) -> bool
    ensures { IsTrue result ↔ AreAllParts count sections.now }
{
    sections.len() == count && are_in_order(sections)
}

/// Whether there is one, of a part that there is.
fn is_one_part(count: usize, sections: &[Section]) -> bool
    ensures { IsTrue result ↔ IsOnePart count sections.now }
{
    match sections {
        [section] => section.part() < count as u64,
        _ => false,
    }
}

/// Whether the sections are those that are wanted: with a plan those of all parts in order, and without one a single one.
pub(crate) fn are_wanted(groups: &[NodeSet], plan: Option<&Plan>, sections: &[Section]) -> bool
    ensures { IsTrue result ↔ AreWanted groups.now (option_copied plan.entry) sections.now }
{
    match plan {
        Some(_) => are_all_parts(groups.len(), sections),
        None => is_one_part(groups.len(), sections),
    }
}
