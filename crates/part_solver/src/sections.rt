//! The text that shows an answer.
ghost use Rattle.std.specs.Prelude.{◌≡◌, ◌++◌, ◌<◌, IfOk, OnOk, length};
ghost use Rattle.std.specs.List.{flat_map};
ghost use Rattle.cert_parts.specs.Sections.{section_text};
ghost use Rattle.part_solver.specs.Answers.{all_sections as the_all_sections, section_at};

use crate::part::SolvedPart;
use base::Memory;
use cert_parts::put_section;
use std::alloc::Global;

/// Adds the section of a part.
fn put(out: &mut Vec<u8>, solved: &[SolvedPart], i: usize) -> Result<(), Memory>
    requires { i < length solved.now }
    ensures { OnOk result (out.new.items ≡ out.old.items ++ section_text (section_at solved.now i)) }
{
    put_section(out, i as u64, solved[i].certificate())
}

/// The section of one part.
pub(crate) fn one_section(alloc: Global, solved: &[SolvedPart], i: usize) -> Result<Vec<u8>, Memory>
    requires { i < length solved.now }
    ensures { IfOk result (λ text. text.items ≡ section_text (section_at solved.now i)) }
{
    let mut text = Vec::new(alloc);
    put(&mut text, solved, i)?;
    Ok(text)
}

/// The sections of all parts, in order.
pub(crate) fn all_sections(alloc: Global, solved: &[SolvedPart]) -> Result<Vec<u8>, Memory>
    ensures { IfOk result (λ text. text.items ≡ flat_map section_text (the_all_sections solved.now)) }
{
    let mut text = Vec::new(alloc);
    for i in 0..solved.len() {
        put(&mut text, solved, i)?;
    }
    Ok(text)
}
