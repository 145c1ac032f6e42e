//! A text is cut into its sections.
ghost use Rattle.std.specs.Prelude.{◌≡◌, ◌≢◌, ◌⊎◌, ℕ, false, List, [], IsTrue, MatchOption, IfOk, IfSome, IfNone};
ghost use Rattle.cert_parts.specs.Sections.{IsCutInto, IsFirst, SectionText};
ghost use Rattle.cert_parts.specs.Cuts.{IsParted, SplitsBody, StartsPart};

use crate::lines::{names_a_part, part_named, split_line};
use crate::section::Section;
use base::Memory;
use std::alloc::Global;

/// The section that a text begins with, and what is left of it.
#[derive(Drop)]
struct First<'a> {
    section: Section<'a>,
    rest: &'a [u8],
}

/// Whether a section ends here: nothing is left, or the next line names a part.
fn is_over(rest: &[u8]) -> bool
    ensures yes { IsTrue result → (rest.now ≡ []) ⊎ StartsPart rest.now }
    ensures no { result ≡ false → (rest.now ≢ []) × (¬ StartsPart rest.now) }
{
    rest.is_empty() || names_a_part(rest)
}

/// The bytes before the next line that names a part, and what is left from there on.
#[tactic(auto, using(crate::proofs::FoundLemmas::gone_rules))]
fn split_body(bytes: &[u8]) -> (&[u8], &[u8])
    ensures { SplitsBody bytes.now result.0.now result.1.now }
{
    let mut rest = bytes;
    'lines: while !is_over(rest) {
        rest = split_line(rest).1;
    }
    (&bytes[..bytes.len() - rest.len()], rest)
}

/// The section that a text begins with, if it begins with one.
fn first_section<'a>(bytes: &'a [u8]) -> Option<First<'a>>
    ensures { MatchOption result ((s : SectionText) (rest : List ℕ) → ¬ IsFirst bytes.now s rest) (λ f. IsFirst bytes.now f.section f.rest.now × IsParted f.section.body f.rest.now) }
{
    let (line, after) = split_line(bytes);
    let part = match part_named(line) {
        Some(part) => part,
        None => return None,
    };
    let (body, rest) = split_body(after);
    Some(First {
        section: Section::new(part, body),
        rest,
    })
}

/// Cuts a text into its sections, in its order; `None` exactly where it is cut into none.
///
/// A section begins at a line `part I`, where I is a number below 2^64, and goes to the next line that
/// begins with `part `. A last line `part I` may lack its newline. Its one error is want of memory.
pub fn cut_sections<'a>(alloc: Global, bytes: &'a [u8]) -> Result<Option<Vec<Section<'a>>>, Memory>
    ensures cut { IfOk result (λ found. IfSome found (λ sections. IsCutInto bytes.now sections.items)) }
    ensures none { IfOk result (λ found. IfNone found ((sections : List SectionText) → ¬ IsCutInto bytes.now sections)) }
{
    let mut sections = Vec::new(alloc);
    let mut rest = bytes;
    'sections: while !rest.is_empty() {
        match first_section(rest) {
            Some(first) => {
                sections.push(first.section)?;
                rest = first.rest;
            }
            None => return Ok(None),
        }
    }
    Ok(Some(sections))
}
