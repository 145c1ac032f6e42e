//! Sections are written, one after the other.
ghost use Rattle.std.specs.Prelude.{◌≡◌, ◌++◌, IfOk, OnErr, OnOk, codes, string_bytes};
ghost use Rattle.cert_parts.specs.Sections.{part_line, section_of, section_text};

use base::Memory;
use std::alloc::Global;

/// The line that names a part, with its newline.
#[tactic(auto, unfolding(crate::specs::Sections::part_line))]
fn first_line(alloc: Global, part: u64) -> Result<String, Memory>
    ensures { IfOk result (λ line. string_bytes line ≡ part_line part ++ codes "\n") }
{
    let mut line = String::new(alloc);
    write!(line, "part {part}\n")?;
    Ok(line)
}

/// Adds these bytes at the end, and none of them where there is no room for all.
fn extend(out: &mut Vec<u8>, line: &str, body: &[u8]) -> Result<(), Memory>
    ensures added { OnOk result (out.new.items ≡ out.old.items ++ (line.now ++ body.now)) }
    ensures kept { OnErr result (out.new.items ≡ out.old.items) }
{
    out.try_reserve(line.len() + body.len())?;
    out.extend_from_slice(line.as_bytes())?;
    out.extend_from_slice(body)?;
    Ok(())
}

/// Adds a section at the end of a text: the line `part I`, and the bytes of the section.
///
/// Its one error is want of memory, and then the text is as before.
#[tactic(auto, unfolding(crate::specs::Sections::section_text))]
pub fn put_section(out: &mut Vec<u8>, part: u64, body: &[u8]) -> Result<(), Memory>
    ensures added { OnOk result (out.new.items ≡ out.old.items ++ section_text (section_of part body.now)) }
    ensures kept { OnErr result (out.new.items ≡ out.old.items) }
{
    let line = first_line(*out.allocator(), part)?;
    extend(out, line.as_str(), body)
}
