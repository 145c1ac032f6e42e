//! A section of a text.
use std::marker::Model;

/// The number of a part, and the bytes that stand after the line that names it.
///
/// Contracts see it as both.
#[derive(Drop)]
pub struct Section<'a> {
    part: u64,
    body: &'a [u8],
}

impl<'a> Model for Section<'a> {
    ghost use Rattle.cert_parts.specs.Sections.{section_of, SectionText};

    ghost Value = { SectionText };

    ghost view = { λ a. section_of a.part a.body.now };
}

impl<'a> Section<'a> {
    ghost use Rattle.std.specs.Prelude.{◌≡◌};
    ghost use Rattle.cert_parts.specs.Sections.{section_of};

    /// These bytes as the section of that part.
    pub(crate) fn new(part: u64, body: &'a [u8]) -> Section<'a>
        ensures { result ≡ section_of part body.now }
    {
        Section { part, body }
    }

    /// The number of the part.
    pub fn part(&self) -> u64
        ensures { result ≡ self.now.part }
    {
        self.part
    }

    /// The bytes of the section.
    pub fn body(&self) -> &'a [u8]
        ensures { result.now ≡ self.now.body }
    {
        self.body
    }
}
