//! A picture as far as it is written, and texts whose reserved characters are written out.
ghost use Rattle.std.specs.Prelude.{◌≡◌, ◌++◌, [], OnOk};
ghost use Rattle.svg.specs.Elements.{escaped, escaped_byte};

use base::Memory;
use std::alloc::Global;

/// A picture in SVG, as far as it is written.
#[derive(Drop)]
pub struct Paper {
    pub alloc: Global,
    pub text: Vec<u8>,
}

impl Paper {
    /// Nothing is written.
    pub fn new(alloc: Global) -> Paper
        ensures { result.text.items ≡ [] }
    {
        Paper {
            alloc,
            text: Vec::new(alloc),
        }
    }

    /// Adds a text as it stands.
    pub fn put(&mut self, text: &str) -> Result<(), Memory>
        ensures { OnOk result (self.new.text.items ≡ self.old.text.items ++ text.now) }
    {
        self.text.extend_from_slice(text.as_bytes())?;
        Ok(())
    }

    /// Adds a byte of a text, written out where XML reserves it.
    #[tactic(auto, unfolding(crate::specs::Elements::escaped_byte))]
    fn put_byte(&mut self, byte: u8) -> Result<(), Memory>
        ensures { OnOk result (self.new.text.items ≡ self.old.text.items ++ escaped_byte byte) }
    {
        match byte {
            b'&' => self.put("&amp;"),
            b'<' => self.put("&lt;"),
            b'>' => self.put("&gt;"),
            b'"' => self.put("&quot;"),
            _ => {
                self.text.push(byte)?;
                Ok(())
            }
        }
    }

    /// Adds a text, and writes out what XML reserves.
    #[tactic(auto, using(crate::proofs::Lists::flat_more))]
    pub fn put_escaped(&mut self, text: &str) -> Result<(), Memory>
        ensures { OnOk result (self.new.text.items ≡ self.old.text.items ++ escaped text.now) }
    {
        let bytes = text.as_bytes();
        for byte in bytes {
            self.put_byte(*byte)?;
        }
        Ok(())
    }
}
