//! The files that rows name.

use base::Memory;
use plan_io::DeskSure;
use std::alloc::Global;
use std::io;

/// What a program answers for want of memory.
pub fn no_memory(_: Memory) -> io::Error {
    io::Error::from(io::ErrorKind::OutOfMemory)
}

// `COUNT TEXT`
fn counted(rest: &str) -> (usize, &str) {
    match rest.split_once(' ') {
        Some((count, text)) => (count.parse().unwrap_or(0), text),
        None => (0, ""),
    }
}

/// Texts by their names. A line goes to the one that was begun last.
#[derive(Drop)]
pub struct Files {
    alloc: Global,
    texts: DeskSure,
    name: String,
}

impl Files {
    /// No files.
    pub fn new(alloc: Global) -> Files {
        Files {
            alloc,
            texts: DeskSure::new(alloc),
            name: String::new(alloc),
        }
    }

    /// The text of this name, if there is one.
    pub fn get(&self, name: &str) -> Option<&[u8]> {
        self.texts.get(name)
    }

    /// This text stands under this name from here on.
    pub fn put(&mut self, name: &str, text: &[u8]) -> io::Result<()> {
        self.texts.put(name, text).map_err(no_memory)
    }

    fn begin(&mut self, name: &str) -> io::Result<()> {
        self.name = String::from_str(self.alloc, name)?;
        self.texts.put(name, b"").map_err(no_memory)
    }

    fn add(&mut self, piece: &str, count: usize) -> io::Result<()> {
        let mut text = Vec::from_slice(self.alloc, self.get(&self.name).unwrap_or_default())?;
        for _ in 0..count {
            text.extend_from_slice(piece.as_bytes())?;
        }
        self.texts.put(&self.name, &text).map_err(no_memory)
    }

    // `NAME FROM => OLD => NEW ..`: that text with the first OLD in it replaced by NEW, and so on
    fn edit(&mut self, rest: &str) -> io::Result<()> {
        let mut parts = rest.split(" => ");
        let Some((name, from)) = parts.next().and_then(|names| names.split_once(' ')) else {
            return Ok(());
        };
        let from = str::from_utf8(self.get(from).unwrap_or_default()).unwrap_or_default();
        let mut text = String::from_str(self.alloc, from)?;
        while let (Some(old), Some(new)) = (parts.next(), parts.next()) {
            text = text.replacen(self.alloc, old, new, 1)?;
        }
        self.texts.put(name, text.as_bytes()).map_err(no_memory)
    }

    // bytes in hexadecimal digits, with a blank between them
    fn add_bytes(&mut self, bytes: &str) -> io::Result<()> {
        let mut text = Vec::from_slice(self.alloc, self.get(&self.name).unwrap_or_default())?;
        for byte in bytes.split(' ') {
            text.push(u8::from_str_radix(byte, 16).unwrap_or(0))?;
        }
        self.texts.put(&self.name, &text).map_err(no_memory)
    }

    fn add_lines(&mut self, line: &str, count: usize) -> io::Result<()> {
        let mut whole = String::from_str(self.alloc, line)?;
        whole.push('\n')?;
        self.add(&whole, count)
    }

    /// Begins a file, or adds what a line says to the one that was begun.
    pub fn read_line(&mut self, line: &str) -> io::Result<()> {
        match line.split_at_checked(2) {
            Some(("= ", name)) => self.begin(name),
            Some(("| ", text)) => self.add(text, 1),
            Some(("~ ", rest)) => self.edit(rest),
            Some(("\\ ", bytes)) => self.add_bytes(bytes),
            Some(("% ", rest)) => {
                let (count, text) = counted(rest);
                self.add(text, count)
            }
            Some(("& ", rest)) => {
                let (count, text) = counted(rest);
                self.add_lines(text, count)
            }
            None if line.is_empty() => Ok(()),
            _ => self.add_lines(line, 1),
        }
    }
}
