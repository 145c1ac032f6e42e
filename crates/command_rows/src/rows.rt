//! A row: the words of a command, its files, and what its source has.

use commands::run::run;
use commands::status::Status;
use plan_io::{DeskMem, SinkMem, Source, SourceMem};
use row_files::files::{Files, no_memory};
use rule_solver::RuleSolver;
use std::alloc::Global;
use std::io;

/// What stands before under a name, if there is a file.
#[derive(Drop)]
pub struct RowFile {
    pub name: String,
    text: Option<Vec<u8>>,
}

impl RowFile {
    /// Its bytes.
    pub fn text(&self) -> Option<&[u8]> {
        match &self.text {
            Some(text) => Some(text.as_slice()),
            None => None,
        }
    }
}

/// A command, the files that its words name, and the bytes of its source.
#[derive(Drop)]
pub struct Row {
    words: Vec<String>,
    files: Vec<RowFile>,
    events: Vec<u8>,
}

fn copy_of(alloc: Global, text: Option<&[u8]>) -> io::Result<Option<Vec<u8>>> {
    Ok(match text {
        Some(text) => Some(Vec::from_slice(alloc, text)?),
        None => None,
    })
}

/// What is called: the files, the source or the sink.
#[derive(Clone, Copy, Debug, PartialEq, Eq)]
pub enum Called {
    Files,
    Source,
    Sink,
}

/// The call that fails, counted from 0 for each of the three.
#[derive(Clone, Copy, Debug)]
pub struct Failing {
    pub called: Called,
    pub call: u64,
}

impl Failing {
    /// `files`, `source` or `sink` and the number of a call, with the command after them.
    pub fn read(rest: &str) -> Option<(Failing, &str)> {
        let (called, rest) = rest.split_once(' ')?;
        let (call, command) = rest.split_once(' ')?;
        let called = match called {
            "files" => Called::Files,
            "source" => Called::Source,
            _ => Called::Sink,
        };
        let call = call.parse().unwrap_or(0);
        Some((Failing { called, call }, command))
    }
}

/// What a run has left.
#[derive(Drop)]
pub struct Ended {
    pub status: Status,
    pub desk: DeskMem,
    pub source: SourceMem,
    pub sink: SinkMem,
}

impl Ended {
    /// How many reads and how many writes have failed.
    pub fn faults(&self) -> (u64, u64) {
        let reads = self.desk.read_faults().saturating_add(self.source.faults());
        let writes = self.desk.write_faults().saturating_add(self.sink.faults());
        (reads, writes)
    }

    /// How many bytes the source has left.
    pub fn left(&mut self) -> u64 {
        let mut left = 0u64;
        let mut piece = [0; 64];
        for _ in 0..u64::MAX {
            match self.source.read(&mut piece) {
                Ok(0) | Err(_) => break,
                Ok(count) => left = left.saturating_add(count as u64),
            }
        }
        left
    }
}

/// The list of the calls of one of the three that fail.
fn calls(alloc: Global, called: Called, failing: Option<Failing>) -> io::Result<Vec<u64>> {
    let mut calls = Vec::new(alloc);
    if let Some(failing) = failing
        && failing.called == called
    {
        calls.push(failing.call)?;
    }
    Ok(calls)
}

/// Adds the file of each name, of which one stands after each blank.
fn add_files(
    alloc: Global,
    texts: &Files,
    names: &str,
    files: &mut Vec<RowFile>,
) -> io::Result<()> {
    for name in names.split(' ') {
        files.push(RowFile {
            name: String::from_str(alloc, name)?,
            text: copy_of(alloc, texts.get(name))?,
        })?;
    }
    Ok(())
}

impl Row {
    /// The words of a command, one after each blank; after ` + ` the names of more files, and after ` < ` that of its source.
    pub fn read(alloc: Global, texts: &Files, command: &str) -> io::Result<Row> {
        let (command, source) = match command.split_once(" < ") {
            Some((command, name)) => (command, texts.get(name).unwrap_or_default()),
            None => (command, b"".as_slice()),
        };
        let (command, names) = command.split_once(" + ").unwrap_or((command, ""));
        let mut words = Vec::new(alloc);
        for word in command.split(' ') {
            words.push(String::from_str(alloc, word)?)?;
        }
        let mut files = Vec::new(alloc);
        add_files(alloc, texts, command, &mut files)?;
        add_files(alloc, texts, names, &mut files)?;
        let events = Vec::from_slice(alloc, source)?;
        Ok(Row {
            words,
            files,
            events,
        })
    }

    /// The files that the row names.
    pub fn files(&self) -> &[RowFile] {
        &self.files
    }

    /// Runs the command, with a call that fails, if one is to.
    pub fn run(&self, alloc: Global, failing: Option<Failing>) -> io::Result<Ended> {
        let mut desk = DeskMem::new(calls(alloc, Called::Files, failing)?);
        for file in &self.files {
            if let Some(text) = file.text() {
                desk.put(&file.name, text).map_err(no_memory)?;
            }
        }
        let events = Vec::from_slice(alloc, &self.events)?;
        let mut source = SourceMem::new(events, calls(alloc, Called::Source, failing)?);
        let mut sink = SinkMem::new(calls(alloc, Called::Sink, failing)?);
        let status = run(
            alloc,
            &self.words,
            &mut desk,
            &mut source,
            &mut sink,
            &RuleSolver,
        );
        Ok(Ended {
            status,
            desk,
            source,
            sink,
        })
    }
}
