//! How far a long command is: told on standard error from two seconds on, and then every two seconds.

use crate::least::Least;
use plan_io::{Desk, Failed, OutFault};
use std::alloc::Global;
use std::io;
use std::rt::Clock;
use std::time::Instant;

/// How long it is silent before the first line, and between two, in seconds.
const PAUSE_SECONDS: u64 = 2;

// after how many calls the clock is asked
const SKIPPED_CALLS: u32 = 63;

const BYTES_OF_MEGABYTE: u64 = 1_000_000;

/// What was read and written so far: of a certificate, by the first word of each of its lines.
#[derive(Clone, Copy, Debug, Default)]
struct Done {
    budget: Option<u64>,
    read: u64,
    written: u64,
    decisions: u64,
    best: Option<u64>,
}

// how many decisions a search may make, where the words tell
fn budget_of(words: &[String]) -> Option<u64> {
    match words {
        [.., word, number] if word.as_str() == "budget" => number.parse().ok(),
        _ => None,
    }
}

// the number that a line ends with, where it begins with a word
fn number_after(line: &[u8], word: &[u8]) -> Option<u64> {
    let digits = line.strip_prefix(word)?.strip_suffix(b"\n")?;
    str::from_utf8(digits).ok()?.parse().ok()
}

impl Done {
    fn see(&mut self, piece: &[u8]) {
        self.written = self.written.saturating_add(piece.len() as u64);
        if piece.starts_with(b"decide ") {
            self.decisions = self.decisions.saturating_add(1);
        } else if let Some(cost) = number_after(piece, b"plan ") {
            self.best = Some(cost);
        }
    }

    fn say<R: Eprint>(&self, rt: &R, least: Option<u64>) -> io::Result<()> {
        if self.written == 0 && self.read < BYTES_OF_MEGABYTE {
            return Ok(());
        }
        if self.written == 0 {
            return eprintln!(rt; "btrplan: {} MB read", self.read / BYTES_OF_MEGABYTE);
        }
        eprint!(rt; "btrplan: decisions {}", self.decisions)?;
        if let Some(budget) = self.budget {
            eprint!(rt; " of {budget}")?;
        }
        if let Some(cost) = self.best {
            eprint!(rt; ", best {cost}")?;
        }
        if let Some(cost) = least {
            eprint!(rt; ", least {cost}")?;
        }
        eprintln!(rt; ", {} MB written", self.written / BYTES_OF_MEGABYTE)
    }
}

/// When a line was told last, and what was done so far.
#[derive(Drop)]
struct Progress<'a, R: Clock + Eprint> {
    rt: &'a R,
    told: Option<Instant>,
    // how often nothing was asked of the clock since it was asked last
    skipped: u32,
    done: Done,
    least: Least,
}

impl<R: Clock + Eprint> Progress<'_, R> {
    // tells how far it is, as `tell` does, in one of many calls: a line of a certificate is written in less time than it takes to
    // ask the clock
    fn tell_at_times(&mut self) {
        if self.skipped < SKIPPED_CALLS {
            self.skipped += 1;
            return;
        }
        self.skipped = 0;
        self.tell();
    }

    // tells how far it is where the last line is long ago
    fn tell(&mut self) {
        let Some(told) = self.told else {
            return;
        };
        if told
            .elapsed(self.rt)
            .is_ok_and(|pause| pause.as_secs() >= PAUSE_SECONDS)
        {
            self.told = Instant::now(self.rt).ok();
            // what cannot be said changes nothing
            let _ = self.done.say(self.rt, self.least.get());
        }
    }
}

/// A desk that is another one, and tells on standard error how far the command is that uses it. It keeps the name of the file
/// that was to be created last, and whether a write of it has failed.
#[derive(Drop)]
pub struct TellingDesk<'a, D: Desk + Drop, R: Clock + Eprint> {
    alloc: Global,
    desk: D,
    progress: Progress<'a, R>,
    last: Option<String>,
    has_failed: bool,
}

impl<'a, D: Desk + Drop, R: Clock + Eprint> TellingDesk<'a, D, R> {
    /// The desk, of which no call was made yet, for the command of these words. What a search knows of the least cost it
    /// finds in `least`. Where there is no clock nothing is told.
    pub fn new(
        alloc: Global,
        desk: D,
        rt: &'a R,
        words: &[String],
        least: Least,
    ) -> TellingDesk<'a, D, R> {
        let done = Done {
            budget: budget_of(words),
            ..Done::default()
        };
        let progress = Progress {
            rt,
            told: Instant::now(rt).ok(),
            skipped: 0,
            done,
            least,
        };
        TellingDesk {
            alloc,
            desk,
            progress,
            last: None,
            has_failed: false,
        }
    }

    /// The file of which a write has failed, if one has.
    pub fn unwritten(&self) -> Option<&str> {
        match &self.last {
            Some(name) if self.has_failed => Some(name.as_str()),
            _ => None,
        }
    }
}

impl<D: Desk + Drop, R: Clock + Eprint> Desk for TellingDesk<'_, D, R> {
    ghost tells = { D.tells };

    ghost reads = { D.reads };

    ghost writes = { D.writes };

    ghost files = { λ d. D.files d.desk };

    ghost current = { λ d. D.current d.desk };

    ghost read_faults = { λ d. D.read_faults d.desk };

    ghost write_faults = { λ d. D.write_faults d.desk };

    ghost fits = { λ d. D.fits d.desk };

    fn read_at(&mut self, name: &str, place: u64, buf: &mut [u8]) -> Result<usize, Failed> {
        self.progress.tell();
        let count = self.desk.read_at(name, place, buf)?;
        self.progress.done.read = self.progress.done.read.saturating_add(count as u64);
        Ok(count)
    }

    fn create(&mut self, name: &str) -> Result<(), OutFault> {
        self.progress.tell();
        // a name that there is no memory for is not told
        self.last = String::from_str(self.alloc, name).ok();
        let created = self.desk.create(name);
        self.has_failed = created.is_err();
        created
    }

    fn append(&mut self, name: &str, piece: &[u8]) -> Result<(), OutFault> {
        self.progress.tell_at_times();
        self.progress.done.see(piece);
        let appended = self.desk.append(name, piece);
        self.has_failed = appended.is_err();
        appended
    }

    fn sync(&mut self) -> Result<(), OutFault> {
        self.progress.tell();
        let synced = self.desk.sync();
        self.has_failed = synced.is_err();
        synced
    }
}
