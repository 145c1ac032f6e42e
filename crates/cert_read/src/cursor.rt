//! A position in a file, with the bytes from there on that were read already.
ghost use Rattle.std.specs.Prelude.{◌≡◌, ◌+◌, ◌<◌, ◌≤◌, ◌^◌, ◌==◌, [], true, IsTrue, IfErr, IfOk, OnOk, OnErr, length, drop, take};
ghost use Rattle.std.specs.{Io.StartsWith, List.position, Str.bytes_eq};
ghost use Rattle.plan_io.specs.Files.{bytes_of};
ghost use Rattle.cert_text.specs.Texts.{header, max_line};
ghost use Rattle.cert_read.specs.Lines.{as_line, bytes_before_newline, end_at, first_line_at, is_end, line_at, line_bytes, position_after, start, text_at};
ghost use Rattle.cert_read.specs.Reader.{Gives, IsMoved, IsOutside, OnlyReads, StandsIn, max_held};

use crate::held::Held;
use crate::line::{Line, LineFault};
use crate::position::Position;
use base::Memory;
use cert_text::parsing::{TextFault, parse_line};
use cert_text::text::LineText;
use plan_io::Desk;
use std::alloc::Global;
use std::marker::Model;

/// The most bytes of a line before its newline.
pub const MAX_LINE: usize = 65_536;

/// So many bytes are asked for in one read, at most.
pub const PIECE: usize = 4_096;

#[derive(Drop)]
pub(crate) struct Cursor {
    name: String,
    at: Position,
    held: Held,
}

impl Model for Cursor {
    ghost use Rattle.cert_read.specs.Reader.{ReaderState};

    ghost Value = { ReaderState };

    ghost use Rattle.cert_read.specs.Inside.{IsKept, state_of};

    ghost view = { state_of };

    ghost invariant = { IsKept };
}

fn newline_in(bytes: &[u8]) -> Option<usize>
    ensures { result ≡ position (λ b. b == 10) bytes.now }
{
    bytes.iter().position(|b| *b == b'\n')
}

/// How many bytes come before the first newline, or before the end where there is none.
#[tactic(auto, using(crate::proofs::NewlineLemmas::newline_rules))]
fn before_newline(bytes: &[u8]) -> usize
    ensures count { result ≡ bytes_before_newline bytes.now }
    ensures within { result ≤ length bytes.now }
{
    match newline_in(bytes) {
        Some(count) => count,
        None => bytes.len(),
    }
}

/// How many bytes come before the first newline, where so many were looked at and have none.
#[tactic(auto, using(crate::proofs::LineLemmas::counted))]
fn before_newline_from(bytes: &[u8], clean: usize) -> usize
    requires looked { clean ≤ length bytes.now }
    requires clean { bytes_before_newline (take clean bytes.now) ≡ clean }
    ensures count { result ≡ bytes_before_newline bytes.now }
    ensures within { result ≤ length bytes.now }
{
    clean + before_newline(&bytes[clean..])
}

/// Reads a piece that comes after the bytes that are held, and says how many bytes it has: none only
/// where all is held. After a refusal the same bytes are held.
#[tactic(auto, using(crate::proofs::PieceLemmas::read_more))]
fn read_piece<D: Desk>(
    desk: &mut D,
    name: &str,
    place: u64,
    held: &mut Held,
) -> Result<usize, LineFault>
    requires reads { IsTrue (D.reads name.now) }
    requires place { place + length held.old < 2 ^ 64 }
    ensures longer { IfOk result (λ n. length held.new ≡ length held.old + n) }
    ensures piece { length held.new ≤ length held.old + 4_096 }
    ensures prefix { StartsWith held.new held.old }
    ensures within { place + length held.new < 2 ^ 64 }
    ensures stands { let rest = drop place (bytes_of (D.files desk.old name.now)) in
        IsTrue D.tells → StartsWith rest held.old → StartsWith rest held.new }
    ensures end { let rest = drop place (bytes_of (D.files desk.old name.now)) in
        IsTrue D.tells → StartsWith rest held.old → IfOk result (λ n. n ≡ 0 → held.new ≡ rest) }
    ensures refused { OnErr result (held.new ≡ held.old) }
    ensures outside { IfErr result IsOutside }
    ensures desk { OnlyReads D.tells D.files D.current D.read_faults D.write_faults desk.old desk.new result }
{
    let at = place + held.bytes().len() as u64;
    let want = (u64::MAX - at).min(PIECE as u64) as usize;
    let mut piece = [0; PIECE];
    let count = desk.read_at(name, at, &mut piece[..want])?;
    held.extend(&piece[..count])?;
    Ok(count)
}

/// Reads pieces until a whole line is held, and says how many bytes it has before its newline.
#[tactic(auto, using(crate::proofs::LineLemmas::fill_rules))]
fn fill<D: Desk>(
    desk: &mut D,
    name: &str,
    at: Position,
    held: &mut Held,
) -> Result<usize, LineFault>
    requires reads { IsTrue (D.reads name.now) }
    requires lines { at.lines ≤ at.place }
    requires place { at.place + length held.old < 2 ^ 64 }
    requires few { length held.old ≤ max_held }
    ensures line { let rest = drop at.place (bytes_of (D.files desk.old name.now)) in
        IsTrue D.tells → StartsWith rest held.old
        → Gives (λ count. take count held.new) result (line_bytes (at.lines + 1) rest) }
    ensures whole { IfOk result (λ count. count < length held.new) }
    ensures prefix { StartsWith held.new held.old }
    ensures within { at.place + length held.new < 2 ^ 64 }
    ensures few { length held.new ≤ max_held }
    ensures stands { let rest = drop at.place (bytes_of (D.files desk.old name.now)) in
        IsTrue D.tells → StartsWith rest held.old → StartsWith rest held.new }
    ensures desk { OnlyReads D.tells D.files D.current D.read_faults D.write_faults desk.old desk.new result }
{
    let mut clean = 0;
    'pieces: loop {
        let count = before_newline_from(held.bytes(), clean);
        if count > MAX_LINE {
            return Err(LineFault::TooLong(at.lines + 1));
        }
        if count < held.bytes().len() {
            return Ok(count);
        }
        clean = count;
        if read_piece(desk, name, at.place, held)? == 0 {
            return Err(LineFault::Short);
        }
    }
}

fn is_header(bytes: &[u8]) -> bool
    ensures { result ≡ bytes_eq bytes.now header }
{
    bytes == "btrplan certificate 1".as_bytes()
}

fn is_end(line: &LineText) -> bool
    ensures { result ≡ is_end line.now }
{
    match line {
        LineText::Step(_) => false,
        LineText::End(_) => true,
    }
}

fn as_line(line: LineText) -> Line
    ensures { result ≡ as_line line }
{
    match line {
        LineText::Step(step) => Line::Step(step),
        LineText::End(goal) => Line::End(goal),
    }
}

impl Cursor {
    /// At the start of the file of this name, of which nothing was read yet.
    pub fn new(alloc: Global, name: &str) -> Result<Cursor, Memory>
        ensures { IfOk result (λ r. r ≡ record { name = name.now; at = start; held = [] }) }
    {
        let name = String::from_str(alloc, name)?;
        let held = Held::with_capacity(alloc, MAX_LINE + PIECE)?;
        Ok(Cursor {
            name,
            at: Position::start(),
            held,
        })
    }

    /// The position.
    pub fn at(&self) -> Position
        ensures at { result ≡ self.now.at }
        ensures within { self.now.at.place < 2 ^ 64 }
        ensures few { length self.now.held ≤ max_held }
    {
        self.at
    }

    /// Goes back to the start, and forgets what was read.
    pub fn rewind(&mut self)
        ensures { self.new ≡ record self.old { at = start; held = [] } }
    {
        self.held.keep(0);
        self.at = Position::start();
    }

    /// Reads a piece more.
    fn read<D: Desk>(&mut self, desk: &mut D) -> Result<usize, LineFault>
        requires reads { IsTrue (D.reads self.old.name) }
        requires few { length self.old.held ≤ max_line }
        ensures same { self.new ≡ record self.old { held = self.new.held } }
        ensures longer { IfOk result (λ n. length self.new.held ≡ length self.old.held + n) }
        ensures prefix { StartsWith self.new.held self.old.held }
        ensures stands { let file = bytes_of (D.files desk.old self.old.name) in
            IsTrue D.tells → StandsIn file self.old → StandsIn file self.new }
        ensures end { let file = bytes_of (D.files desk.old self.old.name) in
            IsTrue D.tells → StandsIn file self.old
            → IfOk result (λ n. n ≡ 0 → self.new.held ≡ drop self.old.at.place file) }
        ensures refused { OnErr result (self.new ≡ self.old) }
        ensures outside { IfErr result IsOutside }
        ensures desk { OnlyReads D.tells D.files D.current D.read_faults D.write_faults desk.old desk.new result }
    {
        read_piece(desk, self.name.as_str(), self.at.place, &mut self.held)
    }

    /// Holds the next line whole, and says how many bytes it has before its newline. More bytes may be
    /// held afterwards, and nothing else changes, whatever the answer.
    fn fill<D: Desk>(&mut self, desk: &mut D) -> Result<usize, LineFault>
        requires reads { IsTrue (D.reads self.old.name) }
        requires stands { IsTrue D.tells → StandsIn (bytes_of (D.files desk.old self.old.name)) self.old }
        ensures line { let rest = drop self.old.at.place (bytes_of (D.files desk.old self.old.name)) in
            IsTrue D.tells → Gives (λ count. take count self.new.held) result (line_bytes (self.old.at.lines + 1) rest) }
        ensures held { IfOk result (λ count. count < length self.new.held) }
        ensures same { self.new ≡ record self.old { held = self.new.held } }
        ensures prefix { StartsWith self.new.held self.old.held }
        ensures within { self.new.at.place < 2 ^ 64 }
        ensures few { length self.new.held ≤ max_held }
        ensures stands { IsTrue D.tells → StandsIn (bytes_of (D.files desk.old self.old.name)) self.new }
        ensures desk { OnlyReads D.tells D.files D.current D.read_faults D.write_faults desk.old desk.new result }
    {
        fill(desk, self.name.as_str(), self.at, &mut self.held)
    }

    /// Reads the next line, and says how many bytes it has, all of which are then held. More bytes may
    /// be held afterwards, and nothing else changes, whatever the answer.
    #[tactic(auto, using(crate::proofs::TurnLemmas::text_rules))]
    fn parse<D: Desk>(&mut self, desk: &mut D) -> Result<(LineText, usize), LineFault>
        requires reads { IsTrue (D.reads self.old.name) }
        requires stands { IsTrue D.tells → StandsIn (bytes_of (D.files desk.old self.old.name)) self.old }
        ensures line { let file = bytes_of (D.files desk.old self.old.name) in
            IsTrue D.tells → Gives (λ found. (found.0, found.1)) result (text_at file self.old.at) }
        ensures held { IfOk result (λ found. found.1 < length self.new.held) }
        ensures same { self.new ≡ record self.old { held = self.new.held } }
        ensures prefix { StartsWith self.new.held self.old.held }
        ensures stands { IsTrue D.tells → StandsIn (bytes_of (D.files desk.old self.old.name)) self.new }
        ensures desk { OnlyReads D.tells D.files D.current D.read_faults D.write_faults desk.old desk.new result }
    {
        let count = match self.fill(desk) {
            Ok(count) => count,
            Err(fault) => return Err(fault),
        };
        let line = &self.held.bytes()[..count];
        match parse_line(self.held.allocator(), line) {
            Ok(line) => Ok((line, count)),
            Err(TextFault::NotALine) => Err(LineFault::NotALine(self.at.lines + 1)),
            Err(TextFault::Memory) => Err(LineFault::Memory),
        }
    }

    /// Passes a line with so many bytes, and its newline.
    fn pass(&mut self, count: usize, ended: bool)
        requires { count < length self.old.held }
        ensures passed { self.new ≡ record self.old { at = position_after self.old.at count ended; held = drop (count + 1) self.old.held } }
        ensures within { self.new.at.place < 2 ^ 64 }
        ensures few { length self.new.held ≤ max_held }
    {
        self.at = self.at.after(count, ended);
        self.held.give(count + 1);
    }

    /// The line at the position, which is not the first one. After a refusal all is as before.
    #[tactic(auto, using(crate::proofs::TurnLemmas::line_rules))]
    pub fn line<D: Desk>(&mut self, desk: &mut D) -> Result<Line, LineFault>
        requires reads { IsTrue (D.reads self.old.name) }
        requires stands { IsTrue D.tells → StandsIn (bytes_of (D.files desk.old self.old.name)) self.old }
        ensures line { let file = bytes_of (D.files desk.old self.old.name) in
            IsTrue D.tells → Gives (λ line. (line, self.new.at)) result (line_at file self.old.at) }
        ensures stands { IsTrue D.tells → StandsIn (bytes_of (D.files desk.old self.old.name)) self.new }
        ensures moves { IfOk result (IsMoved self.old.at self.new.at) }
        ensures within { self.new.at.place < 2 ^ 64 }
        ensures few { length self.new.held ≤ max_held }
        ensures name { self.new.name ≡ self.old.name }
        ensures refused { OnErr result (self.new ≡ self.old) }
        ensures desk { OnlyReads D.tells D.files D.current D.read_faults D.write_faults desk.old desk.new result }
    {
        let held = self.held.bytes().len();
        match self.parse(desk) {
            Ok((line, count)) => {
                self.pass(count, is_end(&line));
                Ok(as_line(line))
            }
            Err(fault) => {
                self.held.keep(held);
                Err(fault)
            }
        }
    }

    /// The header, and the line after it.
    #[tactic(auto, using(crate::proofs::TurnLemmas::first_rules))]
    pub fn first_line<D: Desk>(&mut self, desk: &mut D) -> Result<Line, LineFault>
        requires reads { IsTrue (D.reads self.old.name) }
        requires stands { IsTrue D.tells → StandsIn (bytes_of (D.files desk.old self.old.name)) self.old }
        requires first { self.old.at.lines ≡ 0 }
        ensures line { let file = bytes_of (D.files desk.old self.old.name) in
            IsTrue D.tells → Gives (λ line. (line, self.new.at)) result (first_line_at file self.old.at) }
        ensures stands { IsTrue D.tells
            → OnOk result (StandsIn (bytes_of (D.files desk.old self.old.name)) self.new) }
        ensures moves { IfOk result (IsMoved self.old.at self.new.at) }
        ensures within { self.new.at.place < 2 ^ 64 }
        ensures few { length self.new.held ≤ max_held }
        ensures name { self.new.name ≡ self.old.name }
        ensures desk { OnlyReads D.tells D.files D.current D.read_faults D.write_faults desk.old desk.new result }
    {
        let count = match self.fill(desk) {
            Ok(count) => count,
            Err(fault) => return Err(fault),
        };
        if !is_header(&self.held.bytes()[..count]) {
            return Err(LineFault::NotALine(1));
        }
        self.pass(count, false);
        self.line(desk)
    }

    /// Whether the file ends at the position, after the end line. After a refusal all is as before.
    #[tactic(auto, using(crate::proofs::LineLemmas::end_rules))]
    pub fn end<D: Desk>(&mut self, desk: &mut D) -> Result<Line, LineFault>
        requires reads { IsTrue (D.reads self.old.name) }
        requires stands { IsTrue D.tells → StandsIn (bytes_of (D.files desk.old self.old.name)) self.old }
        requires ended { self.old.at.ended ≡ true }
        ensures line { let file = bytes_of (D.files desk.old self.old.name) in
            IsTrue D.tells → Gives (λ line. (line, self.new.at)) result (end_at file self.old.at) }
        ensures stands { IsTrue D.tells → StandsIn (bytes_of (D.files desk.old self.old.name)) self.new }
        ensures moves { IfOk result (IsMoved self.old.at self.new.at) }
        ensures within { self.new.at.place < 2 ^ 64 }
        ensures few { length self.new.held ≤ max_held }
        ensures name { self.new.name ≡ self.old.name }
        ensures refused { OnErr result (self.new ≡ self.old) }
        ensures desk { OnlyReads D.tells D.files D.current D.read_faults D.write_faults desk.old desk.new result }
    {
        if !self.held.bytes().is_empty() {
            return Err(LineFault::NotALine(self.at.lines + 1));
        }
        if self.read(desk)? == 0 {
            return Ok(Line::Over);
        }
        self.held.keep(0);
        Err(LineFault::NotALine(self.at.lines + 1))
    }
}
