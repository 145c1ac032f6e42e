//! What is said on standard error beside an answer: how to go on from there. Where all went well nothing is said.

use crate::finding::say_place;
use crate::meaning::{say_broken, say_infeasible};
use command_frame::status::Status;
use std::fs::{self, File, Files, OpenOptions};
use std::io;
use std::path::Path;

const USAGE: &str = "\
usage: btrplan COMMAND, with names of files
  plan INSTANCE PLAN CERT [budget N]      searches a plan of least cost, and writes it with its certificate
  explain INSTANCE CORE CERT [budget N]   says which constraints leave no valid plan
  check INSTANCE PLAN CERT [strict]       judges a plan and its certificate
  replay INSTANCE PLAN                    prints the loads of a plan at each instant, and the verdict on it
  show INSTANCE PLAN                      lists a plan, a line an action
  picture INSTANCE PLAN SVG               draws a plan
  script INSTANCE SCRIPT OUT              adds the constraints of a script to an instance
  execute INSTANCE PLAN                   prints what may start, and reads what has ended or failed
  repair INSTANCE PLAN INSTANCE PLAN      reads what became of a plan, and writes what is left
  parts INSTANCE GROUPS PLAN CERT [budget N]
                                          plans independent parts apart, and puts them together
  checkparts INSTANCE GROUPS PLAN CERT    judges a plan and the certificates of its parts
  cut INSTANCE GROUPS I PART              writes a part as an instance of its own
  generate SEED INSTANCE                  writes the instance of a number
  demo SEED                               generates, plans and checks
files and lines: docs/FORMATS.md
";

// the words that are no command, and all commands
fn say_usage<R: Eprint>(rt: &R, words: &[String]) -> io::Result<()> {
    eprint!(rt; "btrplan: no command has these words:")?;
    for word in words {
        eprint!(rt; " '{word}'")?;
    }
    eprint!(rt; "\n{USAGE}")
}

// how many files a command reads: their names stand next to its own
fn input_count(command: &str) -> usize {
    match command {
        "plan" | "explain" => 1,
        "replay" | "show" | "picture" | "script" | "execute" | "repair" | "parts" | "cut" => 2,
        "check" => 3,
        "checkparts" => 4,
        _ => 0,
    }
}

// which file that is read cannot be opened, and why
fn say_unread<R: Files + Eprint>(rt: &R, words: &[String]) -> io::Result<()> {
    let count = words.first().map_or(0, |word| input_count(word));
    for name in words.iter().skip(1).take(count) {
        if let Err(fault) = File::open(rt, name) {
            return eprintln!(rt; "btrplan: {name} cannot be read: {}", fault.kind());
        }
    }
    eprintln!(rt; "btrplan: a file, or standard input, cannot be read to its end")
}

// whether the folder of a file is there, as far as that can be seen
fn has_folder<R: Files>(rt: &R, name: &str) -> bool {
    match Path::new(name).parent() {
        Some(folder) if !folder.as_str().is_empty() => fs::exists(rt, folder).unwrap_or(true),
        _ => true,
    }
}

// why a file cannot be written, as far as that can be seen afterwards
fn say_unwritten<R: Files + Eprint>(rt: &R, name: &str) -> io::Result<()> {
    eprint!(rt; "btrplan: {name} cannot be written: ")?;
    match fs::metadata(rt, name) {
        Err(_) if !has_folder(rt, name) => eprintln!(rt; "its folder is not there"),
        Err(_) => eprintln!(rt; "its folder takes no new file"),
        Ok(found) if found.is_dir() => eprintln!(rt; "it is a folder"),
        Ok(found) if found.is_file() => match OpenOptions::new().write(true).open(rt, name) {
            Ok(_) => eprintln!(rt; "its disk may be full"),
            Err(fault) => eprintln!(rt; "{}", fault.kind()),
        },
        Ok(_) => eprintln!(rt; "whoever reads it has closed it"),
    }
}

// what a negative answer means, by its line
fn say_negative<R: Files + AllocGlobal + Eprint>(
    rt: &R,
    words: &[String],
    line: &str,
) -> io::Result<()> {
    match words {
        [command, instance, _, certificate, ..] if command.as_str() == "plan" => say_infeasible(
            rt,
            rt.alloc(),
            instance,
            certificate,
        ),
        [_, instance, ..] if line.starts_with("broken ") => say_broken(
            rt,
            rt.alloc(),
            instance,
            line,
        ),
        _ => Ok(()),
    }
}

/// Says what helps after an answer of a status, if anything does, by its last line and the file of which a write has failed.
/// What cannot be said is left out.
pub fn advise<R: Files + AllocGlobal + Eprint>(
    rt: &R,
    words: &[String],
    status: Status,
    line: &str,
    unwritten: Option<&str>,
) -> io::Result<()> {
    match status {
        Status::Good | Status::Undecided => Ok(()),
        Status::Negative => say_negative(rt, words, line),
        Status::Input => say_place(rt, rt.alloc(), words, line),
        Status::Words => say_usage(rt, words),
        Status::ReadFault => say_unread(rt, words),
        Status::WriteFault => match unwritten {
            Some(name) => say_unwritten(rt, name),
            None => eprintln!(rt;
                "btrplan: standard output cannot be written: it is closed, or its disk is full"
            ),
        },
        Status::Memory => eprintln!(rt; "btrplan: there is not enough memory"),
    }
}
