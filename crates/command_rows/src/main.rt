//! Runs commands over files, a source and a sink in memory, and each of them once more for each call of these that fails.
//!
//! The texts of `NAMES` have files and commands. `= NAME` begins a file, and the lines after it are its text; of a line
//! `| TEXT` the newline is left out, `% COUNT TEXT` stands for so many times the text, and `& COUNT TEXT` for so many
//! lines. `\ BYTES` are bytes, each in hexadecimal digits, with a blank between them.
//! `~ NAME FROM => OLD => NEW` is a file that is another one with the first OLD in it replaced by NEW. A blank line says
//! nothing.
//!
//! `$ WORDS` is a command, `! WORDS` one that is run once, `> WORDS` one that is run once and whose files are kept, and
//! `^ files COUNT WORDS` one that is run once where this call of its files, counted from 0, fails (or of its `source` or
//! its `sink`). After the words stand ` + NAMES`, files that they do not name, and ` < NAME`, its source.
#![tactic(auto)]

mod failing;
mod rows;

use crate::failing::{fail_one, run_alone, run_and_keep, try_calls};
use crate::rows::Row;
use row_files::files::Files;
use std::{fs, io};

/// The texts with the rows, one a topic, in the order in which they are read. The first has what many rows name.
const NAMES: [&str; 22] = [
    "files.txt",
    "words.txt",
    "plan.txt",
    "explain.txt",
    "check.txt",
    "replay.txt",
    "show.txt",
    "picture.txt",
    "orders.txt",
    "execute.txt",
    "repair.txt",
    "script.txt",
    "parts.txt",
    "instances.txt",
    "plans.txt",
    "texts.txt",
    "certificates.txt",
    "generate.txt",
    "demo.txt",
    "judging.txt",
    "execution.txt",
    "claims.txt",
];

/// Reads a text line by line, and runs each command where it stands.
fn run_rows(rt: &HostRuntime, files: &mut Files, name: &str) -> io::Result<()> {
    for line in fs::read_to_string(rt, name)?.lines() {
        match line.split_at_checked(2) {
            Some(("$ ", command)) => {
                println!(rt; "$ {command}")?;
                try_calls(rt, &Row::read(rt.alloc(), files, command)?)?;
            }
            Some(("! ", command)) => {
                println!(rt; "$ {command}")?;
                run_alone(rt, &Row::read(rt.alloc(), files, command)?)?;
            }
            Some(("> ", command)) => {
                println!(rt; "$ {command}")?;
                run_and_keep(rt, &Row::read(rt.alloc(), files, command)?, files)?;
            }
            Some(("^ ", rest)) => {
                println!(rt; "^ {rest}")?;
                fail_one(rt, files, rest)?;
            }
            _ => files.read_line(line)?,
        }
    }
    Ok(())
}

fn main(rt: HostRuntime) -> io::Result<()> {
    let mut files = Files::new(rt.alloc());
    for name in NAMES {
        run_rows(&rt, &mut files, name)?;
    }
    Ok(())
}
