//! The planner for virtual machine reconfiguration. `commands::run::run` does what the words of the command line ask
//! for, and says what the program promises.
#![tactic(auto)]

mod least;

use crate::least::LeastSolver;
use advice::answers::advise;
use advice::last_line::KeepingSink;
use advice::least::Least;
use advice::progress::TellingDesk;
use advice::searches::{Searched, TellingSolver};
use commands::run::run;
use commands::status::Status;
use plan_io::{FileDesk, StdSink, StdSource};
use std::process::ExitCode;
use std::{env, io};

// what the command of these words searches more than once
fn searched(words: &[String]) -> Searched {
    match words.first() {
        Some(command) if command.as_str() == "parts" => Searched::Parts,
        _ => Searched::Constraints,
    }
}

fn main(rt: HostRuntime) -> ExitCode {
    let alloc = rt.alloc();
    let mut words = Vec::new(alloc);
    match env::args(&rt) {
        Ok(given) => {
            for word in given.skip(1) {
                if words.push(word).is_err() {
                    return ExitCode::from(Status::Memory.code());
                }
            }
        }
        Err(fault) if fault.kind() == io::ErrorKind::OutOfMemory => {
            return ExitCode::from(Status::Memory.code());
        }
        // A word that is no text is in no command, and neither is no word.
        Err(_) => (),
    }
    let least = Least::new(alloc);
    let mut desk = TellingDesk::new(alloc, FileDesk::new(&rt, alloc), &rt, &words, least.share());
    let mut input = StdSource::new(rt.stdin());
    let mut out = KeepingSink::new(alloc, StdSink::new(io::writer(&rt)));
    let solver = TellingSolver::new(LeastSolver::new(least), &rt, searched(&words));
    let status = run(alloc, &words, &mut desk, &mut input, &mut out, &solver);
    // what cannot be said changes nothing
    let _ = advise(&rt, &words, status, out.last_line(), desk.unwritten());
    ExitCode::from(status.code())
}
