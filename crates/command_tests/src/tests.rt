use commands::run::run;
use commands::status::Status;
use plan_io::{DeskMem, SinkMem, SourceMem};
use solver::Solver;
use std::alloc::Global;
use std::test::Fail;

mod planning;
mod reading;
mod solvers;

/// The words of a line, one after each blank.
fn words(alloc: Global, line: &str) -> Result<Vec<String>, Fail> {
    let mut words = Vec::new(alloc);
    for word in line.split(' ') {
        words.push(String::from_str(alloc, word)?)?;
    }
    Ok(words)
}

/// Runs the words of a line over a desk and a sink by a solver; the source has nothing.
fn runs_on(
    alloc: Global,
    line: &str,
    desk: &mut DeskMem,
    out: &mut SinkMem,
    solver: &impl Solver,
) -> Result<Status, Fail> {
    let words = words(alloc, line)?;
    let mut input = SourceMem::new(Vec::new(alloc), Vec::new(alloc));
    Ok(run(alloc, &words, desk, &mut input, out, solver))
}
