//! A command with each of its calls failing in turn.

use crate::rows::{Called, Ended, Failing, Row};
use commands::status::Status;
use row_files::files::Files;
use std::io;

/// The longest text of a file that is printed, in bytes.
const MOST_PRINTED: usize = 16_384;

/// Whether a file is as it was, or a beginning of what a whole run leaves there.
fn is_left(before: Option<&[u8]>, whole: Option<&[u8]>, after: Option<&[u8]>) -> bool {
    if after == before {
        return true;
    }
    match (whole, after) {
        (Some(whole), Some(after)) => whole.starts_with(after),
        _ => false,
    }
}

/// Whether a run with one failed call ends as it has to beside the whole one.
fn is_cut(row: &Row, whole: &Ended, cut: &Ended) -> bool {
    let status = match cut.faults() {
        (1, 0) => Status::ReadFault,
        (0, 1) => Status::WriteFault,
        _ => return false,
    };
    cut.status == status
        && whole.sink.written().starts_with(cut.sink.written())
        && row.files().iter().all(|file| {
            is_left(
                file.text(),
                whole.desk.get(&file.name),
                cut.desk.get(&file.name),
            )
        })
}

/// Fails each call of one of the three in turn, from the first to the last that the command makes, and returns how many it
/// made.
fn fail_each(rt: &HostRuntime, row: &Row, whole: &Ended, called: Called) -> io::Result<u64> {
    for call in 0..u64::MAX {
        let cut = row.run(rt.alloc(), Some(Failing { called, call }))?;
        if cut.faults() == whole.faults() {
            return Ok(call);
        }
        if !is_cut(row, whole, &cut) {
            println!(rt; "{called:?} {call}: status {}", cut.status.code())?;
        }
    }
    Ok(u64::MAX)
}

/// Prints what a command has printed, and each file that it has changed: its text, or how long that is.
fn say(rt: &HostRuntime, row: &Row, whole: &Ended) -> io::Result<()> {
    print!(rt;
        "{}",
        str::from_utf8(whole.sink.written()).unwrap_or_default()
    )?;
    for file in row.files() {
        let (name, after) = (&file.name, whole.desk.get(&file.name));
        if after == file.text() {
            continue;
        }
        let text = str::from_utf8(after.unwrap_or_default()).unwrap_or_default();
        if text.len() <= MOST_PRINTED {
            print!(rt; "{name}:\n{text}")?;
        } else {
            println!(rt; "{name}: {} bytes", text.len())?;
        }
    }
    Ok(())
}

/// Runs a command once, with a call that fails, if one is to, and prints what it has printed and changed, and its status.
fn run_once(rt: &HostRuntime, row: &Row, failing: Option<Failing>) -> io::Result<Ended> {
    let whole = row.run(rt.alloc(), failing)?;
    say(rt, row, &whole)?;
    println!(rt; "status {}", whole.status.code())?;
    Ok(whole)
}

/// Runs a command once.
pub fn run_alone(rt: &HostRuntime, row: &Row) -> io::Result<()> {
    run_once(rt, row, None)?;
    Ok(())
}

/// Runs a command once, and keeps the files that it leaves.
pub fn run_and_keep(rt: &HostRuntime, row: &Row, files: &mut Files) -> io::Result<()> {
    let whole = run_once(rt, row, None)?;
    for file in row.files() {
        if let Some(text) = whole.desk.get(&file.name) {
            files.put(&file.name, text)?;
        }
    }
    Ok(())
}

/// Runs a command once with the one call failing that stands before its words.
pub fn fail_one(rt: &HostRuntime, files: &Files, rest: &str) -> io::Result<()> {
    if let Some((failing, command)) = Failing::read(rest) {
        run_once(rt, &Row::read(rt.alloc(), files, command)?, Some(failing))?;
    }
    Ok(())
}

/// Prints what a command prints and changes, its status, how many calls it makes of its files, its source and its sink, and
/// how many bytes of the source it leaves. Each of the calls is failed once; where something then stands that should not, a
/// line more says so.
pub fn try_calls(rt: &HostRuntime, row: &Row) -> io::Result<()> {
    let mut whole = row.run(rt.alloc(), None)?;
    say(rt, row, &whole)?;
    let files = fail_each(rt, row, &whole, Called::Files)?;
    let source = fail_each(rt, row, &whole, Called::Source)?;
    let sink = fail_each(rt, row, &whole, Called::Sink)?;
    let left = whole.left();
    println!(rt;
        "status {}, calls {files} {source} {sink}, left {left}",
        whole.status.code()
    )
}
