//! What a negative answer means, in plain words.

use serde_json::Value;
use std::alloc::Global;
use std::fs::{self, File, Files};
use std::io::{self, Read};

/// How much of a certificate is looked at, in bytes.
const MOST_READ: usize = 65_536;

/// Constraint number C of an instance, as it stands there.
fn say_constraint<R: Files + AllocGlobal + Eprint>(
    rt: &R,
    alloc: Global,
    instance_file: &str,
    number: &str,
) -> io::Result<()> {
    let Ok(instance) = Value::from_slice(alloc, &fs::read(rt, instance_file)?) else {
        return Ok(());
    };
    let place: Option<usize> = number.parse().ok();
    let constraints = instance.get("constraints").and_then(Value::as_array);
    if let (Some(place), Some(list)) = (place, constraints)
        && let Some(constraint) = list.get(place)
    {
        eprintln!(rt;
            "btrplan: constraint {number} is {}",
            constraint.to_string(alloc)?
        )?;
    }
    Ok(())
}

/// Says what `broken T RULE` means.
pub fn say_broken<R: Files + AllocGlobal + Eprint>(
    rt: &R,
    alloc: Global,
    instance_file: &str,
    line: &str,
) -> io::Result<()> {
    let mut parts = line.split(' ').skip(1);
    let (Some(instant), Some(rule), Some(first)) = (parts.next(), parts.next(), parts.next()) else {
        return Ok(());
    };
    match (rule, parts.next()) {
        ("load", Some(resource)) => eprintln!(rt;
            "btrplan: at {instant} the machines on node {first} use more {resource} than it has"
        ),
        ("usable", Some(node)) => eprintln!(rt;
            "btrplan: at {instant} machine {first} is on node {node}, which is not usable then"
        ),
        ("rule", _) => {
            eprintln!(rt; "btrplan: at {instant} constraint {first} does not hold")?;
            say_constraint(rt, alloc, instance_file, first)
        }
        _ => Ok(()),
    }
}

/// Says what a reason of a certificate means, by its words.
fn say_reason<R: Files + AllocGlobal + Eprint>(
    rt: &R,
    alloc: Global,
    instance_file: &str,
    reason: &[&str],
) -> io::Result<()> {
    match reason {
        ["empty", element] => eprintln!(rt; "{element} has no way to be as it is wanted"),
        ["bound"] => eprintln!(rt; "no plan is cheaper than one that is known"),
        ["load", instant, resource, "*"] => eprintln!(rt;
            "at {instant} the machines need more {resource} than all nodes have that may be usable then"
        ),
        ["load", instant, resource, nodes @ ..] => {
            eprint!(rt; "at {instant} more {resource} is needed than there is on")?;
            for node in nodes {
                eprint!(rt; " {node}")?;
            }
            eprintln!(rt; "")
        }
        ["usable", instant, machine, node] => eprintln!(rt;
            "at {instant} machine {machine} is on node {node}, which is not usable then"
        ),
        [_, number, instant, ..] => {
            eprintln!(rt; "at {instant} constraint {number} cannot hold")?;
            say_constraint(rt, alloc, instance_file, number)
        }
        _ => eprintln!(rt; "it is told in the certificate"),
    }
}

// the first line of a text that begins with a word, without the word
fn first_after<'a>(text: &'a str, word: &str) -> Option<&'a str> {
    text.split('\n').find_map(|line| line.strip_prefix(word))
}

/// Says why no plan is valid, by what the certificate refutes first.
pub fn say_infeasible<R: Files + AllocGlobal + Eprint>(
    rt: &R,
    alloc: Global,
    instance_file: &str,
    certificate_file: &str,
) -> io::Result<()> {
    let mut bytes = Vec::new(alloc);
    File::open(rt, certificate_file)?
        .take(MOST_READ as u64)
        .read_to_end(&mut bytes)?;
    let text = str::from_utf8(&bytes).unwrap_or_default();
    let Some(reason) = first_after(text, "fail ") else {
        return Ok(());
    };
    let mut words = Vec::new(alloc);
    for word in reason.split(' ') {
        words.push(word)?;
    }
    if text.starts_with("btrplan certificate 1\nfail ") {
        eprint!(rt; "btrplan: no plan is valid: ")?;
    } else {
        eprint!(rt; "btrplan: no plan is valid; the first case that fails: ")?;
    }
    say_reason(rt, alloc, instance_file, &words)?;
    eprintln!(rt;
        "btrplan: explain INSTANCE CORE CERT finds constraints that leave none, each of them needed"
    )
}
