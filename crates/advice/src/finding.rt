//! What stands at the place of a fault of a JSON text, and what may be meant.

use catalogue::constraint::CONSTRAINT_WORDS;
use serde_json::Value;
use std::alloc::Global;
use std::fs::{self, Files};
use std::io;
use strsim::levenshtein;

/// The longest text that is shown, in bytes.
const MOST_SHOWN: usize = 80;

/// The faults that stand after a path.
const PLACED: [&str; 9] = [
    " missing",
    " wrong kind",
    " out of range",
    " unknown",
    " over limit",
    " twice",
    " no such name",
    " bad host",
    " not legal",
];

/// The word that is nearest to one that is not known, of those that were offered.
#[derive(Drop)]
struct Nearest<'a> {
    alloc: Global,
    unknown: &'a str,
    found: Option<(&'a str, usize)>,
}

impl<'a> Nearest<'a> {
    fn offer(&mut self, word: &'a str) {
        let Ok(distance) = levenshtein(self.alloc, self.unknown, word) else {
            return;
        };
        if self.found.is_none_or(|(_, least)| distance < least) {
            self.found = Some((word, distance));
        }
    }

    fn offer_names(&mut self, instance: &'a Value, key: &str) {
        for item in instance
            .get(key)
            .and_then(Value::as_array)
            .into_iter()
            .flatten()
        {
            if let Some(name) = item.as_str().or_else(|| item.get("name")?.as_str()) {
                self.offer(name);
            }
        }
    }

    // none where hardly a letter is the same
    fn word(&self) -> Option<&'a str> {
        let (word, distance) = self.found?;
        (distance < self.unknown.len().div_ceil(2)).then_some(word)
    }
}

/// The name or word of an instance that is nearest to one that is none.
fn word_near<'a>(alloc: Global, instance: &'a Value, unknown: &'a str) -> Option<&'a str> {
    let mut nearest = Nearest {
        alloc,
        unknown,
        found: None,
    };
    for key in ["nodes", "machines", "resources"] {
        nearest.offer_names(instance, key);
    }
    for word in &CONSTRAINT_WORDS {
        nearest.offer(word);
    }
    nearest.word()
}

/// A path of a fault, such as `machines[1].node`, as a JSON pointer.
fn pointer_of(alloc: Global, path: &str) -> io::Result<String> {
    let mut pointer = String::new(alloc);
    for part in path.split(['.', '[']).filter(|part| *part != "$") {
        pointer.push('/')?;
        pointer.push_str(part.trim_end_matches(']'))?;
    }
    Ok(pointer)
}

fn say_value<R: Eprint>(rt: &R, alloc: Global, value: &Value) -> io::Result<()> {
    match value {
        Value::Object(members) => {
            eprint!(rt; "an object with the keys")?;
            for key in members.keys() {
                eprint!(rt; " {key}")?;
            }
            Ok(())
        }
        Value::Array(items) => eprint!(rt; "a list of {}", items.len()),
        _ => {
            let text = value.to_string(alloc)?;
            if text.len() <= MOST_SHOWN {
                eprint!(rt; "{text}")
            } else {
                eprint!(rt; "a text of {} bytes", text.len())
            }
        }
    }
}

/// Says what stands at a place of a file, which may be a key that is missing, and which known word is nearest to it.
fn say_found<'a, R: Eprint>(
    rt: &R,
    alloc: Global,
    value: &'a Value,
    instance: &'a Value,
    path: &str,
) -> io::Result<()> {
    let pointer = pointer_of(alloc, path)?;
    let (place, found) = match (value.pointer(&pointer), path.rsplit_once('.')) {
        (Some(found), _) => (path, found),
        (None, Some((above, _))) => match value.pointer(&pointer_of(alloc, above)?) {
            Some(found) => (above, found),
            None => return Ok(()),
        },
        (None, None) => ("$", value),
    };
    eprint!(rt; "btrplan: at {place} stands ")?;
    say_value(rt, alloc, found)?;
    if let Some(text) = found.as_str()
        && let Some(word) = word_near(alloc, instance, text)
    {
        eprint!(rt; "; the nearest that is known is \"{word}\"")?;
    }
    eprintln!(rt; "")
}

/// The value of a JSON file, or nothing, once it is said in which line it is no JSON.
fn value_of<R: Files + AllocGlobal + Eprint>(
    rt: &R,
    alloc: Global,
    name: &str,
) -> io::Result<Option<Value>> {
    match Value::from_slice(alloc, &fs::read(rt, name)?) {
        Ok(value) => Ok(Some(value)),
        Err(fault) => {
            eprintln!(rt; "btrplan: {name}: {fault}")?;
            Ok(None)
        }
    }
}

/// The file that a line of a fault speaks of, by the words of the command.
fn file_of<'a>(words: &'a [String], file: &str) -> Option<&'a str> {
    let place = match (file, words.first()?.as_str()) {
        ("instance", _) => 1,
        ("groups", _) => 2,
        ("plan", "checkparts") => 3,
        ("plan", _) => 2,
        _ => return None,
    };
    Some(words.get(place)?.as_str())
}

/// Says more of a fault of an instance, of groups or of a plan, by the line that was printed: `input FILE PATH TEXT`.
pub fn say_place<R: Files + AllocGlobal + Eprint>(
    rt: &R,
    alloc: Global,
    words: &[String],
    line: &str,
) -> io::Result<()> {
    let mut parts = line.split(' ').skip(1);
    let (Some(file), Some(path), [_, instance_file, ..]) = (parts.next(), parts.next(), words)
    else {
        return Ok(());
    };
    let Some(name) = file_of(words, file) else {
        return Ok(());
    };
    let Some(value) = value_of(rt, alloc, name)? else {
        return Ok(());
    };
    if !PLACED.iter().any(|text| line.ends_with(*text)) {
        return Ok(());
    }
    if file == "instance" {
        return say_found(rt, alloc, &value, &value, path);
    }
    match value_of(rt, alloc, instance_file)? {
        Some(instance) => say_found(rt, alloc, &value, &instance, path),
        None => Ok(()),
    }
}
