//! The command line of the program.
use crate::item::{Description, Unread, Why};
use crate::parser::described;
use crate::place::{declared_by, declared_in};
use crate::printer::printed;
use crate::tokens::tokens_of;
use std::alloc::{AllocError, Global};
use std::fs;
use std::io::{ErrorKind, Write};
use std::rt::Files;

const USAGE: &str = "usage: columnar_derive FILE NAME.. [CRATE::MODULE]";

/// Writes the code for the types that the arguments name.
///
/// Returns the exit status: 0 if the code was written, 1 if not, 2 if the arguments are no file and names.
pub fn run_words<R: Files + AllocGlobal, O: Write, E: Write>(
    rt: &R,
    alloc: Global,
    words: &[String],
    out: &mut O,
    err: &mut E,
) -> u8 {
    let [path, names @ ..] = words else {
        return say(err, USAGE, 2);
    };
    let (names, module) = split_module(names);
    if names.is_empty() || names.iter().any(|name| is_module(name.as_str())) {
        return say(err, USAGE, 2);
    }
    match fs::read(rt, path.as_str()) {
        Ok(bytes) => {
            let source = Source {
                path: path.as_str(),
                bytes: bytes.as_slice(),
                module,
                names,
            };
            written(alloc, &source, out, err)
        }
        Err(error) if error.kind() == ErrorKind::OutOfMemory => no_memory(err),
        Err(_) => say(err, "failed: cannot read", 1),
    }
}

// Splits the names of types from the module that may be the last word.
fn split_module(words: &[String]) -> (&[String], Option<&str>) {
    match words {
        [names @ .., last] if is_module(last.as_str()) => (names, Some(last.as_str())),
        _ => (words, None),
    }
}

fn is_module(word: &str) -> bool {
    word.contains("::")
}

/// Writes that an allocation failed, and returns the status 1.
pub fn no_memory<E: Write>(err: &mut E) -> u8 {
    say(err, "failed: no memory", 1)
}

// Writes to standard error and returns the status; a write error does not change it.
fn say<E: Write>(err: &mut E, text: &str, status: u8) -> u8 {
    let _written = writeln!(err, "{text}");
    status
}

// A file, its module, if the arguments name it, and the names of the types.
#[derive(Clone, Copy)]
struct Source<'x> {
    path: &'x str,
    bytes: &'x [u8],
    module: Option<&'x str>,
    names: &'x [String],
}

// Why nothing was written. A type is given by its place among the names.
#[derive(Clone, Copy)]
enum Failure {
    Memory,
    NoText,
    NoPlace,
    Twice(usize),
    // The line, and the reason
    File(usize, Why),
    // The type, the line, and the reason
    Type(usize, usize, Why),
}

impl From<AllocError> for Failure {
    fn from(_error: AllocError) -> Failure {
        Failure::Memory
    }
}

impl From<Unread> for Failure {
    fn from(error: Unread) -> Failure {
        match error {
            Unread::Memory => Failure::Memory,
            Unread::Refused(line, why) => Failure::File(line, why),
        }
    }
}

// Returns the place of a name that was given before, if there is one.
fn twice(names: &[String]) -> Option<usize> {
    for (i, name) in names.iter().enumerate() {
        for earlier in names.iter().take(i) {
            if earlier.as_str() == name.as_str() {
                return Some(i);
            }
        }
    }
    None
}

// Returns the descriptions of the types, in order.
fn all_described(alloc: Global, text: &str, names: &[String]) -> Result<Vec<Description>, Failure> {
    let tokens = tokens_of(alloc, text)?;
    let mut types = Vec::new(alloc);
    for (i, name) in names.iter().enumerate() {
        match described(alloc, tokens.as_slice(), name.as_str()) {
            Ok(description) => match types.push(description) {
                Ok(()) => {}
                Err(_) => return Err(Failure::Memory),
            },
            Err(Unread::Memory) => return Err(Failure::Memory),
            Err(Unread::Refused(line, why)) => return Err(Failure::Type(i, line, why)),
        }
    }
    Ok(types)
}

// Returns the code for the types.
fn text_of(alloc: Global, source: &Source<'_>) -> Result<String, Failure> {
    if let Some(i) = twice(source.names) {
        return Err(Failure::Twice(i));
    }
    let Ok(text) = str::from_utf8(source.bytes) else {
        return Err(Failure::NoText);
    };
    let types = all_described(alloc, text, source.names)?;
    let place = match source.module {
        Some(module) => Some(declared_by(alloc, module)?),
        None => declared_in(alloc, source.path)?,
    };
    let place = match &place {
        Some(place) => Some(place.as_str()),
        None => None,
    };
    match printed(alloc, types.as_slice(), place)? {
        Some(text) => Ok(text),
        None => Err(Failure::NoPlace),
    }
}

// Returns name `i`; an empty text if there are not so many.
fn name_at(names: &[String], i: usize) -> &str {
    match names.get(i) {
        Some(name) => name.as_str(),
        None => "",
    }
}

fn written<O: Write, E: Write>(alloc: Global, source: &Source<'_>, out: &mut O, err: &mut E) -> u8 {
    let names = source.names;
    match text_of(alloc, source) {
        Ok(text) => match write!(out, "{text}") {
            Ok(()) => 0,
            Err(_) => say(err, "failed: cannot write", 1),
        },
        Err(Failure::Memory) => no_memory(err),
        Err(Failure::NoText) => say(err, "failed: the file is no text", 1),
        Err(Failure::NoPlace) => say(err, "refused: of an enum the module must be told", 1),
        Err(Failure::Twice(i)) => {
            let name = name_at(names, i);
            let _written = writeln!(err, "refused: `{name}` is named twice");
            1
        }
        Err(Failure::Type(i, line, why)) if names.len() > 1 => {
            let name = name_at(names, i);
            let _written = writeln!(err, "refused: `{name}`: line {line}: {why}");
            1
        }
        Err(Failure::Type(_, line, why) | Failure::File(line, why)) => {
            let _written = writeln!(err, "refused: line {line}: {why}");
            1
        }
    }
}
