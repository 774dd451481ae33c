//! The type that a word of the command line names.
ghost use Rattle.std.specs.Prelude.{◌≡◌, ◌≢◌, ◌⊎◌, IfOk, IfErr, IfSome, get_or};
ghost use Rattle.columnar_syntax.specs.Names.{Declares, Names, a_type};
ghost use Rattle.columnar_syntax.specs.Plain.{type_tokens};
ghost use Rattle.columnar_syntax.specs.Sources.{in_source};
ghost use Rattle.columnar_syntax.specs.declared.text.Mistake.TheVariants.{Memory};
ghost use Rattle.columnar_tool.specs.Kinds.{Asks, IsNoType, name_in};

use crate::file::file_bytes;
use crate::told::{Failure, cannot_read, no_memory};
use columnar_schema::typed::Type;
use columnar_syntax::schema::Bounds;
use columnar_syntax::text::{Mistake, Refused};
use std::alloc::Global;
use std::io::Write;
use std::rt::Files;

/// Reads the type that `word` names: its text, or by `@FILE:NAME` the declaration of a struct or an enum in a source file.
///
/// # Errors
/// Writes why it names none, and returns the status: 1 if the file cannot be read or an allocation failed, 2 otherwise.
pub fn type_of<R: Files + AllocGlobal, E: Write>(
    rt: &R,
    alloc: Global,
    word: &str,
    lists: Bounds,
    err: &mut E,
) -> Result<Type, u8>
    ensures names { IfOk result (λ t. Asks lists word.now t.schema) }
    ensures refused { IfErr result (IsNoType lists word.now) }
{
    let Some((path, name)) = place_of(word) else {
        return type_of_text(alloc, word, lists, err);
    };
    match file_bytes(rt, path) {
        Ok(source) => declared_type(alloc, source.as_slice(), path, name, lists, err),
        Err(Failure::Memory) => Err(no_memory(err)),
        Err(_) => Err(cannot_read(path, err)),
    }
}

// Splits a word `@FILE:NAME` at its first colon.
fn place_of(word: &str) -> Option<(&str, &str)>
    ensures at { IfSome result (λ p. get_or word.now 0 0 ≡ 64) }
    ensures name { IfSome result (λ p. p.1.now ≡ name_in word.now) }
{
    let (place, name) = word.split_once(':')?;
    Some((place.strip_prefix('@')?, name))
}

// Reads the type in this text.
fn type_of_text<E: Write>(alloc: Global, text: &str, lists: Bounds, err: &mut E) -> Result<Type, u8>
    ensures names { IfOk result (λ t. Names lists a_type (type_tokens text.now) t.schema) }
    ensures refused { IfErr result (IsNoType lists text.now) }
{
    match Type::parse(alloc, text.as_bytes(), lists) {
        Ok(kind) => Ok(kind),
        Err(refused) => Err(no_type(err, &refused)),
    }
}

// Reads the type that a declaration in a source file names.
fn declared_type<E: Write>(
    alloc: Global,
    source: &[u8],
    path: &str,
    name: &str,
    lists: Bounds,
    err: &mut E,
) -> Result<Type, u8>
    ensures names { IfOk result (λ t. Declares (in_source lists source.now) name.now t.schema) }
    ensures refused { IfErr result (λ status. (status ≡ 1) ⊎ (status ≡ 2)) }
{
    match Type::parse_declared(alloc, source, name.as_bytes(), lists) {
        Ok(kind) => Ok(kind),
        Err(refused) => Err(no_declaration(err, source, path, name, &refused)),
    }
}

// Writes why the text is not a type, and returns the status: 1 if an allocation failed, 2 otherwise.
fn no_type<E: Write>(err: &mut E, refused: &Refused) -> u8
    ensures { (result ≡ 1) ⊎ ((result ≡ 2) × (refused.now.mistake ≢ Memory)) }
{
    if refused.mistake == Mistake::Memory {
        return no_memory(err);
    }
    let _begun = write!(err, "not a type: ");
    tell_mistake(err, refused.mistake);
    let _ended = writeln!(err, " at {}", refused.at);
    2
}

// Writes why a file has no such declaration, and returns the status: 1 if an allocation failed, 2 otherwise.
fn no_declaration<E: Write>(
    err: &mut E,
    source: &[u8],
    path: &str,
    name: &str,
    refused: &Refused,
) -> u8
    ensures { (result ≡ 1) ⊎ (result ≡ 2) }
{
    match refused.mistake {
        Mistake::Memory => return no_memory(err),
        Mistake::Undeclared => {
            let _written = writeln!(err, "{path}: no struct or enum `{name}`");
        }
        mistake => {
            let line = line_of(source, refused.at);
            let _begun = write!(err, "{path}, line {line}: not a type: ");
            tell_mistake(err, mistake);
            let _ended = writeln!(err);
        }
    }
    2
}

// Returns the number of the line in which a position is, from 1 on.
fn line_of(source: &[u8], at: usize) -> usize {
    let mut line = 1usize;
    for i in 0..at.min(source.len()) {
        if source[i] == b'\n' {
            line = line.saturating_add(1);
        }
    }
    line
}

// Writes what is wrong with the text of a type.
fn tell_mistake<E: Write>(err: &mut E, mistake: Mistake) {
    let _written = match mistake {
        Mistake::Memory => write!(err, "no memory"),
        Mistake::Name => write!(err, "expected a type or a name"),
        Mistake::Wanted(byte) => write!(err, "expected `{}`", byte as char),
        Mistake::Longer => write!(err, "unexpected text"),
        Mistake::Wide => write!(err, "too many fields or variants"),
        Mistake::Deep => write!(err, "nested too deep"),
        Mistake::Number => write!(err, "expected a number"),
        Mistake::Twice => write!(err, "duplicate name"),
        Mistake::Unended => write!(err, "unended comment, attribute or quoted text"),
        Mistake::Undeclared => write!(err, "undeclared name"),
    };
}
