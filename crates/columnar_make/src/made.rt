//! Stores from lines of JSON.
ghost use Rattle.std.specs.Prelude.{◌≡◌, ◌⊎◌, ◌∷◌, ◌++◌, ◌<◌, [], length, IfOk, OnOk, Some};
ghost use Rattle.columnar_bytes.specs.Accepted.{Accepts};
ghost use Rattle.columnar_schema.specs.Formats.{format_of};
ghost use Rattle.columnar_json.specs.Json.{row_at};
ghost use Rattle.columnar_json.specs.Refusals.{all_rows};
ghost use Rattle.serde_json.specs.Read.{read};
ghost use Rattle.serde_json.specs.View.{view};
ghost use Rattle.columnar_make.specs.Lines.{HasLines, IsLine, IsLineOf, rows_in};

use crate::misfit::Misfit;
use crate::row::push_row;
use crate::sink::Sink;
use crate::stands::stands_for;
use columnar_json::rows::Rows;
use columnar_json::unwritten::Unwritten;
use columnar_schema::typed::Type;
use serde_json::Value;
use serde_json::error::Category;
use std::alloc::{AllocError, Global};

/// Why no store was made.
#[derive(Clone, Copy, PartialEq, Drop)]
pub struct Unmade {
    /// The number of the line, counted from 1.
    pub line: usize,
    /// What is wrong there.
    pub why: Misfit,
}

/// Returns a store of the rows that the lines of a text write: a JSON value each, as `serde_json` writes a value of the
/// type. An integer may stand for a float. An optional field that is `null` may be left out, and fields may stand in any
/// order. The last line may end without a newline. Integers beyond 64 bits are refused.
///
/// The store is validated, and each of its rows compared with its line, before it is returned.
///
/// # Errors
/// The first line that is no row of the type, and why.
pub fn make_store(alloc: Global, kind: &Type, text: &[u8]) -> Result<Vec<u8>, Unmade>
    ensures accepted { IfOk result (λ bytes. Accepts (format_of kind.now.schema) bytes.items) }
    ensures lines { IfOk result (λ bytes. HasLines kind.now.schema (rows_in kind.now.schema bytes.items) text.now) }
{
    let store = store_of_lines(alloc, kind, text)?;
    check_lines(alloc, kind, store.as_slice(), text)?;
    Ok(store)
}

// Returns a store of the rows that the lines write.
fn store_of_lines(alloc: Global, kind: &Type, text: &[u8]) -> Result<Vec<u8>, Unmade> {
    let mut sink = match Sink::new(alloc, kind.schema()) {
        Ok(sink) => sink,
        Err(_) => return refused(1, Misfit::Memory),
    };
    let mut rest = text;
    for index in 1..usize::MAX {
        if rest.is_empty() {
            break;
        }
        let (line, later) = first_line(rest);
        if let Err(why) = push_line(alloc, kind, line, &mut sink) {
            return refused(index, why);
        }
        rest = later;
    }
    match store_of(alloc, &sink) {
        Ok(bytes) => Ok(bytes),
        Err(_) => refused(1, Misfit::Memory),
    }
}

// Returns a refusal of a line.
fn refused<T>(line: usize, why: Misfit) -> Result<T, Unmade>
    ensures { IfOk result (λ it. ⊥) }
{
    Err(Unmade { line, why })
}

// Pushes the row that the line writes.
fn push_line(alloc: Global, kind: &Type, line: &[u8], sink: &mut Sink) -> Result<(), Misfit> {
    let value = value_of(alloc, line)?;
    push_row(alloc, kind.schema(), &value, sink)
}

// Frames the slices of a column.
fn store_of(alloc: Global, sink: &Sink) -> Result<Vec<u8>, AllocError> {
    let mut sizes = Vec::new(alloc);
    sink.sizes(&mut sizes)?;
    let mut out = Vec::new(alloc);
    let mut end = sizes.len().saturating_add(1).saturating_mul(8) as u64;
    out.extend_from_slice(&end.to_le_bytes())?;
    for size in sizes.iter() {
        let start = end.saturating_add(7) / 8 * 8;
        end = start.saturating_add(*size as u64);
        out.extend_from_slice(&end.to_le_bytes())?;
    }
    sink.write(&mut out)?;
    Ok(out)
}

// Tests whether the bytes frame a well-formed column of the type, whose rows the lines write.
fn check_lines(alloc: Global, kind: &Type, bytes: &[u8], text: &[u8]) -> Result<(), Unmade>
    ensures accepted { OnOk result (Accepts (format_of kind.now.schema) bytes.now) }
    ensures lines { OnOk result (HasLines kind.now.schema (rows_in kind.now.schema bytes.now) text.now) }
{
    let Ok(rows) = Rows::open(kind, bytes) else {
        return refused(1, Misfit::Differs);
    };
    let mut rest = text;
    let mut written = Vec::new(alloc);
    for index in 0..rows.len() {
        if rest.is_empty() {
            return refused(index + 1, Misfit::Differs);
        }
        let (line, later) = first_line(rest);
        match check_line(alloc, &rows, index, line, &mut written) {
            Ok(()) => rest = later,
            Err(why) => return refused(index + 1, why),
        }
    }
    if rest.is_empty() {
        Ok(())
    } else {
        refused(rows.len().saturating_add(1), Misfit::Differs)
    }
}

// Returns the first line, without its end, and the lines after it.
fn first_line(text: &[u8]) -> (&[u8], &[u8])
    requires { 0 < length text.now }
    ensures line { IsLine result.0.now }
    ensures parts { (text.now ≡ result.0.now ++ (10 ∷ result.1.now)) ⊎ ((text.now ≡ result.0.now) × (result.1.now ≡ [])) }
{
    for index in 0..text.len() {
        if text[index] == b'\n' {
            return (&text[..index], &text[index + 1..]);
        }
    }
    (text, &[])
}

// Tests whether the line writes the row.
fn check_line(
    alloc: Global,
    rows: &Rows<'_>,
    index: usize,
    line: &[u8],
    written: &mut Vec<u8>,
) -> Result<(), Misfit>
    ensures { OnOk result (IsLineOf rows.now.schema.now (row_at (all_rows rows.now) index) line.now) }
{
    written.clear();
    match rows.write_row(index, written) {
        Ok(()) => {}
        Err(Unwritten::Memory) => return Err(Misfit::Memory),
        Err(_) => return Err(Misfit::Differs),
    }
    let row = value_of(alloc, written.as_slice())?;
    let given = value_of(alloc, line)?;
    if stands_for(&given, &row) {
        Ok(())
    } else {
        Err(Misfit::Differs)
    }
}

// Reads a JSON value.
fn value_of(alloc: Global, text: &[u8]) -> Result<Value, Misfit>
    ensures { IfOk result (λ v. read text.now ≡ Some (view v)) }
{
    match Value::from_slice(alloc, text) {
        Ok(value) => Ok(value),
        Err(error) => match error.classify() {
            Category::Memory => Err(Misfit::Memory),
            _ => Err(Misfit::NotJson),
        },
    }
}
