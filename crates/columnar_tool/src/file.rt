//! Tests of bytes as a store of a type.
ghost use Rattle.std.specs.Prelude.{ℕ, List, ◌≡◌, IfOk, string_bytes};
ghost use Rattle.std.specs.Io.KnownBytes.{Appends};
ghost use Rattle.columnar_tool.specs.Verdicts.{IsFaultLine, IsVerdict, accepted_text, fault_text};

use crate::slices::push_name;
use crate::told::{Failure, put};
use columnar_core::fault::StoreFault;
use columnar_core::writer::WriteBytes;
use columnar_schema::typed::Type;
use std::alloc::{AllocError, Global};
use std::fs;
use std::io::ErrorKind;
use std::rt::Files;

/// What to report about an accepted store.
#[derive(Clone, Copy, PartialEq, Drop)]
pub enum Wanted {
    /// Only that it is accepted.
    Verdict,
    /// The number of its rows.
    Rows,
}

/// Reads all bytes of a file.
pub fn file_bytes<R: Files + AllocGlobal>(rt: &R, path: &str) -> Result<Vec<u8>, Failure> {
    match fs::read(rt, path) {
        Ok(bytes) => Ok(bytes),
        Err(error) if error.kind() == ErrorKind::OutOfMemory => Err(Failure::Memory),
        Err(_) => Err(Failure::Input),
    }
}

/// Prints a line that says whether the bytes frame a well-formed column of the type: with its number of rows if `wanted`
/// says so, or with the first broken rule. Returns whether they do. `label` names the bytes.
pub fn test_bytes<O: WriteBytes>(
    alloc: Global,
    kind: &Type,
    wanted: Wanted,
    label: &str,
    bytes: &[u8],
    out: &mut O,
) -> Result<bool, Failure>
    ensures { IfOk result (λ accepted. (line : List ℕ) × (IsVerdict kind.now.schema wanted label.now bytes.now accepted line × Appends (O.contents out.old) (O.contents out.new) line)) }
{
    let (line, accepted) = verdict(alloc, kind, wanted, label, bytes)?;
    put(out, line.as_bytes())?;
    Ok(accepted)
}

// Returns the line, and whether the bytes are accepted.
fn verdict(
    alloc: Global,
    kind: &Type,
    wanted: Wanted,
    label: &str,
    bytes: &[u8],
) -> Result<(String, bool), Failure>
    ensures { IfOk result (λ r. IsVerdict kind.now.schema wanted label.now bytes.now r.1 (string_bytes r.0)) }
{
    match kind.count_rows(bytes) {
        Ok(rows) => {
            let line = accepted_line(alloc, wanted, label, rows)?;
            Ok((line, true))
        }
        Err(fault) => {
            let line = fault_line(alloc, kind, label, &fault)?;
            Ok((line, false))
        }
    }
}

// Returns the line of a store that is accepted.
fn accepted_line(
    alloc: Global,
    wanted: Wanted,
    label: &str,
    rows: usize,
) -> Result<String, AllocError>
    ensures { IfOk result (λ line. string_bytes line ≡ accepted_text wanted label.now rows) }
{
    match wanted {
        Wanted::Verdict => format!(in alloc; "{label}: accepted\n"),
        Wanted::Rows => format!(in alloc; "{label}: {rows} rows\n"),
    }
}

/// Returns a line with the first rule that a store breaks, and its slice.
pub fn fault_line(
    alloc: Global,
    kind: &Type,
    label: &str,
    fault: &StoreFault,
) -> Result<String, AllocError>
    ensures { IfOk result (λ line. IsFaultLine label.now fault.now (string_bytes line)) }
{
    let mut name = String::new(alloc);
    kind.push_slice_name(fault.slice(), &mut name)?;
    let why = format!(in alloc; "{fault}")?;
    let line = rule_line(
        alloc,
        label,
        fault.number(),
        fault.slice(),
        name.as_str(),
        why.as_str(),
    )?;
    Ok(line)
}

// Returns the line of a broken rule.
fn rule_line(
    alloc: Global,
    label: &str,
    number: u8,
    slice: usize,
    name: &str,
    why: &str,
) -> Result<String, AllocError>
    ensures { IfOk result (λ line. string_bytes line ≡ fault_text label.now number slice name.now why.now) }
{
    let mut line = format!(in alloc; "{label}: rule {number} in slice {slice}")?;
    push_name(&mut line, name)?;
    writeln!(line, ": {why}")?;
    Ok(line)
}
