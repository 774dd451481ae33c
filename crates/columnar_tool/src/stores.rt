//! Files that hold stores one after another.
ghost use Rattle.std.specs.Prelude.{◌≡◌, ◌∷◌, [], ◌<◌, ◌↔◌, ◌&&◌, length, IfOk, IfErr, OnOk, IsTrue, string_bytes};
ghost use Rattle.std.specs.List.{flat_map};
ghost use Rattle.columnar_bytes.specs.StreamFaults.{IsFlaw};
ghost use Rattle.columnar_bytes.specs.Streams.{rest_in, stores_in};
ghost use Rattle.columnar_schema.specs.Formats.{format_of};
ghost use Rattle.columnar_tool.specs.Lines.{Prints};
ghost use Rattle.columnar_tool.specs.Stores.{AreAccepted, IsReport, StopsAtStore, label_of, store_lines};

use crate::cat::{Stop, cat_bytes};
use crate::file::{Wanted, fault_line, test_bytes};
use crate::range::ALL;
use crate::told::{Failure, put};
use columnar_bytes::indexed::split_store;
use columnar_core::fault::StoreFault;
use columnar_core::writer::WriteBytes;
use columnar_json::view::View;
use columnar_schema::typed::Type;
use std::alloc::{AllocError, Global};

// Returns the first store, and the bytes after it.
fn next_store(bytes: &[u8]) -> Result<(&[u8], &[u8]), StoreFault>
    ensures stores { IfOk result (λ r. stores_in bytes.now ≡ r.0.now ∷ stores_in r.1.now) }
    ensures rest { IfOk result (λ r. rest_in bytes.now ≡ rest_in r.1.now) }
    ensures shorter { IfOk result (λ r. length r.1.now < length bytes.now) }
    ensures fault { IfErr result (IsFlaw bytes.now (length bytes.now)) }
    ensures none { IfErr result (λ e. stores_in bytes.now ≡ []) }
    ensures torn { IfErr result (λ e. rest_in bytes.now ≡ bytes.now) }
{
    match split_store(bytes) {
        Ok((store, after)) => Ok((store, after)),
        Err(fault) => Err(fault),
    }
}

/// Prints the rows of consecutive stores as lines.
///
/// # Errors
/// The number of the first store that is not accepted or has a row without a text, and why; the rows before it were
/// printed. Bytes after the last whole store are one that is not accepted.
pub fn cat_stores<O: WriteBytes>(
    alloc: Global,
    kind: &Type,
    view: &View<'_>,
    bytes: &[u8],
    out: &mut O,
) -> Result<(), (usize, Stop)>
    ensures accepted { OnOk result (AreAccepted (format_of kind.now.schema) bytes.now) }
    ensures printed { OnOk result (Prints (O.contents out.old) (O.contents out.new) (flat_map (store_lines view.now kind.now.schema) (stores_in bytes.now))) }
    ensures stopped { IfErr result (λ e. StopsAtStore view.now kind.now.schema bytes.now (O.contents out.old) (O.contents out.new) e.0 e.1) }
{
    let mut rest = bytes;
    let mut number = 0;
    while !rest.is_empty() {
        match next_store(rest) {
            Ok((store, after)) => match cat_bytes(alloc, kind, view, ALL, store, out) {
                Ok(()) => {
                    rest = after;
                    number += 1;
                }
                Err(stop) => return Err((number, stop)),
            },
            Err(fault) => return Err((number, Stop::Refused(fault))),
        }
    }
    Ok(())
}

// Returns whether both are true.
fn both(one: bool, other: bool) -> bool
    ensures { result ≡ (one && other) }
{
    one && other
}

// Returns what names a store of a file.
fn label_of(alloc: Global, path: &str, number: usize) -> Result<String, AllocError>
    ensures { IfOk result (λ label. string_bytes label ≡ label_of path.now number) }
{
    format!(in alloc; "{path}, store {number}")
}

/// Prints a line for each of consecutive stores that says whether it is accepted, as `test_bytes` does; the label has the
/// number of the store. Returns whether all are. Bytes after the last whole store are one that is not accepted.
pub fn test_stores<O: WriteBytes>(
    alloc: Global,
    kind: &Type,
    wanted: Wanted,
    path: &str,
    bytes: &[u8],
    out: &mut O,
) -> Result<bool, Failure>
    ensures exact { IfOk result (λ accepted. IsTrue accepted ↔ AreAccepted (format_of kind.now.schema) bytes.now) }
    ensures told { IfOk result (λ accepted. IsReport kind.now.schema wanted path.now bytes.now accepted (O.contents out.old) (O.contents out.new)) }
{
    let mut accepted = true;
    let mut rest = bytes;
    let mut number = 0usize;
    while !rest.is_empty() {
        let label = label_of(alloc, path, number)?;
        match next_store(rest) {
            Ok((store, after)) => {
                let one = test_bytes(alloc, kind, wanted, label.as_str(), store, out)?;
                accepted = both(accepted, one);
                rest = after;
                number += 1;
            }
            Err(fault) => {
                let line = fault_line(alloc, kind, label.as_str(), &fault)?;
                put(out, line.as_bytes())?;
                return Ok(false);
            }
        }
    }
    Ok(accepted)
}
