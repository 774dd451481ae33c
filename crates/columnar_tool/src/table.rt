//! The table of a store of any type.
ghost use Rattle.std.specs.Prelude.{◌≡◌, ◌-◌, ◌<◌, ◌≤◌, ◌↔◌, length, slice_range, IsOk, IfOk, IfErr, OnOk, OnErr, string_bytes};
ghost use Rattle.std.specs.Io.KnownBytes.{Appends};
ghost use Rattle.columnar_bytes.specs.StructureFaults.{IsFirstBroken};
ghost use Rattle.columnar_core.specs.Bytes.{rounded};
ghost use Rattle.columnar_core.specs.Frame.{IsStore, end_of, slice_count, start_of};
ghost use Rattle.columnar_tool.specs.Tables.{IsRefusal, ShowsTable, rows_text, table_text};
ghost use Rattle.columnar_tool.specs.Told.{Began};

use crate::lines::{head, push_row, refused, tail};
use crate::told::{Failure, no_memory, no_output, print_with, put};
use columnar_bytes::indexed::validate_structure;
use columnar_core::fault::StoreFault;
use columnar_core::store::{round_up, word_in_bytes};
use columnar_core::writer::WriteBytes;
use std::alloc::{AllocError, Global};
use std::io::Write;

// Room for each line of the table, and for each number: nothing is allocated once the first line is printed.
const LINE: usize = 128;

const DIGITS: usize = 20;

/// Shows the table of a store of any type: a line for each slice, or the first rule of the structure that is broken.
/// Returns the exit status: 0 if the bytes frame slices and the table was printed, else 1.
pub fn show_table<O: WriteBytes, E: Write>(
    alloc: Global,
    bytes: &[u8],
    out: &mut O,
    err: &mut E,
) -> u8
    ensures { ShowsTable bytes.now result (O.contents out.old) (O.contents out.new) }
{
    match framed(bytes) {
        Ok(count) => match print_table(alloc, bytes, count, out) {
            Ok(()) => 0,
            Err(Failure::Memory) => no_memory(err),
            Err(_) => no_output(err),
        },
        Err(fault) => match refusal(alloc, &fault) {
            Ok(line) => print_with(out, line.as_str(), 1, err),
            Err(_) => no_memory(err),
        },
    }
}

// Returns the line of a broken rule.
fn refusal(alloc: Global, fault: &StoreFault) -> Result<String, AllocError>
    ensures { IfOk result (λ line. IsRefusal fault.now (string_bytes line)) }
{
    let why = format!(in alloc; "{fault}")?;
    let line = refused(alloc, fault.number(), fault.slice(), why.as_str())?;
    Ok(line)
}

// Returns the number of slices that the bytes frame.
//
// Errors: the first rule of the structure that they break.
fn framed(bytes: &[u8]) -> Result<usize, StoreFault>
    ensures exact { IsOk result ↔ IsStore bytes.now }
    ensures count { IfOk result (λ n. slice_count bytes.now ≡ n) }
    ensures fault { IfErr result (IsFirstBroken bytes.now (slice_count bytes.now)) }
{
    if bytes.is_empty() {
        return Err(StoreFault::Empty(0));
    }
    if bytes.len() < 8 {
        return Err(StoreFault::NotWords(0));
    }
    let count = (word_in_bytes(bytes, 0) as usize / 8).saturating_sub(1);
    validate_structure(bytes, count)?;
    Ok(count)
}

// Prints the table.
#[tactic(auto, using(crate::specs::TableLaws::began_none))]
fn print_table<O: WriteBytes>(
    alloc: Global,
    bytes: &[u8],
    count: usize,
    out: &mut O,
) -> Result<(), Failure>
    requires store { IsStore bytes.now }
    requires count { slice_count bytes.now ≡ count }
    ensures printed { OnOk result (Appends (O.contents out.old) (O.contents out.new) (table_text bytes.now)) }
    ensures begun { OnErr result (Began (O.contents out.old) (O.contents out.new) (table_text bytes.now)) }
{
    let first = head(alloc, bytes.len(), count)?;
    let last = tail(alloc, rest_of(bytes, count))?;
    let mut line = String::with_capacity(alloc, LINE)?;
    let mut digits = String::with_capacity(alloc, DIGITS)?;
    put(out, first.as_bytes())?;
    print_rows(bytes, count, &mut line, &mut digits, out)?;
    put(out, last.as_bytes())
}

// Returns the number of bytes after the last slice and its padding.
fn rest_of(bytes: &[u8], count: usize) -> usize
    requires store { IsStore bytes.now }
    requires count { slice_count bytes.now ≡ count }
    ensures { result ≡ length bytes.now - start_of bytes.now count }
{
    let start = round_up(word_in_bytes(bytes, count) as usize);
    bytes.len().saturating_sub(start)
}

// Returns where slice `i` begins, and where it ends.
fn slice_at(bytes: &[u8], i: usize) -> (usize, usize)
    requires store { IsStore bytes.now }
    requires in_range { i < slice_count bytes.now }
    ensures begin { result.0 ≡ start_of bytes.now i }
    ensures end { result.1 ≡ end_of bytes.now i }
{
    let begin = round_up(word_in_bytes(bytes, i) as usize);
    (begin, word_in_bytes(bytes, i + 1) as usize)
}

// Returns the bytes from the end of a slice to the next multiple of eight.
fn padding_at(bytes: &[u8], end: usize) -> &[u8]
    requires { rounded end ≤ length bytes.now }
    ensures { result.now ≡ slice_range bytes.now end (rounded end) }
{
    let next = round_up(end);
    &bytes[end..next]
}

// Prints the line of each slice. `line` and `digits` are overwritten.
fn print_rows<O: WriteBytes>(
    bytes: &[u8],
    count: usize,
    line: &mut String,
    digits: &mut String,
    out: &mut O,
) -> Result<(), Failure>
    requires store { IsStore bytes.now }
    requires count { slice_count bytes.now ≡ count }
    ensures printed { OnOk result (Appends (O.contents out.old) (O.contents out.new) (rows_text bytes.now count)) }
    ensures begun { OnErr result (Began (O.contents out.old) (O.contents out.new) (rows_text bytes.now count)) }
{
    for i in 0..count {
        let (begin, end) = slice_at(bytes, i);
        let padding = padding_at(bytes, end);
        line.clear();
        push_row(line, i, begin, end, padding, digits)?;
        put(out, line.as_bytes())?;
    }
    Ok(())
}
