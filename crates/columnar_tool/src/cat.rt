//! Rows of a store as lines.
ghost use Rattle.std.specs.Prelude.{◌≡◌, ◌≤◌, [], length, map, slice_range, IfOk, IfErr, OnOk};
ghost use Rattle.std.specs.Io.KnownBytes.{Appends};
ghost use Rattle.columnar_bytes.specs.Accepted.{Accepts};
ghost use Rattle.columnar_schema.specs.Formats.{format_of};
ghost use Rattle.columnar_json.specs.Json.{row_at};
ghost use Rattle.columnar_json.specs.Pieces.{Appended};
ghost use Rattle.columnar_json.specs.Refusals.{all_rows};
ghost use Rattle.columnar_json.specs.Views.{chosen as chosen_names, head_by, head_in, names_line};
ghost use Rattle.columnar_json.specs.declared.view.Form.TheVariants.{Csv};
ghost use Rattle.columnar_tool.specs.Lines.{HasNoLine, Prints, Stops, StopsAtRow, StopsBetween, line_of, lines_of, rows_in};
ghost use Rattle.columnar_tool.specs.Spans.{IsWithin, chosen};

use crate::range::Span;
use crate::told::{Failure, put};
use columnar_core::fault::StoreFault;
use columnar_core::writer::WriteBytes;
use columnar_json::names::{field_names, push_head};
use columnar_json::rows::Rows;
use columnar_json::unwritten::Unwritten;
use columnar_json::view::{Form, View};
use columnar_schema::typed::Type;
use std::alloc::Global;

/// Why not all rows were printed.
#[derive(Clone, Copy, PartialEq, Drop)]
pub enum Stop {
    /// The program failed.
    Failed(Failure),
    /// The store breaks this rule. No row was printed.
    Refused(StoreFault),
    /// The range is not within this number of rows. No row was printed.
    Beyond(usize),
    /// The row with this index has no text. The rows of the range before it were printed.
    Row(usize, Unwritten),
}

/// Prints the line before the rows: the names of the fields of a struct, for CSV.
///
/// # Errors
/// A failure.
pub fn print_head<O: WriteBytes>(
    alloc: Global,
    kind: &Type,
    view: &View<'_>,
    out: &mut O,
) -> Result<(), Failure>
    ensures printed { OnOk result (Prints (O.contents out.old) (O.contents out.new) (head_by view.now kind.now.schema)) }
{
    let line = head_line(alloc, kind, view)?;
    match put(out, line.as_slice()) {
        Ok(()) => Ok(()),
        Err(failure) => Err(failure),
    }
}

// Returns that line, or nothing.
fn head_line(alloc: Global, kind: &Type, view: &View) -> Result<Vec<u8>, Failure>
    ensures { IfOk result (λ line. Appended [] line.items (head_by view.now kind.now.schema)) }
{
    let mut line = Vec::new(alloc);
    match push_line_before(alloc, kind, view, &mut line) {
        Ok(()) => Ok(line),
        Err(_) => Err(Failure::Memory),
    }
}

// Appends that line, if there is one.
fn push_line_before(
    alloc: Global,
    kind: &Type,
    view: &View<'_>,
    line: &mut Vec<u8>,
) -> Result<(), Unwritten>
    ensures { OnOk result (Appended line.old.items line.new.items (head_by view.now kind.now.schema)) }
{
    match view.form {
        Form::Json => Ok(()),
        Form::Csv => push_all_names(alloc, kind, view, line),
    }
}

// Appends the names of the fields of the view as a line, if there are any.
fn push_all_names(
    alloc: Global,
    kind: &Type,
    view: &View<'_>,
    line: &mut Vec<u8>,
) -> Result<(), Unwritten>
    ensures { OnOk result (Appended line.old.items line.new.items (head_in Csv (chosen_names view.now) kind.now.schema)) }
{
    match view.fields {
        Some(names) => push_names(names, line),
        None => {
            let names = field_names(alloc, kind)?;
            push_names(names.as_slice(), line)
        }
    }
}

// Appends names as a line, if there are any.
fn push_names(names: &[&[u8]], head: &mut Vec<u8>) -> Result<(), Unwritten>
    ensures { OnOk result (Appended head.old.items head.new.items (names_line (map (λ n. n.now) names.now))) }
{
    if names.is_empty() {
        return Ok(());
    }
    push_head(names, head)?;
    match head.push(b'\n') {
        Ok(()) => Ok(()),
        Err(_) => Err(Unwritten::Memory),
    }
}

/// Prints each row of the range as a line.
///
/// # Errors
/// The first rule that the bytes break; the number of rows if the range is not within them; the first row of the range
/// without a text; or a failure.
pub fn cat_bytes<O: WriteBytes>(
    alloc: Global,
    kind: &Type,
    view: &View<'_>,
    span: Span,
    bytes: &[u8],
    out: &mut O,
) -> Result<(), Stop>
    ensures accepted { OnOk result (Accepts (format_of kind.now.schema) bytes.now) }
    ensures within { OnOk result (IsWithin span (length (rows_in kind.now.schema bytes.now))) }
    ensures printed { OnOk result (Prints (O.contents out.old) (O.contents out.new) (lines_of view.now kind.now.schema (chosen span (rows_in kind.now.schema bytes.now)))) }
    ensures stopped { IfErr result (Stops view.now kind.now.schema span bytes.now (O.contents out.old) (O.contents out.new)) }
{
    match Rows::open(kind, bytes) {
        Ok(rows) => print_span(alloc, &rows, view, span, out),
        Err(fault) => Err(Stop::Refused(fault)),
    }
}

// Prints the rows of the range of an accepted store.
fn print_span<O: WriteBytes>(
    alloc: Global,
    rows: &Rows<'_>,
    view: &View<'_>,
    span: Span,
    out: &mut O,
) -> Result<(), Stop>
    ensures within { OnOk result (IsWithin span (length (all_rows rows.now))) }
    ensures printed { OnOk result (Prints (O.contents out.old) (O.contents out.new) (lines_of view.now rows.now.schema.now (chosen span (all_rows rows.now)))) }
    ensures stopped { IfErr result (StopsAtRow view.now rows.now.schema.now span (all_rows rows.now) (O.contents out.old) (O.contents out.new)) }
{
    match span.end(rows.len()) {
        Some(to) => print_rows(alloc, rows, view, span.from, to, out),
        None => Err(Stop::Beyond(rows.len())),
    }
}

// Prints the rows from one up to another.
fn print_rows<O: WriteBytes>(
    alloc: Global,
    rows: &Rows<'_>,
    view: &View<'_>,
    from: usize,
    to: usize,
    out: &mut O,
) -> Result<(), Stop>
    requires ordered { from ≤ to }
    requires within { to ≤ length (all_rows rows.now) }
    ensures printed { OnOk result (Prints (O.contents out.old) (O.contents out.new) (lines_of view.now rows.now.schema.now (slice_range (all_rows rows.now) from to))) }
    ensures stopped { IfErr result (StopsBetween view.now rows.now.schema.now (all_rows rows.now) from to (O.contents out.old) (O.contents out.new)) }
{
    let mut line = Vec::new(alloc);
    let mut value = Vec::new(alloc);
    for index in from..to {
        line.clear();
        push_line(rows, view, index, &mut value, &mut line)?;
        print(out, line.as_slice())?;
    }
    Ok(())
}

// Appends row `index` as a line. `value` is overwritten.
fn push_line(
    rows: &Rows<'_>,
    view: &View<'_>,
    index: usize,
    value: &mut Vec<u8>,
    line: &mut Vec<u8>,
) -> Result<(), Stop>
    ensures ok { OnOk result (Appended line.old.items line.new.items (line_of view.now rows.now.schema.now (row_at (all_rows rows.now) index))) }
    ensures stopped { IfErr result (HasNoLine view.now rows.now.schema.now (all_rows rows.now) index) }
{
    match rows.write_view(view, index, value, line) {
        Ok(()) => {}
        Err(Unwritten::Memory) => return Err(Stop::Failed(Failure::Memory)),
        Err(why) => return Err(Stop::Row(index, why)),
    }
    match line.push(b'\n') {
        Ok(()) => Ok(()),
        Err(_) => Err(Stop::Failed(Failure::Memory)),
    }
}

// Writes all bytes.
fn print<O: WriteBytes>(out: &mut O, bytes: &[u8]) -> Result<(), Stop>
    ensures printed { OnOk result (Appends (O.contents out.old) (O.contents out.new) bytes.now) }
    ensures failed { IfErr result (λ e. e ≡ Stop.Failed Failure.Output) }
{
    match put(out, bytes) {
        Ok(()) => Ok(()),
        Err(failure) => Err(Stop::Failed(failure)),
    }
}
