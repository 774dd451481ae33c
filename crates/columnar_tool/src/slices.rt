//! The slices of a type.
ghost use Rattle.std.specs.Prelude.{◌≡◌, ◌∷◌, [], ◌++◌, IfOk, OnOk, string_bytes};
ghost use Rattle.columnar_schema.specs.Formats.{bounds_format, format_of, leaf_format};
ghost use Rattle.columnar_tool.specs.Slices.{AreSlices, PrintsSlices, name_text, slice_line};

use crate::told::{no_memory, print};
use columnar_core::writer::WriteBytes;
use columnar_schema::typed::Type;
use columnar_syntax::schema::{Bounds, Leaf, Schema};
use std::alloc::{AllocError, Global};
use std::io::Write;

// Returns the element sizes of bounds.
fn bounds_sizes(bounds: Bounds) -> &'static [usize]
    ensures { result.now ≡ (bounds_format bounds).sizes }
{
    match bounds {
        Bounds::Words => &[8],
        Bounds::Strides => &[8, 8],
        Bounds::Unaries => &[8, 8, 8],
    }
}

// Returns the element sizes of a column without parts.
fn leaf_sizes(leaf: Leaf) -> &'static [usize]
    ensures { result.now ≡ (leaf_format leaf).sizes }
{
    match leaf {
        Leaf::U8 | Leaf::I8 => &[1],
        Leaf::U16 | Leaf::I16 => &[2],
        Leaf::U32 | Leaf::I32 | Leaf::F32 | Leaf::Char => &[4],
        Leaf::U128 | Leaf::I128 => &[16],
        Leaf::Bool => &[8, 8],
        Leaf::Duration => &[8, 4],
        Leaf::Text(Bounds::Words) => &[8, 1],
        Leaf::Text(Bounds::Strides) => &[8, 8, 1],
        Leaf::Text(Bounds::Unaries) => &[8, 8, 8, 1],
        _ => &[8],
    }
}

// Appends the element sizes of the variants of rows.
fn push_forms(sizes: &mut Vec<usize>) -> Result<(), AllocError>
    ensures { OnOk result (sizes.new.items ≡ sizes.old.items ++ (1 ∷ (8 ∷ []))) }
{
    sizes.extend_from_slice(&[1, 8])
}

// Appends the element size of each slice of a type.
fn push_sizes(schema: &Schema, sizes: &mut Vec<usize>) -> Result<(), AllocError>
    ensures { OnOk result (sizes.new.items ≡ sizes.old.items ++ (format_of schema.now).sizes) }
{
    match schema {
        Schema::Simple(leaf) => sizes.extend_from_slice(leaf_sizes(*leaf)),
        Schema::Optional(values) => {
            sizes.extend_from_slice(bounds_sizes(Bounds::Unaries))?;
            push_sizes(values, sizes)
        }
        Schema::Fallible(values, errors) => {
            sizes.extend_from_slice(bounds_sizes(Bounds::Unaries))?;
            push_sizes(values, sizes)?;
            push_sizes(errors, sizes)
        }
        Schema::Lists(bounds, values) => {
            sizes.extend_from_slice(bounds_sizes(*bounds))?;
            push_sizes(values, sizes)
        }
        Schema::Solo(_, field) => push_sizes(field, sizes),
        Schema::Field(_, part) => push_sizes(part, sizes),
        Schema::Case(_, _, part) => push_sizes(part, sizes),
        Schema::Named(_) => sizes.extend_from_slice(leaf_sizes(Leaf::Unit)),
        Schema::Sum(cases) => {
            push_sizes(cases, sizes)?;
            push_forms(sizes)
        }
        Schema::Tuple(_, first, others) => {
            push_sizes(first, sizes)?;
            push_sizes(others, sizes)
        }
        Schema::Beside(field, later) => {
            push_sizes(field, sizes)?;
            push_sizes(later, sizes)
        }
        Schema::Array(_, values) => {
            sizes.extend_from_slice(bounds_sizes(Bounds::Words))?;
            push_sizes(values, sizes)
        }
        Schema::Repeated(values) => {
            sizes.extend_from_slice(bounds_sizes(Bounds::Unaries))?;
            push_sizes(values, sizes)
        }
        Schema::Recalled(values) => {
            sizes.extend_from_slice(bounds_sizes(Bounds::Unaries))?;
            push_sizes(values, sizes)?;
            sizes.extend_from_slice(leaf_sizes(Leaf::U8))
        }
    }
}

// Returns a line for each slice of a type: its name, and the size of its elements.
fn slices_text(alloc: Global, kind: &Type) -> Result<String, AllocError>
    ensures { IfOk result (λ text. AreSlices 0 (format_of kind.now.schema).sizes (string_bytes text)) }
{
    let mut sizes = Vec::new(alloc);
    push_sizes(kind.schema(), &mut sizes)?;
    lines_of(alloc, kind, sizes.as_slice())
}

// Returns a line for each of these sizes.
fn lines_of(alloc: Global, kind: &Type, sizes: &[usize]) -> Result<String, AllocError>
    ensures { IfOk result (λ text. AreSlices 0 sizes.now (string_bytes text)) }
{
    let mut text = String::new(alloc);
    let mut name = String::new(alloc);
    for index in 0..sizes.len() {
        name.clear();
        kind.push_slice_name(index, &mut name)?;
        push_line(&mut text, index, name.as_str(), sizes[index])?;
    }
    Ok(text)
}

// Appends the line of a slice.
fn push_line(text: &mut String, index: usize, name: &str, size: usize) -> Result<(), AllocError>
    ensures { OnOk result (string_bytes text.new ≡ string_bytes text.old ++ slice_line index name.now size) }
{
    write!(text, "slice {index}")?;
    push_name(text, name)?;
    writeln!(text, ": {size}-byte elements")
}

/// Appends the name of a slice after its number.
pub fn push_name(line: &mut String, name: &str) -> Result<(), AllocError>
    ensures { OnOk result (string_bytes line.new ≡ string_bytes line.old ++ name_text name.now) }
{
    if name.is_empty() {
        Ok(())
    } else {
        write!(line, ", {name}")
    }
}

/// Prints a line for each slice of a type: its number and name, and the size of its elements. Returns the exit status 0,
/// or 1 if memory or the output fails.
pub fn print_slices<O: WriteBytes, E: Write>(
    alloc: Global,
    kind: &Type,
    out: &mut O,
    err: &mut E,
) -> u8
    ensures { PrintsSlices kind.now.schema result (O.contents out.old) (O.contents out.new) }
{
    match slices_text(alloc, kind) {
        Ok(text) => print(out, text.as_str(), err),
        Err(_) => no_memory(err),
    }
}
