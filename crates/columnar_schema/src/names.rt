//! Names of the slices of a type that is read at run time: the fields that lead to each slice, separated by points, as
//! `columnar_names` writes them.
ghost use Rattle.std.specs.Prelude.{◌^◌, ◌≤◌};
ghost use Rattle.columnar_schema.specs.Formats.{format_of};

use crate::bounds::bounds_slices;
use crate::judge::slice_count_of;
use columnar_strings::string::as_text;
use columnar_syntax::schema::{Bounds, Brackets, Leaf, Schema};
use std::alloc::AllocError;

// Appends a field to a path.
fn push_field(path: &mut String, field: &str) -> Result<(), AllocError> {
    if !path.is_empty() {
        path.push_str(".")?;
    }
    path.push_str(field)
}

// Appends the name of slice `index` of counted bits.
fn push_bits(path: &mut String, index: usize) -> Result<(), AllocError> {
    match index {
        0 => push_field(path, "counts"),
        1 => push_field(path, "values.values"),
        _ => push_field(path, "values.tail"),
    }
}

// Appends the name of slice `index` of bounds.
fn push_bounds(path: &mut String, bounds: Bounds, index: usize) -> Result<(), AllocError> {
    push_field(path, "bounds")?;
    match bounds {
        Bounds::Words => Ok(()),
        Bounds::Strides if index == 0 => push_field(path, "head"),
        Bounds::Strides => push_field(path, "bounds"),
        Bounds::Unaries => {
            push_field(path, "bits")?;
            push_bits(path, index)
        }
    }
}

// Appends the name of slice `index` of a column without parts.
fn push_leaf(path: &mut String, leaf: Leaf, index: usize) -> Result<(), AllocError> {
    match leaf {
        Leaf::U128 | Leaf::I128 | Leaf::Usize | Leaf::Isize | Leaf::F32 | Leaf::F64 | Leaf::Char =>
            { push_field(path, "values") }
        Leaf::Unit => push_field(path, "count"),
        Leaf::Bool if index == 0 => push_field(path, "values"),
        Leaf::Bool => push_field(path, "tail"),
        Leaf::Duration if index == 0 => push_field(path, "seconds"),
        Leaf::Duration => push_field(path, "nanoseconds"),
        Leaf::Text(bounds) if index < bounds_slices(bounds) => push_bounds(path, bounds, index),
        Leaf::Text(_) => push_field(path, "values"),
        _ => Ok(()),
    }
}

// Returns the name of a field of a tuple.
fn field_name(field: usize) -> &'static str {
    match field {
        0 => "0",
        1 => "1",
        2 => "2",
        3 => "3",
        4 => "4",
        5 => "5",
        6 => "6",
        7 => "7",
        8 => "8",
        _ => "9",
    }
}

// Appends the name of a field.
fn push_label(path: &mut String, name: &[u8]) -> Result<(), AllocError> {
    match as_text(name) {
        Ok(name) => push_field(path, name),
        Err(_) => Ok(()),
    }
}

// Tests whether this is one field, without a name.
fn has_number(schema: &Schema) -> bool {
    match schema {
        Schema::Beside(_, _) => false,
        Schema::Field(_, _) => false,
        Schema::Named(_) => false,
        Schema::Case(_, _, _) => false,
        _ => true,
    }
}

// Appends the number of a field without a name.
fn push_number(path: &mut String, schema: &Schema, field: usize) -> Result<(), AllocError> {
    if has_number(schema) {
        push_field(path, field_name(field))
    } else {
        Ok(())
    }
}

/// Appends the name of slice `index` of the type to the path of its column. `field` is the number of the field if the
/// type is one of the later fields of a tuple, and 0 otherwise. Names are for messages: no clause states them, and the
/// only error is an allocation failure.
///
/// # Requires
/// The type has at most 2^60 slices.
#[tactic(auto, using(crate::specs::CountLaws::tuple_count, crate::specs::CountLaws::beside_count, crate::specs::CountLaws::first_counted, crate::specs::CountLaws::others_counted, crate::specs::CountLaws::field_counted, crate::specs::CountLaws::later_counted, crate::specs::BankLaws::sum_count, crate::specs::BankLaws::cases_counted))]
#[cycle(names)]
pub fn push_name(
    schema: &Schema,
    index: usize,
    field: usize,
    path: &mut String,
) -> Result<(), AllocError>
    requires { (format_of schema.now).count ≤ 2 ^ 60 }
{
    if field > 0 {
        push_number(path, schema, field)?;
    }
    match schema {
        Schema::Simple(leaf) => push_leaf(path, *leaf, index),
        Schema::Optional(values) => {
            if index < 3 {
                push_field(path, "indexes")?;
                return push_bits(path, index);
            }
            push_field(path, "somes")?;
            push_name(values, index - 3, 0, path)
        }
        Schema::Fallible(values, errors) => {
            if index < 3 {
                push_field(path, "indexes")?;
                return push_bits(path, index);
            }
            let count = slice_count_of(values);
            if index - 3 < count {
                push_field(path, "oks")?;
                return push_name(values, index - 3, 0, path);
            }
            push_field(path, "errs")?;
            push_name(errors, index - 3 - count, 0, path)
        }
        Schema::Lists(bounds, values) => {
            let count = bounds_slices(*bounds);
            if index < count {
                return push_bounds(path, *bounds, index);
            }
            push_field(path, "values")?;
            push_name(values, index - count, 0, path)
        }
        Schema::Solo(_, only) => {
            push_number(path, only, 0)?;
            push_name(only, index, 0, path)
        }
        Schema::Tuple(_, first, others) => {
            let count = slice_count_of(first);
            if index < count {
                push_number(path, first, 0)?;
                return push_name(first, index, 0, path);
            }
            push_name(others, index - count, 1, path)
        }
        Schema::Beside(first, later) => {
            let count = slice_count_of(first);
            if index < count {
                return push_name(first, index, field, path);
            }
            push_name(later, index - count, field.saturating_add(1), path)
        }
        Schema::Field(name, part) => {
            push_label(path, name.as_slice())?;
            push_name(part, index, 0, path)
        }
        Schema::Array(_, values) => {
            if index == 0 {
                return push_bounds(path, Bounds::Words, 0);
            }
            push_field(path, "values")?;
            push_name(values, index - 1, 0, path)
        }
        Schema::Repeated(values) => {
            push_field(path, "inner")?;
            if index < 3 {
                push_field(path, "indexes")?;
                return push_bits(path, index);
            }
            push_field(path, "somes")?;
            push_name(values, index - 3, 0, path)
        }
        Schema::Recalled(values) => {
            push_field(path, "inner")?;
            if index < 3 {
                push_field(path, "indexes")?;
                return push_bits(path, index);
            }
            if index - 3 < slice_count_of(values) {
                push_field(path, "oks")?;
                return push_name(values, index - 3, 0, path);
            }
            push_field(path, "errs")
        }
        Schema::Sum(cases) => {
            let count = slice_count_of(cases);
            if index < count {
                return push_name(cases, index, 0, path);
            }
            push_field(path, "indexes")?;
            push_field(path, if index == count { "variant" } else { "offset" })
        }
        Schema::Named(name) => {
            push_label(path, name.as_slice())?;
            push_leaf(path, Leaf::Unit, index)
        }
        Schema::Case(name, brackets, part) => {
            push_label(path, name.as_slice())?;
            match brackets {
                Brackets::Curly => push_value(part, index, path),
                _ => push_name(part, index, 0, path),
            }
        }
    }
}

// Appends the name of slice `index` of a field without its own name.
#[cycle(names)]
fn push_unnamed(schema: &Schema, index: usize, path: &mut String) -> Result<(), AllocError>
    requires { (format_of schema.now).count ≤ 2 ^ 60 }
{
    match schema {
        Schema::Field(_, part) => push_name(part, index, 0, path),
        _ => push_name(schema, index, 0, path),
    }
}

// Appends the name of slice `index` of the fields of a variant from number `field` on.
#[cycle(names)]
fn push_fields(
    schema: &Schema,
    index: usize,
    field: usize,
    path: &mut String,
) -> Result<(), AllocError>
    requires { (format_of schema.now).count ≤ 2 ^ 60 }
{
    match schema {
        Schema::Beside(first, later) => {
            let count = slice_count_of(first);
            if index < count {
                push_field(path, field_name(field))?;
                return push_unnamed(first, index, path);
            }
            push_fields(later, index - count, field.saturating_add(1), path)
        }
        _ => {
            push_field(path, field_name(field))?;
            push_unnamed(schema, index, path)
        }
    }
}

// Appends the name of slice `index` of the fields of a variant, which have numbers as names if there are several.
#[cycle(names)]
fn push_value(schema: &Schema, index: usize, path: &mut String) -> Result<(), AllocError>
    requires { (format_of schema.now).count ≤ 2 ^ 60 }
{
    match schema {
        Schema::Tuple(_, first, others) => {
            let count = slice_count_of(first);
            if index < count {
                push_field(path, field_name(0))?;
                return push_unnamed(first, index, path);
            }
            push_fields(others, index - count, 1, path)
        }
        _ => push_unnamed(schema, index, path),
    }
}
