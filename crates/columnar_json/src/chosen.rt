//! The chosen fields of a row, read from a store in place.
ghost use Rattle.std.specs.Prelude.{◌≡◌, ◌∷◌, [], ◌<◌, ◌≤◌, ◌^◌, length, map, codes};
ghost use Rattle.std.specs.List.{flat_map};
ghost use Rattle.columnar_base.specs.Format.{Fits};
ghost use Rattle.columnar_core.specs.Store.{slices_in};
ghost use Rattle.columnar_schema.specs.Formats.{format_of};
ghost use Rattle.columnar_json.specs.Csv.{after_commas, fields_of, later_fields, shown};
ghost use Rattle.columnar_json.specs.Json.{between, flaws_of};
ghost use Rattle.columnar_json.specs.Stored.{stored_row, stored_rows};
ghost use Rattle.columnar_json.specs.Views.{field_in, fields_in, is_named, of_named};
ghost use Rattle.columnar_json.specs.Written.{WroteRow};
ghost use Rattle.columnar_json.specs.declared.view.Form.TheVariants.{Csv, Json};

use crate::fields::write_field;
use crate::row::write_row;
use crate::text::push_bytes;
use crate::unwritten::Unwritten;
use crate::view::Form;
use columnar_core::store::DecodedStore;
use columnar_schema::judge::slice_count_of;
use columnar_syntax::schema::Schema;

// Returns whether a field has this name.
fn has_name(field: &Schema, name: &[u8]) -> bool
    ensures { result ≡ is_named name.now field.now }
{
    match field {
        Schema::Field(own, _) => own.as_slice() == name,
        _ => false,
    }
}

// Appends a field. `value` is overwritten.
fn write_part(
    form: Form,
    schema: &Schema,
    store: &DecodedStore<'_>,
    offset: usize,
    index: usize,
    value: &mut Vec<u8>,
    out: &mut Vec<u8>,
) -> Result<(), Unwritten>
    requires counted { (format_of schema.now).count ≤ 2 ^ 60 }
    requires fits { Fits (format_of schema.now) offset (slices_in store.now) }
    requires in_range { index < length (stored_rows schema.now (slices_in store.now) offset) }
    ensures { WroteRow out.old.items out.new.items (field_in form schema.now (stored_row schema.now (slices_in store.now) offset index)) (flaws_of schema.now (stored_row schema.now (slices_in store.now) offset index)) result }
{
    match form {
        Form::Json => write_row(schema, store, offset, index, out),
        Form::Csv => write_field(schema, store, offset, index, value, out),
    }
}

// Appends the field with this name among those of a tuple from the second on.
fn write_named(
    form: Form,
    name: &[u8],
    schema: &Schema,
    store: &DecodedStore<'_>,
    offset: usize,
    index: usize,
    value: &mut Vec<u8>,
    out: &mut Vec<u8>,
) -> Result<(), Unwritten>
    requires counted { (format_of schema.now).count ≤ 2 ^ 60 }
    requires fits { Fits (format_of schema.now) offset (slices_in store.now) }
    requires in_range { index < length (stored_rows schema.now (slices_in store.now) offset) }
    ensures { WroteRow out.old.items out.new.items (of_named (field_in form) name.now (later_fields schema.now (stored_row schema.now (slices_in store.now) offset index))) (of_named flaws_of name.now (later_fields schema.now (stored_row schema.now (slices_in store.now) offset index))) result }
{
    match schema {
        Schema::Beside(field, later) => {
            if has_name(field, name) {
                write_part(form, field, store, offset, index, value, out)
            } else {
                let after = offset + slice_count_of(field);
                write_named(form, name, later, store, after, index, value, out)
            }
        }
        _ => write_if_named(form, name, schema, store, offset, index, value, out),
    }
}

// Appends a field if it has this name.
fn write_if_named(
    form: Form,
    name: &[u8],
    schema: &Schema,
    store: &DecodedStore<'_>,
    offset: usize,
    index: usize,
    value: &mut Vec<u8>,
    out: &mut Vec<u8>,
) -> Result<(), Unwritten>
    requires counted { (format_of schema.now).count ≤ 2 ^ 60 }
    requires fits { Fits (format_of schema.now) offset (slices_in store.now) }
    requires in_range { index < length (stored_rows schema.now (slices_in store.now) offset) }
    ensures { WroteRow out.old.items out.new.items (of_named (field_in form) name.now ((schema.now, stored_row schema.now (slices_in store.now) offset index) ∷ [])) (of_named flaws_of name.now ((schema.now, stored_row schema.now (slices_in store.now) offset index) ∷ [])) result }
{
    if has_name(schema, name) {
        write_part(form, schema, store, offset, index, value, out)
    } else {
        push_bytes(out, b"")
    }
}

// Appends the field of a row with this name; nothing if there is none.
fn write_chosen(
    form: Form,
    name: &[u8],
    schema: &Schema,
    store: &DecodedStore<'_>,
    offset: usize,
    index: usize,
    value: &mut Vec<u8>,
    out: &mut Vec<u8>,
) -> Result<(), Unwritten>
    requires counted { (format_of schema.now).count ≤ 2 ^ 60 }
    requires fits { Fits (format_of schema.now) offset (slices_in store.now) }
    requires in_range { index < length (stored_rows schema.now (slices_in store.now) offset) }
    ensures { WroteRow out.old.items out.new.items (of_named (field_in form) name.now (fields_of schema.now (stored_row schema.now (slices_in store.now) offset index))) (of_named flaws_of name.now (fields_of schema.now (stored_row schema.now (slices_in store.now) offset index))) result }
{
    match schema {
        Schema::Solo(_, field) => write_if_named(
            form, name, field, store, offset, index, value, out,
        ),
        Schema::Tuple(_, first, others) => {
            if has_name(first, name) {
                write_part(form, first, store, offset, index, value, out)
            } else {
                let after = offset + slice_count_of(first);
                write_named(form, name, others, store, after, index, value, out)
            }
        }
        _ => write_if_named(form, name, schema, store, offset, index, value, out),
    }
}

// Appends the fields of a row with these names, each after a comma.
fn write_others(
    form: Form,
    names: &[&[u8]],
    schema: &Schema,
    store: &DecodedStore<'_>,
    offset: usize,
    index: usize,
    value: &mut Vec<u8>,
    out: &mut Vec<u8>,
) -> Result<(), Unwritten>
    requires counted { (format_of schema.now).count ≤ 2 ^ 60 }
    requires fits { Fits (format_of schema.now) offset (slices_in store.now) }
    requires in_range { index < length (stored_rows schema.now (slices_in store.now) offset) }
    ensures { WroteRow out.old.items out.new.items (after_commas (map (λ n. of_named (field_in form) n (fields_of schema.now (stored_row schema.now (slices_in store.now) offset index))) (map (λ n. n.now) names.now))) (flat_map (λ n. of_named flaws_of n (fields_of schema.now (stored_row schema.now (slices_in store.now) offset index))) (map (λ n. n.now) names.now)) result }
{
    match names.split_first() {
        None => push_bytes(out, b""),
        Some((name, rest)) => {
            push_bytes(out, b",")?;
            write_chosen(form, name, schema, store, offset, index, value, out)?;
            write_others(form, rest, schema, store, offset, index, value, out)
        }
    }
}

// Appends the fields of a row with these names, with commas between them.
fn write_all_chosen(
    form: Form,
    names: &[&[u8]],
    schema: &Schema,
    store: &DecodedStore<'_>,
    offset: usize,
    index: usize,
    value: &mut Vec<u8>,
    out: &mut Vec<u8>,
) -> Result<(), Unwritten>
    requires counted { (format_of schema.now).count ≤ 2 ^ 60 }
    requires fits { Fits (format_of schema.now) offset (slices_in store.now) }
    requires in_range { index < length (stored_rows schema.now (slices_in store.now) offset) }
    ensures { WroteRow out.old.items out.new.items (fields_in form (map (λ n. n.now) names.now) schema.now (stored_row schema.now (slices_in store.now) offset index)) (flat_map (λ n. of_named flaws_of n (fields_of schema.now (stored_row schema.now (slices_in store.now) offset index))) (map (λ n. n.now) names.now)) result }
{
    match names.split_first() {
        None => push_bytes(out, b""),
        Some((name, rest)) => {
            write_chosen(form, name, schema, store, offset, index, value, out)?;
            write_others(form, rest, schema, store, offset, index, value, out)
        }
    }
}

/// Appends an object with the fields of a row that have these names. The row is read in place; `value` is overwritten.
///
/// # Requires
/// The slices from `offset` on were accepted for this type, and have this row.
///
/// # Errors
/// The first flaw of the fields, or `Memory`. `out` then begins as before.
pub fn write_object(
    names: &[&[u8]],
    schema: &Schema,
    store: &DecodedStore<'_>,
    offset: usize,
    index: usize,
    value: &mut Vec<u8>,
    out: &mut Vec<u8>,
) -> Result<(), Unwritten>
    requires counted { (format_of schema.now).count ≤ 2 ^ 60 }
    requires fits { Fits (format_of schema.now) offset (slices_in store.now) }
    requires in_range { index < length (stored_rows schema.now (slices_in store.now) offset) }
    ensures { WroteRow out.old.items out.new.items (between (codes "{") (codes "}") (fields_in Json (map (λ n. n.now) names.now) schema.now (stored_row schema.now (slices_in store.now) offset index))) (flat_map (λ n. of_named flaws_of n (fields_of schema.now (stored_row schema.now (slices_in store.now) offset index))) (map (λ n. n.now) names.now)) result }
{
    push_bytes(out, b"{")?;
    write_all_chosen(Form::Json, names, schema, store, offset, index, value, out)?;
    push_bytes(out, b"}")
}

/// Appends a record of the fields of a row that have these names. The row is read in place; `value` is overwritten.
///
/// # Requires
/// The slices from `offset` on were accepted for this type, and have this row.
///
/// # Errors
/// The first flaw of the fields, or `Memory`. `out` then begins as before.
pub fn write_chosen_record(
    names: &[&[u8]],
    schema: &Schema,
    store: &DecodedStore<'_>,
    offset: usize,
    index: usize,
    value: &mut Vec<u8>,
    out: &mut Vec<u8>,
) -> Result<(), Unwritten>
    requires counted { (format_of schema.now).count ≤ 2 ^ 60 }
    requires fits { Fits (format_of schema.now) offset (slices_in store.now) }
    requires in_range { index < length (stored_rows schema.now (slices_in store.now) offset) }
    ensures { WroteRow out.old.items out.new.items (shown (fields_in Csv (map (λ n. n.now) names.now) schema.now (stored_row schema.now (slices_in store.now) offset index))) (flat_map (λ n. of_named flaws_of n (fields_of schema.now (stored_row schema.now (slices_in store.now) offset index))) (map (λ n. n.now) names.now)) result }
{
    let start = out.len();
    write_all_chosen(Form::Csv, names, schema, store, offset, index, value, out)?;
    if out.len() == start {
        push_bytes(out, b"\"\"")
    } else {
        Ok(())
    }
}
