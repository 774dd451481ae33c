//! Records of CSV, read from a store in place.
ghost use Rattle.std.specs.Prelude.{◌≡◌, [], ◌<◌, ◌≤◌, ◌^◌, length, map};
ghost use Rattle.std.specs.List.{flat_map, list_any};
ghost use Rattle.columnar_base.specs.Format.{Fits};
ghost use Rattle.columnar_core.specs.Store.{slices_in};
ghost use Rattle.columnar_schema.specs.Formats.{format_of};
ghost use Rattle.columnar_json.specs.Csv.{csv_of, doubled, field_csv, field_text, fields_of, is_special, later_fields};
ghost use Rattle.columnar_json.specs.Json.{commas, flaws_of};
ghost use Rattle.columnar_json.specs.Stored.{stored_row, stored_rows};
ghost use Rattle.columnar_json.specs.Written.{Wrote, WroteRow};

use crate::text::{push_byte, push_bytes};
use crate::unwritten::Unwritten;
use crate::value::write_value;
use columnar_core::store::DecodedStore;
use columnar_schema::judge::slice_count_of;
use columnar_syntax::schema::Schema;

// Returns whether the byte may stand between quotes only.
fn is_quoted(byte: u8) -> bool
    ensures { result ≡ is_special byte }
{
    byte == b'"' || byte == b',' || byte == b'\n' || byte == b'\r'
}

// Returns whether a value has such a byte.
fn has_quoted(value: &[u8]) -> bool
    ensures { result ≡ list_any is_special value.now }
{
    for byte in value {
        if is_quoted(*byte) {
            return true;
        }
    }
    false
}

// Appends a byte, a quote twice.
fn push_doubled(out: &mut Vec<u8>, byte: u8) -> Result<(), Unwritten>
    ensures { Wrote out.old.items out.new.items (doubled byte) [] result }
{
    if byte == b'"' {
        push_bytes(out, b"\"\"")
    } else {
        push_byte(out, byte)
    }
}

// Appends the bytes, each quote twice.
fn push_all_doubled(out: &mut Vec<u8>, bytes: &[u8]) -> Result<(), Unwritten>
    ensures { Wrote out.old.items out.new.items (flat_map doubled bytes.now) [] result }
{
    for byte in bytes {
        push_doubled(out, *byte)?;
    }
    Ok(())
}

/// Appends a value as a field.
pub fn push_field(out: &mut Vec<u8>, value: &[u8]) -> Result<(), Unwritten>
    ensures { Wrote out.old.items out.new.items (field_text value.now) [] result }
{
    if !has_quoted(value) {
        return push_bytes(out, value);
    }
    push_bytes(out, b"\"")?;
    push_all_doubled(out, value)?;
    push_bytes(out, b"\"")
}

/// Appends a row as a field. `value` is overwritten.
///
/// # Requires
/// The slices from `offset` on were accepted for this type, and have this row.
///
/// # Errors
/// The first flaw of the row, or `Memory`. `out` stays.
pub fn write_field(
    schema: &Schema,
    store: &DecodedStore<'_>,
    offset: usize,
    index: usize,
    value: &mut Vec<u8>,
    out: &mut Vec<u8>,
) -> Result<(), Unwritten>
    requires counted { (format_of schema.now).count ≤ 2 ^ 60 }
    requires fits { Fits (format_of schema.now) offset (slices_in store.now) }
    requires in_range { index < length (stored_rows schema.now (slices_in store.now) offset) }
    ensures { WroteRow out.old.items out.new.items (field_csv schema.now (stored_row schema.now (slices_in store.now) offset index)) (flaws_of schema.now (stored_row schema.now (slices_in store.now) offset index)) result }
{
    value.clear();
    write_value(schema, store, offset, index, value)?;
    push_field(out, value.as_slice())
}

// Appends the fields of a tuple from the second on, with commas between them.
fn write_later(
    schema: &Schema,
    store: &DecodedStore<'_>,
    offset: usize,
    index: usize,
    value: &mut Vec<u8>,
    out: &mut Vec<u8>,
) -> Result<(), Unwritten>
    requires counted { (format_of schema.now).count ≤ 2 ^ 60 }
    requires fits { Fits (format_of schema.now) offset (slices_in store.now) }
    requires in_range { index < length (stored_rows schema.now (slices_in store.now) offset) }
    ensures { WroteRow out.old.items out.new.items (commas (map (λ f. field_csv f.0 f.1) (later_fields schema.now (stored_row schema.now (slices_in store.now) offset index)))) (flaws_of schema.now (stored_row schema.now (slices_in store.now) offset index)) result }
{
    match schema {
        Schema::Beside(field, later) => {
            write_field(field, store, offset, index, value, out)?;
            push_bytes(out, b",")?;
            let after = offset + slice_count_of(field);
            write_later(later, store, after, index, value, out)
        }
        _ => write_field(schema, store, offset, index, value, out),
    }
}

// Appends the fields of a row, with commas between them.
fn write_fields(
    schema: &Schema,
    store: &DecodedStore<'_>,
    offset: usize,
    index: usize,
    value: &mut Vec<u8>,
    out: &mut Vec<u8>,
) -> Result<(), Unwritten>
    requires counted { (format_of schema.now).count ≤ 2 ^ 60 }
    requires fits { Fits (format_of schema.now) offset (slices_in store.now) }
    requires in_range { index < length (stored_rows schema.now (slices_in store.now) offset) }
    ensures { WroteRow out.old.items out.new.items (commas (map (λ f. field_csv f.0 f.1) (fields_of schema.now (stored_row schema.now (slices_in store.now) offset index)))) (flaws_of schema.now (stored_row schema.now (slices_in store.now) offset index)) result }
{
    match schema {
        Schema::Solo(_, field) => write_field(field, store, offset, index, value, out),
        Schema::Tuple(_, first, others) => {
            write_field(first, store, offset, index, value, out)?;
            push_bytes(out, b",")?;
            let after = offset + slice_count_of(first);
            write_later(others, store, after, index, value, out)
        }
        _ => write_field(schema, store, offset, index, value, out),
    }
}

/// Appends the record of row `index` of a store. The row is read in place. `value` is overwritten.
///
/// # Requires
/// The slices from `offset` on were accepted for this type, and have this row.
///
/// # Errors
/// The first flaw of the row, or `Memory`. `out` then begins as before.
pub fn write_record(
    schema: &Schema,
    store: &DecodedStore<'_>,
    offset: usize,
    index: usize,
    value: &mut Vec<u8>,
    out: &mut Vec<u8>,
) -> Result<(), Unwritten>
    requires counted { (format_of schema.now).count ≤ 2 ^ 60 }
    requires fits { Fits (format_of schema.now) offset (slices_in store.now) }
    requires in_range { index < length (stored_rows schema.now (slices_in store.now) offset) }
    ensures { WroteRow out.old.items out.new.items (csv_of schema.now (stored_row schema.now (slices_in store.now) offset index)) (flaws_of schema.now (stored_row schema.now (slices_in store.now) offset index)) result }
{
    let start = out.len();
    write_fields(schema, store, offset, index, value, out)?;
    if out.len() == start {
        push_bytes(out, b"\"\"")
    } else {
        Ok(())
    }
}
