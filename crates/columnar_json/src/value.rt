//! Values of CSV, read from a store in place.
ghost use Rattle.std.specs.Prelude.{◌<◌, ◌≤◌, ◌^◌, Some, length};
ghost use Rattle.columnar_base.specs.Format.{Fits};
ghost use Rattle.columnar_core.specs.Store.{slices_in};
ghost use Rattle.columnar_schema.specs.Formats.{bank_of, format_of};
ghost use Rattle.columnar_json.specs.Csv.{csv_as, csv_value};
ghost use Rattle.columnar_json.specs.Json.{flaws_as, flaws_of, row_at};
ghost use Rattle.columnar_json.specs.Stored.{stored_row, stored_rows, stored_values};
ghost use Rattle.columnar_json.specs.Written.{WroteRow};

use crate::leaf::write_plain;
use crate::row::{bit_at, distance_at, variant_at, write_row};
use crate::text::push_bytes;
use crate::unwritten::Unwritten;
use columnar_core::store::DecodedStore;
use columnar_schema::judge::slice_count_of;
use columnar_syntax::schema::{Brackets, Schema};

// Appends value `index` of a variant.
#[cycle(values)]
fn write_case(
    cases: &Schema,
    store: &DecodedStore<'_>,
    offset: usize,
    variant: usize,
    index: usize,
    out: &mut Vec<u8>,
) -> Result<(), Unwritten>
    requires counted { (format_of cases.now).count ≤ 2 ^ 60 }
    requires fits { Fits (format_of cases.now) offset (slices_in store.now) }
    requires known { variant < (bank_of cases.now).size }
    requires in_range { index < length (stored_values cases.now (slices_in store.now) offset variant) }
    ensures { WroteRow out.old.items out.new.items (csv_as (Some variant) cases.now (row_at (stored_values cases.now (slices_in store.now) offset variant) index)) (flaws_as (Some variant) cases.now (row_at (stored_values cases.now (slices_in store.now) offset variant) index)) result }
{
    match cases {
        Schema::Beside(case, later) => {
            if variant == 0 {
                write_value(case, store, offset, index, out)
            } else {
                let after = offset + slice_count_of(case);
                write_case(later, store, after, variant - 1, index, out)
            }
        }
        _ => write_value(cases, store, offset, index, out),
    }
}

/// Appends row `index` of a store as a value of CSV. The row is read in place.
///
/// # Requires
/// The slices from `offset` on were accepted for this type, and have this row.
///
/// # Errors
/// The first flaw of the row, or `Memory`. `out` then begins as before.
#[cycle(values)]
pub fn write_value(
    schema: &Schema,
    store: &DecodedStore<'_>,
    offset: usize,
    index: usize,
    out: &mut Vec<u8>,
) -> Result<(), Unwritten>
    requires counted { (format_of schema.now).count ≤ 2 ^ 60 }
    requires fits { Fits (format_of schema.now) offset (slices_in store.now) }
    requires in_range { index < length (stored_rows schema.now (slices_in store.now) offset) }
    ensures { WroteRow out.old.items out.new.items (csv_value schema.now (stored_row schema.now (slices_in store.now) offset index)) (flaws_of schema.now (stored_row schema.now (slices_in store.now) offset index)) result }
{
    match schema {
        Schema::Simple(leaf) => write_plain(*leaf, store, offset, index, out),
        Schema::Optional(values) => {
            let (present, at) = bit_at(store, offset, index);
            if present {
                write_value(values, store, offset + 3, at, out)
            } else {
                push_bytes(out, b"")
            }
        }
        Schema::Solo(brackets, field) => match brackets {
            Brackets::Bare => write_value(field, store, offset, index, out),
            Brackets::Square | Brackets::Curly => write_row(schema, store, offset, index, out),
        },
        Schema::Field(_, part) => write_value(part, store, offset, index, out),
        Schema::Repeated(values) => {
            let (is_value, before) = bit_at(store, offset, index);
            if is_value {
                write_value(values, store, offset + 3, before, out)
            } else {
                write_value(values, store, offset + 3, before - 1, out)
            }
        }
        Schema::Recalled(values) => {
            let (is_new, before) = bit_at(store, offset, index);
            if is_new {
                write_value(values, store, offset + 3, before, out)
            } else {
                let after = offset + 3 + slice_count_of(values);
                let back = distance_at(store, after, index - before);
                write_value(values, store, offset + 3, before - 1 - back, out)
            }
        }
        Schema::Sum(cases) => {
            let (variant, at) = variant_at(store, offset + slice_count_of(cases), index);
            write_case(cases, store, offset, variant, at, out)
        }
        Schema::Named(name) => push_bytes(out, name.as_slice()),
        _ => write_row(schema, store, offset, index, out),
    }
}
